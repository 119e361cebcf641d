// What the lines of the stored file do, one behind another: a rectangle, a drawing, or a line of a stored answer.
ghost use Rattle.std.specs.Prelude.{◌≤◌};

use arrayvec::ArrayVec;
use plane::rect::Rect64;
use program::answers::answer_line;
use program::visitor::Visitor;
use std::io;
use std::io::{Print, Write};
use text::comparing::same_bytes;
use text::reading::{Request, read_line};

// Where differences are printed; the rectangle; the line of the last drawing, which is not yet counted, with its answer, as many bytes of the list as
// it has, and what is stored of that; drawings and equal answers so far. The answer is in no `ArrayVec`, since `answer_line` takes a whole list.
#[derive(Drop)]
pub(crate) struct Replay<'a, P> {
    rt: &'a P,
    rect: Rect64,
    drawing: Option<i64>,
    answer: [u8; 12288],
    size: usize,
    stored: ArrayVec<u8, 12288>,
    pub drawings: u64,
    pub same: u64,
    ghost fits: { size ≤ 12288 },
}

impl<'a, P: Print> Replay<'a, P> {
    // No line read: an empty rectangle, and no drawing.
    pub(crate) fn new(rt: &'a P) -> Replay<'a, P> {
        Replay {
            rt,
            rect: Rect64::new(0, 0, 0, 0),
            drawing: None,
            answer: [0; 12288],
            size: 0,
            stored: ArrayVec::new(),
            drawings: 0,
            same: 0,
        }
    }

    // The last drawing is counted; one whose answer is not the stored one is printed.
    pub(crate) fn settle(&mut self) -> io::Result<()> {
        let Some(line) = self.drawing.take() else {
            return Ok(());
        };
        let equal = same_bytes(&self.answer[..self.size], self.stored.as_slice());
        self.drawings = self.drawings.wrapping_add(1);
        self.same = self.same.wrapping_add(u64::from(equal));
        if equal {
            return Ok(());
        }
        println!(self.rt; "line {line} differs")
    }

    // A rectangle, or a drawing, which is answered.
    fn ask(&mut self, number: i64, line: &[u8]) -> io::Result<()> {
        if let Some(Request::Rectangle(rect)) = read_line(true, line, &mut [0]) {
            self.rect = rect;
            return Ok(());
        }
        let size = answer_line(self.rect, number, line, &mut self.answer);
        self.size = size;
        self.stored.clear();
        self.drawing = Some(number);
        Ok(())
    }
}

impl<P: Print> Visitor for Replay<'_, P> {
    // Left open: the program has no contract.
    ghost gives = { λ _ _ _ _ _. Unit {0} };

    // A comment, behind `#`; a line of the stored answer, behind `=`, of which `write` takes as much as there is room for; or a rectangle or a
    // drawing.
    fn visit(&mut self, number: i64, line: &[u8]) -> io::Result<()> {
        match line.split_first() {
            None | Some((b'#', _)) => {}
            Some((b'=', kept)) => {
                self.stored.write(kept)?;
                self.stored.write(b"\n")?;
            }
            Some(_) => {
                self.settle()?;
                self.ask(number, line)?;
            }
        }
        Ok(())
    }
}
