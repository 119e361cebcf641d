// The clip program: it reads standard input line by line and prints the answer to each. It ends at the input's end, which a read that fails
// counts as, and at a write that fails, with that write's error.
#![tactic(auto)]

ghost use Rattle.std.specs.Prelude.{◌≡◌, OnOk};
ghost use Rattle.program.specs.Taken.{at_hand};
ghost use Rattle.clip.specs.Printed.{PrintsBehind, PrintsAll};

use plane::rect::Rect64;
use program::answers::{answer_first, answer_line};
use program::input::Input;
use program::visitor::Visitor;
use std::io;
use std::io::{Read, Write};

// The answers to the lines behind line 1, each printed.
#[derive(Drop)]
struct Printer<'a, W> {
    rect: Rect64,
    output: &'a mut W,
    out: [u8; 12288],
}

impl<W: Write> Visitor for Printer<'_, W> {
    ghost use Rattle.clip.specs.Printed.{PrintsLine};

    ghost gives = { λ s n l r t. OnOk r ((t.output.ghost_name ≡ s.output.ghost_name) × PrintsLine s.rect t.rect (W.contents s.output.now) (W.contents t.output.now) n l) };

    fn visit(&mut self, number: i64, line: &[u8]) -> io::Result<()> {
        let n = answer_line(self.rect, number, line, &mut self.out);
        self.output.write_all(&self.out[..n])
    }
}

// The lines behind line 1.
fn print_answers<R: Read, W: Write>(
    input: &mut R,
    output: &mut W,
    lines: Input<65536>,
    rect: Rect64,
) -> io::Result<()>
    ensures { OnOk result (PrintsBehind rect (at_hand lines) (R.remaining input.old) (R.remaining input.new) (W.contents output.old) (W.contents output.new)) }
{
    let out = [0u8; 12288];
    let mut printer = Printer { rect, output, out };
    lines.visit_lines([0; 4097], input, 2, &mut printer)
}

// All lines.
fn print_all<R: Read, W: Write>(input: &mut R, output: &mut W) -> io::Result<()>
    ensures { OnOk result (PrintsAll (R.remaining input.old) (R.remaining input.new) (W.contents output.old) (W.contents output.new)) }
{
    let mut lines = Input::<65536>::new();
    let mut line = [0u8; 4097];
    let mut out = [0u8; 128];
    let first = lines.take_line(input, &mut line).unwrap_or_default();
    let start = answer_first(&line[..first.count], &mut out);
    output.write_all(&out[..start.count])?;
    match start.rect {
        Ok(rect) if first.ended => print_answers(input, output, lines, rect),
        _ => Ok(()),
    }
}

fn main(rt: HostRuntime) -> io::Result<()> {
    print_all(&mut rt.stdin(), &mut rt.stdout())
}
