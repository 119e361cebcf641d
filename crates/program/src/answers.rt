// What is printed for a line, written to the front of a list of bytes that has room for every answer.
ghost use Rattle.std.specs.Prelude.{◌≡◌, true, false, ◌+◌, ◌≤◌, length, take, pos, Err};
ghost use Rattle.program.specs.Printed.{Gives, Added, Printable, Prints, numbers_answer};
ghost use Rattle.program.specs.Answered.{First, path_answer, answer};
ghost use Rattle.program.specs.Exact.{ExactUnlessRefused, PrintsExact};
ghost use Rattle.text.specs.Asked.{request};
ghost use Rattle.text.specs.Reading.{rectangle};
ghost use Rattle.text.specs.Written.{coordinates_line};
ghost use Rattle.text.specs.Printing.{refusal_line};
ghost use Rattle.entry.specs.Answers.{number};
ghost use Rattle.handheld.specs.Drawn.{clipped};

use entry::answer::Refusal;
use handheld::clip;
use plane::rect::Rect64;
use text::reading::{Request, read_line};
use text::writing::{write_path, write_rectangle, write_refusal};

// What line 1 gives: the rectangle of the lines that follow, or a refusal; and how many bytes are written.
#[derive(Clone, Copy)]
pub struct Start {
    pub rect: Result<Rect64, Refusal>,
    pub count: usize,
}

// `X`, the line and the refusal's number.
fn write_why(line: i64, why: Refusal, out: &mut [u8]) -> usize
    requires { 46 ≤ length out.old }
    ensures { Gives (refusal_line line (number why)) out.old result out.new }
{
    write_refusal(line, i64::from(u32::from(why)), out).unwrap()
}

// Line 1 refused.
fn refuse_first(why: Refusal, out: &mut [u8; 128]) -> Start
    ensures rect { result.rect ≡ Err why }
    ensures gives { Gives (refusal_line (pos 1) (number why)) out.old result.count out.new }
{
    let count = write_why(1, why, out);
    Start {
        rect: Err(why),
        count,
    }
}

fn answer_rectangle(rect: Rect64, out: &mut [u8; 128]) -> Start
    ensures { First (rectangle rect) out.old result out.new }
{
    if rect.in_limit() {
        let count = write_rectangle(rect, out).unwrap();
        return Start {
            rect: Ok(rect),
            count,
        };
    }
    refuse_first(Refusal::RectangleOutside, out)
}

// Line 1.
pub fn answer_first(bytes: &[u8], out: &mut [u8; 128]) -> Start
    ensures { First (request true bytes.now) out.old result out.new }
{
    let mut numbers = [0i64; 1];
    let request = read_line(true, bytes, &mut numbers);
    match request {
        Some(Request::Rectangle(rect)) => answer_rectangle(rect, out),
        _ => refuse_first(Refusal::UnreadableLine, out),
    }
}

// A path's line of the input: the path's kind and the line's number.
#[derive(Clone, Copy)]
struct PathLine {
    closed: bool,
    line: i64,
}

impl PathLine {
    // The line of one returned path, behind the bytes that are written; answers where it ends.
    fn add_path(self, path: &[i64], out: &mut [u8], end: usize) -> usize
        requires { end + length (coordinates_line self.closed self.line path.now) ≤ length out.old }
        ensures { Added (coordinates_line self.closed self.line path.now) end out.old result out.new }
    {
        let n = write_path(self.closed, self.line, path, &mut out[end..]).unwrap();
        end + n
    }

    // The lines of a result's paths: their lengths and, one path behind another, their coordinates.
    fn write_paths(self, coordinates: &[i64], lengths: &[u32], out: &mut [u8]) -> usize
        requires { Printable self.closed self.line coordinates.now lengths.now out.old }
        ensures { Prints self.closed self.line coordinates.now lengths.now out.old result out.new }
    {
        let mut rest = coordinates;
        let mut end = 0;
        for points in lengths {
            let (path, others) = rest.split_at(2 * (*points as usize));
            end = self.add_path(path, out, end);
            rest = others;
        }
        end
    }

    // A path of at most 128 points.
    fn answer_path(self, rect: Rect64, path: &[i64], out: &mut [u8; 12288]) -> usize
        requires { length path.now ≤ 256 }
        ensures gives { Gives (path_answer self.closed self.line (clipped self.closed rect path.now)) out.old result out.new }
        ensures exact { ExactUnlessRefused self.closed rect self.line path.now (take result out.new) }
    {
        let mut coordinates = [0i64; 512];
        let mut lengths = [0u32; 257];
        let answer = clip(self.closed, rect, path, &mut coordinates, &mut lengths);
        match answer {
            Err(why) => write_why(self.line, why, out),
            Ok(c) => self.write_paths(&coordinates, &lengths[..c.paths as usize], out),
        }
    }

    // A path of so many numbers at the list's front. The count is no length of a slice: there may be more numbers than the list holds.
    fn answer_numbers(
        self,
        rect: Rect64,
        numbers: &[i64],
        count: usize,
        out: &mut [u8; 12288],
    ) -> usize
        requires { 256 ≤ length numbers.now }
        ensures gives { Gives (numbers_answer rect self.line self.closed count (take count numbers.now)) out.old result out.new }
        ensures exact { ExactUnlessRefused self.closed rect self.line (take count numbers.now) (take result out.new) }
    {
        if count % 2 == 1 {
            return write_why(self.line, Refusal::OddCoordinates, out);
        }
        if 256 < count {
            return write_why(self.line, Refusal::PathTooLong, out);
        }
        self.answer_path(rect, &numbers[..count], out)
    }
}

// A line behind line 1. What it prints for a path is a refusal, or has demand 3.
pub fn answer_line(rect: Rect64, line: i64, bytes: &[u8], out: &mut [u8; 12288]) -> usize
    ensures gives { Gives (answer rect line (request false bytes.now)) out.old result out.new }
    ensures exact { PrintsExact rect line (request false bytes.now) result out.new }
{
    let mut numbers = [0i64; 2048];
    let request = read_line(false, bytes, &mut numbers);
    match request {
        Some(Request::Path(closed, count)) => {
            PathLine { closed, line }.answer_numbers(rect, &numbers, count, out)
        }
        _ => write_why(line, Refusal::UnreadableLine, out),
    }
}
