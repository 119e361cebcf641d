// The lines that the program prints, each written to the front of a lent list of bytes. Whether a line fits is seen before it is written, since one
// that does not leaves the list as it came: by `Display` that would be two sinks of our own, and a `fmt::Result` from each write that cannot fail.
ghost use Rattle.std.specs.Prelude.{◌≡◌, [], ◌∷◌, ◌++◌, ◌≤◌, length, leb};
ghost use Rattle.text.specs.Printing.{comma_numbers, line_of, rectangle_line};
ghost use Rattle.text.specs.Putting.{Put};
ghost use Rattle.text.specs.Written.{Written, coordinates_line};

use crate::line::Line;
use crate::numbers::room_after;
use plane::rect::Rect64;

// A letter, the numbers of two lists and a line feed, into a list that can hold them.
fn put_line(letter: u8, head: &[i64], tail: &[i64], out: &mut [u8]) -> usize
    requires { length (line_of letter (head.now ++ tail.now)) ≤ length out.old }
    ensures { Put (line_of letter (head.now ++ tail.now)) 0 out.old result out.new }
{
    let mut line = Line { out, end: 0 };
    line.put(&[letter]);
    line.put_numbers(head);
    line.put_numbers(tail);
    line.put(b"\n");
    line.end
}

// Whether the numbers of two lists fit in so many bytes, each with a comma before it. One takes 22 bytes at most, and they are measured only where
// so many might not fit.
fn fit(head: &[i64], tail: &[i64], room: usize) -> bool
    ensures { result ≡ leb (length (comma_numbers (head.now ++ tail.now))) room }
{
    if head.len() + tail.len() <= room / 22 {
        return true;
    }
    match room_after(head, room) {
        Some(more) => room_after(tail, more).is_some(),
        None => false,
    }
}

// A letter, the numbers of two lists, a line feed. Answers how many bytes the line has; where `out` cannot hold it, None, and `out` stays as it came.
fn write_line(letter: u8, head: &[i64], tail: &[i64], out: &mut [u8]) -> Option<usize>
    ensures { Written (line_of letter (head.now ++ tail.now)) out.old result out.new }
{
    let room = out.len().checked_sub(2)?;
    if !fit(head, tail, room) {
        return None;
    }
    Some(put_line(letter, head, tail, out))
}

// The R line.
pub fn write_rectangle(rect: Rect64, out: &mut [u8]) -> Option<usize>
    ensures { Written (rectangle_line rect) out.old result out.new }
{
    let head = [rect.left, rect.top];
    let tail = [rect.right, rect.bottom];
    write_line(b'R', &head, &tail, out)
}

// `X`, the line and the refusal's number. It takes any number: a `Refusal` would ask more of callers than before.
pub fn write_refusal(line: i64, number: i64, out: &mut [u8]) -> Option<usize>
    ensures { Written (line_of 88 (line ∷ number ∷ [])) out.old result out.new }
{
    let head = [line];
    let tail = [number];
    write_line(b'X', &head, &tail, out)
}

// A returned path: its kind, its line, how many points it has, and their coordinates.
pub fn write_path(closed: bool, line: i64, coordinates: &[i64], out: &mut [u8]) -> Option<usize>
    ensures { Written (coordinates_line closed line coordinates.now) out.old result out.new }
{
    let letter = if closed { b'C' } else { b'L' };
    let head = [line, (coordinates.len() / 2) as i64];
    write_line(letter, &head, coordinates, out)
}
