// What a line of the input asks.
ghost use Rattle.std.specs.Prelude.{◌≡◌, ◌≤◌, length};
ghost use Rattle.text.specs.Scanning.{behind, path_asked, rectangle_asked};
ghost use Rattle.text.specs.Asked.{Asks, told, tells, request};

use crate::fields::{count_behind, store_behind};
use plane::rect::Rect64;

// How many bytes a line has at most, its line feed left out.
const MAX_LINE: usize = 4096;

// The rectangle of line 1; or a path: whether it is closed, and how many numbers it has.
#[derive(Clone, Copy)]
pub enum Request {
    Rectangle(Rect64),
    Path(bool, usize),
}

// Of the bytes behind the letter.
fn read_rectangle(bytes: &[u8]) -> Option<Request>
    ensures { told result ≡ tells (rectangle_asked (behind bytes.now)) }
{
    let count = count_behind(bytes)?;
    if count != 4 {
        return None;
    }
    let mut four = [0; 4];
    store_behind(bytes, &mut four);
    let [left, top, right, bottom] = four;
    Some(Request::Rectangle(Rect64 {
        left,
        top,
        right,
        bottom,
    }))
}

// Of the bytes behind the letter.
fn read_path(closed: bool, bytes: &[u8], list: &mut [i64]) -> Option<Request>
    ensures { Asks (path_asked closed (behind bytes.now)) list.old result list.new }
{
    let count = count_behind(bytes)?;
    store_behind(bytes, list);
    Some(Request::Path(closed, count))
}

// Reads a line, line feed left out; line 1 is `first`. None where it cannot be read. A path's numbers are stored at the list's front, as many as
// it can hold.
pub fn read_line(first: bool, line: &[u8], list: &mut [i64]) -> Option<Request>
    ensures { Asks (request first line.now) list.old result list.new }
{
    if MAX_LINE < line.len() {
        return None;
    }
    let (letter, bytes) = line.split_first()?;
    match (first, *letter) {
        (true, b'R') => read_rectangle(bytes),
        (false, b'C') => read_path(true, bytes, list),
        (false, b'L') => read_path(false, bytes, list),
        _ => None,
    }
}
