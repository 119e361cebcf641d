// The input, a line at a time.
ghost use Rattle.std.specs.Prelude.{◌≡◌, ◌==◌, ◌-◌, true, not, [], take, drop, position};
ghost use Rattle.program.specs.Taken.{has_feed, has_bytes, at_hand, parts, TakesHeld, TakesAtHand, ReadsMore, TakesLine, IsLine, Unread};
ghost use Rattle.program.specs.Visited.{VisitsLines};

use crate::visitor::Visitor;
use std::io;
use std::io::Read;

// One more than the largest number of a line, to which no run comes.
const NUMBERS_END: u64 = 9223372036854775808;

// The bytes that were read and not yet taken: those of the buffer, of any size, from `at` to `end`.
#[derive(Drop)]
pub struct Input<const N: usize> {
    buffer: [u8; N],
    at: usize,
    end: usize,
}

// A line at the front of its list: how many of its bytes are there, and whether its line feed was taken. A line that has not ended is the
// input's last; the count holds of it too, so that the flag is beside it.
#[derive(Clone, Copy, Default)]
pub struct Taken {
    pub count: usize,
    pub ended: bool,
}

// What bytes at hand have of a line: how many of them were taken, and the line so far.
#[derive(Clone, Copy)]
pub struct Held {
    pub used: usize,
    pub line: Taken,
}

// Where the first line feed stands.
fn find_feed(bytes: &[u8]) -> Option<usize>
    ensures { result ≡ position (λ b. b == 10) bytes.now }
{
    bytes.iter().position(|b| *b == b'\n')
}

// What bytes at hand have of a line, whose first `from` bytes its list has: up to a line feed, which is taken and not stored, or to the end.
// Of a line that is too long, as much is stored as the list has room for.
pub fn take_held(hand: &[u8], line: &mut [u8], from: usize) -> Held
    ensures { TakesHeld hand.now line.old from result line.new }
{
    let feed = find_feed(hand);
    let bytes = &hand[..feed.unwrap_or(hand.len())];
    let start = from.min(line.len());
    let stored = bytes.len().min(line.len() - start);
    line[start..start + stored].copy_from_slice(&bytes[..stored]);
    let ended = feed.is_some();
    Held {
        used: bytes.len() + usize::from(ended),
        line: Taken {
            count: from + stored,
            ended,
        },
    }
}

impl<const N: usize> Input<N> {
    // Nothing is read yet.
    pub fn new() -> Input<N>
        ensures { at_hand result ≡ [] }
    {
        Input {
            buffer: [0; N],
            at: 0,
            end: 0,
        }
    }

    // The caller's buffer and any two places in it: its bytes from `at` to `end` are at hand, as far as it has them.
    pub fn from_parts(buffer: [u8; N], at: usize, end: usize) -> Input<N>
        ensures hand { at_hand result ≡ take (end - at) (drop at buffer.entry) }
        ensures parts { parts result ≡ (buffer.entry, at, end) }
    {
        Input { buffer, at, end }
    }

    // The buffer and the two places in it, as `from_parts` takes them.
    pub fn into_parts(self) -> ([u8; N], usize, usize)
        ensures { result ≡ parts self.entry }
    {
        let Input { buffer, at, end } = self;
        (buffer, at, end)
    }

    // The bytes at hand, in the buffer.
    pub fn hand(&self) -> &[u8]
        ensures { result.now ≡ at_hand self.now }
    {
        let end = self.end.min(self.buffer.len());
        let at = self.at.min(end);
        let buffer = &self.buffer[..];
        &buffer[at..end]
    }

    fn is_empty(&self) -> bool
        ensures { result ≡ not (has_bytes (at_hand self.now)) }
    {
        self.end.min(self.buffer.len()) <= self.at
    }

    // `take_held` of the bytes at hand, of which those behind the line feed are left.
    fn take_at_hand(&mut self, line: &mut [u8], from: usize) -> Taken
        ensures taken { TakesAtHand (at_hand self.old) line.old from result (at_hand self.new) line.new }
        ensures unread { has_feed (at_hand self.old) ≡ true → Unread self.old self.new }
    {
        let end = self.end.min(self.buffer.len());
        let at = self.at.min(end);
        let buffer = &self.buffer[..];
        let held = take_held(&buffer[at..end], line, from);
        self.at = at + held.used;
        held.line
    }

    // Reads what comes next, behind the bytes that are taken; answers how many bytes came. A read that fails counts as the input's end.
    fn read_more<R: Read>(&mut self, input: &mut R) -> usize
        ensures { ReadsMore (R.remaining input.old) (R.remaining input.new) result (at_hand self.new) }
    {
        let n = input.read(&mut self.buffer).unwrap_or(0);
        self.at = 0;
        self.end = n;
        n
    }

    // The next line, line feed left out; None where nothing is left. Of a line that is too long, as much is kept as `line` can hold.
    // Which bytes a read brings is left open; the line and what is left at hand are promised by the bytes at hand and those that came.
    // A proved loop has to end, and nothing says that a line does: the reads are counted up to a number that no run comes to.
    pub fn take_line<R: Read>(&mut self, input: &mut R, line: &mut [u8]) -> Option<Taken>
        ensures taken { TakesLine (R.remaining input.old) (R.remaining input.new) (at_hand self.old) line.old result (at_hand self.new) line.new }
        ensures line { IsLine line.old result line.new }
        ensures unread { has_feed (at_hand self.old) ≡ true → Unread self.old self.new }
    {
        let mut begun = !self.is_empty();
        let mut taken = self.take_at_hand(line, 0);
        for _i in 0..u64::MAX {
            if taken.ended {
                return Some(taken);
            }
            if self.read_more(input) == 0 {
                return begun.then_some(taken);
            }
            begun = true;
            taken = self.take_at_hand(line, taken.count);
        }
        begun.then_some(taken)
    }

    // The lines that are left, each taken into `line`, the first of them with this number, up to one to which the visitor answers an error. Of a
    // line that is too long, the first `M` bytes are visited.
    pub fn visit_lines<const M: usize, R: Read, V: Visitor>(
        mut self,
        mut line: [u8; M],
        input: &mut R,
        first: u64,
        visitor: &mut V,
    ) -> io::Result<()>
        ensures { VisitsLines V.gives M first (R.remaining input.old) (R.remaining input.new) (at_hand self.entry) visitor.old result visitor.new }
    {
        for number in first..NUMBERS_END {
            let Some(taken) = self.take_line(input, &mut line) else {
                return Ok(());
            };
            visitor.visit(number as i64, &line[..taken.count])?;
            if !taken.ended {
                return Ok(());
            }
        }
        Ok(())
    }
}
