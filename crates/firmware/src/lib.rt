// The clippers for the firmware in C: a path, and what it gives, as little-endian bytes, four to a number.
#![tactic(auto)]

ghost use Rattle.std.specs.Prelude.{◌≡◌, true, false};
ghost use Rattle.plane.specs.Rectangle.{rect};
ghost use Rattle.reference.specs.Entry.{drawn};
ghost use Rattle.reference.specs.Exported.{exported};
ghost use Rattle.entry.specs.Answers.{value};
ghost use Rattle.firmware.specs.ReadBack.{ReturnedBytes};
ghost use Rattle.firmware.specs.Sending.{path_refusal, sent, Sendable};

use entry::answer::{Counts, Refusal, value};
use handheld::clip;
use plane::rect::Rect64;
use words::{put_words, read_words};

mod words;

// Refusal 1 where the bytes are no whole points, 5 above 128 points.
fn check_path(bytes: &[u8]) -> Result<(), Refusal>
    ensures { value result ≡ path_refusal bytes.now }
{
    if bytes.len() % 8 != 0 {
        return Err(Refusal::OddCoordinates);
    }
    if 1024 < bytes.len() {
        return Err(Refusal::PathTooLong);
    }
    Ok(())
}

// A result as bytes, or refusal 11 where a list is too short. Here and below the lists stay apart, as C lends them.
fn send(
    c: Counts,
    results: &[i64],
    numbers: &[u32],
    coordinates: &mut [u8],
    lengths: &mut [u8],
    counts: &mut [u8],
) -> Result<(), Refusal>
    requires { Sendable (drawn c.paths c.points c.turns) results.now numbers.now }
    ensures { (value result, coordinates.new, lengths.new, counts.new) ≡ sent (drawn c.paths c.points c.turns) results.now numbers.now coordinates.old lengths.old counts.old }
{
    let paths = c.paths as usize;
    let points = c.points as usize;
    if coordinates.len() < 8 * points {
        return Err(Refusal::ListsTooShort);
    }
    if lengths.len() < 4 * paths {
        return Err(Refusal::ListsTooShort);
    }
    if counts.len() < 12 {
        return Err(Refusal::ListsTooShort);
    }
    let three = [c.paths, c.points, c.turns];
    put_words(&results[..2 * points], coordinates);
    put_words(&numbers[..paths], lengths);
    put_words(&three, counts);
    Ok(())
}

// One path, closed or open.
fn clip_bytes(
    closed: bool,
    rect: Rect64,
    path: &[u8],
    coordinates: &mut [u8],
    lengths: &mut [u8],
    counts: &mut [u8],
) -> Result<(), Refusal>
    ensures bytes { (value result, coordinates.new, lengths.new, counts.new) ≡ exported closed rect path.now coordinates.old lengths.old counts.old }
    ensures returned { value result ≡ 0 → ReturnedBytes closed rect path.now coordinates.new lengths.new counts.new }
{
    check_path(path)?;
    let mut points = [0i64; 256];
    read_words(path, &mut points);
    let count = path.len() / 4;
    let mut results = [0i64; 512];
    let mut numbers = [0u32; 257];
    let drawn = clip(closed, rect, &points[..count], &mut results, &mut numbers)?;
    send(drawn, &results, &numbers, coordinates, lengths, counts)
}

// One open path: 0, or the refusal's number.
#[unsafe(no_mangle)]
pub extern "C" fn rect_clip_lines64(
    left: i64,
    top: i64,
    right: i64,
    bottom: i64,
    path: &[u8],
    coordinates: &mut [u8],
    lengths: &mut [u8],
    counts: &mut [u8],
) -> u32
    ensures bytes { (result, coordinates.new, lengths.new, counts.new) ≡ exported false (rect left top right bottom) path.now coordinates.old lengths.old counts.old }
    ensures returned { result ≡ 0 → ReturnedBytes false (rect left top right bottom) path.now coordinates.new lengths.new counts.new }
{
    let rect = Rect64::new(left, top, right, bottom);
    value(clip_bytes(false, rect, path, coordinates, lengths, counts))
}

// One closed path: 0, or the refusal's number.
#[unsafe(no_mangle)]
pub extern "C" fn rect_clip64(
    left: i64,
    top: i64,
    right: i64,
    bottom: i64,
    path: &[u8],
    coordinates: &mut [u8],
    lengths: &mut [u8],
    counts: &mut [u8],
) -> u32
    ensures bytes { (result, coordinates.new, lengths.new, counts.new) ≡ exported true (rect left top right bottom) path.now coordinates.old lengths.old counts.old }
    ensures returned { result ≡ 0 → ReturnedBytes true (rect left top right bottom) path.now coordinates.new lengths.new counts.new }
{
    let rect = Rect64::new(left, top, right, bottom);
    value(clip_bytes(true, rect, path, coordinates, lengths, counts))
}
