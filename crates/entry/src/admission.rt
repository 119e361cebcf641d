// The refusals that need no drawing: 1 to 7, in number order.
ghost use Rattle.std.specs.Prelude.{◌≡◌, ◌%◌, length};
ghost use Rattle.reference.specs.Entry.{early_refusal, sheet_refusal};
ghost use Rattle.entry.specs.Answers.{checked, admission};

use crate::answer::Refusal;
use crate::survey::survey;
use plane::rect::Rect64;

// The most points that a path may have and a store may have room for, and the largest turn allowance.
pub const MAX_POINTS: usize = 4096;

const MAX_ROOM: usize = 65536;

const MAX_ALLOWANCE: usize = 65535;

// Refusals 5, 6 and 7 of a path whose coordinates come in pairs, or the path's bounds.
pub(crate) fn admit_sheet(rect: Rect64, path: &[i64]) -> Result<Rect64, Refusal>
    requires { length path.now % 2 ≡ 0 }
    ensures { checked result ≡ admission (sheet_refusal 4096 rect path.now) path.now }
{
    if MAX_POINTS < path.len() / 2 {
        return Err(Refusal::PathTooLong);
    }
    if !rect.in_limit() {
        return Err(Refusal::RectangleOutside);
    }
    let seen = survey(path);
    if !seen.in_limit {
        return Err(Refusal::PathOutside);
    }
    Ok(seen.bounds)
}

// Refusals 1 to 7, or the path's bounds: for a store with room for so many points, a turn allowance, and a work list of so many numbers.
pub fn admit(
    rect: Rect64,
    path: &[i64],
    room: usize,
    allowance: usize,
    cells: usize,
) -> Result<Rect64, Refusal>
    ensures { checked result ≡ admission (early_refusal room allowance cells rect path.now) path.now }
{
    if path.len() % 2 == 1 {
        return Err(Refusal::OddCoordinates);
    }
    if MAX_ROOM < room {
        return Err(Refusal::StoreTooLong);
    }
    if MAX_ALLOWANCE < allowance {
        return Err(Refusal::AllowanceTooLarge);
    }
    if cells < 16 * (room + allowance + 1) {
        return Err(Refusal::WorkTooShort);
    }
    admit_sheet(rect, path)
}
