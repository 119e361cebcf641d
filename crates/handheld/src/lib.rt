// Both clippers with the working lists of the handheld, for the exported entries and the programs: W = A = 256.
#![tactic(auto)]

ghost use Rattle.handheld.specs.Called.{called};
ghost use Rattle.rectclip.specs.Promises.{Leaves, ReturnedBy};

use entry::answer::Answer;
use plane::rect::Rect64;
use rectclip::clip;

// One path, closed or open; the paths that a result returns have demand 3.
pub fn clip(
    closed: bool,
    rect: Rect64,
    path: &[i64],
    coordinates: &mut [i64],
    lengths: &mut [u32],
) -> Answer
    ensures leaves { Leaves (called closed rect path.now coordinates.old lengths.old) result coordinates.new lengths.new }
    ensures returned { ReturnedBy closed rect path.now result coordinates.new lengths.new }
{
    let mut store = [0i64; 512];
    let mut work = [0u32; 8208];
    clip::clip(
        closed,
        256,
        rect,
        path,
        &mut store,
        &mut work,
        coordinates,
        lengths,
    )
}
