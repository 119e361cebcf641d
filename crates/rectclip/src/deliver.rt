// A clipper's result handed out: the paths read from the arena or the walk, or a path as it came.
ghost use Rattle.plane.specs.Basics.{ok};
ghost use Rattle.plane.specs.Points.{points_of};
ghost use Rattle.std.specs.Prelude.{◌≡◌, ◌<◌, [], ◌∷◌, Ok, MatchResult};
ghost use Rattle.rectclip.specs.Delivering.{drawing_left, Roomy, Short, Readable, Copyable, Gives};
ghost use Rattle.rectclip.specs.Pieces.{paths_of};
ghost use Rattle.rectclip.specs.Steps.{walk};

use crate::arena::Arena;
use crate::clipping::Clipped;
use crate::output::Output;
use crate::paths::Tally;
use crate::walk::Walker;
use entry::answer;
use entry::answer::{Answer, Refusal};

// A result with no path.
pub(crate) fn no_paths() -> Answer
    ensures { result ≡ Ok (record { paths = 0; points = 0; turns = 0 }) }
{
    Ok(answer::Counts {
        paths: 0,
        points: 0,
        turns: 0,
    })
}

// The counts of a result, if the caller's lists have room for it, or refusal 11.
fn counts_if_room(counts: Tally, turns: usize, output: &Output) -> Answer
    requires { (counts.paths < 4294967296) × (counts.points < 4294967296) × (turns < 4294967296) }
    ensures { MatchResult result (Roomy counts turns output.now) (Short counts output.now) }
{
    if output.coordinates.len() < 2 * (output.points + counts.points) {
        return Err(Refusal::ListsTooShort);
    }
    if output.lengths.len() < output.paths + counts.paths {
        return Err(Refusal::ListsTooShort);
    }
    Ok(answer::Counts {
        paths: counts.paths as u32,
        points: counts.points as u32,
        turns: turns as u32,
    })
}

impl Arena<'_> {
    // What the polygon clipper left is handed out, or refusal 11.
    pub(crate) fn deliver_paths(&self, c: Clipped, output: &mut Output) -> Answer
        requires { Readable self.now c }
        ensures { Gives (drawing_left self.now c) output.old result output.new }
    {
        let drawn = counts_if_room(c.counts, c.turns, output)?;
        self.read_paths(output);
        Ok(drawn)
    }
}

// The path itself is the result, or refusal 11.
pub(crate) fn deliver_copy(path: &[i64], output: &mut Output) -> Answer
    requires { Copyable path.now }
    ensures { Gives (ok (points_of path.now ∷ [], 0)) output.old result output.new }
{
    let one = Tally {
        paths: 1,
        points: path.len() / 2,
    };
    let drawn = counts_if_room(one, 0, output)?;
    output.put_path(path);
    Ok(drawn)
}

// The walk's paths are handed out, or refusal 11.
pub(crate) fn deliver_lines(walker: &Walker, output: &mut Output) -> Answer
    ensures { Gives (ok (paths_of (walk walker.now), 0)) output.old result output.new }
{
    let drawn = counts_if_room(walker.count_pieces(), 0, output)?;
    walker.write_pieces(output);
    Ok(drawn)
}
