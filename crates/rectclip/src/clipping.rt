// The polygon clipper after its walk: edges checked, sides tidied, rings straightened and counted.
ghost use Rattle.reference.specs.Arena.{check_edges};
ghost use Rattle.rectclip.specs.Arenas.{Spare};
ghost use Rattle.rectclip.specs.Changes.{arena_of, pts_of};
ghost use Rattle.rectclip.specs.Turns.{tidied_all};
ghost use Rattle.rectclip.specs.Clipping.{ClippedAs};

use crate::arena::Arena;
use crate::paths::Tally;
use entry::answer::Refusal;
use plane::rect::Rect64;

// What is left to read out.
#[derive(Clone, Copy)]
pub(crate) struct Clipped {
    pub turns: usize,
    pub counts: Tally,
}

impl Arena<'_> {
    // `check_edges`, `tidy_edges` of all four sides, and the first step of `get_path`; refused where one more turn is needed than is allowed.
    pub(crate) fn clip_arena(&mut self, rect: Rect64, allowance: usize) -> Result<Clipped, Refusal>
        requires { Spare self.old.sizes.slots allowance (arena_of self.old) }
        ensures { ClippedAs (pts_of self.old) self.old self.new result (tidied_all (pts_of self.old) allowance (check_edges (pts_of self.old) rect (arena_of self.old))) }
    {
        self.check_edges(rect);
        let left = self.tidy_all(allowance)?;
        self.straighten_results();
        let counts = self.count_paths();
        Ok(Clipped {
            turns: allowance - left,
            counts,
        })
    }
}
