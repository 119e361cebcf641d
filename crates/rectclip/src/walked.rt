// The arena that the walk of a closed path leaves: one ring of its points, and the corners that it entered in edge lists.
ghost use Rattle.std.specs.Prelude.{◌≡◌};
ghost use Rattle.reference.specs.Clip.{enter_all};
ghost use Rattle.rectclip.specs.Changes.{arena_of, Enters};
ghost use Rattle.rectclip.specs.Outlining.{entered_of, entries};
ghost use Rattle.rectclip.specs.Delivering.{Cornered, Arranging, Arranged};

use crate::arena::Arena;
use crate::outline::Outline;
use crate::ring::build_ring;
use crate::side::Side;

impl Arena<'_> {
    // Where the walk went round, the last four nodes are the corners that way round, and enter the clockwise lists of their sides.
    fn enter_round(&mut self, around: Option<bool>)
        requires { Cornered self.old (entries around) }
        ensures { Enters self.old self.new (enter_all (arena_of self.old) (entered_of self.old.sizes.nodes around)) }
    {
        let Some(clockwise) = around else {
            return;
        };
        let first = self.sizes.nodes - 4;
        for k in 0..4 {
            let idx = if clockwise { k } else { 3 - k };
            self.add_to_edge(Side { idx }.cw(), first + k);
        }
    }
}

// The walk's arena, in so many slots; the list `points` holds the walk's.
pub(crate) fn walked_arena<'a>(
    points: &'a [i64],
    work: &'a mut [u32],
    slots: usize,
    o: Outline,
) -> Arena<'a>
    requires { Arranging points.now work.old slots o }
    ensures arranged { Arranged points.now work.old slots o result }
    ensures name { result.work.ghost_name ≡ work.entry.ghost_name }
{
    let walk = o.walk;
    let mut a = build_ring(points, work, slots, walk.points);
    a.enter_round(o.around);
    a
}
