// Corners and start sides along the boundary, of both clippers' walks.
ghost use Rattle.std.specs.Prelude.{false, ℕ};
ghost use Rattle.plane.specs.Basics.{Try};
ghost use Rattle.plane.specs.declared.location.Location.{Location};
ghost use Rattle.reference.specs.Walk.{Walk, add, add_corner_prev_curr, add_corners, push_start_locs};
ghost use Rattle.rectclip.specs.Walking.{turned};
ghost use Rattle.rectclip.specs.Steps.{walk, full, Steps, Rounds, CallsAre};

use crate::walk::Walker;
use entry::answer::Refusal;
use plane::location::Location;

// A way along the sides of the rectangle, from one side to another; where the two are the same, all the way round.
#[derive(Clone, Copy)]
pub(crate) struct Way {
    pub from: Location,
    pub to: Location,
    pub is_clockwise: bool,
}

impl Walker<'_> {
    // The corner between two neighbouring sides.
    pub(crate) fn add_corner_prev_curr(
        &mut self,
        prev: Location,
        curr: Location,
    ) -> Result<(), Refusal>
        ensures { Steps (add_corner_prev_curr (full self.old) self.old.rect (walk self.old) prev curr) self.old self.new result }
    {
        if prev.heading_clockwise(curr) {
            return self.add(self.rect.corner(prev), false);
        }
        self.add(self.rect.corner(curr), false)
    }

    // The corner that follows side `loc`; the walk comes to the adjacent location there.
    pub(crate) fn add_corner_loc(
        &mut self,
        loc: Location,
        is_clockwise: bool,
    ) -> Result<(), Refusal>
        ensures { Steps (add (full self.old) (walk self.old) (turned self.old.rect loc is_clockwise) false) self.old self.new result }
    {
        if is_clockwise {
            return self.add(self.rect.corner(loc), false);
        }
        let next = loc.get_adjacent_location(is_clockwise);
        self.add(self.rect.corner(next), false)
    }

    // `step` at each side of the way but its last.
    fn for_each_side<F: Fn(&mut Walker, Location) -> Result<(), Refusal>>(
        &mut self,
        way: Way,
        step: F,
    ) -> Result<(), Refusal>
        requires { F.IsAlwaysCallable step }
        ensures { (one : Walk → Location → Try Walk) (run : ℕ → Walk → Location → Try Walk) → Rounds way.to way.is_clockwise one run → CallsAre self.old one (F.post step) → Steps (run 4 (walk self.old) way.from) self.old self.new result }
    {
        let mut p = way.from;
        for _ in 0..4usize {
            step(self, p)?;
            p = p.get_adjacent_location(way.is_clockwise);
            if p == way.to {
                return Ok(());
            }
        }
        Ok(())
    }

    // The corners on the way.
    pub(crate) fn add_corners(&mut self, way: Way) -> Result<(), Refusal>
        ensures { Steps (add_corners (full self.old) self.old.rect 4 (walk self.old) way.from way.to way.is_clockwise) self.old self.new result }
    {
        self.for_each_side(way, |walker, p| walker.add_corner_loc(p, way.is_clockwise))
    }

    // The sides of the way but its last are start sides.
    pub(crate) fn push_start_locs(&mut self, way: Way) -> Result<(), Refusal>
        ensures { Steps (push_start_locs (full self.old) self.old.rect 4 (walk self.old) way.from way.to way.is_clockwise) self.old self.new result }
    {
        self.for_each_side(way, |walker, p| walker.push_start_loc(p))
    }
}
