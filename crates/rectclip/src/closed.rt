// The `while` of `RectClip64::execute_internal`: one pass by its cases, and the passes.
ghost use Rattle.std.specs.Prelude.{◌≡◌, ◌+◌, ◌/◌, ◌<◌, length};
ghost use Rattle.reference.specs.Walk.{remain_outside, enter, pass_to, pass_through, leave, cross_boundary, pt_before, pass_from, passes};
ghost use Rattle.rectclip.specs.Closing.{way_to, moves_on, first_of, enter_corners, pass_corner, pass_start, pass_in, pass_out, one_pass, state_of, pass_of, Advances};
ghost use Rattle.rectclip.specs.Steps.{walk, full, points, next_of, Steps};

use crate::boundary::BoundaryPoint;
use crate::corners::Way;
use crate::lists::point_at;
use crate::next::Place;
use crate::pass::{ClosedState, Pass};
use crate::polygon::before_idx;
use crate::segment::Segment;
use crate::walk::Walker;
use entry::answer::Refusal;
use plane::location::Location;
use plane::point::Point64;

// Whether the way from one side to another passes a corner.
fn moves_on(prev: Location, loc: Location) -> bool
    ensures { result ≡ moves_on prev loc }
{
    !prev.is_inside() & (prev != loc)
}

// The first side crossed: this one, if there was none before.
fn first_of(first_cross: Location, loc: Location) -> Location
    ensures { result ≡ first_of first_cross loc }
{
    if first_cross.is_inside() {
        return loc;
    }
    first_cross
}

impl Walker<'_> {
    // The point before point `i`, round the closed path.
    #[tactic(auto, using(crate::proofs::ClosedPass::before_is))]
    fn point_before(&self, i: usize) -> Point64
        requires { i < length self.now.path.now / 2 }
        ensures { result ≡ pt_before (points self.now) i }
    {
        point_at(self.path, before_idx(i, self.path.len() / 2))
    }

    // The way of a pass that comes to side `to`.
    #[tactic(auto, using(crate::proofs::ClosedPass::mid_limited))]
    fn way_to(&self, c: Pass, to: Location) -> Way
        ensures { result ≡ way_to self.now.rect c to }
    {
        let is_clockwise = c
            .segment
            .is_clockwise_dir(c.prev, to, self.rect.mid_point());
        Way {
            from: c.prev,
            to,
            is_clockwise,
        }
    }

    // "remaining outside": no crossing is found.
    fn remain_outside(&mut self, c: Pass) -> Result<ClosedState, Refusal>
        ensures { Advances (remain_outside (full self.old) self.old.rect (pass_of self.old c)) self.old self.new result }
    {
        let next = ClosedState {
            i: c.i + 1,
            loc: c.loc,
            crossing_loc: c.loc,
            first_cross: c.first_cross,
        };
        if c.crossing_prev.is_inside() {
            self.push_start_locs(self.way_to(c, c.loc))?;
            return Ok(ClosedState {
                crossing_loc: c.crossing_prev,
                ..next
            });
        }
        if moves_on(c.prev, c.loc) {
            self.add_corners(self.way_to(c, c.loc))?;
            return Ok(next);
        }
        Ok(next)
    }

    // Before the point of entry: a start side at the first crossing, else the corners on the way.
    #[tactic(auto, using(crate::proofs::ClosedPass::corners_first, crate::proofs::ClosedPass::corners_same, crate::proofs::ClosedPass::corners_other, plane::proofs::Equality::same_location_is))]
    fn enter_corners(&mut self, c: Pass, crossing_loc: Location) -> Result<(), Refusal>
        ensures { Steps (enter_corners (full self.old) self.old.rect (pass_of self.old c) crossing_loc) self.old self.new result }
    {
        if c.first_cross.is_inside() {
            return self.push_start_loc(c.prev);
        }
        if c.prev == crossing_loc {
            return Ok(());
        }
        self.add_corners(self.way_to(c, crossing_loc))
    }

    // "path must be entering rect", at the crossing.
    fn enter(&mut self, c: Pass, crossing: BoundaryPoint) -> Result<ClosedState, Refusal>
        ensures { Advances (enter (full self.old) self.old.rect (pass_of self.old c) crossing.point crossing.side) self.old self.new result }
    {
        self.enter_corners(c, crossing.side)?;
        self.add(crossing.point, false)?;
        Ok(ClosedState {
            i: c.i,
            loc: c.loc,
            crossing_loc: crossing.side,
            first_cross: first_of(c.first_cross, crossing.side),
        })
    }

    // The corner between the side crossed before and the one that a passing segment comes in at.
    #[tactic(auto, using(crate::proofs::ClosedPass::corner_turned, crate::proofs::ClosedPass::corner_kept))]
    fn pass_corner(&mut self, crossing_prev: Location, loc: Location) -> Result<(), Refusal>
        ensures { Steps (pass_corner (full self.old) self.old.rect (walk self.old) crossing_prev loc) self.old self.new result }
    {
        if moves_on(crossing_prev, loc) {
            return self.add_corner_prev_curr(crossing_prev, loc);
        }
        Ok(())
    }

    // A start side, at the first crossing.
    #[tactic(auto, using(crate::proofs::ClosedPass::start_pushed, crate::proofs::ClosedPass::start_kept))]
    fn pass_start(&mut self, first_cross: Location, prev: Location) -> Result<(), Refusal>
        ensures { Steps (pass_start (full self.old) (walk self.old) first_cross prev) self.old self.new result }
    {
        if first_cross.is_inside() {
            return self.push_start_loc(prev);
        }
        Ok(())
    }

    // A passing segment comes in at `second`.
    fn pass_in(&mut self, c: Pass, second: BoundaryPoint) -> Result<(), Refusal>
        ensures { Steps (pass_in (full self.old) self.old.rect (pass_of self.old c) second.point second.side) self.old self.new result }
    {
        self.pass_corner(c.crossing_prev, second.side)?;
        self.pass_start(c.first_cross, c.prev)?;
        self.add(second.point, false)
    }

    // It goes out at the crossing; where that is the point that it came in at, the walk turns the corner to the side that the path's point is on.
    fn pass_out(
        &mut self,
        c: Pass,
        crossing: BoundaryPoint,
        second: BoundaryPoint,
    ) -> Result<ClosedState, Refusal>
        ensures { Advances (pass_out (full self.old) self.old.rect (pass_of self.old c) crossing.point crossing.side second.point second.side) self.old self.new result }
    {
        let first_cross = first_of(c.first_cross, second.side);
        if crossing.point == second.point {
            let on = self.rect.get_location(c.segment.to).loc;
            self.add_corner_prev_curr(crossing.side, on)?;
            return Ok(ClosedState {
                i: c.i,
                loc: on,
                crossing_loc: on,
                first_cross,
            });
        }
        self.add(crossing.point, false)?;
        Ok(ClosedState {
            i: c.i,
            loc: crossing.side,
            crossing_loc: crossing.side,
            first_cross,
        })
    }

    // "passing right through rect": in at `second`, out at the crossing.
    fn pass_to(
        &mut self,
        c: Pass,
        crossing: BoundaryPoint,
        second: BoundaryPoint,
    ) -> Result<ClosedState, Refusal>
        ensures { Advances (pass_to (full self.old) self.old.rect (pass_of self.old c) crossing.point crossing.side second.point second.side) self.old self.new result }
    {
        self.pass_in(c, second)?;
        self.pass_out(c, crossing, second)
    }

    // "passing right through rect", out at the crossing: in where the second search finds the segment.
    fn pass_through(&mut self, c: Pass, crossing: BoundaryPoint) -> Result<ClosedState, Refusal>
        ensures { Advances (pass_through (full self.old) self.old.rect (pass_of self.old c) crossing.point crossing.side) self.old self.new result }
    {
        let second = self.search(c.segment).second_search(c.prev, crossing);
        self.pass_to(c, crossing, second)
    }

    // "path must be exiting rect", at the crossing.
    fn leave(&mut self, c: Pass, crossing: BoundaryPoint) -> Result<ClosedState, Refusal>
        ensures { Advances (leave (full self.old) self.old.rect (pass_of self.old c) crossing.point crossing.side) self.old self.new result }
    {
        self.add(crossing.point, false)?;
        Ok(ClosedState {
            i: c.i,
            loc: crossing.side,
            crossing_loc: crossing.side,
            first_cross: first_of(c.first_cross, crossing.side),
        })
    }

    // "we must be crossing the rect boundary to get here".
    #[tactic(auto, using(crate::proofs::ClosedPass::crossed_in, crate::proofs::ClosedPass::crossed_out, crate::proofs::ClosedPass::crossed_over))]
    fn cross_boundary(&mut self, c: Pass, crossing: BoundaryPoint) -> Result<ClosedState, Refusal>
        ensures { Advances (cross_boundary (full self.old) self.old.rect (pass_of self.old c) crossing.point crossing.side) self.old self.new result }
    {
        if c.loc.is_inside() {
            return self.enter(c, crossing);
        }
        if c.prev.is_inside() {
            return self.leave(c, crossing);
        }
        self.pass_through(c, crossing)
    }

    // What follows `get_next_location` in a pass.
    fn pass_from(&mut self, s: ClosedState, at: Place) -> Result<ClosedState, Refusal>
        ensures { Advances (pass_from (full self.old) self.old.rect (points self.old) (state_of self.old s) (next_of self.old at)) self.old self.new result }
    {
        if self.path.len() / 2 <= at.i {
            return Ok(ClosedState {
                i: at.i,
                loc: at.loc,
                ..s
            });
        }
        let segment = Segment {
            from: self.point_before(at.i),
            to: point_at(self.path, at.i),
        };
        let c = Pass {
            i: at.i,
            prev: s.loc,
            loc: at.loc,
            crossing_prev: s.crossing_loc,
            first_cross: s.first_cross,
            segment,
        };
        match self.search(segment.reversed()).get_intersection(at.loc) {
            None => self.remain_outside(c),
            Some(crossing) => self.cross_boundary(c, crossing),
        }
    }

    // One pass of the `while`.
    fn one_pass(&mut self, s: ClosedState) -> Result<ClosedState, Refusal>
        ensures { Advances (one_pass (full self.old) self.old.rect (points self.old) (state_of self.old s)) self.old self.new result }
    {
        let at = Place { loc: s.loc, i: s.i };
        let next = self.get_next_location(at)?;
        self.pass_from(s, next)
    }

    // The `while i <= high_i`.
    pub(crate) fn passes(&mut self, start: ClosedState) -> Result<ClosedState, Refusal>
        ensures { Advances (passes (full self.old) self.old.rect (points self.old) (length (points self.old) + 1) (state_of self.old start)) self.old self.new result }
    {
        let n = self.path.len() / 2;
        let mut s = start;
        for _ in 0..n + 1 {
            if n <= s.i {
                return Ok(s);
            }
            s = self.one_pass(s)?;
        }
        Ok(s)
    }
}
