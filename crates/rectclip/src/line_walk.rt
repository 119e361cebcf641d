// The walk of `RectClipLines64::execute_internal`.
ghost use Rattle.std.specs.Prelude.{◌≡◌, Bool, true, false, ◌/◌, ◌≤◌, length, drop};
ghost use Rattle.plane.specs.Points.{points_of};
ghost use Rattle.reference.specs.Walk.{nothing_yet};
ghost use Rattle.reference.specs.Lines.{first_off_edge, line_through, line_cross, line_from, line_walk_from, walk_open};
ghost use Rattle.rectclip.specs.declared.next.Place.{Place};
ghost use Rattle.rectclip.specs.Steps.{walk, full, points, next_of, Steps, Moves, Lands};
ghost use Rattle.rectclip.specs.Crossing.{one_pass, all_passes, first_point};

use crate::boundary::BoundaryPoint;
use crate::lists::point_at;
use crate::next::Place;
use crate::segment::Segment;
use crate::walk::Walker;
use entry::answer::Refusal;
use plane::crossing::SidePoint;
use plane::location::Location;
use plane::rect::Rect64;

// A segment that crosses the boundary at `ip`; `prev` is the location before it.
#[derive(Clone, Copy)]
struct LinePass {
    prev: Location,
    segment: Segment,
    ip: BoundaryPoint,
}

impl Walker<'_> {
    // The first point off the edges, from the second on, and its location.
    fn first_off_edge(&self) -> Option<SidePoint>
        ensures { result ≡ first_off_edge self.now.rect (drop 1 (points self.now)) }
    {
        (1..self.path.len() / 2).find_map(|i| self.off_edges(i))
    }

    // "passing right through rect": in where the second search finds the segment, out at the crossing.
    fn line_through(&mut self, c: LinePass) -> Result<(), Refusal>
        ensures { (at : Place) → Lands at (line_through (full self.old) self.old.rect (next_of self.old at) c.prev c.segment.from c.segment.to c.ip.point) self.old self.new result }
    {
        let second = self.search(c.segment).second_search(c.prev, c.ip);
        self.add(second.point, true)?;
        self.add(c.ip.point, false)
    }

    // A crossing: entering, passing right through, or exiting.
    fn line_cross(&mut self, at: Place, c: LinePass) -> Result<(), Refusal>
        ensures { Lands at (line_cross (full self.old) self.old.rect (next_of self.old at) c.prev c.segment.from c.segment.to c.ip.point) self.old self.new result }
    {
        if at.loc.is_inside() {
            return self.add(c.ip.point, true);
        }
        if !c.prev.is_inside() {
            return self.line_through(c);
        }
        self.add(c.ip.point, false)
    }

    // What follows `get_next_location` in a pass. The passes begin at the second point, so there is one before.
    fn line_from(&mut self, prev: Location, at: Place) -> Result<Place, Refusal>
        ensures { Moves (line_from (full self.old) self.old.rect (points self.old) prev (next_of self.old at)) self.old self.new result }
    {
        if self.path.len() / 2 <= at.i {
            return Ok(at);
        }
        let segment = Segment {
            from: point_at(self.path, at.i.saturating_sub(1)),
            to: point_at(self.path, at.i),
        };
        let Some(ip) = self.search(segment.reversed()).get_intersection(at.loc) else {
            return Ok(Place { i: at.i + 1, ..at });
        };
        let c = LinePass { prev, segment, ip };
        self.line_cross(at, c)?;
        Ok(at)
    }

    // One pass of the `while`.
    fn line_pass(&mut self, at: Place) -> Result<Place, Refusal>
        ensures { Moves (one_pass (full self.old) self.old.rect (points self.old) (next_of self.old at)) self.old self.new result }
    {
        let next = self.get_next_location(at)?;
        self.line_from(at.loc, next)
    }

    // The `while i <= high_i`.
    fn line_passes(&mut self, start: Place) -> Result<(), Refusal>
        ensures { Steps (all_passes (full self.old) self.old.rect (points self.old) (next_of self.old start)) self.old self.new result }
    {
        let n = self.path.len() / 2;
        let mut at = start;
        for _ in 0..n {
            if n <= at.i {
                return Ok(());
            }
            at = self.line_pass(at)?;
        }
        Ok(())
    }

    // A walk that starts inside has the first point.
    fn first_point(&mut self, loc: Location) -> Result<(), Refusal>
        requires { 1 ≤ length self.old.path.now / 2 }
        ensures { Steps (first_point (full self.old) (walk self.old) (points self.old) loc) self.old self.new result }
    {
        if loc.is_inside() {
            return self.add(point_at(self.path, 0), false);
        }
        Ok(())
    }

    // The walk from a starting location.
    fn line_walk_from(&mut self, loc: Location) -> Result<(), Refusal>
        requires { (walk self.old ≡ nothing_yet) × (1 ≤ length self.old.path.now / 2) }
        ensures { Steps (line_walk_from (full self.old) self.old.rect (points self.old) loc) self.old self.new result }
    {
        self.first_point(loc)?;
        self.line_passes(Place { loc, i: 1 })
    }

    // `execute_internal` of an open path.
    pub(crate) fn walk_open(&mut self) -> Result<(), Refusal>
        requires { walk self.old ≡ nothing_yet }
        ensures { Steps (walk_open (full self.old) self.old.rect (points self.old)) self.old self.new result }
    {
        if self.path.len() / 2 < 2 {
            return Ok(());
        }
        let at_first = self.rect.get_location(point_at(self.path, 0));
        if at_first.off {
            return self.line_walk_from(at_first.loc);
        }
        let Some(found) = self.first_off_edge() else {
            return self.add_all();
        };
        if found.side.is_inside() {
            return self.line_walk_from(Location::Inside);
        }
        self.line_walk_from(at_first.loc)
    }
}
