// The walk of a closed path: where the `while` of `RectClip64::execute_internal` starts, and what follows it.
ghost use Rattle.std.specs.Prelude.{◌≡◌, false, ◌+◌, ◌-◌, ◌*◌, ◌/◌, ◌<◌, ◌≤◌, length};
ghost use Rattle.plane.specs.Locations.{start_locs_are_clockwise};
ghost use Rattle.plane.specs.Points.{points_of};
ghost use Rattle.reference.specs.Walk.{no_room, nothing_yet, add_all, last_off, surround, after_while, walk_from, walk_closed};
ghost use Rattle.rectclip.specs.Memory.{at};
ghost use Rattle.rectclip.specs.Walking.{location};
ghost use Rattle.rectclip.specs.Outlining.{steps_up, turned_by, round_corners, path_contains, corner_toward, close_walk, Drawn, Bounded, Walks, Traces};
ghost use Rattle.rectclip.specs.Steps.{walk, full, points, Steps};
ghost use Rattle.rectclip.specs.Closing.{state_of};

use crate::corners::Way;
use crate::lists::{START_LOC, get, point_at};
use crate::pass::ClosedState;
use crate::polygon::path1_contains_path2;
use crate::walk::{WalkState, Walker};
use entry::answer::Refusal;
use plane::crossing::SidePoint;
use plane::location::Location;
use plane::rect::Rect64;

// The walk, and where the path contains the rectangle, whether it goes clockwise round it: the last four points are then the corners, each entered
// in the clockwise edge list of its side.
#[derive(Clone, Copy)]
pub(crate) struct Outline {
    pub walk: WalkState,
    pub around: Option<bool>,
}

// How many steps along the start sides go clockwise, and how many the other way.
#[derive(Clone, Copy)]
pub(crate) struct StepCounts {
    pub ups: usize,
    pub downs: usize,
}

// Whether the way from side `a` to side `b` is one step clockwise. Not `heading_clockwise`: from Bottom to Inside is a step here.
fn steps_up(a: Location, b: Location) -> bool
    ensures { result ≡ steps_up a b }
{
    let m = u32::from(a);
    let n = u32::from(b);
    (n == m + 1) | (m == n + 3)
}

// The counts with the way from side `a` to side `b`.
fn turned_by(t: StepCounts, a: Location, b: Location) -> StepCounts
    requires { (t.ups < 4294967296) × (t.downs < 4294967296) }
    ensures { result ≡ turned_by t a b }
{
    if steps_up(a, b) {
        return StepCounts {
            ups: t.ups + 1,
            ..t
        };
    }
    if steps_up(b, a) {
        return StepCounts {
            downs: t.downs + 1,
            ..t
        };
    }
    t
}

impl Walker<'_> {
    // The last point off the edges among the first `n`, and its location.
    fn last_off(&self, n: usize) -> Option<SidePoint>
        requires { n ≤ length self.now.path.now / 2 }
        ensures { result ≡ last_off self.now.rect (points self.now) n }
    {
        (0..n).rev().find_map(|i| self.off_edges(i))
    }

    // Start side `i`. `from_number` has no inside.
    #[tactic(auto, using(crate::proofs::StartSides::location_inside, crate::proofs::StartSides::location_side))]
    fn start_loc(&self, i: usize) -> Location
        requires { i < self.now.state.start_locs }
        ensures { result ≡ location (at 5 self.now.work.now i) }
    {
        let n = get(self.work, START_LOC, i);
        if 4 <= n {
            return Location::Inside;
        }
        Location::from_number(n as u32)
    }

    // Whether the start sides go clockwise round the rectangle.
    fn start_locs_are_clockwise(&self) -> bool
        ensures { result ≡ start_locs_are_clockwise (walk self.now).start_locs }
    {
        let mut t = StepCounts { ups: 0, downs: 0 };
        for i in 1..self.state.start_locs {
            t = turned_by(t, self.start_loc(i - 1), self.start_loc(i));
        }
        t.downs < t.ups
    }

    // The corner on the way from side `p` to side `q`.
    #[tactic(auto, using(crate::proofs::Retracing::toward_kept, crate::proofs::Retracing::toward_added, plane::proofs::Equality::same_location_is))]
    fn corner_toward(&mut self, p: Location, q: Location) -> Result<(), Refusal>
        ensures { Steps (corner_toward (full self.old) self.old.rect (walk self.old) p q) self.old self.new result }
    {
        if p == q {
            return Ok(());
        }
        self.add_corner_loc(p, p.heading_clockwise(q))
    }

    // Where the walk ends outside: back over the start sides to the side that was crossed first.
    fn close_outline(&mut self, s: ClosedState) -> Result<(), Refusal>
        ensures { Steps (close_walk (full self.old) self.old.rect (state_of self.old s)) self.old self.new result }
    {
        let mut p = s.loc;
        for i in 0..self.state.start_locs {
            let loc2 = self.start_loc(i);
            self.corner_toward(p, loc2)?;
            p = loc2;
        }
        self.corner_toward(p, s.first_cross)
    }

    // The four corners, one way round: those from the left side to itself.
    #[tactic(auto, using(crate::proofs::RectPath::round_added))]
    fn add_round(&mut self, is_clockwise: bool) -> Result<(), Refusal>
        ensures { Steps (add_all (full self.old) (walk self.old) (round_corners self.old.rect is_clockwise)) self.old self.new result }
    {
        self.add_corners(Way {
            from: Location::Left,
            to: Location::Left,
            is_clockwise,
        })
    }

    // Whether the path contains the rectangle; its bounds are given, as the Rust has them in `path_bounds`. They are no field of the walker,
    // since the open path's walk has no use for them, and none of a struct around it, which would have their fact proved again behind each step.
    fn path_contains(&self, bounds: Rect64) -> bool
        requires { Bounded self.now.path.now bounds }
        ensures { result ≡ path_contains self.now.rect (points self.now) }
    {
        if !bounds.contains_point(self.rect.mid_point()) {
            return false;
        }
        let corners = self.rect.corners();
        path1_contains_path2(self.path, &corners)
    }

    // A path that never crosses the boundary and starts outside: it may go round the rectangle.
    fn surround(&mut self, bounds: Rect64) -> Result<Option<bool>, Refusal>
        requires { Bounded self.old.path.now bounds }
        ensures { Traces (surround (full self.old) self.old.rect (points self.old) (walk self.old)) self.old self.new result }
    {
        if !self.path_contains(bounds) {
            return Ok(None);
        }
        let is_clockwise = self.start_locs_are_clockwise();
        self.add_round(is_clockwise)?;
        Ok(Some(is_clockwise))
    }

    // What follows the `while`.
    fn after_while(
        &mut self,
        bounds: Rect64,
        starting_loc: Location,
        s: ClosedState,
    ) -> Result<Option<bool>, Refusal>
        requires { Bounded self.old.path.now bounds }
        ensures { Traces (after_while (full self.old) self.old.rect (points self.old) starting_loc (state_of self.old s)) self.old self.new result }
    {
        if s.first_cross.is_inside() {
            if starting_loc.is_inside() {
                return Ok(None);
            }
            return self.surround(bounds);
        }
        if !s.loc.is_inside() & ((s.loc != s.first_cross) | (2 < self.state.start_locs)) {
            self.close_outline(s)?;
            return Ok(None);
        }
        Ok(None)
    }

    // The walk from a starting location. That nothing is put down yet stays in the contracts, here and for open paths: the first step ends it.
    fn walk_from(&mut self, bounds: Rect64, loc: Location) -> Result<Option<bool>, Refusal>
        requires { Bounded self.old.path.now bounds × (walk self.old ≡ nothing_yet) }
        ensures { Traces (walk_from (full self.old) self.old.rect (points self.old) loc) self.old self.new result }
    {
        let s = self.passes(ClosedState::new(loc))?;
        self.after_while(bounds, loc, s)
    }

    // `execute_internal` of a closed path.
    fn walk_closed(&mut self, bounds: Rect64) -> Result<Option<bool>, Refusal>
        requires { Bounded self.old.path.now bounds × (walk self.old ≡ nothing_yet) }
        ensures { Traces (walk_closed (full self.old) self.old.rect (points self.old)) self.old self.new result }
    {
        let n = self.path.len() / 2;
        if n == 0 {
            return Ok(None);
        }
        let at_last = self.rect.get_location(point_at(self.path, n - 1));
        if at_last.off {
            return self.walk_from(bounds, at_last.loc);
        }
        let Some(found) = self.last_off(n - 1) else {
            self.add_all()?;
            return Ok(None);
        };
        if found.side.is_inside() {
            return self.walk_from(bounds, Location::Inside);
        }
        self.walk_from(bounds, at_last.loc)
    }
}

// The walk of a closed path, from its start. Its walker is not made in place from the call, as the line clipper's is: behind a list that a walker
// takes from a field of the call, only the length is known once the walker is gone, and here the arena reads what the walk put down.
pub(crate) fn walk_closed(
    rect: Rect64,
    path: &[i64],
    bounds: Rect64,
    store: &mut [i64],
    work: &mut [u32],
) -> Result<Outline, Refusal>
    requires { Walks rect path.now bounds store.old work.old }
    ensures { Drawn (walk_closed (no_room (length store.old / 2)) rect (points_of path.now)) store.new work.new result }
{
    let mut walker = Walker {
        rect,
        path,
        store,
        work,
        state: WalkState::new(),
    };
    let around = walker.walk_closed(bounds)?;
    Ok(Outline {
        walk: walker.state,
        around,
    })
}
