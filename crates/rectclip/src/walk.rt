// The walk that both clippers share: its state, `add` and the start sides. Corners are in corners.rt, `get_next_location` in next.rt.
// Points are only ever put behind the last one, so the store holds those of all results, in order.
ghost use Rattle.std.specs.Prelude.{◌≡◌, ◌/◌, ◌<◌, true, length};
ghost use Rattle.plane.specs.Points.{points_of, pt_at};
ghost use Rattle.reference.specs.Walk.{add, add_all, push_start_loc};
ghost use Rattle.rectclip.specs.Bounds.{Reached};
ghost use Rattle.rectclip.specs.Walking.{Fits, Sheet, off_edges};

use crate::lists::{RESULT, START_LOC, point_at, put, put_point};
use crate::search::Search;
use crate::segment::Segment;
use entry::answer::Refusal;
use plane::crossing::SidePoint;
use plane::location::Location;
use plane::point::Point64;
use plane::rect::Rect64;

// How many points, results and start sides the walk has put down.
#[derive(Clone, Copy)]
pub(crate) struct WalkState {
    pub points: usize,
    pub starts: usize,
    pub start_locs: usize,
}

impl WalkState {
    // Nothing yet.
    pub(crate) fn new() -> WalkState
        ensures { result ≡ record { points = 0; starts = 0; start_locs = 0 } }
    {
        WalkState {
            points: 0,
            starts: 0,
            start_locs: 0,
        }
    }
}

// The rectangle and the path, and the lent lists with what the walk has put down in them.
#[derive(Drop)]
pub(crate) struct Walker<'a> {
    pub(crate) rect: Rect64,
    pub(crate) path: &'a [i64],
    pub(crate) store: &'a mut [i64],
    pub(crate) work: &'a mut [u32],
    pub(crate) state: WalkState,
    ghost sheet: { Sheet rect path.now },
    ghost fits: { Fits store.now work.now state },
}

impl<'a> Walker<'a> {
    ghost use Rattle.rectclip.specs.Steps.{walk, full, points, Steps};

    // The search for a segment's crossing with the rectangle's boundary.
    pub(crate) fn search(&self, segment: Segment) -> Search
        ensures frame { result.rect ≡ self.now.rect }
        ensures starts { result.segment.from ≡ segment.from }
        ensures ends { result.segment.to ≡ segment.to }
    {
        Search {
            rect: self.rect,
            segment,
        }
    }

    // The point at position `i` of the path, if it is off the edges, and its location.
    pub(crate) fn off_edges(&self, i: usize) -> Option<SidePoint>
        requires { i < length self.now.path.now / 2 }
        ensures { result ≡ off_edges self.now.rect (pt_at (points self.now) i) }
    {
        let point = point_at(self.path, i);
        let spot = self.rect.get_location(point);
        spot.off.then_some(SidePoint {
            point,
            side: spot.loc,
        })
    }

    // The point at position `i` that the walk has put down.
    fn point_at(&self, i: usize) -> Point64
        requires { i < self.now.state.points }
        ensures { result ≡ pt_at (points_of self.now.store.now) i }
    {
        point_at(self.store, i)
    }

    // `add` where a new result begins.
    fn begin(&mut self, pt: Point64) -> Result<(), Refusal>
        requires { Reached pt }
        ensures { Steps (add (full self.old) (walk self.old) pt true) self.old self.new result }
    {
        let n = self.state.points;
        if self.store.len() / 2 <= n {
            return Err(Refusal::StoreFull);
        }
        put_point(self.store, n, pt);
        put(self.work, RESULT, self.state.starts, n);
        self.state.points = n + 1;
        self.state.starts += 1;
        Ok(())
    }

    // `add`: a point equal to the one before is skipped, unless a new result begins.
    pub(crate) fn add(&mut self, pt: Point64, start_new: bool) -> Result<(), Refusal>
        requires { Reached pt }
        ensures { Steps (add (full self.old) (walk self.old) pt start_new) self.old self.new result }
    {
        let n = self.state.points;
        if start_new | (n == 0) {
            return self.begin(pt);
        }
        let last = self.point_at(n - 1);
        if last == pt {
            return Ok(());
        }
        if self.store.len() / 2 <= n {
            return Err(Refusal::StoreFull);
        }
        put_point(self.store, n, pt);
        self.state.points = n + 1;
        Ok(())
    }

    // Every point of the path is added.
    pub(crate) fn add_all(&mut self) -> Result<(), Refusal>
        ensures { Steps (add_all (full self.old) (walk self.old) (points self.old)) self.old self.new result }
    {
        for i in 0..self.path.len() / 2 {
            self.add(point_at(self.path, i), false)?;
        }
        Ok(())
    }

    // `start_locs.push(loc)`
    pub(crate) fn push_start_loc(&mut self, loc: Location) -> Result<(), Refusal>
        ensures { Steps (push_start_loc (full self.old) (walk self.old) loc) self.old self.new result }
    {
        let n = self.state.start_locs;
        if self.store.len() / 2 <= n {
            return Err(Refusal::StoreFull);
        }
        put(self.work, START_LOC, n, u32::from(loc) as usize);
        self.state.start_locs = n + 1;
        Ok(())
    }
}
