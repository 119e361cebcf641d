// Whether a point is in a polygon: `point_in_polygon` of core.rs, and `path1_contains_path2`.
ghost use Rattle.std.specs.Prelude.{◌≡◌, ◌*◌, ◌+◌, ◌-◌, ◌/◌, ◌≤◌, ◌<◌, eqb, pos, nat_abs, length, if◌then◌else◌};
ghost use Rattle.std.specs.Int.Signed.{lt_z};
ghost use Rattle.plane.specs.Points.{points_of};
ghost use Rattle.plane.specs.Polygon.{first_off, skipped, at_vertex, scan_pass, scan_answer, scan_loop, point_in_polygon, counted, contains_from, path1_contains_path2};
ghost use Rattle.rectclip.specs.Bounds.{Turn, Vertices, BothPaths};
ghost use Rattle.rectclip.specs.Scanned.{bit, scan_of, step_of, passing_of, line_of, passed_of, level_of, Scanning, answer_of};

use crate::lists::point_at;
use crate::segment::cross_product_sign;
use plane::location::PointInPolygonResult;
use plane::point::Point64;

// The point, the polygon that it is asked about, and the first vertex with another y than the point's, where the scan begins.
#[derive(Clone, Copy)]
pub(crate) struct Scanner<'a> {
    pt: Point64,
    polygon: &'a [i64],
    first_idx: usize,
    ghost vertices: { Vertices pt polygon.now },
    ghost first: { first_idx < length polygon.now / 2 },
}

// The variables of the scan round the polygon; `val`, the Rust's 0 or 1, is whether an odd number of edges has passed on the left of the point.
// That `curr_idx` is within the polygon stays in the contracts: it is of the scan and the polygon.
#[derive(Clone, Copy)]
pub(crate) struct Scan {
    curr_idx: usize,
    is_above: bool,
    wrap_to_start: bool,
    val: bool,
}

// How one pass of the scan ends: on the boundary, at its end, or going on.
#[derive(Clone, Copy)]
pub(crate) enum ScanStep {
    OnEdge,
    Stop(Scan),
    Again(Scan),
}

// How an edge passes the point: through it, on its right, or on its left.
#[derive(Clone, Copy)]
pub(crate) enum Passing {
    Through,
    Aside,
    Across,
}

// The first vertex with another y than the point's.
fn first_off(pt: Point64, polygon: &[i64]) -> usize
    ensures is { result ≡ first_off pt (points_of polygon.now) (length polygon.now / 2) 0 }
    ensures within { result ≤ length polygon.now / 2 }
{
    let n = polygon.len() / 2;
    (0..n)
        .find(|&i| point_at(polygon, i).y != pt.y)
        .unwrap_or(n)
}

// Whether y is on the side that the scan is on.
fn same_side(is_above: bool, y: i64, pt_y: i64) -> bool
    ensures { result ≡ (if is_above then lt_z y pt_y else lt_z pt_y y) }
{
    if is_above {
        return y < pt_y;
    }
    pt_y < y
}

// How the edge from prev to curr, whose end is not at the point's height, passes the point.
#[tactic(auto, using(crate::proofs::Segments::sign_zero, crate::proofs::Segments::sign_negative), unfolding(crate::specs::Scanned::passing_of))]
fn edge_passes(pt: Point64, prev: Point64, curr: Point64, is_above: bool) -> Passing
    requires { Turn prev curr pt }
    ensures { result ≡ passing_of pt prev curr is_above }
{
    let x = pt.x;
    let x1 = prev.x;
    let x2 = curr.x;
    if (x < x2) & (x < x1) {
        return Passing::Aside;
    }
    if (x1 < x) & (x2 < x) {
        return Passing::Across;
    }
    let turn = cross_product_sign(prev, curr, pt);
    if turn.is_eq() {
        return Passing::Through;
    }
    if turn.is_lt() == is_above {
        return Passing::Across;
    }
    Passing::Aside
}

// Whether an edge whose end is at the point's height holds the point.
fn on_line(pt: Point64, prev: Point64, curr: Point64) -> bool
    ensures { result ≡ line_of pt prev curr }
{
    let x = pt.x;
    let x1 = prev.x;
    let x2 = curr.x;
    (x2 == x) | ((curr.y == prev.y) & ((x < x1) != (x < x2)))
}

// The index before i, going round; the closed walk asks it too.
pub(crate) fn before_idx(i: usize, n: usize) -> usize
    requires { i < n }
    ensures is { result ≡ (if eqb i 0 then n - 1 else i - 1) }
    ensures within { result < n }
{
    if i == 0 {
        return n - 1;
    }
    i - 1
}

// A pass from the vertex at i, whose edge passes the point so.
fn passed(s: Scan, i: usize, how: Passing) -> ScanStep
    requires { i < 9223372036854775807 }
    ensures { result ≡ passed_of s i how }
{
    let t = Scan {
        curr_idx: i + 1,
        is_above: !s.is_above,
        ..s
    };
    match how {
        Passing::Through => ScanStep::OnEdge,
        Passing::Aside => ScanStep::Again(t),
        Passing::Across => ScanStep::Again(Scan { val: !s.val, ..t }),
    }
}

// A pass from the vertex at i, which is not skipped and is at the point's height.
fn level(s: Scan, i: usize, first_idx: usize, on: bool) -> ScanStep
    requires { i < 9223372036854775807 }
    ensures { result ≡ level_of s i first_idx on }
{
    if on {
        return ScanStep::OnEdge;
    }
    let t = Scan {
        curr_idx: i + 1,
        ..s
    };
    if i + 1 == first_idx {
        return ScanStep::Stop(t);
    }
    ScanStep::Again(t)
}

// Where a pass starts: at the first vertex, if the last is passed.
fn start_from(at_end: bool, curr_idx: usize) -> usize
    ensures { result ≡ (if at_end then 0 else curr_idx) }
{
    if at_end {
        return 0;
    }
    curr_idx
}

// The answer of a value.
fn answer_of(val: bool) -> PointInPolygonResult
    ensures { result ≡ answer_of val }
{
    if val {
        return PointInPolygonResult::IsInside;
    }
    PointInPolygonResult::IsOutside
}

impl Scanner<'_> {
    // The next vertex from `from` on that is not on the scan's side, or where the scan comes round. A `for` with a return: by `find`, here and in
    // the scan of next.rt, a polygon of 1,024 points round the rectangle takes 13,300 instructions a call more.
    fn skipped(&self, is_above: bool, wrap: bool, from: usize) -> usize
        requires { from ≤ length self.now.polygon.now / 2 }
        ensures is { result ≡ skipped self.now.pt (points_of self.now.polygon.now) is_above wrap self.now.first_idx (length self.now.polygon.now / 2) from }
        ensures within { result ≤ length self.now.polygon.now / 2 }
    {
        let n = self.polygon.len() / 2;
        for i in from..n {
            if wrap & (self.first_idx <= i) {
                return i;
            }
            let p = point_at(self.polygon, i);
            if !same_side(is_above, p.y, self.pt.y) {
                return i;
            }
        }
        n
    }

    // A pass from the vertex at i, which is not skipped.
    fn at_vertex(&self, s: Scan, i: usize) -> ScanStep
        requires { i < length self.now.polygon.now / 2 }
        ensures is { step_of result ≡ at_vertex self.now.pt (points_of self.now.polygon.now) self.now.first_idx s.is_above s.wrap_to_start (bit s.val) i }
        ensures within { Scanning (length self.now.polygon.now / 2) result }
    {
        let curr = point_at(self.polygon, i);
        let prev = point_at(self.polygon, before_idx(i, self.polygon.len() / 2));
        if curr.y == self.pt.y {
            return level(s, i, self.first_idx, on_line(self.pt, prev, curr));
        }
        passed(s, i, edge_passes(self.pt, prev, curr, s.is_above))
    }

    // One pass of the scan.
    #[tactic(auto, using(crate::proofs::ScanPasses::pass_stops, crate::proofs::ScanPasses::pass_skips, crate::proofs::ScanPasses::pass_vertex))]
    fn scan_pass(&self, s: Scan) -> ScanStep
        requires { s.curr_idx ≤ length self.now.polygon.now / 2 }
        ensures is { step_of result ≡ scan_pass self.now.pt (points_of self.now.polygon.now) self.now.first_idx (scan_of s) }
        ensures within { Scanning (length self.now.polygon.now / 2) result }
    {
        let n = self.polygon.len() / 2;
        let at_end = s.curr_idx == n;
        if at_end & (s.wrap_to_start | (self.first_idx == 0)) {
            return ScanStep::Stop(s);
        }
        let wrap_to_start = at_end | s.wrap_to_start;
        let from = start_from(at_end, s.curr_idx);
        let i = self.skipped(s.is_above, wrap_to_start, from);
        let t = Scan {
            curr_idx: i,
            wrap_to_start,
            ..s
        };
        if (i == n) | (wrap_to_start & (self.first_idx <= i)) {
            return ScanStep::Again(t);
        }
        self.at_vertex(t, i)
    }

    // What the scan answers at its end: the last edge is tested, if it was left on the other side than it was started on.
    #[tactic(auto, using(crate::proofs::ScanPasses::ends_alike, crate::proofs::ScanPasses::ends_on, crate::proofs::ScanPasses::ends_across, crate::proofs::ScanPasses::ends_aside, crate::proofs::Segments::sign_zero, crate::proofs::Segments::sign_negative))]
    fn scan_answer(&self, starting_above: bool, s: Scan) -> PointInPolygonResult
        requires { s.curr_idx ≤ length self.now.polygon.now / 2 }
        ensures { result ≡ scan_answer self.now.pt (points_of self.now.polygon.now) starting_above (scan_of s) }
    {
        let val = s.val;
        let is_above = s.is_above;
        if is_above == starting_above {
            return answer_of(val);
        }
        let n = self.polygon.len() / 2;
        let i = start_from(n <= s.curr_idx, s.curr_idx);
        let curr = point_at(self.polygon, i);
        let prev = point_at(self.polygon, before_idx(i, n));
        let turn = cross_product_sign(prev, curr, self.pt);
        if turn.is_eq() {
            return PointInPolygonResult::IsOn;
        }
        if turn.is_lt() == is_above {
            return answer_of(!val);
        }
        answer_of(val)
    }

    // The scan round the polygon, of at most so many passes.
    fn scan_loop(&self, passes: usize, starting_above: bool, start: Scan) -> PointInPolygonResult
        requires { start.curr_idx ≤ length self.now.polygon.now / 2 }
        ensures { result ≡ scan_loop self.now.pt (points_of self.now.polygon.now) self.now.first_idx passes starting_above (scan_of start) }
    {
        let mut s = start;
        for _pass in 0..passes {
            let step = self.scan_pass(s);
            match step {
                ScanStep::OnEdge => {
                    return PointInPolygonResult::IsOn;
                }
                ScanStep::Stop(t) => {
                    return self.scan_answer(starting_above, t);
                }
                ScanStep::Again(t) => {
                    s = t;
                }
            }
        }
        self.scan_answer(starting_above, s)
    }
}

// Whether the point is in the polygon, outside it, or on its boundary.
pub(crate) fn point_in_polygon(pt: Point64, polygon: &[i64]) -> PointInPolygonResult
    requires { Vertices pt polygon.now }
    ensures { result ≡ point_in_polygon pt (points_of polygon.now) }
{
    let n = polygon.len() / 2;
    if n < 3 {
        return PointInPolygonResult::IsOutside;
    }
    let first_idx = first_off(pt, polygon);
    if first_idx == n {
        return PointInPolygonResult::IsOutside;
    }
    let first = point_at(polygon, first_idx);
    let is_above = first.y < pt.y;
    let start = Scan {
        curr_idx: (first_idx + 1) % n,
        is_above,
        wrap_to_start: false,
        val: false,
    };
    let scanner = Scanner {
        pt,
        polygon,
        first_idx,
    };
    scanner.scan_loop(2 * n + 2, is_above, start)
}

// The count with one more answer.
fn counted(io_count: i64, answer: PointInPolygonResult) -> i64
    requires { nat_abs io_count ≤ 1 }
    ensures { result ≡ counted io_count answer }
{
    match answer {
        PointInPolygonResult::IsOutside => io_count + 1,
        PointInPolygonResult::IsInside => io_count - 1,
        PointInPolygonResult::IsOn => io_count,
    }
}

// The count over the points of path2, up to the first that tells.
fn contains_from(path1: &[i64], path2: &[i64]) -> i64
    requires { BothPaths path1.now path2.now }
    ensures { result ≡ contains_from (points_of path1.now) (pos 0) (points_of path2.now) }
{
    let mut io_count = 0;
    for i in 0..path2.len() / 2 {
        let pt = point_at(path2, i);
        let io = counted(io_count, point_in_polygon(pt, path1));
        if (io < -1) | (1 < io) {
            return io;
        }
        io_count = io;
    }
    io_count
}

// Whether path1 contains path2: its points are inside more than outside, up to the first that tells.
pub(crate) fn path1_contains_path2(path1: &[i64], path2: &[i64]) -> bool
    requires { BothPaths path1.now path2.now }
    ensures { result ≡ path1_contains_path2 (points_of path1.now) (points_of path2.now) }
{
    contains_from(path1, path2) <= 0
}
