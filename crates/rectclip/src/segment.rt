// Signs of cross products, and the crossing of a segment and an edge in binary64: each operation rounds once, none fused.
ghost use Rattle.std.specs.Prelude.{◌≡◌};
ghost use Rattle.rounding.specs.Coordinate.{Limit, float};
ghost use Rattle.plane.specs.Limit.{Limited};
ghost use Rattle.plane.specs.Signs.{cross_product_sign, is_collinear, cross_product_is_negative, is_clockwise_dir};
ghost use Rattle.plane.specs.Segment.{working_of, crossing_of, point_at, settled_of, intersection};
ghost use Rattle.plane.specs.Found.{NearCrossing};
ghost use Rattle.rectclip.specs.Bounds.{Turn, cross_products, sign_of};

use plane::crossing::{Crossing, Working};
use plane::location::Location;
use plane::point::Point64;
use rounding::to_whole;
use std::cmp::Ordering;

// The two products whose difference is the cross product of a turn.
#[derive(Clone, Copy)]
pub(crate) struct Products {
    pub ab: i64,
    pub cd: i64,
}

// A segment of the path, or an edge of the rectangle: its ends are within the coordinate limit.
#[derive(Clone, Copy)]
pub(crate) struct Segment {
    pub from: Point64,
    pub to: Point64,
    ghost start: { Limited from },
    ghost end: { Limited to },
}

// The products of the turn p1, p2, p3. That they are in reach stays in the contracts: a struct for one call of three points is no plainer.
fn cross_products(p1: Point64, p2: Point64, p3: Point64) -> Products
    requires { Turn p1 p2 p3 }
    ensures { result ≡ cross_products p1 p2 p3 }
{
    let a = p2.x - p1.x;
    let b = p3.y - p2.y;
    let c = p2.y - p1.y;
    let d = p3.x - p2.x;
    let ab = a * b;
    let cd = c * d;
    Products { ab, cd }
}

// The sign of the cross product of the turn p1, p2, p3, as how it compares with 0.
#[tactic(auto, using(crate::proofs::CrossProducts::sign_is))]
pub(crate) fn cross_product_sign(p1: Point64, p2: Point64, p3: Point64) -> Ordering
    requires { Turn p1 p2 p3 }
    ensures { sign_of result ≡ cross_product_sign p1 p2 p3 }
{
    let turn = cross_products(p1, p2, p3);
    turn.ab.cmp(&turn.cd)
}

// Whether the three points are on one line.
#[tactic(auto, using(crate::proofs::CrossProducts::ab_is_cd), unfolding(plane::specs::Signs::is_collinear))]
pub(crate) fn is_collinear(p1: Point64, shared: Point64, p2: Point64) -> bool
    requires { Turn p1 shared p2 }
    ensures { result ≡ is_collinear p1 shared p2 }
{
    let turn = cross_products(p1, shared, p2);
    turn.ab == turn.cd
}

// A coordinate as a float.
fn to_float(z: i64) -> f64
    requires { Limit z }
    ensures { result ≡ float z }
{
    z as f64
}

// The point at the fraction t of the segment, cut toward zero.
#[tactic(auto, unfolding(plane::specs::Segment::point_at))]
fn point_along(w: Working, t: f64) -> Point64
    ensures { result ≡ point_at w t }
{
    let x = to_whole(w.x + t * w.dx);
    let y = to_whole(w.y + t * w.dy);
    Point64 { x, y }
}

// Where the segment and the edge meet: the crossing, its fraction cut to a point.
fn settled(c: Option<Crossing>, w: Working) -> Option<Point64>
    ensures { result ≡ settled_of c w }
{
    c.map(|crossing| match crossing {
        Crossing::At(p) => p,
        Crossing::Along(t) => point_along(w, t),
    })
}

impl Segment {
    // `cross_product_three_points < 0.0` of the turn at a point between the ends: within the coordinate limit the binary64 numbers are whole
    // numbers that i64 holds.
    fn cross_product_is_negative(self, shared: Point64) -> bool
        requires { Limited shared }
        ensures { result ≡ cross_product_is_negative self.from shared self.to }
    {
        let turn = cross_products(self.from, shared, self.to);
        turn.ab < turn.cd
    }

    // Whether the way from one location to another goes clockwise round the rectangle, whose mid point decides between opposite sides.
    #[tactic(auto, unfolding(plane::specs::Signs::is_clockwise_dir))]
    pub(crate) fn is_clockwise_dir(self, prev: Location, curr: Location, rect_mp: Point64) -> bool
        requires { Limited rect_mp }
        ensures { result ≡ is_clockwise_dir prev curr self.from self.to rect_mp }
    {
        if prev.are_opposites(curr) {
            self.cross_product_is_negative(rect_mp)
        } else {
            prev.heading_clockwise(curr)
        }
    }

    // The same segment, the other way.
    pub(crate) fn reversed(self) -> Segment
        ensures starts { result.from ≡ self.to }
        ensures ends { result.to ≡ self.from }
    {
        Segment {
            from: self.to,
            to: self.from,
        }
    }

    // The working of the segment against an edge.
    #[tactic(auto, unfolding(plane::specs::Segment::working_of))]
    fn measured(self, edge: Segment) -> Working
        ensures { result ≡ working_of self.from self.to edge.from edge.to }
    {
        let x = to_float(self.from.x);
        let y = to_float(self.from.y);
        let dx = to_float(self.to.x) - x;
        let dy = to_float(self.to.y) - y;
        let cx = to_float(edge.from.x);
        let cy = to_float(edge.from.y);
        let dx2 = to_float(edge.to.x) - cx;
        let dy2 = to_float(edge.to.y) - cy;
        let det = dy * dx2 - dy2 * dx;
        let t = ((x - cx) * dy2 - (y - cy) * dx2) / det;
        Working {
            x,
            y,
            dx,
            dy,
            det,
            t,
        }
    }

    // The crossing, before its fraction is cut to whole numbers.
    #[tactic(auto, unfolding(plane::specs::Segment::crossing_of))]
    fn found(self, w: Working) -> Option<Crossing>
        ensures { result ≡ crossing_of w self.from self.to }
    {
        if w.det == 0.0 {
            return None;
        }
        if w.t <= 0.0 {
            return Some(Crossing::At(self.from));
        }
        if w.t >= 1.0 {
            return Some(Crossing::At(self.to));
        }
        Some(Crossing::Along(w.t))
    }

    // Where the segment and an edge meet, in binary64.
    #[tactic(auto, using(theorems::proofs::Crossed::near_crossing), unfolding(plane::specs::Segment::intersection))]
    pub(crate) fn get_segment_intersect_pt(self, edge: Segment) -> Option<Point64>
        ensures is { result ≡ intersection self.from self.to edge.from edge.to }
        ensures near { NearCrossing self.from self.to edge.from edge.to result }
    {
        let w = self.measured(edge);
        settled(self.found(w), w)
    }
}
