// The rectangle: its tests, corners and mid point, and where a point lies. Y grows downward: top is the smaller y.
ghost use Rattle.std.specs.Prelude.{◌≡◌, ◌≤◌, pos, ◌+ℤ◌, if◌then◌else◌};
ghost use Rattle.plane.specs.Rectangle.{is_empty, contains_point, contains_rect, intersects, max, min, mid_point, as_path, corner, beyond, beyond_or_on, get_location, get_edges_for_pt, rect};
ghost use Rattle.plane.specs.Limit.{in_limit, rect_in_limit};
ghost use Rattle.plane.specs.Points.{coordinates_of};
ghost use Rattle.integers.specs.Tests.{eq_z};
ghost use Rattle.std.specs.Int.Signed.{quot_z};

use crate::location::{Location, Spot};
use crate::point::Point64;

#[derive(Clone, Copy, PartialEq, Eq)]
pub struct Rect64 {
    pub left: i64,
    pub top: i64,
    pub right: i64,
    pub bottom: i64,
}

impl Rect64 {
    // The coordinate limit: within ± this every product that the clippers form is exact in i64.
    pub const MAX_COORDINATE: i64 = 33554432;

    pub fn new(left: i64, top: i64, right: i64, bottom: i64) -> Rect64
        ensures { result ≡ rect left top right bottom }
    {
        Rect64 {
            left,
            top,
            right,
            bottom,
        }
    }

    pub fn is_empty(self) -> bool
        ensures { result ≡ is_empty self }
    {
        (self.right <= self.left) | (self.bottom <= self.top)
    }

    // Strictly inside.
    pub fn contains_point(self, p: Point64) -> bool
        ensures { result ≡ contains_point self p }
    {
        (self.left < p.x) & (p.x < self.right) & (self.top < p.y) & (p.y < self.bottom)
    }

    // Touching from within is accepted.
    pub fn contains_rect(self, other: Rect64) -> bool
        ensures { result ≡ contains_rect self other }
    {
        (self.left <= other.left)
            & (other.right <= self.right)
            & (self.top <= other.top)
            & (other.bottom <= self.bottom)
    }

    // Touching is accepted.
    pub fn intersects(self, other: Rect64) -> bool
        ensures { result ≡ intersects self other }
    {
        let l = self.left.max(other.left);
        let r = other.right.min(self.right);
        let t = self.top.max(other.top);
        let b = other.bottom.min(self.bottom);
        (l <= r) & (t <= b)
    }

    // Halves toward zero.
    pub fn mid_point(self) -> Point64
        ensures { result ≡ mid_point self }
    {
        let x = self.left.midpoint(self.right);
        let y = self.top.midpoint(self.bottom);
        Point64 { x, y }
    }

    // The corners' coordinates: left-top, right-top, right-bottom, left-bottom. By four calls of `corner` it would be longer, and no plainer.
    pub fn corners(self) -> [i64; 8]
        ensures { result ≡ coordinates_of (as_path self) }
    {
        let l = self.left;
        let t = self.top;
        let r = self.right;
        let b = self.bottom;
        [l, t, r, t, r, b, l, b]
    }

    // The corner that a side's edge ends in, going clockwise round the rectangle: `rect_as_path[loc as usize]`.
    pub fn corner(self, loc: Location) -> Point64
        ensures { result ≡ corner self loc }
    {
        let l = self.left;
        let t = self.top;
        let r = self.right;
        let b = self.bottom;
        match loc {
            Location::Left => Point64 { x: l, y: t },
            Location::Top => Point64 { x: r, y: t },
            Location::Right => Point64 { x: r, y: b },
            Location::Bottom => Point64 { x: l, y: b },
            Location::Inside => Point64 { x: l, y: t },
        }
    }

    // Whether the point is beyond a side.
    pub fn beyond(self, loc: Location, p: Point64) -> bool
        ensures { result ≡ beyond self loc p }
    {
        match loc {
            Location::Left => p.x < self.left,
            Location::Top => p.y < self.top,
            Location::Right => self.right < p.x,
            Location::Bottom => self.bottom < p.y,
            Location::Inside => false,
        }
    }

    // Whether the point is on a side's line or beyond it. One function with `beyond` would want the comparison passed in, which is no plainer.
    pub fn beyond_or_on(self, loc: Location, p: Point64) -> bool
        ensures { result ≡ beyond_or_on self loc p }
    {
        match loc {
            Location::Left => p.x <= self.left,
            Location::Top => p.y <= self.top,
            Location::Right => self.right <= p.x,
            Location::Bottom => self.bottom <= p.y,
            Location::Inside => false,
        }
    }

    // The side that the point is on, and false; or the side that it is beyond, or inside, and true.
    pub fn get_location(self, p: Point64) -> Spot
        ensures { result ≡ get_location self p }
    {
        let x = p.x;
        let y = p.y;
        let l = self.left;
        let t = self.top;
        let r = self.right;
        let b = self.bottom;
        if (x == l) & (t <= y) & (y <= b) {
            return Spot::on_edge(Location::Left);
        }
        if (x == r) & (t <= y) & (y <= b) {
            return Spot::on_edge(Location::Right);
        }
        if (y == t) & (l <= x) & (x <= r) {
            return Spot::on_edge(Location::Top);
        }
        if (y == b) & (l <= x) & (x <= r) {
            return Spot::on_edge(Location::Bottom);
        }
        if x < l {
            return Spot::off_edge(Location::Left);
        }
        if r < x {
            return Spot::off_edge(Location::Right);
        }
        if y < t {
            return Spot::off_edge(Location::Top);
        }
        if b < y {
            return Spot::off_edge(Location::Bottom);
        }
        Spot::off_edge(Location::Inside)
    }

    // The edges whose lines the point is on, as bits: left 1, top 2, right 4, bottom 8; the first of two opposite ones.
    pub fn get_edges_for_pt(self, pt: Point64) -> u32
        ensures { result ≡ get_edges_for_pt pt self }
    {
        let across = line_bit(pt.x, self.left, self.right, 1, 4);
        let down = line_bit(pt.y, self.top, self.bottom, 2, 8);
        across + down
    }

    // Whether every coordinate is within the limit.
    pub fn in_limit(self) -> bool
        ensures { result ≡ rect_in_limit self }
    {
        within_limit(self.left)
            & within_limit(self.top)
            & within_limit(self.right)
            & within_limit(self.bottom)
    }
}

// Whether a coordinate is within the limit.
fn within_limit(z: i64) -> bool
    ensures { result ≡ in_limit z }
{
    (-Rect64::MAX_COORDINATE..=Rect64::MAX_COORDINATE).contains(&z)
}

// The bit of the line that z is on, the first if it is on both, and 0 if it is on neither: bits, since `get_edges_for_pt` answers a set of edges as a number.
fn line_bit(z: i64, first: i64, second: i64, first_bit: u32, second_bit: u32) -> u32
    requires { first_bit ≤ 8 × second_bit ≤ 8 }
    ensures small { result ≤ 8 }
    ensures is { result ≡ (if eq_z z first then first_bit else if eq_z z second then second_bit else 0) }
{
    if z == first {
        return first_bit;
    }
    if z == second {
        return second_bit;
    }
    0
}
