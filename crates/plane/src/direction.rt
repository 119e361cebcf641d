// Directions along an edge, and overlaps of two stretches of one.
ghost use Rattle.std.specs.Prelude.{◌≡◌};
ghost use Rattle.plane.specs.Signs.{is_horizontal, is_heading_clockwise, has_horz_overlap, has_vert_overlap};

use crate::location::Location;
use crate::point::Point64;

// Whether two points are on one horizontal line.
pub fn is_horizontal(p: Point64, q: Point64) -> bool
    ensures { result ≡ is_horizontal p q }
{
    p.y == q.y
}

// Whether the way from pt1 to pt2 along a side goes clockwise round the rectangle.
pub fn is_heading_clockwise(pt1: Point64, pt2: Point64, side: Location) -> bool
    ensures { result ≡ is_heading_clockwise pt1 pt2 side }
{
    match side {
        Location::Left => pt2.y < pt1.y,
        Location::Top => pt1.x < pt2.x,
        Location::Right => pt1.y < pt2.y,
        Location::Bottom => pt2.x < pt1.x,
        Location::Inside => pt2.x < pt1.x,
    }
}

// Whether two stretches along x share more than a point.
pub fn has_horz_overlap(left1: Point64, right1: Point64, left2: Point64, right2: Point64) -> bool
    ensures { result ≡ has_horz_overlap left1 right1 left2 right2 }
{
    (left1.x < right2.x) & (left2.x < right1.x)
}

// Whether two stretches along y share more than a point. Two names of the Rust, of one line each: a function of four numbers would say no more.
pub fn has_vert_overlap(top1: Point64, bottom1: Point64, top2: Point64, bottom2: Point64) -> bool
    ensures { result ≡ has_vert_overlap top1 bottom1 top2 bottom2 }
{
    (top1.y < bottom2.y) & (top2.y < bottom1.y)
}
