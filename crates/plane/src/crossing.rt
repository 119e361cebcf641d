// A crossing of a segment and an edge, the record of its binary64 numbers, and what a search over the edges finds.
ghost use Rattle.std.specs.Prelude.{◌≡◌};
ghost use Rattle.plane.specs.Intersection.{held_to_edge, found_or};

use crate::location::Location;
use crate::point::Point64;

// A crossing before it is cut to whole numbers: at a known point, or at a fraction of the segment.
#[derive(Clone, Copy)]
pub enum Crossing {
    At(Point64),
    Along(f64),
}

// The float working of one segment and one edge: the segment's start and differences, the determinant and the fraction.
#[derive(Clone, Copy)]
pub struct Working {
    pub x: f64,
    pub y: f64,
    pub dx: f64,
    pub dy: f64,
    pub det: f64,
    pub t: f64,
}

// A crossing, and its side.
#[derive(Clone, Copy, PartialEq, Eq)]
pub struct SidePoint {
    pub point: Point64,
    pub side: Location,
}

// The point that was met, put on the edge from c to d.
pub fn held_to_edge(met: Option<Point64>, c: Point64, d: Point64) -> Option<Point64>
    ensures { result ≡ held_to_edge c d met }
{
    met.map(|p| p.put_on_edge(c, d))
}

// What the search found, or what is given where it found nothing.
pub fn found_or(found: Option<SidePoint>, point: Point64, side: Location) -> SidePoint
    ensures { result ≡ found_or found point side }
{
    found.unwrap_or(SidePoint { point, side })
}
