// What a search over the edges finds.
ghost use Rattle.rectclip.specs.Bounds.{Reached};

use plane::location::Location;
use plane::point::Point64;

// A point where a segment crosses the boundary, and the side: the point is in reach.
#[derive(Clone, Copy)]
pub(crate) struct BoundaryPoint {
    pub point: Point64,
    pub side: Location,
    ghost near: { Reached point },
}
