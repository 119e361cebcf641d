// What a pass of the `while` of `RectClip64::execute_internal` knows, and what it hands to the next.
ghost use Rattle.std.specs.Prelude.{◌≡◌, ◌<◌};
ghost use Rattle.plane.specs.declared.location.Location.TheVariants.{Inside};

use crate::segment::Segment;
use plane::location::Location;

// What a pass of the `while` hands to the next. Until a side is crossed the last two are `Inside`, as the definition has them: an Option would be
// unwrapped wherever a side is compared or gone to, which is no plainer.
#[derive(Clone, Copy)]
pub(crate) struct ClosedState {
    pub i: usize,
    pub loc: Location,
    pub crossing_loc: Location,
    pub first_cross: Location,
}

impl ClosedState {
    // At the first point, with no crossing yet.
    pub(crate) fn new(loc: Location) -> ClosedState
        ensures { result ≡ record { i = 0; loc = loc; crossing_loc = Inside; first_cross = Inside } }
    {
        ClosedState {
            i: 0,
            loc,
            crossing_loc: Location::Inside,
            first_cross: Location::Inside,
        }
    }
}

// What a pass knows once `get_next_location` has moved on to the point `path[i]`, where the segment ends.
// The crossing that it finds goes beside it: a pass without one knows the same.
#[derive(Clone, Copy)]
pub(crate) struct Pass {
    pub i: usize,
    pub prev: Location,
    pub loc: Location,
    pub crossing_prev: Location,
    pub first_cross: Location,
    pub segment: Segment,
    ghost soon: { i < 18446744073709551615 },
}
