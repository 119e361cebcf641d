// A side of the rectangle by its number, left, top, right and bottom being 0 to 3, and an edge list by its number.
// A number is plainer here than an enum: it is the place of the side's bit in an edge set, twice it is the first of the side's two edge lists,
// and loops count through it. `Location` would have to leave out the inside.
ghost use Rattle.std.specs.Prelude.{◌≡◌, ◌<◌};
ghost use Rattle.plane.specs.Locations.{side};
ghost use Rattle.plane.specs.Rectangle.{has_edge};
ghost use Rattle.reference.specs.Tidy.{is_horz, cw_is_toward_larger, cw_idx, ccw_idx};

use plane::location::Location;

#[derive(Clone, Copy)]
pub(crate) struct Side {
    pub idx: usize,
    ghost within: { idx < 4 },
}

// One of the eight edge lists: a side has two, of the edges that go clockwise and of those that go counter-clockwise.
#[derive(Clone, Copy)]
pub(crate) struct EdgeList {
    pub idx: usize,
    ghost within: { idx < 8 },
}

impl Side {
    // The list of the edges that go clockwise.
    pub(crate) fn cw(self) -> EdgeList
        ensures { result.idx ≡ cw_idx self.idx }
    {
        EdgeList { idx: self.idx * 2 }
    }

    // The list of the edges that go counter-clockwise.
    pub(crate) fn ccw(self) -> EdgeList
        ensures { result.idx ≡ ccw_idx self.idx }
    {
        EdgeList {
            idx: self.idx * 2 + 1,
        }
    }

    // Whether the side runs along x: top and bottom do.
    pub(crate) fn is_horz(self) -> bool
        ensures { result ≡ is_horz self.idx }
    {
        (self.idx == 1) | (self.idx == 3)
    }

    // Whether clockwise is toward the larger coordinate.
    pub(crate) fn cw_is_toward_larger(self) -> bool
        ensures { result ≡ cw_is_toward_larger self.idx }
    {
        (self.idx == 1) | (self.idx == 2)
    }

    // The side as a location.
    pub(crate) fn location(self) -> Location
        ensures { result ≡ side self.idx }
    {
        Location::from_number(self.idx as u32)
    }

    // Whether the set has the side: `edge_set & (1 << idx) != 0`.
    pub(crate) fn is_in(self, edge_set: u32) -> bool
        ensures { result ≡ has_edge self.idx edge_set }
    {
        (edge_set >> self.idx) % 2 == 1
    }
}
