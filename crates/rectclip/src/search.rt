// The crossing of a segment with an edge of the rectangle, and the search over the edges: `get_segment_intersection` and `get_intersection`.
ghost use Rattle.std.specs.Bool.{beq};
ghost use Rattle.std.specs.Option.{option_map};
ghost use Rattle.std.specs.Prelude.{◌≡◌, if◌then◌else◌, Some, None, false};
ghost use Rattle.std.specs.Int.Signed.{lt_z};
ghost use Rattle.plane.specs.Limit.{LimitedRect};
ghost use Rattle.plane.specs.Intersection.{at_end, get_segment_intersection, edge_from, edge_to, edge_intersection, side_intersection, get_intersection};
ghost use Rattle.plane.specs.Points.{pt_at};
ghost use Rattle.plane.specs.Rectangle.{as_path, is_empty};
ghost use Rattle.plane.specs.declared.location.Location.TheVariants.{Inside};
ghost use Rattle.reference.specs.Walk.{second_search};
ghost use Rattle.rectclip.specs.Boundary.{side_point};
ghost use Rattle.rectclip.specs.Parted.{edge_ends, beyond_intersection};

use crate::boundary::BoundaryPoint;
use crate::segment::{Segment, cross_product_sign};
use plane::crossing::{SidePoint, found_or};
use plane::direction::is_horizontal;
use plane::location::Location;
use plane::point::Point64;
use plane::rect::Rect64;

impl Segment {
    // The point p, which is on the segment's line, if it lies between the ends.
    #[tactic(auto, using(plane::proofs::Equality::same_point_is), unfolding(plane::specs::Intersection::at_end))]
    fn at_end(self, p: Point64) -> Option<Point64>
        ensures { result ≡ at_end p self.from self.to }
    {
        if (p == self.from) | (p == self.to) {
            return Some(p);
        }
        if is_horizontal(self.from, self.to) {
            return ((self.from.x < p.x) == (p.x < self.to.x)).then_some(p);
        }
        ((self.from.y < p.y) == (p.y < self.to.y)).then_some(p)
    }

    // The crossing of a segment whose ends are strictly on either side of the edge's line: an end of the edge on the segment, or a point between.
    #[tactic(auto, using(crate::proofs::Segments::sign_zero, crate::proofs::Segments::sign_positive), unfolding(crate::specs::Parted::edge_ends))]
    fn edge_ends(self, edge: Segment) -> Option<Point64>
        ensures { result ≡ edge_ends self.from self.to edge.from edge.to }
    {
        let res3 = cross_product_sign(edge.from, self.from, self.to);
        if res3.is_eq() {
            return self.at_end(edge.from);
        }
        let res4 = cross_product_sign(edge.to, self.from, self.to);
        if res4.is_eq() {
            return self.at_end(edge.to);
        }
        if res3.is_gt() == res4.is_gt() {
            return None;
        }
        self.get_segment_intersect_pt(edge)
    }

    // Where the segment and an edge meet, in whole numbers. Ends before floats; collinear segments answer no.
    #[tactic(auto, using(crate::proofs::Segments::sign_zero, crate::proofs::Segments::sign_positive), unfolding(plane::specs::Intersection::get_segment_intersection, crate::specs::Parted::edge_ends))]
    fn get_segment_intersection(self, edge: Segment) -> Option<Point64>
        ensures { result ≡ get_segment_intersection self.from self.to edge.from edge.to }
    {
        let res1 = cross_product_sign(self.from, edge.from, edge.to);
        let res2 = cross_product_sign(self.to, edge.from, edge.to);
        if res1.is_eq() {
            if res2.is_eq() {
                return None;
            }
            return edge.at_end(self.from);
        }
        if res2.is_eq() {
            return edge.at_end(self.to);
        }
        if res1.is_gt() == res2.is_gt() {
            return None;
        }
        self.edge_ends(edge)
    }
}

// The search over the edges of a rectangle for the crossing of a segment.
#[derive(Clone, Copy)]
pub(crate) struct Search {
    pub rect: Rect64,
    pub segment: Segment,
    ghost frame: { LimitedRect rect },
    ghost extent: { is_empty rect ≡ false },
}

impl Search {
    // The edge of a side.
    fn edge(self, side: Location) -> Segment
        ensures starts { result.from ≡ pt_at (as_path self.rect) (edge_from side) }
        ensures ends { result.to ≡ pt_at (as_path self.rect) (edge_to side) }
    {
        let (from, to) = match side {
            Location::Left => (Location::Left, Location::Bottom),
            Location::Top => (Location::Left, Location::Top),
            Location::Right => (Location::Top, Location::Right),
            Location::Bottom => (Location::Right, Location::Bottom),
            Location::Inside => (Location::Left, Location::Left),
        };
        Segment {
            from: self.rect.corner(from),
            to: self.rect.corner(to),
        }
    }

    // The crossing with the edge of a side. By `?` and no `map`, which copies what it answers over the stack in halves: a passing segment waits for them.
    #[tactic(auto, unfolding(plane::specs::Intersection::edge_intersection))]
    fn edge_intersection(self, side: Location) -> Option<SidePoint>
        ensures { result ≡ edge_intersection self.rect side self.segment.from self.segment.to }
    {
        let edge = self.edge(side);
        let point = self.segment.get_segment_intersection(edge)?;
        Some(SidePoint { point, side })
    }

    // The crossing with the edge of a side that the segment starts beyond.
    #[tactic(auto, unfolding(crate::specs::Parted::beyond_intersection))]
    fn beyond_intersection(self, side: Location) -> Option<SidePoint>
        ensures { result ≡ beyond_intersection self.rect side self.segment.from self.segment.to }
    {
        if self.rect.beyond(side, self.segment.from) {
            return self.edge_intersection(side);
        }
        None
    }

    // The crossing with the side's own edge; with the lower neighbour's, if the segment starts beyond that; with the upper neighbour's.
    #[tactic(auto, unfolding(plane::specs::Intersection::side_intersection, crate::specs::Parted::beyond_intersection))]
    fn side_intersection(self, side: Location) -> Option<SidePoint>
        ensures { result ≡ side_intersection self.rect side self.segment.from self.segment.to }
    {
        self.edge_intersection(side)
            .or_else(|| self.beyond_intersection(side.lower()))
            .or_else(|| self.edge_intersection(side.upper()))
    }

    // The crossing with the first of the four edges that has one.
    #[tactic(auto, unfolding(plane::specs::Intersection::get_intersection))]
    fn inside_intersection(self) -> Option<SidePoint>
        ensures { result ≡ get_intersection self.rect self.segment.from self.segment.to Inside }
    {
        self.edge_intersection(Location::Left)
            .or_else(|| self.edge_intersection(Location::Top))
            .or_else(|| self.edge_intersection(Location::Right))
            .or_else(|| self.edge_intersection(Location::Bottom))
    }

    // The crossing with the boundary, seen from a location.
    #[tactic(auto, unfolding(plane::specs::Intersection::get_intersection))]
    fn location_intersection(self, loc: Location) -> Option<SidePoint>
        ensures { result ≡ get_intersection self.rect self.segment.from self.segment.to loc }
    {
        match loc {
            Location::Inside => self.inside_intersection(),
            side => self.side_intersection(side),
        }
    }

    // The crossing of the segment with the boundary, seen from a location, and its side.
    #[tactic(auto, using(crate::proofs::Searches::in_reach))]
    pub(crate) fn get_intersection(self, loc: Location) -> Option<BoundaryPoint>
        ensures { option_map side_point result ≡ get_intersection self.rect self.segment.from self.segment.to loc }
    {
        let SidePoint { point, side } = self.location_intersection(loc)?;
        Some(BoundaryPoint { point, side })
    }

    // The second search of a segment that passes right through, after the first one's crossing: where the segment comes in.
    #[tactic(auto, using(crate::proofs::Searches::second_in_reach), unfolding(reference::specs::Walk::second_search))]
    pub(crate) fn second_search(self, prev: Location, first: BoundaryPoint) -> BoundaryPoint
        ensures { side_point result ≡ second_search self.rect self.segment.from self.segment.to prev first.point }
    {
        let found = self.location_intersection(prev);
        let SidePoint { point, side } = found_or(found, first.point, prev);
        BoundaryPoint { point, side }
    }
}
