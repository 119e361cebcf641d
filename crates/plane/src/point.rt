// Points of the plane, as core.rs has them, and a point put on an edge.
ghost use Rattle.std.specs.Prelude.{◌≡◌};
ghost use Rattle.plane.specs.Intersection.{held_between, put_on_edge};
ghost use Rattle.plane.specs.Points.{point};

#[derive(Clone, Copy, PartialEq, Eq)]
pub struct Point64 {
    pub x: i64,
    pub y: i64,
}

impl Point64 {
    pub fn new(x: i64, y: i64) -> Point64
        ensures { result ≡ point x y }
    {
        Point64 { x, y }
    }

    // The point put on the edge from c to d, which is parallel to an axis: its coordinate across the edge becomes the edge's, and the one
    // along it is held between the edge's ends.
    pub(crate) fn put_on_edge(self, c: Point64, d: Point64) -> Point64
        ensures { result ≡ put_on_edge c d self }
    {
        if c.x == d.x {
            let y = held_between(c.y, d.y, self.y);
            return Point64 { x: c.x, y };
        }
        let x = held_between(c.x, d.x, self.x);
        Point64 { x, y: c.y }
    }
}

// z, held between a and b.
fn held_between(a: i64, b: i64, z: i64) -> i64
    ensures { result ≡ held_between a b z }
{
    z.clamp(a.min(b), a.max(b))
}
