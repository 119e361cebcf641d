// A path surveyed: its bounds, and whether it is within the coordinate limit.
ghost use Rattle.std.specs.Prelude.{◌≡◌};
ghost use Rattle.plane.specs.Points.{points_of};
ghost use Rattle.plane.specs.Rectangle.{grown, no_bounds};
ghost use Rattle.entry.specs.Survey.{survey};

use plane::point::Point64;
use plane::rect::Rect64;

// A path's bounds, which are promised of every path, so that this is no Option; and whether every coordinate is within the limit.
#[derive(Clone, Copy)]
pub struct Extent {
    pub bounds: Rect64,
    pub in_limit: bool,
}

// The bounds of nothing: `Rect::invalid`.
fn no_bounds() -> Rect64
    ensures { result ≡ no_bounds }
{
    Rect64 {
        left: i64::MAX,
        top: i64::MAX,
        right: i64::MIN,
        bottom: i64::MIN,
    }
}

// The bounds with one more point.
fn grown(s: Rect64, p: Point64) -> Rect64
    ensures { result ≡ grown s p }
{
    let left = s.left.min(p.x);
    let top = s.top.min(p.y);
    let right = p.x.max(s.right);
    let bottom = p.y.max(s.bottom);
    Rect64 {
        left,
        top,
        right,
        bottom,
    }
}

// The bounds of a path, as `get_bounds_path` gives them, and whether every coordinate is within the limit; an odd last number is no
// point. One loop reads each coordinate once: a path that has points is within the limit exactly if its bounds are.
// A slice pattern and no `for`: 11,807 instructions for 1,024 points, where a `for` over positions or over `as_chunks` has 12,328. Over
// `chunks_exact(2)` it has 11,809, but a pair would be read by two indices.
pub fn survey(path: &[i64]) -> Extent
    ensures { result ≡ survey (points_of path.now) }
{
    let mut bounds = no_bounds();
    let mut rest = path;
    while let [x, y, behind @ ..] = rest {
        bounds = grown(bounds, Point64 { x: *x, y: *y });
        rest = behind;
    }
    if path.len() < 2 {
        return Extent {
            bounds,
            in_limit: true,
        };
    }
    let in_limit = bounds.in_limit();
    Extent { bounds, in_limit }
}
