// `get_next_location` of both clippers: from outside, points on the side's line or beyond are passed over; from inside, points
// are added until one is beyond a side.
ghost use Rattle.std.specs.Prelude.{◌≡◌, Bool, true, false, ◌+◌, ◌/◌, ◌≤◌, length, drop};
ghost use Rattle.plane.specs.Basics.{lead};
ghost use Rattle.plane.specs.Locations.{is_inside};
ghost use Rattle.plane.specs.Points.{points_of};
ghost use Rattle.reference.specs.Walk.{next_side, next_outside, next_inside, get_next_location};
ghost use Rattle.rectclip.specs.Moving.{past, past_line, exit_side, LineOf};
ghost use Rattle.rectclip.specs.Steps.{walk, full, points, next_of, Moves};

use crate::lists::point_at;
use crate::walk::Walker;
use entry::answer::Refusal;
use plane::location::Location;
use plane::point::Point64;
use plane::rect::Rect64;

// A side's line: a bound on x (offset 0) or y (offset 1), and whether outside is below it. No enum of sides: the scan reads one number of each point.
#[derive(Clone, Copy)]
pub(crate) struct Line {
    pub offset: usize,
    pub low: bool,
    pub bound: i64,
}

// Where the walk is on the path: at point `i`, at the location `loc`.
#[derive(Clone, Copy)]
pub(crate) struct Place {
    pub loc: Location,
    pub i: usize,
}

// The line of a side.
fn line_of(rect: Rect64, loc: Location) -> Line
    requires { is_inside loc ≡ false }
    ensures { LineOf rect loc result }
{
    match loc {
        Location::Left => Line {
            offset: 0,
            low: true,
            bound: rect.left,
        },
        Location::Top => Line {
            offset: 1,
            low: true,
            bound: rect.top,
        },
        Location::Right => Line {
            offset: 0,
            low: false,
            bound: rect.right,
        },
        Location::Bottom => Line {
            offset: 1,
            low: false,
            bound: rect.bottom,
        },
        Location::Inside => Line {
            offset: 0,
            low: true,
            bound: rect.left,
        },
    }
}

// Whether a coordinate is on the line or past it.
fn is_past(line: Line, v: i64) -> bool
    ensures { result ≡ past line v }
{
    if line.low {
        v <= line.bound
    } else {
        line.bound <= v
    }
}

// The first point from `from` on that is not past the line. A `for` with a return: by `find` a line that is a comb of 1,024 points takes
// 4,600 instructions a call more.
fn scan(path: &[i64], line: Line, from: usize) -> usize
    requires { line.offset ≤ 1 }
    ensures { result ≡ from + lead (past_line line) (drop from (points_of path.now)) }
{
    let n = path.len() / 2;
    for i in from..n {
        if !is_past(line, path[2 * i + line.offset]) {
            return i;
        }
    }
    from.max(n)
}

// Where a point is, seen from side `s`: across, beyond a neighbour, or inside. A chain, like `exit_side`: there it is said what a search over sides costs.
fn next_side(rect: Rect64, s: Location, p: Point64) -> Location
    ensures { result ≡ next_side rect s p }
{
    let across = s.opposite();
    if rect.beyond_or_on(across, p) {
        return across;
    }
    let lower = s.lower();
    if rect.beyond_or_on(lower, p) {
        return lower;
    }
    let upper = s.upper();
    if rect.beyond_or_on(upper, p) {
        return upper;
    }
    Location::Inside
}

// The side that a point is beyond, in the order left, right, bottom, top, or inside. A chain: by `find` over an array of the four, a line of 1,024
// points inside takes 48,000 instructions a call more, and a polygon that is a circle across the edges 12,400.
fn exit_side(rect: Rect64, p: Point64) -> Location
    ensures { result ≡ exit_side rect p }
{
    if rect.beyond(Location::Left, p) {
        return Location::Left;
    }
    if rect.beyond(Location::Right, p) {
        return Location::Right;
    }
    if rect.beyond(Location::Bottom, p) {
        return Location::Bottom;
    }
    if rect.beyond(Location::Top, p) {
        return Location::Top;
    }
    Location::Inside
}

impl Walker<'_> {
    // `get_next_location` from outside side `loc`.
    fn next_outside(&self, loc: Location, from: usize) -> Place
        requires { is_inside loc ≡ false }
        ensures { next_of self.now result ≡ next_outside self.now.rect (points self.now) (walk self.now) loc from }
    {
        let i = scan(self.path, line_of(self.rect, loc), from);
        if self.path.len() / 2 <= i {
            return Place { loc, i };
        }
        let side = next_side(self.rect, loc, point_at(self.path, i));
        Place { loc: side, i }
    }

    // `get_next_location` from inside.
    fn next_inside(&mut self, from: usize) -> Result<Place, Refusal>
        ensures { Moves (next_inside (full self.old) self.old.rect (walk self.old) from (drop from (points self.old))) self.old self.new result }
    {
        // read once: an instruction less for each point
        let path = self.path;
        let n = path.len() / 2;
        for i in from..n {
            let p = point_at(path, i);
            let loc = exit_side(self.rect, p);
            if !loc.is_inside() {
                return Ok(Place { loc, i });
            }
            self.add(p, false)?;
        }
        Ok(Place {
            loc: Location::Inside,
            i: from.max(n),
        })
    }

    // `get_next_location`, of both clippers.
    pub(crate) fn get_next_location(&mut self, at: Place) -> Result<Place, Refusal>
        ensures { Moves (get_next_location (full self.old) self.old.rect (points self.old) (walk self.old) at.loc at.i) self.old self.new result }
    {
        if at.loc.is_inside() {
            return self.next_inside(at.i);
        }
        Ok(self.next_outside(at.loc, at.i))
    }
}
