// Where a point lies, seen from the rectangle, and the directions along its boundary.
ghost use Rattle.std.specs.Prelude.{◌≡◌, true, false};
ghost use Rattle.plane.specs.Rectangle.{spot};
ghost use Rattle.plane.specs.Locations.{side_number, side, is_inside, opposite, lower, upper, get_adjacent_location, heading_clockwise, are_opposites};

#[derive(Clone, Copy, PartialEq, Eq)]
pub enum Location {
    Left = Location::LEFT as isize,
    Top = Location::TOP as isize,
    Right = Location::RIGHT as isize,
    Bottom = Location::BOTTOM as isize,
    Inside = Location::INSIDE as isize,
}

// What `get_location` answers: the location, and whether the point is off the edges. No enum: callers read the location whichever the flag is.
#[derive(Clone, Copy)]
pub struct Spot {
    pub loc: Location,
    pub off: bool,
}

impl Spot {
    // On the edge of a side. Two constructors, and no flag at the calls, where it would say less than the names.
    pub(crate) fn on_edge(loc: Location) -> Spot
        ensures { result ≡ spot loc false }
    {
        Spot { loc, off: false }
    }

    // Beyond a side, or inside.
    pub(crate) fn off_edge(loc: Location) -> Spot
        ensures { result ≡ spot loc true }
    {
        Spot { loc, off: true }
    }
}

// What `point_in_polygon` answers.
#[derive(Clone, Copy, PartialEq, Eq)]
pub enum PointInPolygonResult {
    IsOn,
    IsInside,
    IsOutside,
}

// The place in the side order, as the Rust's `loc as i32`.
impl From<Location> for u32 {
    fn from(loc: Location) -> u32
        ensures { result ≡ side_number loc }
    {
        loc as u32
    }
}

impl Location {
    // The side order, clockwise from the left, as constants of the type, which document 01 asks for. The discriminants are written by them, so
    // that `From<Location>` promises what each of them is.
    pub const LEFT: u32 = 0;

    pub const TOP: u32 = 1;

    pub const RIGHT: u32 = 2;

    pub const BOTTOM: u32 = 3;

    pub const INSIDE: u32 = 4;

    // The side at a place in the side order. Total, as it was for its callers: a TryFrom would refuse 4 and above.
    pub fn from_number(n: u32) -> Location
        ensures { result ≡ side n }
    {
        match n {
            Location::LEFT => Location::Left,
            Location::TOP => Location::Top,
            Location::RIGHT => Location::Right,
            _ => Location::Bottom,
        }
    }

    pub fn is_inside(self) -> bool
        ensures { result ≡ is_inside self }
    {
        self == Location::Inside
    }

    // The side across the rectangle.
    pub fn opposite(self) -> Location
        ensures { result ≡ opposite self }
    {
        match self {
            Location::Left => Location::Right,
            Location::Top => Location::Bottom,
            Location::Right => Location::Left,
            Location::Bottom => Location::Top,
            Location::Inside => Location::Inside,
        }
    }

    // The neighbour at the end of the smaller coordinates.
    pub fn lower(self) -> Location
        ensures { result ≡ lower self }
    {
        match self {
            Location::Left => Location::Top,
            Location::Top => Location::Left,
            Location::Right => Location::Top,
            Location::Bottom => Location::Left,
            Location::Inside => Location::Inside,
        }
    }

    // The neighbour at the end of the larger coordinates. A table of its own, as plain as the side across from `lower`.
    pub fn upper(self) -> Location
        ensures { result ≡ upper self }
    {
        match self {
            Location::Left => Location::Bottom,
            Location::Top => Location::Right,
            Location::Right => Location::Bottom,
            Location::Bottom => Location::Right,
            Location::Inside => Location::Inside,
        }
    }

    pub fn get_adjacent_location(self, is_clockwise: bool) -> Location
        ensures { result ≡ get_adjacent_location self is_clockwise }
    {
        let n = u32::from(self);
        if is_clockwise {
            Location::from_number((n + 1) % 4)
        } else {
            Location::from_number((n + 3) % 4)
        }
    }

    pub fn heading_clockwise(self, curr: Location) -> bool
        ensures { result ≡ heading_clockwise self curr }
    {
        (u32::from(self) + 1) % 4 == u32::from(curr)
    }

    // Inside is number 4, so Right and Inside count as opposites, as in the Rust.
    pub fn are_opposites(self, curr: Location) -> bool
        ensures { result ≡ are_opposites self curr }
    {
        let a = u32::from(self);
        let b = u32::from(curr);
        a.abs_diff(b) == 2
    }
}
