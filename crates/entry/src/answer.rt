// What the entries answer.
ghost use Rattle.std.specs.Prelude.{◌≡◌};
ghost use Rattle.entry.specs.Answers.{number, value};

// Why a call is refused, in the order of the numbers 1 to 12; 9 is not used.
#[derive(Clone, Copy, PartialEq, Eq)]
pub enum Refusal {
    OddCoordinates = 1,
    StoreTooLong = 2,
    AllowanceTooLarge = 3,
    WorkTooShort = 4,
    PathTooLong = 5,
    RectangleOutside = 6,
    PathOutside = 7,
    StoreFull = 8,
    TurnsSpent = 10,
    ListsTooShort = 11,
    UnreadableLine = 12,
}

// Document 01's number.
impl From<Refusal> for u32 {
    fn from(why: Refusal) -> u32
        ensures { result ≡ number why }
    {
        why as u32
    }
}

// How many paths and points a result has, and how many turns it took.
#[derive(Clone, Copy, PartialEq, Eq)]
pub struct Counts {
    pub paths: u32,
    pub points: u32,
    pub turns: u32,
}

// What a clipper answers.
pub type Answer = Result<Counts, Refusal>;

// The value of an exported function: 0 where nothing is refused, else the refusal's number.
pub fn value(answer: Result<(), Refusal>) -> u32
    ensures { result ≡ value answer }
{
    match answer {
        Ok(()) => 0,
        Err(why) => u32::from(why),
    }
}
