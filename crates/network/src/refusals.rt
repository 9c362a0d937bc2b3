// The refusals of the table of checks, each with its number, as in specs/Refusals.antt.
ghost use Rattle.std.specs.Prelude.{◌≡◌};
ghost use Rattle.network.specs.Refusals.{refusal_number};

use std::error::Error;
use std::fmt;

#[derive(Clone, Copy, Debug, PartialEq, Eq, PartialOrd, Ord)]
pub enum Refusal {
    // a file: the number that is faulty, or what follows the last
    EndsEarly = 1,
    NumberTooLong = 2,
    ZeroGroup = 3,
    BadNodeCount = 4,
    TooManyLinks = 5,
    EndNotANode = 6,
    EqualEnds = 7,
    LinkTooLarge = 8,
    BytesFollow = 9,
    // calls on a plan
    NoSuchLink = 10,
    CapacityTooLarge = 11,
    StackFull = 12,
    NothingToUndo = 13,
    NoSuchNode = 14,
    SameNode = 15,
    FlowLength = 16,
    DemandTooLarge = 17,
    BufferTooShort = 18,
    NotSound = 19,
    // a gate's record
    TooManyReadings = 20,
}

impl Refusal {
    // its number in the table
    // Kept: by `From` a use would say `u32::from(refusal)`, and no longer which number is meant.
    pub fn number(self) -> u32
        ensures { result ≡ refusal_number self }
    {
        self as u32
    }
}

// As in the table, by its number.
impl fmt::Display for Refusal {
    fn fmt<W: fmt::Write>(&self, f: &mut fmt::Formatter<W>) -> fmt::Result {
        write!(f, "{}", self.number())
    }
}

impl Error for Refusal {}
