// Why a call is refused.
ghost use Rattle.std.specs.Prelude.{◌≡◌, Some, decimal};
ghost use Rattle.planes.specs.Refusals.{number};

use std::error::Error;
use std::fmt;

#[derive(Clone, Copy, PartialEq, Eq, Debug)]
pub enum Refusal {
    // a place that is off the chart; for a scan, a course that is not visible
    OffChart = 1,
    // a side of length 0
    Empty = 2,
    // a rectangle that passes the chart's edge
    TooLarge = 3,
    ShortBuffer = 4,
    // an odd address, or one of more than twenty bits
    BadAddress = 5,
    OtherUnit = 6,
    WordUnderWay = 7,
    NoWordUnderWay = 8,
    // a word that a plane does not have
    OffPlane = 9,
    JobTooLong = 10,
    // a field that runs past the job's end
    Truncated = 11,
    UnknownTag = 12,
    WrongLength = 13,
}

impl Refusal {
    // The number by which a refusal is known.
    pub fn number(self) -> u8
        ensures { result ≡ number self }
    {
        self as u8
    }
}

// By its number.
impl fmt::Display for Refusal {
    ghost output = { λ r. Some (decimal (number r)) };

    fn fmt<W: fmt::Write>(&self, f: &mut fmt::Formatter<W>) -> fmt::Result {
        let number = self.number();
        write!(f, "{number}")
    }
}

impl Error for Refusal {}
