// Where a job went wrong.
ghost use Rattle.std.specs.Prelude.{◌≡◌, Some};
ghost use Rattle.jobs.specs.Faults.{blamed, fault_text};

use planes::Refusal;
use std::error::Error;
use std::fmt;

// A field's place in the job: its tag's byte, and how many fields stand before it.
#[derive(Clone, Copy, PartialEq, Eq, Debug, Default)]
pub struct Spot {
    pub place: usize,
    pub before: usize,
}

// Why a job is refused, and at which field.
#[derive(Clone, Copy, PartialEq, Eq, Debug)]
pub struct Fault {
    pub refusal: Refusal,
    pub spot: Spot,
}

impl Spot {
    // A refusal as one of the field at this spot; what is accepted is handed on.
    pub(crate) fn blame<T>(self, res: Result<T, Refusal>) -> Result<T, Fault>
        ensures { result ≡ blamed self res }
    {
        res.map_err(|refusal| Fault {
            refusal,
            spot: self,
        })
    }
}

// The refusal by its number, and the place.
impl fmt::Display for Fault {
    ghost output = { λ f. Some (fault_text f) };

    fn fmt<W: fmt::Write>(&self, f: &mut fmt::Formatter<W>) -> fmt::Result {
        let refusal = self.refusal;
        let place = self.spot.place;
        write!(f, "fault {refusal} at {place}")
    }
}

impl Error for Fault {}
