// The fields of a job, one after the other.
ghost use Rattle.std.specs.Prelude.{◌≡◌, ◌+◌, ◌<◌, ◌≤◌, ◌^◌, length};
ghost use Rattle.std.specs.Iterator.{item_count};
ghost use Rattle.jobs.specs.Faults.{start};
ghost use Rattle.jobs.specs.Walking.{Gives};

use crate::fault::{Fault, Spot};
use crate::task::{self, Task};

// What is left of a job, and the spot of its first field.
#[derive(Drop)]
pub(crate) struct Fields<'a> {
    rest: &'a [u8],
    spot: Spot,
    ghost counted: { spot.before ≤ spot.place },
    ghost within: { spot.place + length rest.now < 2 ^ 64 },
}

impl<'a> Fields<'a> {
    // All fields of a job.
    pub(crate) fn of(job: &'a [u8]) -> Fields<'a>
        ensures whole { result.rest.now ≡ job.now }
        ensures first { result.spot ≡ start }
    {
        Fields {
            rest: job,
            spot: Spot::default(),
        }
    }
}

// Each field as its task and its spot. At a field that has no task it gives the fault there, and then ends.
impl Iterator for Fields<'_> {
    type Item = Result<(Task, Spot), Fault>;

    ghost next_gives = { λ s r t. Gives s.spot s.rest.now r t.spot t.rest.now };

    ghost remaining = { item_count (λ s. s.rest.now) };

    fn next(&mut self) -> Option<Result<(Task, Spot), Fault>> {
        if self.rest.is_empty() {
            return None;
        }
        let spot = self.spot;
        // A match: both arms move `self` on, each in its way.
        match task::first(self.rest) {
            Ok((task, size)) => {
                self.rest = &self.rest[size..];
                self.spot = Spot {
                    place: spot.place + size,
                    before: spot.before + 1,
                };
                Some(Ok((task, spot)))
            }
            Err(refusal) => {
                self.rest = &[];
                Some(Err(Fault { refusal, spot }))
            }
        }
    }
}
