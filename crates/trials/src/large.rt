// A plane that holds a mebibyte itself, beside the plane below it: whatever is passed on by value with it takes that along.
use planes::{Plane, Refusal, Stretch};

// How many bytes it holds.
const HELD: usize = 1048576;

#[derive(Drop)]
pub(crate) struct Large<P> {
    below: P,
    held: [u8; HELD],
}

impl<P> Large<P> {
    pub(crate) fn new(below: P) -> Large<P> {
        Large {
            below,
            held: [0; HELD],
        }
    }
}

impl<P: Plane> Plane for Large<P> {
    ghost height = { λ p. P.Plane.height p.below };

    ghost stitch = { λ p. P.Plane.stitch p.below };

    fn courses(&mut self) -> u16 {
        self.below.courses()
    }

    fn read(&mut self, at: Stretch) -> Result<u16, Refusal> {
        self.below.read(at)
    }

    fn write(&mut self, at: Stretch, value: u16) -> Result<(), Refusal> {
        self.below.write(at, value)
    }
}
