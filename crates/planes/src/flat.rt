// A plane in one lent buffer, course after course.
ghost use Rattle.std.specs.Prelude.{◌≡◌, [], ◌∷◌};
ghost use Rattle.planes.specs.FlatLayout.{flat_tall, flat_height, flat_on, flat_spare};

use crate::layout::capped;
use crate::{Plane, Refusal, Stretch};

#[derive(Drop)]
pub struct Flat<'a> {
    bytes: &'a mut [u8],
}

impl<'a> Flat<'a> {
    // The plane that a buffer holds; no byte changes.
    pub fn new(bytes: &'a mut [u8]) -> Flat<'a>
        ensures held { result.bytes.now ≡ bytes.old }
        ensures lent { result.bytes.ghost_name ≡ bytes.entry.ghost_name }
    {
        Flat { bytes }
    }

    // How many whole courses of 128 bytes there are, of the 1024 that a plane may have.
    fn tall(&self) -> u16
        ensures { result ≡ flat_height self.now.bytes.now }
    {
        capped(self.bytes.len() / 128)
    }
}

// It keeps the bytes past the last course, and who lent them.
impl<'a> Plane for Flat<'a> {
    ghost height = { λ p. flat_tall p.bytes.now };

    ghost stitch = { λ p. flat_on p.bytes.now };

    ghost rest = { λ p. (p.bytes.ghost_name ∷ flat_spare p.bytes.now) ∷ [] };

    fn courses(&mut self) -> u16 {
        self.tall()
    }

    fn read(&mut self, at: Stretch) -> Result<u16, Refusal> {
        let first = 2 * at.index(self.tall())?;
        Ok(words::joined(self.bytes[first], self.bytes[first + 1]))
    }

    fn write(&mut self, at: Stretch, value: u16) -> Result<(), Refusal> {
        let index = at.index(self.tall())?;
        words::store(self.bytes, index, value);
        Ok(())
    }
}
