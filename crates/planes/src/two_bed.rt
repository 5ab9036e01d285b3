// A plane in two lent buffers, as a machine has two beds: even needles in front, odd ones behind.
ghost use Rattle.std.specs.Prelude.{◌≡◌, [], ◌∷◌};
ghost use Rattle.planes.specs.BedLayout.{bed_tall, bed_height, bed_on, bed_spare};

use crate::layout::capped;
use crate::{Plane, Refusal, Stretch};

// Two buffers side by side are what the machine has, a rule of the project.
#[derive(Drop)]
pub struct TwoBed<'f, 'b> {
    front: &'f mut [u8],
    back: &'b mut [u8],
}

impl<'f, 'b> TwoBed<'f, 'b> {
    // The plane that two buffers hold; no byte changes.
    pub fn new(front: &'f mut [u8], back: &'b mut [u8]) -> TwoBed<'f, 'b>
        ensures front { (result.front.now ≡ front.old) × (result.front.ghost_name ≡ front.entry.ghost_name) }
        ensures back { (result.back.now ≡ back.old) × (result.back.ghost_name ≡ back.entry.ghost_name) }
    {
        TwoBed { front, back }
    }

    // How many whole courses of 64 bytes both beds have, of the 1024 that a plane may have.
    fn tall(&self) -> u16
        ensures { result ≡ bed_height self.now.front.now self.now.back.now }
    {
        capped(self.front.len().min(self.back.len()) / 64)
    }
}

// It keeps the bytes of each bed past the last course, and who lent them.
impl<'f, 'b> Plane for TwoBed<'f, 'b> {
    ghost height = { λ p. bed_tall p.front.now p.back.now };

    ghost stitch = { λ p. bed_on p.front.now p.back.now };

    ghost rest = { λ p. (p.front.ghost_name ∷ bed_spare (bed_height p.front.now p.back.now) p.front.now) ∷ (p.back.ghost_name ∷ bed_spare (bed_height p.front.now p.back.now) p.back.now) ∷ [] };

    fn courses(&mut self) -> u16 {
        self.tall()
    }

    fn read(&mut self, at: Stretch) -> Result<u16, Refusal> {
        let index = at.index(self.tall())?;
        Ok(words::interleave(self.front[index], self.back[index]))
    }

    fn write(&mut self, at: Stretch, value: u16) -> Result<(), Refusal> {
        let index = at.index(self.tall())?;
        let (even, odd) = words::deal(value);
        self.front[index] = even;
        self.back[index] = odd;
        Ok(())
    }
}
