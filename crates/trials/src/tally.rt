// A plane that counts what is asked of the plane below it.
use planes::{Plane, Refusal, Stretch};

#[derive(Drop)]
pub(crate) struct Tally<P> {
    below: P,
    reads: u32,
    writes: u32,
}

impl<P> Tally<P> {
    pub(crate) fn new(below: P) -> Tally<P> {
        Tally {
            below,
            reads: 0,
            writes: 0,
        }
    }

    pub(crate) fn reads(&self) -> u32 {
        self.reads
    }

    pub(crate) fn writes(&self) -> u32 {
        self.writes
    }
}

impl<P: Plane> Plane for Tally<P> {
    ghost height = { λ p. P.Plane.height p.below };

    ghost stitch = { λ p. P.Plane.stitch p.below };

    fn courses(&mut self) -> u16 {
        self.below.courses()
    }

    fn read(&mut self, at: Stretch) -> Result<u16, Refusal> {
        self.reads = self.reads.saturating_add(1);
        self.below.read(at)
    }

    fn write(&mut self, at: Stretch, value: u16) -> Result<(), Refusal> {
        self.writes = self.writes.saturating_add(1);
        self.below.write(at, value)
    }
}
