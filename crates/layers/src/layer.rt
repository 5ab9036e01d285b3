// A plane that shows the plane below it.
ghost use Rattle.std.specs.Prelude.{◌≡◌, ◌++◌};

use crate::View;
use planes::{Plane, Refusal, Stretch};

#[derive(Drop)]
pub struct Layer<V, P> {
    view: V,
    plane: P,
}

impl<V: View, P: Plane> Layer<V, P> {
    // A plane in another view; the plane itself does not change.
    pub fn new(view: V, plane: P) -> Self
        ensures view { result.view ≡ view }
        ensures plane { result.plane ≡ plane }
    {
        Layer { view, plane }
    }

    // The plane again.
    pub fn into_plane(self) -> P
        ensures { result ≡ self.plane }
    {
        let Layer { view: _, plane } = self;
        plane
    }
}

// It keeps what the plane below keeps, and what its view has it keep.
impl<V: View, P: Plane> Plane for Layer<V, P> {
    ghost height = { λ p. P.Plane.height p.plane };

    ghost stitch = { λ p. V.View.shows p.view (P.Plane.height p.plane).rows (P.Plane.stitch p.plane) };

    ghost rest = { λ p. V.View.kept p.view ++ P.Plane.rest p.plane };

    fn courses(&mut self) -> u16 {
        self.plane.courses()
    }

    fn read(&mut self, at: Stretch) -> Result<u16, Refusal> {
        let below = self.view.below(&mut self.plane, at)?;
        let there = self.plane.read(below)?;
        Ok(self.view.turned(there))
    }

    fn write(&mut self, at: Stretch, value: u16) -> Result<(), Refusal> {
        let below = self.view.below(&mut self.plane, at)?;
        let there = self.view.turned(value);
        self.plane.write(below, there)
    }
}
