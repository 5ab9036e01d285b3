// Courses moved up, the first ones round to the bottom.
ghost use Rattle.std.specs.Prelude.{◌≡◌, [], ◌∷◌};
ghost use Rattle.layers.specs.Layers.{rolled, roll_below};
ghost use Rattle.layers.specs.Laws.{roll_laws};

use crate::View;
use planes::{Course, Plane, Refusal, Stretch};

// Course y is course (y + by) mod the height below.
#[derive(Clone, Copy, PartialEq, Eq, Debug)]
pub struct Roll {
    by: u16,
}

impl Roll {
    // Rolled by so many courses.
    pub fn new(by: u16) -> Self
        ensures { result.by ≡ by }
    {
        Roll { by }
    }
}

// A layer keeps by how many courses it rolls. A plane without courses has no course below.
impl View for Roll {
    ghost shows = { λ r. rolled r.by };

    ghost below = { λ r. roll_below r.by };

    ghost turned = { λ _ n. n };

    ghost kept = { λ r. (r.by ∷ []) ∷ [] };

    ghost laws = { λ r. roll_laws r.by };

    fn below<P: Plane>(&self, plane: &mut P, at: Stretch) -> Result<Stretch, Refusal> {
        let tall = plane.courses();
        if at.course.0 >= tall {
            return Err(Refusal::OffPlane);
        }
        let sum = u32::from(at.course.0) + u32::from(self.by);
        Ok(Stretch {
            // the cast narrows a number below the height
            course: Course((sum % u32::from(tall)) as u16),
            ..at
        })
    }

    fn turned(&self, word: u16) -> u16 {
        word
    }
}
