// On and off exchanged.
ghost use Rattle.layers.specs.Layers.{negated, negative_below, flipped};
ghost use Rattle.layers.specs.Laws.{negative_laws};

use crate::View;
use planes::{Plane, Refusal, Stretch};

// A needle is on where it is off below.
#[derive(Clone, Copy, PartialEq, Eq, Debug)]
pub struct Negative;

// Each word is where it is below, with each bit changed.
impl View for Negative {
    ghost shows = { λ _ _. negated };

    ghost below = { λ _. negative_below };

    ghost turned = { λ _. flipped };

    ghost laws = { λ _. negative_laws };

    fn below<P: Plane>(&self, _plane: &mut P, at: Stretch) -> Result<Stretch, Refusal> {
        Ok(at)
    }

    fn turned(&self, word: u16) -> u16 {
        !word
    }
}
