// Left and right exchanged.
ghost use Rattle.layers.specs.Layers.{mirrored, mirror_below, reversed};
ghost use Rattle.layers.specs.Laws.{mirror_laws};

use crate::View;
use planes::{Plane, Refusal, Stretch, WordNumber};

// Needle x is needle 1023 - x below.
#[derive(Clone, Copy, PartialEq, Eq, Debug)]
pub struct Mirror;

// Word w is word 63 - w below, with its bits in the other order.
impl View for Mirror {
    ghost shows = { λ _ _. mirrored };

    ghost below = { λ _. mirror_below };

    ghost turned = { λ _. reversed };

    ghost laws = { λ _. mirror_laws };

    fn below<P: Plane>(&self, _plane: &mut P, at: Stretch) -> Result<Stretch, Refusal> {
        if at.word.0 >= 64 {
            return Err(Refusal::OffPlane);
        }
        Ok(Stretch {
            word: WordNumber(63 - at.word.0),
            ..at
        })
    }

    fn turned(&self, word: u16) -> u16 {
        words::reverse(word)
    }
}
