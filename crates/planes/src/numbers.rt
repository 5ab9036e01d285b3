// Numbers that count different things, each in a type of its own.
ghost use Rattle.std.specs.Prelude.{◌≡◌, ◌+◌, ◌*◌, ◌/◌};
ghost use Rattle.planes.specs.Answer.{answer};

use crate::Refusal;

// A column of stitches, from the left.
#[derive(Clone, Copy, PartialEq, Eq, PartialOrd, Ord, Hash, Default, Debug)]
pub struct Needle(pub u16);

// A row of stitches, from the top.
#[derive(Clone, Copy, PartialEq, Eq, PartialOrd, Ord, Hash, Default, Debug)]
pub struct Course(pub u16);

// Sixteen neighbouring needles: word c holds needles 16 c to 16 c + 15.
#[derive(Clone, Copy, PartialEq, Eq, PartialOrd, Ord, Hash, Default, Debug)]
pub struct WordNumber(pub u16);

// One word of one course: sixteen neighbouring stitches.
#[derive(Clone, Copy, PartialEq, Eq, PartialOrd, Ord, Hash, Default, Debug)]
pub struct Stretch {
    pub word: WordNumber,
    pub course: Course,
}

impl Needle {
    // The word that holds this needle.
    pub fn word(self) -> WordNumber
        ensures { result.0 ≡ self.0 / 16 }
    {
        WordNumber(self.0 / 16)
    }

    // The word to the right of it.
    pub fn next_word(self) -> WordNumber
        ensures { result.0 ≡ self.0 / 16 + 1 }
    {
        WordNumber(self.word().0 + 1)
    }
}

impl Stretch {
    // Its place among all the words of a plane, course after course; a plane of so many courses refuses the others.
    pub(crate) fn index(self, tall: u16) -> Result<usize, Refusal>
        ensures { result ≡ answer tall self.word.0 self.course.0 (64 * self.course.0 + self.word.0) }
    {
        if self.word.0 >= 64 || self.course.0 >= tall {
            return Err(Refusal::OffPlane);
        }
        Ok(64 * usize::from(self.course.0) + usize::from(self.word.0))
    }
}
