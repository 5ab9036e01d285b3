// A place on the chart, of which an access sets one coordinate.
ghost use Rattle.std.specs.Prelude.{◌≡◌};
ghost use Rattle.registers.specs.Codes.{moved};

use planes::{Course, Needle};

#[derive(Clone, Copy, PartialEq, Eq, Debug)]
pub enum Axis {
    Across,
    Down,
}

#[derive(Clone, Copy, PartialEq, Eq, Default, Debug)]
pub struct Cursor {
    pub x: Needle,
    pub y: Course,
}

impl Cursor {
    // Sets one coordinate.
    pub fn set(&mut self, axis: Axis, place: u16)
        ensures { self.new ≡ moved axis place self.old }
    {
        match axis {
            Axis::Across => self.x = Needle(place),
            Axis::Down => self.y = Course(place),
        }
    }
}
