// Units by the numbers given for them.
ghost use Rattle.std.specs.Prelude.{◌≡◌, ◌%◌};

use super::Unit;

impl Unit {
    // The low three bits of a number. Not a `From`, since it drops the others.
    pub fn new(number: u8) -> Unit
        ensures { result.number ≡ number % 8 }
    {
        Unit { number: number % 8 }
    }

    pub fn number(self) -> u8
        ensures { result ≡ self.number }
    {
        self.number
    }
}
