// Widths by their codes.
ghost use Rattle.std.specs.Prelude.{◌≡◌};
ghost use Rattle.registers.specs.Codes.{decoded};

use super::Width;

impl Width {
    // The width that a control word asks for: its low four bits, where 0 means 16. Not a `From`, since it drops the other bits.
    pub fn coded(value: u16) -> Width
        ensures { result.stitches ≡ decoded value }
    {
        let code = value % 16;
        Width {
            stitches: if code == 0 { 16 } else { code },
        }
    }

    pub fn stitches(self) -> u16
        ensures { result ≡ self.stitches }
    {
        self.stitches
    }
}
