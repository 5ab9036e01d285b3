// The number of a board on its bus: three bits.
ghost use Rattle.std.specs.Prelude.{◌<◌};

mod making;

#[derive(Clone, Copy, PartialEq, Eq, Debug)]
pub struct Unit {
    number: u8,
    ghost small: { number < 8 },
}
