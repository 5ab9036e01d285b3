// How many stitches an access updates: 1 to 16.
ghost use Rattle.std.specs.Prelude.{◌≤◌};

mod making;

#[derive(Clone, Copy, PartialEq, Eq, Debug)]
pub struct Width {
    stitches: u16,
    ghost some: { 1 ≤ stitches },
    ghost narrow: { stitches ≤ 16 },
}
