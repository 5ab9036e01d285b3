// A rectangle of stitches: at least one needle wide and one course high, within 1024 by 1024.
ghost use Rattle.std.specs.Prelude.{◌+◌, ◌≤◌};

use planes::{Course, Needle};

mod making;

#[derive(Clone, Copy, PartialEq, Eq, Debug)]
pub struct Rect {
    pub x: Needle,
    pub y: Course,
    pub w: u16,
    pub h: u16,
    ghost wide: { 1 ≤ w },
    ghost high: { 1 ≤ h },
    ghost across: { x.0 + w ≤ 1024 },
    ghost down: { y.0 + h ≤ 1024 },
}

// A rectangle as a caller gives it, with nothing checked. A type of its own, since what `Rect` says of its numbers is not said of these.
#[derive(Clone, Copy, PartialEq, Eq, Debug)]
pub struct Frame {
    pub x: Needle,
    pub y: Course,
    pub w: u16,
    pub h: u16,
}
