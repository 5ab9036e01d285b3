// What the trials are given. The readings have the like: to share them, tests would need a library that no program uses.
use drawing::{Brush, Frame};
use jobs::{Origin, Pen};
use planes::{Course, Needle, Stretch, WordNumber};

pub(crate) fn frame(x: u16, y: u16, w: u16, h: u16) -> Frame {
    Frame {
        x: Needle(x),
        y: Course(y),
        w,
        h,
    }
}

// A pen whose origin is a needle of course 0.
pub(crate) fn pen(code: u8, mask: u16, needle: u16) -> Pen {
    Pen {
        brush: Brush { code, mask },
        origin: Origin {
            x: Needle(needle),
            y: Course(0),
        },
    }
}

pub(crate) fn stretch(word: u16, course: u16) -> Stretch {
    Stretch {
        word: WordNumber(word),
        course: Course(course),
    }
}
