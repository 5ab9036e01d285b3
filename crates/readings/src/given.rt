// What the readings are given.
use drawing::Frame;
use planes::{Course, Needle, Stretch, WordNumber};
use registers::Cursor;

pub(crate) fn place(x: u16, y: u16) -> Cursor {
    Cursor {
        x: Needle(x),
        y: Course(y),
    }
}

pub(crate) fn frame(x: u16, y: u16, w: u16, h: u16) -> Frame {
    Frame {
        x: Needle(x),
        y: Course(y),
        w,
        h,
    }
}

pub(crate) fn stretch(word: u16, course: u16) -> Stretch {
    Stretch {
        word: WordNumber(word),
        course: Course(course),
    }
}
