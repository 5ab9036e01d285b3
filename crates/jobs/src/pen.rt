// The pen that a job draws with, and the guard that gives it back.
ghost use Rattle.std.specs.Prelude.{◌≡◌};
ghost use Rattle.drawing.specs.Given.{area};
ghost use Rattle.jobs.specs.Tasks.{pen_after};
ghost use Rattle.jobs.specs.Walking.{clipped};

use crate::task::Task;
use drawing::{Brush, Frame};
use planes::{Course, Needle};

// What is added to every place of a job. Not a `Cursor`, though it looks alike: it is no place, and neither is taken for the other.
#[derive(Clone, Copy, PartialEq, Eq, Debug)]
pub struct Origin {
    pub x: Needle,
    pub y: Course,
}

#[derive(Clone, Copy, PartialEq, Eq, Debug)]
pub struct Pen {
    pub brush: Brush,
    pub origin: Origin,
}

impl Pen {
    // A frame moved by the origin; a sum past the largest number stays there, off every chart.
    pub(crate) fn place(self, frame: Frame) -> Frame
        ensures { area result ≡ clipped self.origin (area frame) }
    {
        Frame {
            x: Needle(frame.x.0.saturating_add(self.origin.x.0)),
            y: Course(frame.y.0.saturating_add(self.origin.y.0)),
            ..frame
        }
    }

    // Takes what a task sets of the pen.
    pub(crate) fn set(&mut self, task: Task)
        ensures { self.new ≡ pen_after task self.old }
    {
        match task {
            Task::Code(code) => self.brush.code = code,
            Task::Mask(mask) => self.brush.mask = mask,
            Task::Origin(origin) => self.origin = origin,
            Task::Fill(_) => {}
        }
    }
}

// Holds the caller's pen while a job runs, and writes it back at the end, however that comes.
pub(crate) struct Held<'a> {
    pub(crate) pen: &'a mut Pen,
    pub(crate) saved: Pen,
}

impl Drop for Held<'_> {
    fn drop(self)
        ensures { self.exit.0.now ≡ self.entry.saved }
    {
        *self.pen = self.saved;
        let Held { pen: _, saved: _ } = self;
    }
}
