// What one field of a job asks for.
ghost use Rattle.std.specs.Prelude.{◌≡◌, min, false};
ghost use Rattle.board.specs.State.{state_of, busy};
ghost use Rattle.drawing.specs.Spending.{Left};
ghost use Rattle.jobs.specs.Tasks.{decoded, task_ruling};
ghost use Rattle.jobs.specs.Walking.{first_of, drawn_by};

use crate::pen::{Origin, Pen};
use board::Board;
use drawing::Frame;
use planes::{Course, Needle, Plane, Refusal};

#[derive(Clone, Copy, PartialEq, Eq, Debug)]
pub enum Task {
    Code(u8),
    Mask(u16),
    Origin(Origin),
    Fill(Frame),
}

// The task of a field, by its tag and its payload.
fn decode(tag: char, payload: &[u8]) -> Result<Task, Refusal>
    ensures { result ≡ decoded tag payload.now }
{
    match (tag, payload) {
        ('C', [code]) => Ok(Task::Code(*code)),
        ('K', [a, b]) => Ok(Task::Mask(words::joined(*a, *b))),
        ('O', [a, b, c, d]) => Ok(Task::Origin(Origin {
            x: Needle(words::joined(*a, *b)),
            y: Course(words::joined(*c, *d)),
        })),
        ('F', [a, b, c, d, e, f, g, h]) => Ok(Task::Fill(Frame {
            x: Needle(words::joined(*a, *b)),
            y: Course(words::joined(*c, *d)),
            w: words::joined(*e, *f),
            h: words::joined(*g, *h),
        })),
        ('C' | 'K' | 'O' | 'F', _) => Err(Refusal::WrongLength),
        _ => Err(Refusal::UnknownTag),
    }
}

// The task of the first field of these bytes, and how many bytes the field has.
pub(crate) fn first(bytes: &[u8]) -> Result<(Task, usize), Refusal>
    ensures { result ≡ first_of bytes.now }
{
    let [tag, high, low, body @ ..] = bytes else {
        return Err(Refusal::Truncated);
    };
    let size = usize::from(words::joined(*high, *low));
    if body.len() < size {
        return Err(Refusal::Truncated);
    }
    let task = decode(char::from(*tag), &body[..size])?;
    Ok((task, 3 + size))
}

impl Task {
    // Whether a plane of so many courses, or 1024 where that is less, takes what the task draws.
    pub(crate) fn check(self, pen: Pen, height: u16) -> Result<(), Refusal>
        ensures { result ≡ task_ruling (min 1024 height) pen self }
    {
        if let Task::Fill(frame) = self {
            pen.place(frame).on(height)?;
        }
        Ok(())
    }

    // Draws what the task draws.
    pub(crate) fn draw<P: Plane>(self, board: &mut Board<P>, pen: Pen) -> Result<(), Refusal>
        requires idle { busy (state_of P.Plane board.old) ≡ false }
        ensures told { result ≡ task_ruling (state_of P.Plane board.old).shown.height pen self }
        ensures shown { (state_of P.Plane board.new).shown ≡ drawn_by result pen self (state_of P.Plane board.old).shown }
        ensures left { Left result (state_of P.Plane board.old) (state_of P.Plane board.new) }
    {
        match self {
            Task::Fill(frame) => drawing::fill(board, pen.place(frame), pen.brush),
            _ => Ok(()),
        }
    }
}
