// Drawings on a board, through its public calls alone.
#![tactic(auto)]

ghost use Rattle.std.specs.Prelude.{◌≡◌, ◌≤◌};
ghost use Rattle.planes.specs.Answer.{instead};
ghost use Rattle.board.specs.State.{state_of};
ghost use Rattle.drawing.specs.Given.{area, covers, seen};
ghost use Rattle.drawing.specs.Fills.{fill_ruling, filled};
ghost use Rattle.drawing.specs.Spending.{Left};
ghost use Rattle.drawing.specs.Setting.{Drew};

use board::Board;
use carriage::{Carriage, by_course};
pub use lifting::lift;
use planes::{Course, Plane, Refusal};
pub use rect::{Frame, Rect};

mod carriage;
pub mod lifting;
pub mod rect;

// What a drawing makes of a stitch: a function code, and a mask that is aligned with words.
#[derive(Clone, Copy, PartialEq, Eq, Debug)]
pub struct Brush {
    pub code: u8,
    pub mask: u16,
}

// The rectangle of a frame on a board that takes accesses, or the first refusal that fits.
fn admitted<P: Plane>(board: &mut Board<P>, frame: Frame) -> Result<Rect, Refusal>
    ensures told { seen result ≡ fill_ruling (state_of P.Plane board.old) (area frame) }
    ensures same { state_of P.Plane board.new ≡ state_of P.Plane board.old }
{
    board.ready()?;
    frame.on(board.height())
}

impl<P: Plane> Carriage<'_, P> {
    // Fills a strip: one access for each course, after two that set width and needle.
    fn fill_strip(&mut self, strip: Rect)
        requires narrow { strip.w ≤ 16 }
        ensures drew { Drew (covers strip) (state_of P.Plane self.old.board.now).regs.function (state_of P.Plane self.old.board.now).regs.mask (state_of P.Plane self.old.board.now) (state_of P.Plane self.new.board.now) }
        ensures lent { self.new.board.ghost_name ≡ self.old.board.ghost_name }
    {
        self.aim(strip);
        for course in strip.y.0..strip.y.0 + strip.h {
            self.poke(by_course(Course(course), true), 0xFFFF);
        }
    }

    // Fills a rectangle, strip by strip.
    fn fill(&mut self, rect: Rect, brush: Brush)
        ensures drew { Drew (covers rect) brush.code brush.mask (state_of P.Plane self.old.board.now) (state_of P.Plane self.new.board.now) }
        ensures lent { self.new.board.ghost_name ≡ self.old.board.ghost_name }
    {
        self.ink(brush);
        for k in 0..rect.row_words() {
            self.fill_strip(rect.strip(k));
        }
    }
}

// Fills a rectangle: each of its stitches takes the bit of the code that its mask bit, a source bit of 1 and itself choose.
pub fn fill<P: Plane>(board: &mut Board<P>, frame: Frame, brush: Brush) -> Result<(), Refusal>
    ensures told { result ≡ instead tt (fill_ruling (state_of P.Plane board.old) (area frame)) }
    ensures shown { (state_of P.Plane board.new).shown ≡ filled (fill_ruling (state_of P.Plane board.old) (area frame)) brush.code brush.mask (state_of P.Plane board.old).shown }
    ensures left { Left result (state_of P.Plane board.old) (state_of P.Plane board.new) }
{
    let rect = admitted(board, frame)?;
    Carriage::of(board).fill(rect, brush);
    Ok(())
}
