// Stitches into a buffer, by a stream of reads. A read answers what the read before it loaded, so a stream has one read more than it has words.
ghost use Rattle.std.specs.Prelude.{◌≡◌, ◌*◌, ◌<◌, ◌≤◌, true, length, is_ok};
ghost use Rattle.words.specs.Bytes.{overlaid};
ghost use Rattle.planes.specs.Answer.{instead};
ghost use Rattle.board.specs.State.{state_of};
ghost use Rattle.drawing.specs.Given.{area, covers};
ghost use Rattle.drawing.specs.Lifts.{row_words, pattern_bytes, lift_ruling, lifted_byte, lifted, Rows};
ghost use Rattle.drawing.specs.Spending.{Left};
ghost use Rattle.drawing.specs.Setting.{Quiet, strip_bytes};

use crate::admitted;
use crate::carriage::{Carriage, by_course};
use crate::rect::{Frame, Rect};
use board::Board;
use planes::{Course, Plane, Refusal};

impl<P: Plane> Carriage<'_, P> {
    // Reads strip k of a rectangle. The board's width makes the spare bits zero.
    fn lift_strip(&mut self, rect: Rect, k: u16, buffer: &mut [u8])
        requires there { 16 * k < rect.w }
        requires room { pattern_bytes (covers rect) ≤ length buffer.old }
        ensures bytes { buffer.new ≡ overlaid (strip_bytes (row_words (covers rect)) k rect.h) (lifted_byte (state_of P.Plane self.old.board.now).shown (covers rect)) buffer.old }
        ensures quiet { Quiet (state_of P.Plane self.old.board.now) (state_of P.Plane self.new.board.now) }
        ensures lent { self.new.board.ghost_name ≡ self.old.board.ghost_name }
    {
        self.aim(rect.strip(k));
        let _ = self.peek(by_course(rect.y, false));
        let words = usize::from(rect.row_words());
        // By number: a strip's words lie a row apart, and after `chunks_mut` a proof knows nothing of what the chunks hold.
        for j in 0..rect.h {
            let next = (rect.y.0 + j + 1).min(1023);
            let word = self.peek(by_course(Course(next), false));
            words::store(buffer, usize::from(j) * words + usize::from(k), word);
        }
    }

    // Reads a rectangle, strip by strip.
    fn lift(&mut self, rect: Rect, buffer: &mut [u8])
        requires room { pattern_bytes (covers rect) ≤ length buffer.old }
        ensures bytes { buffer.new ≡ lifted (Ok (covers rect)) (state_of P.Plane self.old.board.now).shown buffer.old }
        ensures quiet { Quiet (state_of P.Plane self.old.board.now) (state_of P.Plane self.new.board.now) }
        ensures lent { self.new.board.ghost_name ≡ self.old.board.ghost_name }
    {
        for k in 0..rect.row_words() {
            self.lift_strip(rect, k, buffer);
        }
    }
}

// Writes the stitches of a rectangle into a buffer: rows of two bytes for each sixteen needles, the leftmost stitch in the highest bit, spare bits zero.
// No stitch changes, and later bytes stay.
pub fn lift<P: Plane>(board: &mut Board<P>, frame: Frame, buffer: &mut [u8]) -> Result<(), Refusal>
    ensures told { result ≡ instead tt (lift_ruling (state_of P.Plane board.old) (area frame) (length buffer.old)) }
    ensures bytes { buffer.new ≡ lifted (lift_ruling (state_of P.Plane board.old) (area frame) (length buffer.old)) (state_of P.Plane board.old).shown buffer.old }
    ensures rows { is_ok result ≡ true → Rows (state_of P.Plane board.old).shown (area frame) buffer.new }
    ensures shown { (state_of P.Plane board.new).shown ≡ (state_of P.Plane board.old).shown }
    ensures left { Left result (state_of P.Plane board.old) (state_of P.Plane board.new) }
{
    let rect = admitted(board, frame)?;
    if buffer.len() < rect.pattern_bytes() {
        return Err(Refusal::ShortBuffer);
    }
    Carriage::of(board).lift(rect, buffer);
    Ok(())
}
