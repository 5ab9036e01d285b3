// A board that a drawing works on, and the accesses that the drawing makes of it.
ghost use Rattle.std.specs.Prelude.{◌≡◌, ◌<◌, ◌≤◌, false};
ghost use Rattle.registers.specs.Accesses.{answered};
ghost use Rattle.board.specs.State.{state_of, busy};
ghost use Rattle.board.specs.Steps.{poking, peeking};
ghost use Rattle.drawing.specs.Given.{covers};
ghost use Rattle.drawing.specs.Setting.{Ready, Inked, Aimed, by_needle, by_course};

use crate::Brush;
use crate::rect::Rect;
use board::Board;
use planes::{Course, Plane};
use registers::{Access, Axis, Choice, Pair, Unit};

// A lent board with no word under way, and the unit that it answers to: it takes each access that is asked of this unit.
#[derive(Drop)]
pub(crate) struct Carriage<'b, P: Plane> {
    board: &'b mut Board<P>,
    unit: Unit,
    ghost ready: { Ready unit.number (state_of P.Plane board.now) },
}

// An access that sets the needle of pair 3, the only pair that drawings move.
fn by_needle(needle: u16, choice: Choice) -> Access
    ensures { result ≡ by_needle needle choice }
{
    Access {
        place: needle,
        axis: Axis::Across,
        pair: Pair::Three,
        choice,
        update: false,
    }
}

// An access to the source that sets the course of pair 3.
pub(crate) fn by_course(course: Course, update: bool) -> Access
    ensures { result ≡ by_course course.0 update }
{
    Access {
        place: course.0,
        axis: Axis::Down,
        pair: Pair::Three,
        choice: Choice::Source,
        update,
    }
}

// Each method that borrows a carriage says that its board is the same one (`lent`): no ghost field can, since it would have to speak of the value before.
impl<'b, P: Plane> Carriage<'b, P> {
    // The carriage of a board.
    pub(crate) fn of(board: &'b mut Board<P>) -> Carriage<'b, P>
        requires idle { busy (state_of P.Plane board.old) ≡ false }
        ensures lent { result.board.ghost_name ≡ board.entry.ghost_name }
        ensures same { result.board.now ≡ board.old }
    {
        let unit = board.registers().unit;
        Carriage { board, unit }
    }

    // A write by what it asks for. An access of any place is an `Access`, as old programs make them; here it has to have an address.
    pub(crate) fn poke(&mut self, access: Access, value: u16)
        requires near { access.place < 1024 }
        ensures step { state_of P.Plane self.new.board.now ≡ poking value access (state_of P.Plane self.old.board.now) }
        ensures lent { self.new.board.ghost_name ≡ self.old.board.ghost_name }
    {
        self.board.poke(access.address(self.unit), value).unwrap();
    }

    // A read by what it asks for; it answers what the source held before.
    pub(crate) fn peek(&mut self, access: Access) -> u16
        requires near { access.place < 1024 }
        ensures told { result ≡ answered (state_of P.Plane self.old.board.now).regs }
        ensures step { state_of P.Plane self.new.board.now ≡ peeking access (state_of P.Plane self.old.board.now) }
        ensures lent { self.new.board.ghost_name ≡ self.old.board.ghost_name }
    {
        self.board.peek(access.address(self.unit)).unwrap()
    }

    // Sets function and mask.
    pub(crate) fn ink(&mut self, brush: Brush)
        ensures inked { Inked brush.code brush.mask (state_of P.Plane self.old.board.now) (state_of P.Plane self.new.board.now) }
        ensures lent { self.new.board.ghost_name ≡ self.old.board.ghost_name }
    {
        self.poke(by_needle(0, Choice::Control), u16::from(brush.code));
        self.poke(by_needle(0, Choice::Mask), brush.mask);
    }

    // Sets the width and the needle of a strip, which is a `Rect` of at most sixteen needles: a type for those would save two clauses.
    pub(crate) fn aim(&mut self, strip: Rect)
        requires narrow { strip.w ≤ 16 }
        ensures aimed { Aimed (covers strip) (state_of P.Plane self.old.board.now) (state_of P.Plane self.new.board.now) }
        ensures lent { self.new.board.ghost_name ≡ self.old.board.ghost_name }
    {
        self.poke(by_needle(1, Choice::Control), strip.w);
        self.poke(by_needle(strip.x.0, Choice::Nothing), 0);
    }
}
