// A board: a plane, and the registers that work on it.
#![tactic(auto)]

ghost use Rattle.std.specs.Prelude.{◌≡◌, true, is_err};
ghost use Rattle.planes.specs.Answer.{instead};
ghost use Rattle.planes.specs.Chart.{chart_of};
ghost use Rattle.registers.specs.Accesses.{admitted, answered, interrupted};
ghost use Rattle.board.specs.State.{state_of, fresh_board, initiated, retraced_board, free};
ghost use Rattle.board.specs.Steps.{poked, peeked};

use planes::{Plane, Refusal};
use registers::{Registers, Unit};
pub use slip::Slip;

mod reach;
mod scan;
pub mod slip;
mod telling;

#[derive(Drop)]
pub struct Board<P> {
    plane: P,
    registers: Registers,
}

// Where a call leaves the plane itself alone, its clause `plane` or `refused` says so: a state shows the plane only by what it means.
impl<P: Plane> Board<P> {
    // A new board on a plane, which it does not change; its unit is the low three bits of the number.
    pub fn new(plane: P, number: u8) -> Board<P>
        ensures made { state_of P.Plane result ≡ fresh_board number (chart_of P.height P.stitch plane) (P.rest plane) }
        ensures plane { result.plane ≡ plane }
    {
        Board {
            plane,
            registers: Registers::new(Unit::new(number)),
        }
    }

    // The plane again.
    pub fn into_plane(self) -> P
        ensures { result ≡ self.plane }
    {
        self.plane
    }

    // Whether the board takes accesses: a refusal while a word is under way.
    pub fn ready(&self) -> Result<(), Refusal>
        ensures { result ≡ free (state_of P.Plane self.now) }
    {
        if self.registers.ahead.is_some() {
            return Err(Refusal::WordUnderWay);
        }
        Ok(())
    }

    // A write: sets a coordinate of a pair, then the register chosen, then, if the address asks for it, updates the stitches at the pair.
    // Stitches off the plane are left out.
    #[tactic(auto, unfolding(crate::specs::Steps::poking))]
    pub fn poke(&mut self, address: u32, value: u16) -> Result<(), Refusal>
        ensures told { result ≡ instead tt (admitted address (state_of P.Plane self.old).regs) }
        ensures step { state_of P.Plane self.new ≡ poked address value (state_of P.Plane self.old) }
        ensures refused { is_err result ≡ true → self.new.plane ≡ self.old.plane }
    {
        let access = self.registers.admit(address)?;
        self.registers.point(access);
        self.registers.enter(access, value);
        if access.update {
            self.update(access.pair);
        }
        Ok(())
    }

    // A read: answers the source as it stands, sets a coordinate of a pair, and loads the register chosen with the sixteen stitches at the pair.
    // Stitches off the plane are off.
    pub fn peek(&mut self, address: u32) -> Result<u16, Refusal>
        ensures told { result ≡ instead (answered (state_of P.Plane self.old).regs) (admitted address (state_of P.Plane self.old).regs) }
        ensures step { state_of P.Plane self.new ≡ peeked address (state_of P.Plane self.old) }
        ensures refused { is_err result ≡ true → self.new.plane ≡ self.old.plane }
    {
        let access = self.registers.admit(address)?;
        let answer = self.registers.answer();
        self.registers.point(access);
        self.load(access);
        Ok(answer)
    }

    // The bus's INIT line.
    pub fn init(&mut self)
        ensures step { state_of P.Plane self.new ≡ initiated (state_of P.Plane self.old) }
        ensures plane { self.new.plane ≡ self.old.plane }
    {
        self.registers.init();
    }

    // The monitor's vertical retrace.
    pub fn retrace(&mut self)
        ensures step { state_of P.Plane self.new ≡ retraced_board (state_of P.Plane self.old) }
        ensures plane { self.new.plane ≡ self.old.plane }
    {
        self.registers.retrace();
    }

    // The level of the interrupt that the board raises, if it raises one.
    pub fn interrupt(&self) -> Option<u8>
        ensures { result ≡ interrupted (state_of P.Plane self.now).regs }
    {
        self.registers.interrupt()
    }
}
