// A word under way, and the slip for it.
ghost use Rattle.std.specs.Prelude.{◌≡◌, None};
ghost use Rattle.planes.specs.Answer.{instead};
ghost use Rattle.board.specs.State.{state_of};
ghost use Rattle.board.specs.Slips.{begin_ruling, begun, keeping, redeemed};

use crate::Board;
use planes::{Plane, Refusal};
use registers::Cursor;

// The claim on a word under way. It cannot be let go: it ends in collect or in give_up.
pub struct Slip {
    mark: (),
}

impl<P: Plane> Board<P> {
    // Reads sixteen stitches ahead and hands out a slip for them. Until a slip is presented to it, the board takes no access.
    pub fn begin(&mut self, at: Cursor) -> Result<Slip, Refusal>
        ensures told { instead tt result ≡ begin_ruling at.x.0 at.y.0 (state_of P.Plane self.old) }
        ensures step { state_of P.Plane self.new ≡ begun at.x.0 at.y.0 (state_of P.Plane self.old) }
    {
        self.ready()?;
        if at.x.0 > 1023 || at.y.0 >= self.plane.courses() {
            return Err(Refusal::OffChart);
        }
        let word = self.window(at);
        self.registers.ahead = Some(word);
        Ok(Slip { mark: () })
    }

    // The board's own word under way, whichever slip is presented. With none under way the slip comes back.
    pub fn collect(&mut self, slip: Slip) -> Result<u16, (Refusal, Slip)>
        ensures told { result ≡ redeemed (λ w. w) slip (state_of P.Plane self.old).regs.ahead }
        ensures step { state_of P.Plane self.new ≡ keeping None (state_of P.Plane self.old) }
        ensures plane { self.new.plane ≡ self.old.plane }
    {
        // Both arms have the slip to hand on or to take apart: a method with two closures is no plainer.
        match self.registers.ahead.take() {
            Some(word) => {
                let Slip { mark: _ } = slip;
                Ok(word)
            }
            None => Err((Refusal::NoWordUnderWay, slip)),
        }
    }

    // Ends the word under way unread. With none under way the slip comes back.
    pub fn give_up(&mut self, slip: Slip) -> Result<(), (Refusal, Slip)>
        ensures told { result ≡ redeemed (λ _. tt) slip (state_of P.Plane self.old).regs.ahead }
        ensures step { state_of P.Plane self.new ≡ keeping None (state_of P.Plane self.old) }
        ensures plane { self.new.plane ≡ self.old.plane }
    {
        self.collect(slip)?;
        Ok(())
    }
}
