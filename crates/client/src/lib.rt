// Readers of single words: a word is begun, and a slip presented to collect it.
#![tactic(auto)]

ghost use Rattle.std.specs.Prelude.{◌≡◌};
ghost use Rattle.planes.specs.Answer.{instead};
ghost use Rattle.planes.specs.Chart.{window};
ghost use Rattle.board.specs.State.{state_of};
ghost use Rattle.board.specs.Slips.{begin_ruling};
ghost use Rattle.client.specs.Pairs.{paired};

use board::Board;
use planes::{Plane, Refusal};
use registers::Cursor;

// The sixteen stitches from a place on. The board is then as it was.
pub fn word_at<P: Plane>(board: &mut Board<P>, at: Cursor) -> Result<u16, Refusal>
    ensures told { result ≡ instead (window (state_of P.Plane board.old).shown at.x.0 at.y.0) (begin_ruling at.x.0 at.y.0 (state_of P.Plane board.old)) }
    ensures same { state_of P.Plane board.new ≡ state_of P.Plane board.old }
{
    let slip = board.begin(at)?;
    Ok(board.collect(slip).unwrap())
}

// The sixteen stitches at one place of each of two boards. Each board's slip is presented to the other, which answers its own word all the same.
// A refusal of the second ends the word of the first unread. Both boards are then as they were.
pub fn words_at<P: Plane, Q: Plane>(
    first: &mut Board<P>,
    second: &mut Board<Q>,
    at: Cursor,
) -> Result<(u16, u16), Refusal>
    ensures told { result ≡ paired (instead (window (state_of P.Plane first.old).shown at.x.0 at.y.0) (begin_ruling at.x.0 at.y.0 (state_of P.Plane first.old))) (instead (window (state_of Q.Plane second.old).shown at.x.0 at.y.0) (begin_ruling at.x.0 at.y.0 (state_of Q.Plane second.old))) }
    ensures first { state_of P.Plane first.new ≡ state_of P.Plane first.old }
    ensures second { state_of Q.Plane second.new ≡ state_of Q.Plane second.old }
{
    let slip = first.begin(at)?;
    // A match: each arm needs the first slip, which two closures could not share.
    match second.begin(at) {
        Ok(other) => Ok((first.collect(other).unwrap(), second.collect(slip).unwrap())),
        Err(refusal) => {
            first.give_up(slip).unwrap();
            Err(refusal)
        }
    }
}
