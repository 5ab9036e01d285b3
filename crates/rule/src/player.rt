// A board that a list of calls is made on, with its slip if that is out. The board stays where it is, since a plane may be large: each call takes it by reference.
// A spare slip goes along from call to call, to be presented where no word is under way.
ghost use Rattle.std.specs.Prelude.{◌≡◌, false, is_some, is_ok, None};
ghost use Rattle.std.specs.Result.{result_map_both};
ghost use Rattle.planes.specs.Chart.{chart_of};
ghost use Rattle.board.specs.State.{state_of, busy, fresh_board};
ghost use Rattle.board.specs.Slips.{begin_ruling, begun, keeping};
ghost use Rattle.rule.specs.Calls.{asked};
ghost use Rattle.rule.specs.Following.{Follows};
ghost use Rattle.rule.specs.Rule.{settled, collected, given_up};

use crate::{Answer, Call};
use board::{Board, Slip};
use planes::{Plane, Refusal};
use registers::Cursor;
use std::mem;

// Its slip is there exactly while a word is under way.
pub(crate) struct Player<P: Plane> {
    board: Board<P>,
    own: Option<Slip>,
    ghost tied: { is_some own ≡ busy (state_of P.Plane board) },
}

impl<P: Plane> Player<P> {
    // A new board on a plane.
    pub(crate) fn new(plane: P, unit: u8) -> Player<P>
        ensures made { state_of P.Plane result.board ≡ fresh_board unit (chart_of P.height P.stitch plane) (P.rest plane) }
        ensures plane { result.board.plane ≡ plane }
    {
        Player {
            board: Board::new(plane, unit),
            own: None,
        }
    }

    // Makes one call.
    pub(crate) fn perform(&mut self, call: &mut Call, spare: Slip) -> (Answer, Slip)
        ensures rule { Follows (asked call.old) (state_of P.Plane self.old.board) result.0 (asked call.new) (state_of P.Plane self.new.board) }
        ensures call { (asked call.new).call ≡ (asked call.old).call }
        ensures kept { (state_of P.Plane self.new.board).kept ≡ (state_of P.Plane self.old.board).kept }
    {
        // A match on what is asked: a list holds calls as data, and no closure could be read by the rule.
        match call {
            Call::Fill { frame, brush } => (
                drawing::fill(&mut self.board, *frame, *brush).into(),
                spare,
            ),
            Call::Lift { frame, buffer } => (
                drawing::lift(&mut self.board, *frame, buffer).into(),
                spare,
            ),
            Call::Run { job, pen } => (
                jobs::run(&mut self.board, job.as_slice(), pen).into(),
                spare,
            ),
            Call::Begin { at } => (self.begin(*at), spare),
            Call::Collect => self.collect(spare),
            Call::GiveUp => self.give_up(spare),
            Call::Scan { course, buffer } => (self.board.scan(*course, buffer).into(), spare),
            Call::Peek { address } => (self.board.peek(*address).into(), spare),
            Call::Poke { address, value } => (self.board.poke(*address, *value).into(), spare),
            Call::Init => {
                self.board.init();
                (Answer::Done, spare)
            }
            Call::Retrace => {
                self.board.retrace();
                (Answer::Done, spare)
            }
            Call::Interrupt => {
                let _ = self.board.interrupt();
                (Answer::Done, spare)
            }
        }
    }

    // Begins a word, and keeps its slip.
    fn begin(&mut self, at: Cursor) -> Answer
        ensures answer { result ≡ settled (begin_ruling at.x.0 at.y.0 (state_of P.Plane self.old.board)) }
        ensures step { state_of P.Plane self.new.board ≡ begun at.x.0 at.y.0 (state_of P.Plane self.old.board) }
    {
        // A match: a slip may not be let go.
        match self.board.begin(at) {
            Ok(slip) => {
                // the board took the call, so there was none
                let before = mem::replace(&mut self.own, Some(slip));
                let None = before else { unreachable!() };
                Answer::Done
            }
            Err(refusal) => Answer::Refused(refusal),
        }
    }

    // Presents a slip for the word: its own while one is under way, and else the spare one, which comes back.
    fn collect(&mut self, spare: Slip) -> (Answer, Slip)
        ensures answer { result.0 ≡ collected (state_of P.Plane self.old.board).regs.ahead }
        ensures step { state_of P.Plane self.new.board ≡ keeping None (state_of P.Plane self.old.board) }
        ensures plane { self.new.board.plane ≡ self.old.board.plane }
    {
        let (res, spare) = self.present(Board::collect, spare);
        (res.map_or_else(Answer::Refused, Answer::Collected), spare)
    }

    // Presents a slip to give the word up, likewise.
    fn give_up(&mut self, spare: Slip) -> (Answer, Slip)
        ensures answer { result.0 ≡ given_up (state_of P.Plane self.old.board).regs.ahead }
        ensures step { state_of P.Plane self.new.board ≡ keeping None (state_of P.Plane self.old.board) }
        ensures plane { self.new.board.plane ≡ self.old.board.plane }
    {
        let (res, spare) = self.present(Board::give_up, spare);
        (res.into(), spare)
    }

    // Presents its own slip to the board where there is one, and else the spare one, which the board has to give back.
    fn present<T, F: FnOnce(&mut Board<P>, Slip) -> Result<T, (Refusal, Slip)>>(
        &mut self,
        redeem: F,
        spare: Slip,
    ) -> (Result<T, Refusal>, Slip)
        requires callable { F.IsAlwaysCallable redeem }
        requires busy { (before after slip res : _) → F.post redeem before slip res after → is_ok res ≡ busy (state_of P.Plane before.now) }
        requires free { (before after slip res : _) → F.post redeem before slip res after → busy (state_of P.Plane after.now) ≡ false }
        ensures { (before after slip res : _) × F.post redeem before slip res after × (before.now ≡ self.old.board) × (after.now ≡ self.new.board) × (result.0 ≡ result_map_both (λ v. v) (λ e. e.0) res) }
    {
        // A match: the slip that is presented comes from one of two places and is owed to it again.
        match self.own.take() {
            Some(own) => {
                let value = redeem(&mut self.board, own).unwrap();
                (Ok(value), spare)
            }
            None => {
                let (refusal, spare) = redeem(&mut self.board, spare).unwrap_err();
                (Err(refusal), spare)
            }
        }
    }

    // Takes the board off its plane, where a word that is still under way is given up, and hands back the spare slip.
    pub(crate) fn end(mut self, spare: Slip) -> (P, Slip)
        ensures { result.0 ≡ self.board.plane }
    {
        let (_, spare) = self.give_up(spare);
        let Player { board, own } = self;
        let None = own else { unreachable!() };
        (board.into_plane(), spare)
    }
}
