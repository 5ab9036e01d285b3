// Sixteen stitches at a time, through the plane's words: each word that holds one of them is read once and, for an update, written once; no word off the plane is asked for.
// A read takes `&mut self` and says that the state stays (`same`): a plane may alter what it keeps to itself when it is asked.
ghost use Rattle.std.specs.Prelude.{◌≡◌, ◌+◌, ◌*◌, ◌/◌};
ghost use Rattle.planes.specs.Chart.{window};
ghost use Rattle.registers.specs.Codes.{pair_number};
ghost use Rattle.board.specs.State.{state_of};
ghost use Rattle.board.specs.Steps.{updating, touched, loading};

use crate::Board;
use planes::{Plane, Stretch};
use registers::{Access, Choice, Cursor, Pair};

// The two stretches that hold the sixteen stitches from a place on.
fn stretches(at: Cursor) -> (Stretch, Stretch)
    ensures first { result.0 ≡ record { word = record { 0 = at.x.0 / 16 }; course = at.y } }
    ensures next { result.1 ≡ record { word = record { 0 = at.x.0 / 16 + 1 }; course = at.y } }
{
    let first = Stretch {
        word: at.x.word(),
        course: at.y,
    };
    let next = Stretch {
        word: at.x.next_word(),
        course: at.y,
    };
    (first, next)
}

impl<P: Plane> Board<P> {
    // A stretch of the plane, with nothing on where the plane ends.
    #[tactic(auto, using(crate::proofs::Edges::nothing_on))]
    pub(crate) fn fetch(&mut self, at: Stretch) -> u16
        ensures told { result ≡ window (state_of P.Plane self.old).shown (16 * at.word.0) at.course.0 }
        ensures same { state_of P.Plane self.new ≡ state_of P.Plane self.old }
    {
        if at.word.0 > 63 {
            return 0;
        }
        self.plane.read(at).unwrap_or(0)
    }

    // The sixteen stitches from a place on.
    #[tactic(auto, using(crate::proofs::Edges::nothing_on))]
    pub(crate) fn window(&mut self, at: Cursor) -> u16
        ensures told { result ≡ window (state_of P.Plane self.old).shown at.x.0 at.y.0 }
        ensures same { state_of P.Plane self.new ≡ state_of P.Plane self.old }
    {
        if at.y.0 >= self.plane.courses() {
            return 0;
        }
        let (first, next) = stretches(at);
        let left = self.fetch(first);
        if at.x.0 % 16 == 0 {
            return left;
        }
        let right = self.fetch(next);
        words::window(left, right, at.x.0)
    }

    // Loads the register that a read chose with the sixteen stitches at its pair.
    #[tactic(auto, unfolding(crate::specs::Steps::loading))]
    pub(crate) fn load(&mut self, access: Access)
        ensures step { state_of P.Plane self.new ≡ loading access (state_of P.Plane self.old) }
    {
        match access.choice {
            Choice::Nothing | Choice::Control => self.registers.load(access, 0),
            Choice::Source | Choice::Mask => {
                let at = self.registers.cursor(access.pair);
                let word = self.window(at);
                self.registers.load(access, word);
            }
        }
    }

    // Updates the stitches of one stretch where `here` has ones.
    #[tactic(auto, using(crate::proofs::Edges::nothing_drawn))]
    fn touch(&mut self, at: Stretch, here: u16, source: u16)
        ensures step { state_of P.Plane self.new ≡ touched at.word.0 at.course.0 here source (state_of P.Plane self.old) }
    {
        if here == 0 || at.word.0 > 63 {
            return;
        }
        let Ok(old) = self.plane.read(at) else {
            return;
        };
        let made = words::combine(self.registers.function, self.registers.mask, source, old);
        let new = words::put(old, here, made);
        let _ = self.plane.write(at, new);
    }

    // Updates the stitches at a pair.
    #[tactic(auto, unfolding(crate::specs::Steps::updated), using(crate::proofs::Edges::nothing_drawn))]
    pub(crate) fn update(&mut self, pair: Pair)
        ensures step { state_of P.Plane self.new ≡ updating (pair_number pair) (state_of P.Plane self.old) }
    {
        let at = self.registers.cursor(pair);
        if at.y.0 >= self.plane.courses() {
            return;
        }
        let ones = words::ones(self.registers.width.stitches());
        let (here, after) = words::lay(ones, at.x.0);
        let (lead, trail) = words::lay(self.registers.source, at.x.0);
        let (first, next) = stretches(at);
        self.touch(first, here, lead);
        self.touch(next, after, trail);
    }
}
