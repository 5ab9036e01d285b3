// What a board tells of itself.
ghost use Rattle.std.specs.Prelude.{◌≡◌, ◌≤◌};
ghost use Rattle.registers.specs.State.{plain};
ghost use Rattle.board.specs.State.{state_of};

use crate::Board;
use planes::Plane;
use registers::Registers;

impl<P: Plane> Board<P> {
    // The registers as they stand.
    pub fn registers(&self) -> Registers
        ensures { plain result ≡ (state_of P.Plane self.now).regs }
    {
        self.registers
    }

    // The number of the plane's courses.
    #[tactic(auto, unfolding(planes::specs::Chart::chart))]
    pub fn height(&mut self) -> u16
        ensures told { result ≡ (state_of P.Plane self.old).shown.height }
        ensures low { result ≤ 1024 }
        ensures same { state_of P.Plane self.new ≡ state_of P.Plane self.old }
    {
        self.plane.courses()
    }
}
