// Jobs: fields of bytes that set a pen and draw with it.
#![tactic(auto)]

ghost use Rattle.std.specs.Prelude.{◌≡◌, min, false, OnOk};
ghost use Rattle.planes.specs.Answer.{instead};
ghost use Rattle.board.specs.State.{state_of, busy};
ghost use Rattle.drawing.specs.Spending.{Spent, Left};
ghost use Rattle.jobs.specs.Faults.{start};
ghost use Rattle.jobs.specs.Format.{Apart, parsed};
ghost use Rattle.jobs.specs.Runs.{judged_from, carried_from, run_answer, run_chart};
ghost use Rattle.jobs.specs.Verdicts.{Judges};

use board::Board;
pub use fault::{Fault, Spot};
use fields::Fields;
use pen::Held;
pub use pen::{Origin, Pen};
use planes::{Plane, Refusal};

pub mod fault;
mod fields;
pub mod pen;
pub mod task;

// How many bytes a job may have.
const LONGEST: usize = 65535;

// Checks every field from the first, on a plane of so many courses, or 1024 where that is less.
fn check(job: &[u8], pen: &mut Pen, height: u16) -> Result<(), Fault>
    ensures { result ≡ instead tt (judged_from (min 1024 height) pen.old start job.now) }
{
    for field in Fields::of(job) {
        let (task, spot) = field?;
        spot.blame(task.check(*pen, height))?;
        pen.set(task);
    }
    Ok(())
}

// Carries out every field from the first, and counts them.
// That the board is idle is asked here, in `Task::draw` and in drawing's `Carriage::of`: a carriage that jobs could hold would be a second way to draw, beside `fill`.
fn carry_out<P: Plane>(board: &mut Board<P>, job: &[u8], pen: &mut Pen) -> Result<usize, Fault>
    requires idle { busy (state_of P.Plane board.old) ≡ false }
    ensures told { result ≡ judged_from (state_of P.Plane board.old).shown.height pen.old start job.now }
    ensures shown { OnOk result ((state_of P.Plane board.new).shown ≡ carried_from pen.old job.now (state_of P.Plane board.old).shown) }
    ensures spent { Spent (state_of P.Plane board.old) (state_of P.Plane board.new) }
{
    // Counted here, since the loop takes the fields, which count too.
    let mut count = 0;
    for field in Fields::of(job) {
        let (task, spot) = field?;
        spot.blame(task.draw(board, *pen))?;
        pen.set(task);
        count += 1;
    }
    Ok(count)
}

// Runs a job: checks every field first, then carries all of them out, and answers how many there were.
// However it ends, the pen is then as it was handed in.
#[tactic(auto, using(crate::proofs::Judging::judges))]
pub fn run<P: Plane>(board: &mut Board<P>, job: &[u8], pen: &mut Pen) -> Result<usize, Fault>
    ensures told { result ≡ run_answer (state_of P.Plane board.old) pen.old job.now }
    ensures shown { (state_of P.Plane board.new).shown ≡ run_chart (state_of P.Plane board.old) pen.old job.now }
    ensures left { Left result (state_of P.Plane board.old) (state_of P.Plane board.new) }
    ensures pen { pen.new ≡ pen.old }
    ensures format { Apart job.now }
    ensures first { Judges (state_of P.Plane board.old).shown.height pen.old (parsed 0 job.now) (judged_from (state_of P.Plane board.old).shown.height pen.old start job.now) }
{
    let saved = *pen;
    let guard = Held { pen, saved };
    let spot = Spot::default();
    spot.blame(board.ready())?;
    if job.len() > LONGEST {
        return spot.blame(Err(Refusal::JobTooLong));
    }
    let height = board.height();
    check(job, &mut *guard.pen, height)?;
    *guard.pen = saved;
    carry_out(board, job, &mut *guard.pen)
}
