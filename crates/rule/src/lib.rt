// Lists of calls on a new board, held to the stitch rule.
#![tactic(auto)]

ghost use Rattle.std.specs.Prelude.{◌≡◌, map};
ghost use Rattle.planes.specs.Chart.{chart_of};
ghost use Rattle.rule.specs.Calls.{question, request, told};
ghost use Rattle.rule.specs.Rule.{settled, reported};
ghost use Rattle.rule.specs.Lists.{AllClear, final, outcomes, at_first};

use board::Board;
use drawing::{Brush, Frame};
use jobs::{Fault, Pen};
use planes::flat::Flat;
use planes::{Course, Plane, Refusal};
use player::Player;
use registers::Cursor;

mod player;

// A call with its arguments.
#[derive(Drop)]
pub enum Call {
    Fill { frame: Frame, brush: Brush },
    Lift { frame: Frame, buffer: Vec<u8> },
    Run { job: Vec<u8>, pen: Pen },
    Begin { at: Cursor },
    Collect,
    GiveUp,
    Scan { course: Course, buffer: Vec<u8> },
    Peek { address: u32 },
    Poke { address: u32, value: u16 },
    Init,
    Retrace,
    Interrupt,
}

// What the rule says of a call: done, refused, the word collected, or how a job went.
// One enum: a `Result` would need an enum on each side, and nothing is done with an answer but compare it.
#[derive(Clone, Copy, PartialEq, Eq, Debug)]
pub enum Answer {
    Done,
    Refused(Refusal),
    Collected(u16),
    Ran(usize),
    Faulty(Fault),
}

// A call, and its answer once it is made.
#[derive(Drop)]
pub struct Step {
    pub call: Call,
    pub answer: Answer,
}

// The answer of a call by whether it was refused.
impl<T: Drop> From<Result<T, Refusal>> for Answer {
    ghost from_gives = { λ res answer. answer ≡ settled res };

    fn from(res: Result<T, Refusal>) -> Answer {
        res.map_or_else(Answer::Refused, |_| Answer::Done)
    }
}

// The answer of a job.
impl From<Result<usize, Fault>> for Answer {
    ghost from_gives = { λ res answer. answer ≡ reported res };

    fn from(res: Result<usize, Fault>) -> Answer {
        res.map_or_else(Answer::Faulty, Answer::Ran)
    }
}

// Puts a new board on a plane, makes every call of a list on it, writes each answer beside its call, and gives the plane back.
// Where no accepted poke has its update bit set, every answer, every buffer and the last chart are the stitch rule's.
// A collect or give_up with no word under way presents a slip that another board handed out, and is refused; a word under way at the end is given up.
pub fn play<P: Plane>(plane: P, unit: u8, steps: &mut [Step]) -> P
    ensures answers { AllClear (at_first unit (chart_of P.height P.stitch plane)) (map question steps.old) → map told steps.new ≡ outcomes (at_first unit (chart_of P.height P.stitch plane)) 0 (map question steps.old) }
    ensures chart { AllClear (at_first unit (chart_of P.height P.stitch plane)) (map question steps.old) → chart_of P.height P.stitch result ≡ (final (at_first unit (chart_of P.height P.stitch plane)) (map question steps.old)).chart }
    ensures calls { map request steps.new ≡ map request steps.old }
    ensures rest { P.rest result ≡ P.rest plane }
{
    let mut bytes = [0u8; 128];
    let mut other = Board::new(Flat::new(&mut bytes), 0);
    let mut spare = other.begin(Cursor::default()).unwrap();
    let mut player = Player::new(plane, unit);
    for step in steps {
        let (answer, back) = player.perform(&mut step.call, spare);
        step.answer = answer;
        spare = back;
    }
    let (plane, spare) = player.end(spare);
    other.give_up(spare).unwrap();
    plane
}
