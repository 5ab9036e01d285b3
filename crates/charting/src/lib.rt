// A job in, a picture out.
#![tactic(auto)]

ghost use Rattle.std.specs.Prelude.{◌≡◌, ◌-◌, ◌<◌, ◌++◌, IfOk, string_bytes, OnOk};
ghost use Rattle.words.specs.Bit.{bit};
ghost use Rattle.planes.specs.Chart.{chart_of, window};
ghost use Rattle.charting.specs.Picture.{mark_of, picture, line, report, charted};
ghost use Rattle.charting.specs.Rows.{row_of};

use board::Board;
use drawing::Brush;
use jobs::{Fault, Origin, Pen};
use planes::two_bed::TwoBed;
use planes::{Course, Needle, Plane, Stretch, WordNumber};
use std::alloc::{AllocError, Global};

// How many bytes each of the two beds has.
const BED: usize = 65536;

// The pen that a job begins with: it copies the source, under a mask of ones. Its zeros are written out, since a constant calls no function.
const START: Pen = Pen {
    brush: Brush {
        code: 0xCC,
        mask: 0xFFFF,
    },
    origin: Origin {
        x: Needle(0),
        y: Course(0),
    },
};

// The line that tells how a job went.
fn first_line(heap: Global, answer: Result<usize, Fault>) -> Result<String, AllocError>
    ensures { IfOk result (λ s. string_bytes s ≡ line answer) }
{
    // A match: `map_or_else` with two closures over `heap` is no plainer.
    match answer {
        Ok(fields) => format!(in heap; "ran {fields}\n"),
        Err(fault) => format!(in heap; "{fault}\n"),
    }
}

// A stitch of a word, place i from the left.
#[tactic(auto, using(words::proofs::Whole::bit_test))]
fn mark(word: u16, i: u16) -> char
    requires { i < 16 }
    ensures told { result ≡ mark_of (bit word (15 - i)) }
    ensures ascii { result < 128 }
{
    if (word >> (15 - i)) & 1 == 1 {
        '#'
    } else {
        '.'
    }
}

// Adds a line for the sixteen stitches of a word.
fn push_row(text: &mut String, word: u16) -> Result<(), AllocError>
    ensures { OnOk result (string_bytes text.new ≡ string_bytes text.old ++ row_of word) }
{
    // By number: bits are no items that could be gone through.
    for i in 0..16u16 {
        text.push(mark(word, i))?;
    }
    text.push('\n')?;
    Ok(())
}

// The first sixteen stitches of a course, with nothing on where the plane ends.
fn first_word<P: Plane>(plane: &mut P, course: Course) -> u16
    ensures told { result ≡ window (chart_of P.height P.stitch plane.old) 0 course.0 }
    ensures same { chart_of P.height P.stitch plane.new ≡ chart_of P.height P.stitch plane.old }
{
    let at = Stretch {
        word: WordNumber(0),
        course,
    };
    plane.read(at).unwrap_or(0)
}

// Adds the picture: needles 0 to 15 of courses 0 to 7.
#[tactic(auto, using(crate::proofs::Rows::picture_more))]
fn push_picture<P: Plane>(text: &mut String, plane: &mut P) -> Result<(), AllocError>
    ensures { OnOk result (string_bytes text.new ≡ string_bytes text.old ++ picture 8 (chart_of P.height P.stitch plane.old)) }
{
    for y in 0..8u16 {
        push_row(text, first_word(plane, Course(y)))?;
    }
    Ok(())
}

// Runs a job on a plane, and tells how it went and what the plane then shows.
fn report_on<P: Plane>(heap: Global, plane: &mut P, job: &[u8]) -> Result<String, AllocError>
    ensures { IfOk result (λ s. string_bytes s ≡ report (chart_of P.height P.stitch plane.old) job.now) }
{
    let mut board = Board::new(plane, 0);
    let mut pen = START;
    let answer = jobs::run(&mut board, job, &mut pen);
    let mut lent = board.into_plane();
    let mut text = first_line(heap, answer)?;
    push_picture(&mut text, &mut lent)?;
    Ok(text)
}

// Runs a job on a blank plane of two beds, and gives what `chart` prints: how the job went, and a picture.
pub fn chart_job(heap: Global, job: &[u8]) -> Result<String, AllocError>
    ensures { IfOk result (λ s. string_bytes s ≡ charted job.now) }
{
    let mut front = vec![in heap; 0u8; BED]?;
    let mut back = vec![in heap; 0u8; BED]?;
    let mut plane = TwoBed::new(front.as_mut_slice(), back.as_mut_slice());
    report_on(heap, &mut plane, job)
}
