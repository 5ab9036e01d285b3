// A course as the screen has it. Each call says that the state stays (`same`), since a plane may alter what it keeps to itself when it is asked.
ghost use Rattle.std.specs.Prelude.{◌≡◌, ℕ, ◌+◌, ◌*◌, ◌≤◌, true, ◌&&◌, length, is_ok, is_err};
ghost use Rattle.words.specs.Bit.{pack};
ghost use Rattle.board.specs.State.{state_of};
ghost use Rattle.board.specs.Scans.{lit, painted, scan_ruling, scanned, Displays};

use crate::Board;
use planes::{Course, Plane, Refusal, Stretch, WordNumber};

// The last course that the screen shows.
const LAST_VISIBLE: u16 = 799;

// How many bytes a course takes.
const COURSE_BYTES: usize = 128;

impl<P: Plane> Board<P> {
    // Whether a course is read for the screen: D9 has to be 1, and the plane has to have the course.
    fn lights(&mut self, course: Course) -> bool
        ensures told { (x : ℕ) → (result && (state_of P.Plane self.old).shown.on x course.0) ≡ (lit (state_of P.Plane self.old).regs.status && (state_of P.Plane self.old).shown.on x course.0) }
        ensures same { state_of P.Plane self.new ≡ state_of P.Plane self.old }
    {
        self.registers.status / 2 % 2 == 1 && course.0 < self.plane.courses()
    }

    // A stretch of the plane, or 0 where `light` is false.
    fn glimpse(&mut self, light: bool, at: Stretch) -> u16
        ensures told { result ≡ pack (λ i. light && (state_of P.Plane self.old).shown.on (16 * at.word.0 + i) at.course.0) }
        ensures same { state_of P.Plane self.new ≡ state_of P.Plane self.old }
    {
        if light { self.fetch(at) } else { 0 }
    }

    // Puts a course into the first 128 bytes of a buffer, word after word; zeros unless `light`.
    #[tactic(auto, using(crate::proofs::Screens::front_none))]
    fn paint(&mut self, light: bool, course: Course, buffer: &mut [u8])
        requires room { 128 ≤ length buffer.old }
        ensures bytes { buffer.new ≡ painted light (state_of P.Plane self.old).shown course.0 buffer.old }
        ensures same { state_of P.Plane self.new ≡ state_of P.Plane self.old }
    {
        // By number: the plane is asked by it, and after `chunks_mut` a proof knows nothing of what the chunks hold.
        for w in 0..64u16 {
            let at = Stretch {
                word: WordNumber(w),
                course,
            };
            let word = self.glimpse(light, at);
            words::store(buffer, usize::from(w), word);
        }
    }

    // Puts a visible course into the first 128 bytes of a buffer, the leftmost needle in the highest bit of the first byte; zeros while D9 is 0.
    #[tactic(auto, using(crate::proofs::Screens::painted_shows))]
    pub fn scan(&mut self, course: Course, buffer: &mut [u8]) -> Result<(), Refusal>
        ensures told { result ≡ scan_ruling course.0 (length buffer.old) }
        ensures bytes { buffer.new ≡ scanned (scan_ruling course.0 (length buffer.old)) (lit (state_of P.Plane self.old).regs.status) (state_of P.Plane self.old).shown course.0 buffer.old }
        ensures layout { is_ok result ≡ true → Displays (lit (state_of P.Plane self.old).regs.status) (state_of P.Plane self.old).shown course.0 buffer.new }
        ensures same { state_of P.Plane self.new ≡ state_of P.Plane self.old }
        ensures refused { is_err result ≡ true → self.new.plane ≡ self.old.plane }
    {
        if course.0 > LAST_VISIBLE {
            return Err(Refusal::OffChart);
        }
        if buffer.len() < COURSE_BYTES {
            return Err(Refusal::ShortBuffer);
        }
        let light = self.lights(course);
        self.paint(light, course, buffer);
        Ok(())
    }
}
