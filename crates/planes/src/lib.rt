// Planes of stitches: what every plane promises, and planes over lent memory.
#![tactic(auto)]

ghost use Rattle.std.specs.Prelude.{◌≡◌, ℕ, ◌*◌, Bool, List, [], ◌∷◌};
ghost use Rattle.planes.specs.Answer.{answer};
ghost use Rattle.planes.specs.Chart.{Height, chart_of, written, window};

pub use numbers::{Course, Needle, Stretch, WordNumber};
pub use refusal::Refusal;

pub mod flat;
mod layout;
pub mod numbers;
pub mod refusal;
pub mod two_bed;

// A plane means a chart: a height of at most 1024 courses, and on or off for each needle of each course below it.
// `rest` is what else a plane promises to keep whatever is asked of it; a plane that promises nothing leaves it out.
// Each method says what it keeps: a promise of a trait has no other place.
pub trait Plane {
    ghost height: { Self → Height };

    ghost stitch: { Self → ℕ → ℕ → Bool };

    ghost rest: { Self → List (List ℕ) } = { λ _. [] };

    // The height.
    fn courses(&mut self) -> u16
        ensures told { result ≡ (height self.old).rows }
        ensures same { chart_of height stitch self.new ≡ chart_of height stitch self.old }
        ensures rest { rest self.new ≡ rest self.old };

    // The sixteen stitches of a stretch, the leftmost in bit 15.
    fn read(&mut self, at: Stretch) -> Result<u16, Refusal>
        ensures told { result ≡ answer (height self.old).rows at.word.0 at.course.0 (window (chart_of height stitch self.old) (16 * at.word.0) at.course.0) }
        ensures same { chart_of height stitch self.new ≡ chart_of height stitch self.old }
        ensures rest { rest self.new ≡ rest self.old };

    // Sets the sixteen stitches of a stretch.
    fn write(&mut self, at: Stretch, value: u16) -> Result<(), Refusal>
        ensures told { result ≡ answer (height self.old).rows at.word.0 at.course.0 tt }
        ensures put { chart_of height stitch self.new ≡ written at.word.0 at.course.0 value (chart_of height stitch self.old) }
        ensures rest { rest self.new ≡ rest self.old };
}

// A plane that is lent is a plane. It keeps, besides what the plane keeps, who lent it.
impl<'a, P: Plane> Plane for &'a mut P {
    ghost height = { λ p. P.Plane.height p.now };

    ghost stitch = { λ p. P.Plane.stitch p.now };

    ghost rest = { λ p. (p.ghost_name ∷ []) ∷ P.Plane.rest p.now };

    fn courses(&mut self) -> u16 {
        P::courses(*self)
    }

    fn read(&mut self, at: Stretch) -> Result<u16, Refusal> {
        P::read(*self, at)
    }

    fn write(&mut self, at: Stretch, value: u16) -> Result<(), Refusal> {
        P::write(*self, at, value)
    }
}
