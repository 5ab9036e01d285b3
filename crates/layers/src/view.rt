// Ways to show a plane.
ghost use Rattle.std.specs.Prelude.{◌≡◌, ℕ, Bool, List, [], Result};
ghost use Rattle.planes.specs.Chart.{chart_of};
ghost use Rattle.planes.specs.declared.numbers.Stretch.{Stretch};
ghost use Rattle.planes.specs.declared.refusal.Refusal.{Refusal};
ghost use Rattle.layers.specs.Layers.{ViewLaws};

use planes::{Plane, Refusal, Stretch};

// A view says what shows of a plane, in which word below each word lies, and what becomes of its bits.
// `kept` is what a layer keeps of its view, besides what the plane below keeps; a view that has nothing to keep leaves it out.
pub trait View: Drop {
    ghost shows: { Self → (height : ℕ) → (on : ℕ → ℕ → Bool) → (needle course : ℕ) → Bool };

    ghost below: { Self → (height word course : ℕ) → Result Stretch Refusal };

    ghost turned: { Self → (word : ℕ) → ℕ };

    ghost kept: { Self → List (List ℕ) } = { λ _. [] };

    // Where a word lies on the plane below. No more is asked of that plane than its height.
    fn below<P: Plane>(&self, plane: &mut P, at: Stretch) -> Result<Stretch, Refusal>
        ensures told { result ≡ below self.now (P.height plane.old).rows at.word.0 at.course.0 }
        ensures same { chart_of P.height P.stitch plane.new ≡ chart_of P.height P.stitch plane.old }
        ensures rest { P.rest plane.new ≡ P.rest plane.old };

    // A word below as it shows; and, since that turns it back, a word that shows as it is below.
    fn turned(&self, word: u16) -> u16
        ensures { result ≡ turned self.now word };

    // What each view must prove.
    ghost laws: { (v : Self) → ViewLaws (shows v) (below v) (turned v) };
}
