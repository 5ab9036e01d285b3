// Rectangles from frames.
ghost use Rattle.std.specs.Prelude.{◌≡◌, ◌*◌, ◌<◌, ◌≤◌, min};
ghost use Rattle.drawing.specs.Figures.{ruled};
ghost use Rattle.drawing.specs.Given.{area, covers, seen};
ghost use Rattle.drawing.specs.Lifts.{row_words, pattern_bytes};
ghost use Rattle.drawing.specs.Setting.{strip};

use super::{Frame, Rect};
use planes::{Needle, Refusal};

impl Frame {
    // The rectangle on a plane of so many courses, or 1024 where that is less, or the first refusal that fits.
    pub fn on(self, height: u16) -> Result<Rect, Refusal>
        ensures { seen result ≡ ruled (min 1024 height) (area self) }
    {
        let Frame { x, y, w, h } = self;
        let height = height.min(1024);
        if x.0 > 1023 || y.0 >= height {
            return Err(Refusal::OffChart);
        }
        if w == 0 || h == 0 {
            return Err(Refusal::Empty);
        }
        if w > 1024 - x.0 || h > height - y.0 {
            return Err(Refusal::TooLarge);
        }
        Ok(Rect { x, y, w, h })
    }
}

impl Rect {
    // Strip k: sixteen needles, or those that are left.
    pub(crate) fn strip(self, k: u16) -> Rect
        requires there { 16 * k < self.w }
        ensures is { covers result ≡ strip (covers self) k }
        ensures narrow { result.w ≤ 16 }
    {
        Rect {
            x: Needle(self.x.0 + 16 * k),
            y: self.y,
            w: (self.w - 16 * k).min(16),
            h: self.h,
        }
    }

    // How many words a row of a pattern takes: one for each sixteen needles, or a part of them.
    pub fn row_words(self) -> u16
        ensures { result ≡ row_words (covers self) }
    {
        self.w.div_ceil(16)
    }

    // How many bytes the rows of a pattern take.
    pub fn pattern_bytes(self) -> usize
        ensures { result ≡ pattern_bytes (covers self) }
    {
        2 * usize::from(self.row_words()) * usize::from(self.h)
    }
}
