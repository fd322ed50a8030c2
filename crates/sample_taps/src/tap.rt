ghost use Rattle.std.specs.Prelude.{◌≡◌, ℕ, Bool, List};

use crate::brief::Brief;
use arrayvec::ArrayString;

/// A line of text, up to 160 bytes.
pub type Line = ArrayString<160>;

/// A consumer of briefs. A consumer of one's own says by `step` what one brief makes of it, by `ended` when it is done,
/// and by `text` what it prints.
pub trait Tap: Drop {
    ghost use Rattle.sample_taps.specs.declared.brief.Brief.{Brief};
    ghost use Rattle.sample_taps.specs.Feeding.{Fed};

    // what it may be after it took the brief
    ghost step: { Self → Brief → Self → Type 0 };

    // whether it takes no more briefs
    ghost ended: { Self → Bool };

    // its line, without a line feed
    ghost text: { Self → List ℕ };

    /// Takes one brief.
    fn take(&mut self, brief: &Brief)
        ensures { step self.old brief.now self.new };

    /// Whether it is done: it is given no more briefs, and is dropped after the next ones that the others take.
    fn done(&self) -> bool
        ensures { result ≡ ended self.now };

    /// Takes one brief after the other until it is done. A consumer of one's own need not write it.
    fn take_all(&mut self, briefs: &[Brief])
        ensures { Fed step ended briefs.now self.old self.new }
    {
        for brief in briefs {
            if self.done() {
                return;
            }
            self.take(brief);
        }
    }

    /// Its line in a report.
    fn line(&self) -> Line
        ensures { result.bytes ≡ text self.now };
}
