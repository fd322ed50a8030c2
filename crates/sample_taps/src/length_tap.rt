ghost use Rattle.std.specs.Prelude.{◌≡◌, ◌<◌, ◌≤◌, length, replicate};
ghost use Rattle.sample_taps.specs.Counts.{range_of};
ghost use Rattle.sample_taps.specs.Lines.{four_counts_text};

use crate::brief::Brief;
use crate::tap::{Line, Tap};
use itoa::Buffer;

/// Counts frame lengths in seven ranges: up to 64 bytes, 127, 255, 511, 1,023, 1,518, and above. It is never done.
#[derive(Debug, Clone, Copy, PartialEq, Eq)]
pub struct LengthTap {
    /// The counts, the range of the shortest frames first; each stays at 2^64 - 1.
    pub counts: [u64; 7],
}

impl LengthTap {
    /// None is counted.
    pub fn new() -> LengthTap
        ensures { result.counts ≡ replicate 7 0 }
    {
        LengthTap { counts: [0; 7] }
    }
}

// The range of a frame's length in bytes.
fn range(bytes: u32) -> usize
    ensures range { result ≡ range_of bytes }
    ensures seven { result < 7 }
{
    match bytes {
        0..=64 => 0,
        65..=127 => 1,
        128..=255 => 2,
        256..=511 => 3,
        512..=1023 => 4,
        1024..=1518 => 5,
        _ => 6,
    }
}

// The line up to the fourth count.
fn four_counts(counts: &[u64; 7]) -> Line
    ensures text { result.bytes ≡ four_counts_text counts.now }
    ensures short { length result.bytes ≤ 94 }
{
    let mut line = Line::new();
    let mut digits = Buffer::new();
    line.push_str("tap length ");
    line.push_str(digits.format(counts[0]));
    line.push_str(" ");
    line.push_str(digits.format(counts[1]));
    line.push_str(" ");
    line.push_str(digits.format(counts[2]));
    line.push_str(" ");
    line.push_str(digits.format(counts[3]));
    line
}

impl Tap for LengthTap {
    ghost use Rattle.std.specs.Prelude.{◌≡◌, false};
    ghost use Rattle.sample_taps.specs.Counts.{counted_at, range_of};
    ghost use Rattle.sample_taps.specs.Lines.{length_text};

    ghost step = { λ s b t. t ≡ record s { counts = counted_at (range_of b.frame_length) s.counts } };

    ghost ended = { λ _. false };

    ghost text = { λ s. length_text s.counts };

    fn take(&mut self, brief: &Brief) {
        let range = range(brief.frame_length);
        self.counts[range] = self.counts[range].saturating_add(1);
    }

    fn done(&self) -> bool {
        false
    }

    fn line(&self) -> Line {
        let mut line = four_counts(&self.counts);
        let mut digits = Buffer::new();
        line.push_str(" ");
        line.push_str(digits.format(self.counts[4]));
        line.push_str(" ");
        line.push_str(digits.format(self.counts[5]));
        line.push_str(" ");
        line.push_str(digits.format(self.counts[6]));
        line
    }
}
