ghost use Rattle.std.specs.Prelude.{◌≡◌};

use crate::brief::Brief;
use crate::tap::{Line, Tap};
use itoa::Buffer;

/// Counts headers, and is done exactly where the count is at least the limit.
#[derive(Debug, Clone, Copy, PartialEq, Eq)]
pub struct CountTap {
    /// How many were taken; it stays at 2^64 - 1.
    pub count: u64,
    /// At which count it is done.
    pub limit: u64,
}

impl CountTap {
    /// None is counted.
    pub fn new(limit: u64) -> CountTap
        ensures count { result.count ≡ 0 }
        ensures limit { result.limit ≡ limit }
    {
        CountTap { count: 0, limit }
    }
}

impl Tap for CountTap {
    ghost use Rattle.std.specs.Prelude.{◌≡◌, nat_le};
    ghost use Rattle.sample_taps.specs.Counts.{one_more};
    ghost use Rattle.sample_taps.specs.Lines.{count_text};

    ghost step = { λ s _ t. t ≡ record s { count = one_more s.count } };

    ghost ended = { λ s. nat_le s.limit s.count };

    ghost text = { λ s. count_text s.count };

    fn take(&mut self, _brief: &Brief) {
        self.count = self.count.saturating_add(1);
    }

    fn done(&self) -> bool {
        self.count >= self.limit
    }

    fn line(&self) -> Line {
        let mut line = Line::new();
        line.push_str("tap headers ");
        line.push_str(Buffer::new().format(self.count));
        line
    }
}
