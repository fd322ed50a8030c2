//! A consumer of one's own, as an example: it counts the headers to destination ports above a threshold.
#![tactic(auto)]

use itoa::Buffer;
use sample_taps::{Brief, Line, Tap};

/// Counts the headers of TCP and UDP to a port above the threshold. It is never done.
#[derive(Debug, Clone, Copy, PartialEq, Eq)]
pub struct PortWatch {
    /// The greatest port that isn't counted.
    pub threshold: u16,
    /// How many were counted; it stays at 2^64 - 1.
    pub count: u64,
}

impl Tap for PortWatch {
    ghost use Rattle.std.specs.Prelude.{◌≡◌, false, if◌then◌else◌};
    ghost use Rattle.sample_taps.specs.Counts.{one_more};
    ghost use Rattle.port_watch.specs.Ports.{is_above, watch_text};

    ghost step = { λ s b t. t ≡ record s { count = if is_above s.threshold b.facts.dst_port then one_more s.count else s.count } };

    ghost ended = { λ _. false };

    ghost text = { λ s. watch_text s.threshold s.count };

    fn take(&mut self, brief: &Brief) {
        match brief.facts.dst_port {
            Some(port) if port > self.threshold => self.count = self.count.saturating_add(1),
            _ => {}
        }
    }

    fn done(&self) -> bool {
        false
    }

    fn line(&self) -> Line {
        let mut line = Line::new();
        let mut digits = Buffer::new();
        line.push_str("tap above ");
        line.push_str(digits.format(self.threshold));
        line.push_str(" count ");
        line.push_str(digits.format(self.count));
        line
    }
}

#[cfg(test)]
mod tests;
