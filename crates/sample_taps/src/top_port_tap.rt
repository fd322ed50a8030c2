// The destination port with the most sampled headers.
ghost use Rattle.std.specs.Prelude.{◌≡◌, ◌<◌, ◌≤◌, length, replicate, IfOk};
ghost use Rattle.std.specs.List.{position_or_len};
ghost use Rattle.sample_taps.specs.Counts.{greatest, is_count};

use crate::brief::Brief;
use crate::tap::{Line, Tap};
use itoa::Buffer;
use std::alloc::{AllocError, Global};

const PORTS: usize = 65536;

/// Counts destination ports of TCP and UDP. It is never done.
#[derive(Debug, Drop)]
pub struct TopPortTap {
    /// One count for each port, that of port 0 first; each stays at 2^64 - 1.
    counts: Vec<u64>,
    ghost wide: { length counts.items ≡ 65536 },
}

impl TopPortTap {
    /// None is counted. An error comes only where memory is lacking.
    pub fn open(alloc: Global) -> Result<TopPortTap, AllocError>
        ensures { IfOk result (λ tap. tap.counts.items ≡ replicate 65536 0) }
    {
        let counts = vec![in alloc; 0; PORTS]?;
        Ok(TopPortTap { counts })
    }
}

// The greatest of the counts, 0 where there is none.
fn most(counts: &[u64]) -> u64
    ensures { result ≡ greatest counts.now }
{
    let mut most = 0;
    for count in counts {
        most = most.max(*count);
    }
    most
}

// The first place of the count, or how many places there are.
fn first_place(counts: &[u64], count: u64) -> usize
    ensures { result ≡ position_or_len (is_count count) counts.now }
{
    for place in 0..counts.len() {
        if counts[place] == count {
            return place;
        }
    }
    counts.len()
}

impl Tap for TopPortTap {
    ghost use Rattle.std.specs.Prelude.{◌≡◌, false};
    ghost use Rattle.sample_taps.specs.Counts.{counted_port};
    ghost use Rattle.sample_taps.specs.Lines.{port_text};

    ghost step = { λ s b t. t.counts.items ≡ counted_port b.facts.dst_port s.counts.items };

    ghost ended = { λ _. false };

    ghost text = { λ s. port_text s.counts.items };

    fn take(&mut self, brief: &Brief) {
        if let Some(port) = brief.facts.dst_port {
            let place = usize::from(port);
            self.counts[place] = self.counts[place].saturating_add(1);
        }
    }

    fn done(&self) -> bool {
        false
    }

    fn line(&self) -> Line {
        let mut line = Line::new();
        let count = most(&self.counts);
        if count == 0 {
            line.push_str("tap port none");
            return line;
        }
        let mut digits = Buffer::new();
        line.push_str("tap port ");
        line.push_str(digits.format(first_place(&self.counts, count)));
        line.push_str(" count ");
        line.push_str(digits.format(count));
        line
    }
}
