ghost use Rattle.std.specs.Prelude.{◌≡◌, ◌+◌, ◌-◌, ◌%◌, ◌^◌, ◌==◌, if◌then◌else◌, [], length, IfSome, IfNone, Some, None, slice_get};
ghost use Rattle.script_spec.specs.Agents.{numbered};

use crate::samples::SentDatagram;
use std::alloc::Global;
use std::marker::Model;

/// What a sub-agent did in a boot: the datagrams that it sent, and how many samples it issued and packets it dropped.
#[derive(Drop)]
pub(crate) struct TrueBoot {
    pub datagrams: Vec<SentDatagram>,
    pub issued: u64,
    pub dropped: u64,
}

impl Model for TrueBoot {
    ghost use Rattle.true_samples.specs.States.{BootState};

    ghost Value = { BootState };

    ghost view = { λ b. record { datagrams = b.datagrams.items; issued = b.issued; dropped = b.dropped } };
}

impl TrueBoot {
    /// A boot in which nothing has happened.
    pub fn new(alloc: Global) -> TrueBoot
        ensures { result ≡ record { datagrams = []; issued = 0; dropped = 0 } }
    {
        TrueBoot {
            datagrams: Vec::new(alloc),
            issued: 0,
            dropped: 0,
        }
    }

    /// The datagram of this number, counted from 1, if it was sent.
    pub fn find(&self, number: u64) -> Option<&SentDatagram>
        ensures some { IfSome result (λ d. numbered self.now.datagrams number ≡ Some d.now) }
        ensures none { IfNone result (numbered self.now.datagrams number ≡ None) }
    {
        if number == 0 {
            return None;
        }
        self.datagrams.get((number - 1) as usize)
    }

    /// How many datagrams were sent.
    pub fn sent_count(&self) -> usize
        ensures { result ≡ length self.now.datagrams }
    {
        self.datagrams.len()
    }

    pub fn count_issued(&mut self)
        ensures { self.new ≡ record self.old { issued = (self.old.issued + 1) % 2 ^ 64 } }
    {
        self.issued = self.issued.wrapping_add(1);
    }

    pub fn count_dropped(&mut self)
        ensures { self.new ≡ record self.old { dropped = (self.old.dropped + 1) % 2 ^ 64 } }
    {
        self.dropped = self.dropped.wrapping_add(1);
    }
}
