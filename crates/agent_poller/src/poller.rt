ghost use Rattle.std.specs.Prelude.{◌≡◌, ℕ, ◌+◌, ◌≤◌, [], true, IfOk, OnOk, OnErr};
ghost use Rattle.agent_spec.specs.Polls.{is_due_after};
ghost use Rattle.rec_counters.specs.Contents.{interface_content};
ghost use Rattle.agent_spec.specs.Counting.{next_count};
ghost use Rattle.agent_poller.specs.Polling.{StandsFor, number_behind};

use crate::meter::Meter;
use data_format::SourceId;
use rec_counters::IfCounters;
use std::marker::Model;

/// The meter failed: its count of faults rose.
#[derive(Clone, Copy, Debug, PartialEq, Eq)]
pub struct MeterFault;

/// What a poll gives to a counters sample.
#[derive(Clone, Copy, Debug, Drop)]
pub struct Polled {
    /// The sequence number of the sample.
    pub sequence: u32,
    /// The counters of the source.
    pub counters: IfCounters<'static>,
}

/// The polls of a counter source since its start or its last reset.
#[derive(Debug, Drop)]
pub struct Poller {
    source: SourceId,
    /// The least time from one poll to the next, in ms.
    every: u32,
    /// The sequence number of the first sample.
    first: u32,
    /// The sequence number of the next sample; goes on from 2^32 - 1 to 0.
    next: u32,
    /// The uptime of the last poll, in ms; 0 where there is none.
    last: u32,
}

impl Model for Poller {
    ghost use Rattle.agent_poller.specs.Polling.{PollerState};

    ghost Value = { PollerState };

    ghost use Rattle.agent_poller.specs.Fields.{poller_state, IsPoller};

    ghost view = { poller_state };

    ghost invariant = { IsPoller };
}

impl Poller {
    /// A poller of a source that is due every so many ms, at least 1, the first time at that uptime. Its first
    /// sample has the sequence number `first`.
    pub fn new(source: SourceId, every: u32, first: u32) -> Poller
        requires { 1 ≤ every }
        ensures stands { StandsFor result 0 0 }
        ensures source { result.source ≡ source }
        ensures every { result.every ≡ every }
        ensures first { result.first ≡ first }
    {
        Poller {
            source,
            every,
            first,
            next: first,
            last: 0,
        }
    }

    /// The source that it polls.
    pub fn source(&self) -> SourceId
        ensures { result ≡ self.now.source }
    {
        self.source
    }

    /// Whether a poll is due at this uptime, in ms: at least `every` ms, mod 2^32, have gone by since the last one.
    pub fn due(&self, now: u32) -> bool
        ensures value { result ≡ is_due_after self.now.every self.now.last now }
        ensures due { (issued last : ℕ) → StandsFor self.now issued last
            → result ≡ is_due_after self.now.every last now }
    {
        now.wrapping_sub(self.last) >= self.every
    }

    /// Polls the source at this uptime, in ms, at which it is due. `MeterFault` comes only where the meter's count
    /// of faults rose; then the poller is as before.
    pub fn poll<M: Meter>(&mut self, now: u32, meter: &mut M) -> Result<Polled, MeterFault>
        requires { is_due_after self.old.every self.old.last now ≡ true }
        ensures stands { (issued last : ℕ) → StandsFor self.old issued last
            → OnOk result (StandsFor self.new (1 + issued) now) }
        ensures number { (issued last : ℕ) → StandsFor self.old issued last
            → IfOk result (λ polled. polled.sequence ≡ number_behind self.old.first issued) }
        ensures counters { IfOk result (λ polled.
            M.gives meter.old self.old.source (interface_content polled.counters) meter.new) }
        ensures tail { IfOk result (λ polled. polled.counters.tail.now ≡ []) }
        ensures source { self.new.source ≡ self.old.source }
        ensures every { self.new.every ≡ self.old.every }
        ensures first { self.new.first ≡ self.old.first }
        ensures unchanged { OnErr result (self.new ≡ self.old) }
        ensures kept { OnOk result (M.faults meter.new ≡ M.faults meter.old) }
        ensures failed { OnErr result (M.faults meter.new ≡ next_count (M.faults meter.old)) }
    {
        let Ok(counters) = meter.read(self.source) else {
            return Err(MeterFault);
        };
        let sequence = self.next;
        self.next = sequence.wrapping_add(1);
        self.last = now;
        Ok(Polled { sequence, counters })
    }

    /// Begins anew, as `new` left it.
    pub fn restart(&mut self)
        ensures stands { StandsFor self.new 0 0 }
        ensures source { self.new.source ≡ self.old.source }
        ensures every { self.new.every ≡ self.old.every }
        ensures first { self.new.first ≡ self.old.first }
    {
        self.next = self.first;
        self.last = 0;
    }
}
