ghost use Rattle.std.specs.Prelude.{◌≡◌, ◌↔◌, ◌⊎◌, [], ◌∷◌, All, Contains, IsErr, IfOk, OnOk, OnErr, MatchResult};
ghost use Rattle.rec_counters.specs.Contents.{interface_content};
ghost use Rattle.agent_spec.specs.Counting.{next_count};
ghost use Rattle.agent_poller.specs.Meters.{gives_first, meter_faults, HasNoTail, meter_read, meter_failed};

use crate::meter::Meter;
use data_format::{Failed, SourceId};
use rec_counters::IfCounters;
use std::marker::Model;

/// A meter over a list of readings, which it gives one after the other, whatever source is read. Chosen reads fail,
/// so that a fault can be tried.
#[derive(Drop)]
pub struct ListMeter {
    readings: Vec<IfCounters<'static>>,
    at: usize,
    fails: Vec<u64>,
    calls: u64,
    faults: u64,
}

impl Model for ListMeter {
    ghost use Rattle.agent_poller.specs.Meters.{MeterState};

    ghost Value = { MeterState };

    ghost use Rattle.agent_poller.specs.Fields.{meter_state, IsListMeter};

    ghost view = { meter_state };

    ghost invariant = { IsListMeter };
}

impl ListMeter {
    /// A meter of these readings, which have no bytes behind their fields.
    /// `fails` holds the numbers of the reads that fail, counted from 1; a number stays at 2^64 - 1.
    pub fn new(readings: Vec<IfCounters<'static>>, fails: Vec<u64>) -> ListMeter
        requires { All HasNoTail readings.items }
        ensures left { result.left ≡ readings.entry.items }
        ensures fails { result.fails ≡ fails.items }
        ensures calls { result.calls ≡ 0 }
        ensures faults { result.faults ≡ 0 }
    {
        ListMeter {
            readings,
            at: 0,
            fails,
            calls: 0,
            faults: 0,
        }
    }

    // One more read failed.
    fn fault(&mut self) -> Failed
        ensures { self.new ≡ record self.old { faults = next_count self.old.faults } }
    {
        self.faults = self.faults.saturating_add(1);
        Failed
    }
}

impl Meter for ListMeter {
    ghost gives = { gives_first };

    ghost faults = { meter_faults };

    fn read(&mut self, source: SourceId) -> Result<IfCounters<'static>, Failed>
        ensures gives { IfOk result (λ counters. gives_first self.old source (interface_content counters) self.new) }
        ensures tail { IfOk result (λ counters. counters.tail.now ≡ []) }
        ensures kept { OnOk result (self.new.faults ≡ self.old.faults) }
        ensures failed { OnErr result (self.new.faults ≡ next_count self.old.faults) }

        // It fails exactly where its number is one of those that fail, and past the end of the list.
        ensures fails { IsErr result ↔ (Contains self.old.fails (next_count self.old.calls) ⊎ (self.old.left ≡ [])) }
        ensures after { MatchResult result
            (λ _. self.new ≡ meter_read self.old)
            (λ _. self.new ≡ meter_failed self.old) }
    {
        self.calls = self.calls.saturating_add(1);
        if self.fails.contains(&self.calls) {
            return Err(self.fault());
        }
        if self.at >= self.readings.len() {
            return Err(self.fault());
        }
        let counters = self.readings[self.at];
        self.at += 1;
        Ok(counters)
    }
}
