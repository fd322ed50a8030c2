// Counter sources are polled.
ghost use Rattle.std.specs.Prelude.{◌≡◌, ◌≤◌, ◌<◌, ◌↔◌, true, false, length, slice_get, Some, Err, OnOk, OnErr};
ghost use Rattle.agent_spec.specs.Counting.{next_count};
ghost use Rattle.agent_poller.specs.Polling.{PollerState};
ghost use Rattle.sub_agents.specs.SubAgents.{BootSoFar, StandsFor};
ghost use Rattle.sub_agents.specs.Polls.{counters_fit, is_due_at, places, Polls, PolledOne};

use crate::SubAgent;
use crate::staged::{Staged, StagedCounters, counters_size, head_size};
use agent_poller::{Meter, MeterFault};
use data_format::CountersHead;

/// Why a poll ended early.
#[derive(Clone, Copy, Debug, PartialEq, Eq)]
pub enum PollRefusal {
    /// A datagram with one counters sample alone would have too many bytes. Then nothing happened.
    TooLarge,
    /// The meter failed: its count of faults rose. The sources before stay polled; this one and those behind it are as
    /// before.
    MeterFault,
}

impl SubAgent {
    /// Polls each source of counters samples that is due at this uptime, in ms, in the order of the set-up, while the
    /// stage has a place; the samples are staged. The answer is how many were polled. A source that is due while the
    /// stage is full stays due. `TooLarge` comes exactly where there is such a source, due or not, and a datagram with
    /// one counters sample would have too many bytes.
    pub fn poll<M: Meter>(&mut self, uptime: u32, meter: &mut M) -> Result<u32, PollRefusal>
        ensures large { (result ≡ Err PollRefusal.TooLarge) ↔ (counters_fit self.old ≡ false) }
        ensures unchanged { result ≡ Err PollRefusal.TooLarge → (self.new ≡ self.old) × (meter.new ≡ meter.old) }
        ensures polls { (b : BootSoFar) → StandsFor self.old b → counters_fit self.old ≡ true
            → Polls M.gives M.faults self.old self.new b uptime meter.old meter.new result }
    {
        if !self.counters_fit() {
            return Err(PollRefusal::TooLarge);
        }
        let places = self.places();
        let mut count = 0;
        for place in 0..self.sources_polled() {
            if count >= places {
                continue;
            }
            if !self.is_due(place, uptime) {
                continue;
            }
            if self.poll_at(place, uptime, meter).is_err() {
                return Err(PollRefusal::MeterFault);
            }
            count += 1;
        }
        Ok(count)
    }

    // Whether a datagram has room for a counters sample, if there are any.
    fn counters_fit(&self) -> bool
        ensures { result ≡ counters_fit self.now }
    {
        self.pollers.is_empty()
            || head_size(&self.agent) + counters_size(self.form) <= self.max_datagram as usize
    }

    // How many samples the stage has room for.
    fn places(&self) -> u32
        ensures value { result ≡ places self.now }
        ensures most { result ≤ 1024 }
        ensures within { length self.now.stage.items ≤ self.now.stage.capacity }
    {
        (self.stage.capacity() - self.stage.len()) as u32
    }

    // How many sources are polled.
    fn sources_polled(&self) -> usize
        ensures { result ≡ length self.now.pollers }
    {
        self.pollers.len()
    }

    // Whether the source at a place is due.
    fn is_due(&self, place: usize, uptime: u32) -> bool
        requires { place < length self.now.pollers }
        ensures { (p : PollerState) → slice_get self.now.pollers place ≡ Some p → result ≡ is_due_at uptime p }
    {
        self.pollers[place].due(uptime)
    }

    // Polls the source at a place, which is due, while the stage has a place.
    fn poll_at<M: Meter>(
        &mut self,
        place: usize,
        uptime: u32,
        meter: &mut M,
    ) -> Result<(), MeterFault>
        requires place { place < length self.old.pollers }
        requires due { (p : PollerState) → slice_get self.old.pollers place ≡ Some p → is_due_at uptime p ≡ true }
        requires free { length self.old.stage.items < self.old.stage.capacity }
        requires fits { counters_fit self.old ≡ true }
        ensures polled { OnOk result (PolledOne M.gives M.faults self.old self.new place uptime meter.old meter.new) }
        ensures unchanged { OnErr result (self.new ≡ self.old) }
        ensures failed { OnErr result (M.faults meter.new ≡ next_count (M.faults meter.old)) }
    {
        let poller = &mut self.pollers[place];
        let source = poller.source();
        let Ok(polled) = poller.poll(uptime, meter) else {
            return Err(MeterFault);
        };
        let head = CountersHead {
            sequence: polled.sequence,
            source,
        };
        let counters = polled.counters;
        self.stage
            .push_back(Staged::Counters(StagedCounters { head, counters }));
        Ok(())
    }
}
