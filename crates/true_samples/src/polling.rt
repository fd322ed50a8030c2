// A sub-agent polls its counter sources.
ghost use Rattle.std.specs.Prelude.{◌≡◌, ◌<◌, ◌+◌, ◌%◌, ◌^◌, ◌++◌, ℕ, List, [], ◌∷◌, length, set, slice_get, Some, OnOk};
ghost use Rattle.wire_spec.specs.Shapes.{Tree};
ghost use Rattle.agent_spec.specs.Samples.{Setup};
ghost use Rattle.agent_spec.specs.Events.{Event, Poll};
ghost use Rattle.agent_spec.specs.Polls.{is_due_after};
ghost use Rattle.agent_spec.specs.Spelled.{Sender};
ghost use Rattle.true_samples.specs.declared.counts.CounterCounts.{CounterCounts};
ghost use Rattle.true_samples.specs.Counts.{IsShort};
ghost use Rattle.true_samples.specs.Standing.{StandsFor};
ghost use Rattle.true_samples.specs.Moves.{is_due_at, with_poll_at};

use crate::sub_agent::TrueSubAgent;
use std::alloc::AllocError;

impl TrueSubAgent {
    /// The sub-agent polled at this uptime, in ms, so many of its counter sources: the first ones that are due.
    pub fn poll(&mut self, uptime: u32, count: u32) -> Result<(), AllocError>
        ensures { OnOk result ((sender : Sender) (s : Setup) (events : List Event) (earlier : List (List Event))
            (readings : List Tree) → length readings ≡ count → IsShort s (Poll uptime readings ∷ events) → StandsFor sender s self.old events earlier
            → StandsFor sender s self.new (Poll uptime readings ∷ events) earlier) }
    {
        let mut left = count;
        for place in 0..self.counters.len() {
            if left == 0 {
                continue;
            }
            if !self.is_due(place, uptime) {
                continue;
            }
            self.poll_at(place, uptime)?;
            left -= 1;
        }
        Ok(())
    }

    // Whether the counter source at a place is due.
    fn is_due(&self, place: usize, uptime: u32) -> bool
        requires { place < length self.now.counters }
        ensures { (k : CounterCounts) → slice_get self.now.counters place ≡ Some k → result ≡ is_due_at uptime k }
    {
        self.counters[place].is_due(uptime)
    }

    // Polls the counter source at a place. Behind the flow sources it has a place among all sources.
    fn poll_at(&mut self, place: usize, uptime: u32) -> Result<(), AllocError>
        requires { place < length self.old.counters }
        ensures { (k : CounterCounts) → slice_get self.old.counters place ≡ Some k
            → OnOk result (self.new ≡ with_poll_at place k uptime self.old) }
    {
        let at = self.flow_ids.len() + place;
        let counter = &mut self.counters[place];
        let sample = counter.sample(at);
        counter.count_poll(uptime);
        self.current.count_issued();
        self.staged.push(sample)?;
        Ok(())
    }
}
