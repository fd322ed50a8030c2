// A sub-agent observes packets, and its sources and itself begin anew.
ghost use Rattle.std.specs.Prelude.{◌≡◌, ◌<◌, ◌++◌, true, false, List, [], ◌∷◌, length, map, slice_get, Some, OnOk};
ghost use Rattle.agent_spec.specs.Sources.{FlowSetup};
ghost use Rattle.agent_spec.specs.Samples.{Packet, Setup};
ghost use Rattle.agent_spec.specs.Events.{Event, Observe, Reset};
ghost use Rattle.agent_spec.specs.Boots.{IsAmong};
ghost use Rattle.agent_spec.specs.Spelled.{Sender};
ghost use Rattle.account_spec.specs.Histories.{flow_sources, counter_sources};
ghost use Rattle.true_samples.specs.declared.counts.FlowCounts.{FlowCounts};
ghost use Rattle.true_samples.specs.declared.counts.CounterCounts.{CounterCounts};
ghost use Rattle.true_samples.specs.Counts.{id_in, source_as, seen_of, IsShort};
ghost use Rattle.true_samples.specs.Standing.{StandsFor};
ghost use Rattle.true_samples.specs.Moves.{flow_anew, counter_anew, with_packet_at, with_flow_reset, with_counter_reset, restarted};

use crate::boots::TrueBoot;
use crate::counts::{CounterCounts, FlowCounts};
use crate::sub_agent::TrueSubAgent;
use agent_setups::place_of;
use data_format::SourceId;
use std::alloc::{AllocError, Global};
use std::mem;

/// What came of a packet that a sub-agent observed.
#[derive(Clone, Copy, Debug, PartialEq, Eq)]
pub enum Seen {
    /// It isn't marked.
    Passed,
    /// A sample of it is staged.
    Issued,
    /// It is marked, but the stage is full.
    Dropped,
}

// Each source begins its first generation.
fn begin_flows(flows: &mut [FlowCounts])
    ensures { flows.new ≡ map (flow_anew 1) flows.old }
{
    for place in 0..flows.len() {
        let flow = &mut flows[place];
        flow.begin(1);
    }
}

fn begin_counters(counters: &mut [CounterCounts])
    ensures { counters.new ≡ map (counter_anew 1) counters.old }
{
    for place in 0..counters.len() {
        let counter = &mut counters[place];
        counter.begin(1);
    }
}

impl TrueSubAgent {
    /// The sub-agent observed a packet of this source, and this came of it. A source that it hasn't changes nothing.
    pub fn observe(&mut self, source: SourceId, seen: Seen) -> Result<(), AllocError>
        ensures { OnOk result ((sender : Sender) (s : Setup) (events : List Event) (earlier : List (List Event)) (f : FlowSetup)
            (packet : Packet) → IsAmong f s.flows → id_in f.source ≡ source → seen ≡ seen_of s f events → IsShort s (Observe f packet ∷ events)
            → StandsFor sender s self.old events earlier
            → StandsFor sender s self.new (Observe f packet ∷ events) earlier) }
    {
        let Some(place) = place_of(&self.flow_ids, source) else {
            return Ok(());
        };
        if place < self.flows.len() {
            return self.observe_at(place, seen);
        }
        Ok(())
    }

    /// A source of flow samples was reset, or where `flow` is false a source of counters samples. What is staged stays. A
    /// source that the sub-agent hasn't changes nothing.
    pub fn reset(&mut self, flow: bool, source: SourceId)
        ensures { (sender : Sender) (s : Setup) (events : List Event) (earlier : List (List Event))
            → IsAmong (source_as flow source) (flow_sources s ++ counter_sources s)
            → IsShort s (Reset (source_as flow source) ∷ events)
            → StandsFor sender s self.old events earlier
            → StandsFor sender s self.new (Reset (source_as flow source) ∷ events) earlier }
    {
        if flow {
            self.reset_flow(source);
        } else {
            self.reset_counter(source);
        }
    }

    /// The sub-agent restarted: nothing is staged, and each source counts anew.
    pub fn restart(&mut self, alloc: Global) -> Result<(), AllocError>
        ensures { OnOk result ((sender : Sender) (s : Setup) (events : List Event) (earlier : List (List Event))
            → StandsFor sender s self.old events earlier → StandsFor sender s self.new [] (events ∷ earlier)) }
    {
        self.begin_boot(alloc)
    }

    fn begin_boot(&mut self, alloc: Global) -> Result<(), AllocError>
        ensures { OnOk result (self.new ≡ restarted self.old) }
    {
        begin_flows(&mut self.flows);
        begin_counters(&mut self.counters);
        self.staged.clear();
        let ended = mem::replace(&mut self.current, TrueBoot::new(alloc));
        self.earlier.push(ended)?;
        Ok(())
    }

    fn reset_flow(&mut self, source: SourceId)
        ensures { (sender : Sender) (s : Setup) (events : List Event) (earlier : List (List Event))
            → IsAmong (source_as true source) (flow_sources s ++ counter_sources s)
            → IsShort s (Reset (source_as true source) ∷ events)
            → StandsFor sender s self.old events earlier
            → StandsFor sender s self.new (Reset (source_as true source) ∷ events) earlier }
    {
        let Some(place) = place_of(&self.flow_ids, source) else {
            return;
        };
        if place < self.flows.len() {
            self.begin_flow(place);
        }
    }

    fn reset_counter(&mut self, source: SourceId)
        ensures { (sender : Sender) (s : Setup) (events : List Event) (earlier : List (List Event))
            → IsAmong (source_as false source) (flow_sources s ++ counter_sources s)
            → IsShort s (Reset (source_as false source) ∷ events)
            → StandsFor sender s self.old events earlier
            → StandsFor sender s self.new (Reset (source_as false source) ∷ events) earlier }
    {
        let Some(place) = place_of(&self.counter_ids, source) else {
            return;
        };
        if place < self.counters.len() {
            self.begin_counter(place);
        }
    }

    // A packet of the flow source at a place.
    fn observe_at(&mut self, place: usize, seen: Seen) -> Result<(), AllocError>
        requires { place < length self.old.flows }
        ensures { (k : FlowCounts) → slice_get self.old.flows place ≡ Some k
            → OnOk result (self.new ≡ with_packet_at place k seen self.old) }
    {
        let flow = &mut self.flows[place];
        flow.count_packet();
        match seen {
            Seen::Passed => {}
            Seen::Dropped => {
                flow.count_dropped();
                self.current.count_dropped();
            }
            Seen::Issued => {
                let sample = flow.sample(place);
                flow.count_issued();
                self.current.count_issued();
                self.staged.push(sample)?;
            }
        }
        Ok(())
    }

    // The flow source at a place begins its next generation.
    fn begin_flow(&mut self, place: usize)
        requires { place < length self.old.flows }
        ensures { (k : FlowCounts) → slice_get self.old.flows place ≡ Some k → self.new ≡ with_flow_reset place k self.old }
    {
        let flow = &mut self.flows[place];
        flow.begin(flow.generation.wrapping_add(1));
    }

    // The counter source at a place begins its next generation.
    fn begin_counter(&mut self, place: usize)
        requires { place < length self.old.counters }
        ensures { (k : CounterCounts) → slice_get self.old.counters place ≡ Some k
            → self.new ≡ with_counter_reset place k self.old }
    {
        let counter = &mut self.counters[place];
        counter.begin(counter.generation.wrapping_add(1));
    }
}
