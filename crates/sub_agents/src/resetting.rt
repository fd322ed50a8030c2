// Sources and sub-agents begin anew.
ghost use Rattle.std.specs.Prelude.{◌≡◌, ◌<◌, ◌-◌, ◌^◌, ◌↔◌, false, map, IsErr, OnOk, OnErr};
ghost use Rattle.std.specs.List.{AllByRecursion};
ghost use Rattle.agent_spec.specs.Events.{Reset};
ghost use Rattle.agent_poller.specs.Following.{none_yet as no_polls};
ghost use Rattle.agent_sampler.specs.Following.{none_yet as no_counts};
ghost use Rattle.sub_agents.specs.Counts.{flow_setup, counter_setup, flow_sources, polled_sources, HasCounts, HasPolls};
ghost use Rattle.agent_setups.specs.Ids.{is_among};
ghost use Rattle.sub_agents.specs.Setups.{flow_source, counter_source};
ghost use Rattle.sub_agents.specs.SubAgents.{BootSoFar, StandsFor, with_event, next_boot};
ghost use Rattle.sub_agents.specs.Answers.{sources_of_kind, source_of_kind};

use crate::SubAgent;
use crate::sources::FlowSource;
use agent_poller::Poller;
use agent_setups::place_of;
use data_format::SourceId;

/// The sub-agent has no such source.
#[derive(Clone, Copy, Debug, PartialEq, Eq)]
pub struct NoSource;

// All of them begin anew.
fn restart_flows(flows: &mut [FlowSource])
    ensures setups { map flow_setup flows.new ≡ map flow_setup flows.old }
    ensures sources { flow_sources flows.new ≡ flow_sources flows.old }
    ensures counts { AllByRecursion (HasCounts no_counts) flows.new }
{
    for place in 0..flows.len() {
        flows[place].restart();
    }
}

fn restart_pollers(pollers: &mut [Poller])
    ensures setups { map counter_setup pollers.new ≡ map counter_setup pollers.old }
    ensures sources { polled_sources pollers.new ≡ polled_sources pollers.old }
    ensures counts { AllByRecursion (HasPolls no_polls) pollers.new }
{
    for place in 0..pollers.len() {
        pollers[place].restart();
    }
}

impl SubAgent {
    /// Begins the next boot: nothing is staged, and every number is again as at the opening.
    pub fn restart(&mut self)
        requires { self.old.boot < 2 ^ 64 - 1 }
        ensures { (b : BootSoFar) → StandsFor self.old b → StandsFor self.new (next_boot b) }
    {
        restart_flows(&mut self.flows);
        restart_pollers(&mut self.pollers);
        self.stage.clear();
        self.boot += 1;
        self.numbered = 0;
    }

    /// Whether it has a source of flow samples, or where `flow` is false a source of counters samples.
    pub fn has(&self, flow: bool, source: SourceId) -> bool
        ensures { result ≡ is_among source (sources_of_kind flow self.now) }
    {
        if flow {
            place_of(&self.flow_ids, source).is_some()
        } else {
            place_of(&self.counter_ids, source).is_some()
        }
    }

    /// Begins a source of flow samples anew, or where `flow` is false a source of counters samples: its numbers, its
    /// counts and its polls are again as at the opening. What is staged stays. `NoSource` comes exactly where the
    /// sub-agent has no such source of that kind; then all is as it was.
    pub fn reset(&mut self, flow: bool, source: SourceId) -> Result<(), NoSource>
        ensures refused { IsErr result ↔ (is_among source (sources_of_kind flow self.old) ≡ false) }
        ensures unchanged { OnErr result (self.new ≡ self.old) }
        ensures stands { (b : BootSoFar) → StandsFor self.old b
            → OnOk result (StandsFor self.new (with_event (Reset (source_of_kind flow source)) b)) }
    {
        if flow {
            self.reset_flow(source)
        } else {
            self.reset_counter(source)
        }
    }

    // Begins a source of flow samples anew.
    fn reset_flow(&mut self, source: SourceId) -> Result<(), NoSource>
        ensures refused { IsErr result ↔ (is_among source (flow_sources self.old.flows) ≡ false) }
        ensures unchanged { OnErr result (self.new ≡ self.old) }
        ensures stands { (b : BootSoFar) → StandsFor self.old b
            → OnOk result (StandsFor self.new (with_event (Reset (flow_source source)) b)) }
    {
        let Some(place) = place_of(&self.flow_ids, source) else {
            return Err(NoSource);
        };
        self.flows[place].restart();
        Ok(())
    }

    // Begins a source of counters samples anew.
    fn reset_counter(&mut self, source: SourceId) -> Result<(), NoSource>
        ensures refused { IsErr result ↔ (is_among source (polled_sources self.old.pollers) ≡ false) }
        ensures unchanged { OnErr result (self.new ≡ self.old) }
        ensures stands { (b : BootSoFar) → StandsFor self.old b
            → OnOk result (StandsFor self.new (with_event (Reset (counter_source source)) b)) }
    {
        let Some(place) = place_of(&self.counter_ids, source) else {
            return Err(NoSource);
        };
        self.pollers[place].restart();
        Ok(())
    }
}
