//! What a sub-agent shows of its boot.

ghost use Rattle.std.specs.Prelude.{◌≡◌, ℕ, map};
ghost use Rattle.agent_spec.specs.Sources as spec;
ghost use Rattle.agent_spec.specs.Boots.{due_sources};
ghost use Rattle.sub_agents.specs.Counts.{flow_sources, polled_sources};
ghost use Rattle.sub_agents.specs.Polls.{due_ids};
ghost use Rattle.sub_agents.specs.Setups.{flow_source, counter_source};
ghost use Rattle.sub_agents.specs.SubAgents.{SubAgentState, BootSoFar, StandsFor, so_far};

/// Its sources are those of the set-up, and the sources that are due are those that are due in its boot.
pub fn sources_are_known()
    ensures flows { (s : SubAgentState) (b : BootSoFar) → StandsFor s b
        → map flow_source (flow_sources s.flows) ≡ map (λ (f : spec.FlowSetup). f.source) b.setup.flows }
    ensures counters { (s : SubAgentState) (b : BootSoFar) → StandsFor s b
        → map counter_source (polled_sources s.pollers) ≡ map (λ (c : spec.CounterSetup). c.source) b.setup.counters }
    ensures due { (s : SubAgentState) (b : BootSoFar) (now : ℕ) → StandsFor s b
        → map counter_source (due_ids s now)
        ≡ map (λ (c : spec.CounterSetup). c.source) (due_sources b.setup now b.events (so_far b)) }
{}
