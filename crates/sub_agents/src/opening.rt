// A sub-agent is opened.
ghost use Rattle.std.specs.Prelude.{◌≡◌, ◌≤◌, ◌==◌, ◌⊎◌, ℕ, [], ◌∷◌, length, map, true, false, Some, None, Ok, Err, IfOk, IfErr, drop};
ghost use Rattle.std.specs.List.{AllByRecursion, list_any};
ghost use Rattle.agent_poller.specs.Following.{none_yet as no_polls};
ghost use Rattle.agent_sampler.specs.Following.{none_yet as no_counts};
ghost use Rattle.sub_agents.specs.Counts.{flow_setup, counter_setup, flow_sources, polled_sources, HasCounts, HasPolls};
ghost use Rattle.agent_setups.specs.Faults.{sampled_ids, polled_ids, has_zero_rate, has_zero_time, setup_fault};
ghost use Rattle.sub_agents.specs.Opening.{sampled_as, polled_as, first_boot};
ghost use Rattle.sub_agents.specs.SubAgents.{StandsFor};

use crate::SubAgent;
use crate::sources::FlowSource;
use agent_poller::Poller;
use agent_sampler::Sampler;
use agent_setups::{CounterSetup, FlowSetup, OpenRefusal, Setup, fault};
use circular_buffer::HeapCircularBuffer;
use data_format::{Form, SourceId};
use std::alloc::{AllocError, Global};

// What is sampled.
fn ids_of_flows(alloc: Global, flows: &[FlowSetup]) -> Result<Vec<SourceId>, AllocError>
    ensures { IfOk result (λ v. v.items ≡ sampled_ids flows.now) }
{
    let mut ids = Vec::new(alloc);
    for flow in flows {
        ids.push(flow.source)?;
    }
    Ok(ids)
}

// What is polled.
fn ids_of_counters(alloc: Global, counters: &[CounterSetup]) -> Result<Vec<SourceId>, AllocError>
    ensures { IfOk result (λ v. v.items ≡ polled_ids counters.now) }
{
    let mut ids = Vec::new(alloc);
    for counter in counters {
        ids.push(counter.source)?;
    }
    Ok(ids)
}

// The sources of flow samples, of which nothing is counted yet.
fn sources_of(alloc: Global, flows: Vec<FlowSetup>) -> Result<Vec<FlowSource>, AllocError>
    ensures setups { IfOk result (λ v. map flow_setup v.items ≡ map sampled_as flows.items) }
    ensures sources { IfOk result (λ v. flow_sources v.items ≡ sampled_ids flows.items) }
    ensures counts { IfOk result (λ v. AllByRecursion (HasCounts no_counts) v.items) }
{
    let mut sources = Vec::with_capacity(alloc, flows.len())?;
    for flow in flows {
        sources.push(FlowSource {
            source: flow.source,
            rate: flow.rate,
            sampler: Sampler::new(flow.skips, flow.first, flow.pool, flow.drops),
        })?;
    }
    Ok(sources)
}

// The sources of counters samples, none of which was polled yet.
fn pollers_of(alloc: Global, counters: &[CounterSetup]) -> Result<Vec<Poller>, AllocError>
    requires { has_zero_time counters.now ≡ false }
    ensures setups { IfOk result (λ v. map counter_setup v.items ≡ map polled_as counters.now) }
    ensures sources { IfOk result (λ v. polled_sources v.items ≡ polled_ids counters.now) }
    ensures counts { IfOk result (λ v. AllByRecursion (HasPolls no_polls) v.items) }
{
    let mut pollers = Vec::with_capacity(alloc, counters.len())?;
    for counter in counters {
        pollers.push(Poller::new(counter.source, counter.every, counter.first))?;
    }
    Ok(pollers)
}

// Room for a datagram.
fn new_room(alloc: Global, size: usize) -> Result<Vec<u8>, AllocError>
    ensures { IfOk result (λ v. length v.items ≡ size) }
{
    vec![in alloc; 0u8; size]
}

impl SubAgent {
    /// A sub-agent in its first boot, of which nothing is known yet. `BadSetup` has the number of the first rule that the
    /// set-up breaks in this form; it comes exactly where there is one, or else there is no memory. All room is taken
    /// here: no later call takes memory.
    pub fn open(alloc: Global, setup: Setup, form: Form) -> Result<SubAgent, OpenRefusal>
        ensures bad { (n : ℕ) → setup_fault form setup ≡ Some n
            → (result ≡ Err (OpenRefusal.BadSetup n)) ⊎ (result ≡ Err OpenRefusal.Memory) }
        ensures refused { (n : ℕ) → result ≡ Err (OpenRefusal.BadSetup n) → setup_fault form setup ≡ Some n }
        ensures stands { IfOk result (λ s. StandsFor s (first_boot form setup)) }
    {
        let Ok(flow_ids) = ids_of_flows(alloc, &setup.flows) else {
            return Err(OpenRefusal::Memory);
        };
        let Ok(counter_ids) = ids_of_counters(alloc, &setup.counters) else {
            return Err(OpenRefusal::Memory);
        };
        if let Some(number) = fault(&setup, form, &flow_ids, &counter_ids) {
            return Err(OpenRefusal::BadSetup { number });
        }
        match SubAgent::make(alloc, setup, form, flow_ids, counter_ids) {
            Ok(sub_agent) => Ok(sub_agent),
            Err(_) => Err(OpenRefusal::Memory),
        }
    }

    // A sub-agent of a set-up that breaks no rule.
    fn make(
        alloc: Global,
        setup: Setup,
        form: Form,
        flow_ids: Vec<SourceId>,
        counter_ids: Vec<SourceId>,
    ) -> Result<SubAgent, AllocError>
        requires fault { setup_fault form setup ≡ None }
        requires flows { flow_ids.items ≡ sampled_ids setup.flows.items }
        requires counters { counter_ids.items ≡ polled_ids setup.counters.items }
        ensures { IfOk result (λ s. StandsFor s (first_boot form setup)) }
    {
        let Setup {
            agent,
            sub_agent,
            max_datagram,
            stage,
            first,
            flows,
            counters,
        } = setup;
        Ok(SubAgent {
            agent,
            sub_agent,
            form,
            max_datagram,
            first,
            flow_ids,
            counter_ids,
            flows: sources_of(alloc, flows)?,
            pollers: pollers_of(alloc, &counters)?,
            stage: HeapCircularBuffer::with_capacity(alloc, stage as usize)?,
            room: new_room(alloc, max_datagram as usize)?,
            boot: 1,
            numbered: 0,
        })
    }
}
