// A sub-agent is set up.
ghost use Rattle.std.specs.Prelude.{◌≡◌, [], map, IfOk};
ghost use Rattle.agent_spec.specs.Samples as spec;
ghost use Rattle.agent_spec.specs.Spelled.{Sender};
ghost use Rattle.account_spec.specs.Histories.{IsSetUp};
ghost use Rattle.true_samples.specs.Opening.{sampled_as, polled_as, flow_begun, counter_begun};
ghost use Rattle.true_samples.specs.Standing.{StandsFor};

use crate::boots::TrueBoot;
use crate::counts::{CounterCounts, FlowCounts};
use crate::sub_agent::TrueSubAgent;
use agent_setups::{CounterSetup, FlowSetup, Setup};
use data_format::SourceId;
use std::alloc::{AllocError, Global};

fn flow_ids(alloc: Global, flows: &[FlowSetup]) -> Result<Vec<SourceId>, AllocError>
    ensures { IfOk result (λ v. v.items ≡ map (λ f. f.source) flows.now) }
{
    let mut ids = Vec::new(alloc);
    for flow in flows {
        ids.push(flow.source)?;
    }
    Ok(ids)
}

fn counter_ids(alloc: Global, counters: &[CounterSetup]) -> Result<Vec<SourceId>, AllocError>
    ensures { IfOk result (λ v. v.items ≡ map (λ c. c.source) counters.now) }
{
    let mut ids = Vec::new(alloc);
    for counter in counters {
        ids.push(counter.source)?;
    }
    Ok(ids)
}

// The flow sources before their first packet.
fn new_flows(alloc: Global, flows: &[FlowSetup]) -> Result<Vec<FlowCounts>, AllocError>
    ensures { IfOk result (λ v. v.items ≡ map flow_begun flows.now) }
{
    let mut counts = Vec::new(alloc);
    for flow in flows {
        counts.push(FlowCounts {
            first: flow.first,
            pool: flow.pool,
            drops: flow.drops,
            generation: 1,
            packets: 0,
            issued: 0,
            dropped: 0,
        })?;
    }
    Ok(counts)
}

// The counter sources before their first poll.
fn new_counters(alloc: Global, counters: &[CounterSetup]) -> Result<Vec<CounterCounts>, AllocError>
    ensures { IfOk result (λ v. v.items ≡ map counter_begun counters.now) }
{
    let mut counts = Vec::new(alloc);
    for counter in counters {
        counts.push(CounterCounts {
            every: counter.every,
            first: counter.first,
            generation: 1,
            issued: 0,
            last: 0,
        })?;
    }
    Ok(counts)
}

impl TrueSubAgent {
    /// A sub-agent in its first boot, in which nothing has happened.
    pub fn open(alloc: Global, setup: &Setup) -> Result<TrueSubAgent, AllocError>
        ensures { IfOk result (λ t. (sender : Sender) (s : spec.Setup) → IsSetUp s → s.first ≡ setup.now.first
            → s.flows ≡ map sampled_as setup.now.flows.items → s.counters ≡ map polled_as setup.now.counters.items
            → StandsFor sender s t [] []) }
    {
        Ok(TrueSubAgent {
            first: setup.first,
            flow_ids: flow_ids(alloc, &setup.flows)?,
            counter_ids: counter_ids(alloc, &setup.counters)?,
            flows: new_flows(alloc, &setup.flows)?,
            counters: new_counters(alloc, &setup.counters)?,
            staged: Vec::new(alloc),
            current: TrueBoot::new(alloc),
            earlier: Vec::new(alloc),
        })
    }
}
