// The sub-agent of the run.
ghost use Rattle.std.specs.Prelude.{◌≡◌, ℕ, map, IfOk};
ghost use Rattle.trial_spec.specs.Made.{made_flow, made_setup};
ghost use Rattle.made_runs.specs.Setups.{IsMadeSetup, flow_as, counter_as};

use crate::draws::Draws;
use agent_sampler::Skips;
use agent_setups::{CounterSetup, FlowSetup, Setup};
use data_format::{Address, SourceId};
use std::alloc::{AllocError, Global};

const PORT: SourceId = SourceId { class: 0, index: 1 };

/// How many skip numbers are drawn.
pub(crate) const SKIPS: u32 = 64;

// The skip numbers, which are the first draws.
fn skips(alloc: Global, seed: u64) -> Result<Vec<u32>, AllocError>
    ensures { IfOk result (λ v. v.items ≡ (made_flow seed).skips) }
{
    let mut draws = Draws { state: seed };
    let mut numbers = Vec::new(alloc);
    for place in 0..SKIPS {
        numbers.push(1 + draws.below(19) as u32)?;
    }
    Ok(numbers)
}

// They are at least 1 each, so that they are skip numbers.
pub(crate) fn drawn_skips(alloc: Global, seed: u64) -> Result<Skips, AllocError>
    ensures { IfOk result (λ s. s ≡ (made_flow seed).skips) }
{
    let numbers = skips(alloc, seed)?;
    Ok(Skips::new(&numbers).unwrap())
}

// The flow source.
fn flows(alloc: Global, seed: u64) -> Result<Vec<FlowSetup>, AllocError>
    ensures { IfOk result (λ v. map flow_as v.items ≡ (made_setup seed).flows) }
{
    let skips = drawn_skips(alloc, seed)?;
    let mut flows = Vec::new(alloc);
    flows.push(FlowSetup {
        source: PORT,
        rate: 10,
        skips,
        first: 4_294_967_280,
        pool: 4_294_967_000,
        drops: 0,
    })?;
    Ok(flows)
}

// The counter source.
fn counters(alloc: Global) -> Result<Vec<CounterSetup>, AllocError>
    ensures { (seed : ℕ) → IfOk result (λ v. map counter_as v.items ≡ (made_setup seed).counters) }
{
    let mut counters = Vec::new(alloc);
    counters.push(CounterSetup {
        source: PORT,
        every: 1000,
        first: 1,
    })?;
    Ok(counters)
}

/// The set-up of the one sub-agent of the run of a seed: 10.0.0.1, sub-agent 1, with the flow source and the counter source
/// 0:1.
pub fn setup(alloc: Global, seed: u64) -> Result<Setup, AllocError>
    ensures { IfOk result (λ u. IsMadeSetup seed u) }
{
    let flows = flows(alloc, seed)?;
    let counters = counters(alloc)?;
    Ok(Setup {
        agent: Address::V4([10, 0, 0, 1]),
        sub_agent: 1,
        max_datagram: 1400,
        stage: 16,
        first: 4_294_967_290,
        flows,
        counters,
    })
}
