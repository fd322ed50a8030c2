use crate::{IssuedSample, Put, Seen, Setup, Totals, TrueSubAgent};
use agent_sampler::Skips;
use agent_setups::{CounterSetup, FlowSetup};
use data_format::{Address, SourceId};
use std::alloc::{AllocError, Global};

const PORT: SourceId = SourceId { class: 0, index: 5 };

const COUNTED: SourceId = SourceId { class: 0, index: 6 };

// A sub-agent whose numbers, pool and drops begin at the end of 32 bits.
fn setup(alloc: Global) -> Result<Setup, AllocError> {
    let mut flows = Vec::new(alloc);
    if let Some(skips) = Skips::new(&[1]) {
        flows.push(FlowSetup {
            source: PORT,
            rate: 1,
            skips,
            first: 4_294_967_295,
            pool: 4_294_967_294,
            drops: 4_294_967_295,
        })?;
    }
    let mut counters = Vec::new(alloc);
    counters.push(CounterSetup {
        source: COUNTED,
        every: 1000,
        first: 1,
    })?;
    Ok(Setup {
        agent: Address::V4([10, 0, 0, 1]),
        sub_agent: 0,
        max_datagram: 1400,
        stage: 2,
        first: 4_294_967_295,
        flows,
        counters,
    })
}

// The front of a datagram of an IPv4 agent, up to its number of samples.
fn put(alloc: Global, samples: u8) -> Result<Put, AllocError> {
    let mut bytes = [0u8; 28];
    bytes[7] = 1;
    bytes[27] = samples;
    Ok(Put {
        boot: 1,
        number: 1,
        bytes: Vec::from_slice(alloc, &bytes)?,
    })
}

fn flow_sample(generation: u64, number: u128, pool: u128, drops: u128) -> IssuedSample {
    IssuedSample {
        source: 0,
        generation,
        number,
        pool,
        drops,
    }
}

// The answers themselves are proved: this runs once what was built of them.
#[test]
fn through_a_reset_and_a_restart(rt: HostRuntime) -> Result<(), AllocError> {
    let alloc = rt.alloc();
    let mut agent = TrueSubAgent::open(alloc, &setup(alloc)?)?;
    agent.observe(PORT, Seen::Issued)?;
    agent.observe(PORT, Seen::Dropped)?;
    agent.poll(1000, 1)?;
    agent.send(alloc, 1200, &[put(alloc, 2)?])?;
    agent.observe(PORT, Seen::Issued)?;
    agent.reset(true, PORT);
    agent.observe(PORT, Seen::Issued)?;
    agent.poll(1500, 1)?;
    agent.send(alloc, 1600, &[put(alloc, 2)?])?;
    agent.observe(PORT, Seen::Issued)?;
    agent.restart(alloc)?;
    agent.observe(PORT, Seen::Issued)?;
    agent.send(alloc, 100, &[put(alloc, 1)?])?;

    let begun = flow_sample(1, 4_294_967_295, 4_294_967_295, 4_294_967_295);
    let counters = IssuedSample {
        source: 1,
        generation: 1,
        number: 1,
        pool: 0,
        drops: 0,
    };
    let further = flow_sample(1, 4_294_967_296, 4_294_967_297, 4_294_967_296);
    let anew = flow_sample(2, 4_294_967_295, 4_294_967_295, 4_294_967_295);
    let Some(first) = agent.find(1, 1) else {
        assert!(rt; false);
        return Ok(());
    };
    assert!(rt;
        first.number() == 4_294_967_295
            && first.uptime() == 1200
            && first.samples() == [begun, counters].as_slice()
    );
    let Some(second) = agent.find(1, 2) else {
        assert!(rt; false);
        return Ok(());
    };
    assert!(rt; second.number() == 4_294_967_296 && second.samples() == [further, anew].as_slice());
    let Some(third) = agent.find(2, 1) else {
        assert!(rt; false);
        return Ok(());
    };
    assert!(rt; third.number() == 4_294_967_295 && third.samples() == [begun].as_slice());
    assert!(rt;
        agent.find(2, 2).is_none() && agent.find(0, 1).is_none() && agent.find(3, 1).is_none()
    );
    assert!(rt;
        agent.totals()
            == Totals {
                datagrams: 3,
                issued: 6,
                dropped: 1
            }
    );
    Ok(())
}
