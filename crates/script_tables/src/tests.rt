use crate::{CounterSetup, FlowSetup, ScriptSetups, ScriptTables};
use agent_sampler::Skips;
use data_format::{Address, SourceId};
use std::test::Fail;

const SOURCE: SourceId = SourceId { class: 0, index: 5 };

#[test]
fn a_datagram_is_delivered_once_it_was_sent(rt: HostRuntime) -> Result<(), Fail> {
    let mut tables = ScriptTables::new(rt.alloc());
    tables.add_sub(rt.alloc(), 1, 1000)?;
    tables.add_source(1, true, SOURCE)?;
    assert!(rt; !tables.may_add_source(1, true, SOURCE));
    assert!(rt; tables.may_add_source(1, false, SOURCE));
    tables.go_on();
    assert!(rt; !tables.may_add_sub(2));
    assert!(rt; !tables.may_deliver(1, 1, 1));
    tables.send(1, 2);
    assert!(rt; tables.may_deliver(1, 1, 2));
    assert!(rt; !tables.may_deliver(1, 1, 3));
    tables.restart(1, 9000)?;
    assert!(rt; !tables.may_deliver(1, 2, 1));
    Ok(())
}

#[test]
fn sources_go_to_their_sub_agent(rt: HostRuntime) -> Result<(), Fail> {
    let mut setups = ScriptSetups::new(rt.alloc());
    setups.set_max(600);
    setups.add_sub(rt.alloc(), 1, Address::V4([10, 0, 0, 1]), 1, 2)?;
    setups.add_sub(rt.alloc(), 2, Address::V4([10, 0, 0, 1]), 1, 2)?;
    if let Some(skips) = Skips::new(&[3, 2]) {
        let flow = FlowSetup {
            source: SOURCE,
            rate: 3,
            skips,
            first: 1,
            pool: 0,
            drops: 0,
        };
        setups.add_flow(2, flow)?;
    }
    let counter = CounterSetup {
        source: SOURCE,
        every: 1000,
        first: 1,
    };
    setups.add_counter(2, counter)?;
    let all = setups.into_setups();
    assert_eq!(rt; all.len(), 2);
    assert_eq!(rt; all[0].flows.len(), 0);
    assert_eq!(rt; all[1].max_datagram, 600);
    assert_eq!(rt; all[1].flows.len(), 1);
    assert_eq!(rt; all[1].counters.len(), 1);
    Ok(())
}
