use crate::{Collector, Limits, Seeds};
use collector_tables::SourceKey;
use if_ledger::IfLedger;
use std::hash::RandomState;
use std::mem::size_of;
use std::process::Abort;
use std::test::Fail;
use stream_books::SourceRecord;

#[test]
fn opens_at_the_greatest_limits(rt: HostRuntime) -> Result<(), Fail> {
    let limits = Limits {
        streams: 4_096,
        sources: 65_536,
        datagram_width: 8_192,
        sample_width: 8_192,
        boot_slack: 1_073_741_824,
    };
    let seeds = Seeds {
        streams: RandomState::new(&rt)?,
        sources: RandomState::new(&rt)?,
    };
    let collector = Collector::open(rt.alloc(), limits, seeds)?;
    assert_eq!(rt; collector.source_count(), 0);
    Ok(())
}

// What is kept of a source, in bytes: its key, its ledger, and the one of its interface, in a table of their own.
#[test]
fn size_of_a_source_with_its_interface(rt: HostRuntime) {
    let source = size_of::<SourceKey>() + size_of::<SourceRecord>() + size_of::<IfLedger>();
    assert!(rt; source <= 2048, "a source takes {source}");
}
