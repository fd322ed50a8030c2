use crate::IfLedger;
use rec_counters::IfCounters;

fn counters(in_octets: u64, in_ucast: u32) -> IfCounters<'static> {
    IfCounters {
        index: 5,
        if_type: 6,
        speed: 1_000_000_000,
        direction: 1,
        status: 3,
        in_octets,
        in_ucast,
        in_multicast: 0,
        in_broadcast: 0,
        in_discards: 0,
        in_errors: 0,
        in_unknown: 0,
        out_octets: 0,
        out_ucast: 0,
        out_multicast: 0,
        out_broadcast: 0,
        out_discards: 0,
        out_errors: 0,
        promiscuous: 2,
        tail: &[],
    }
}

// The figures themselves are proved: this runs what was built of them once, through wraps, out of order and anew.
#[test]
fn through_wraps_and_runs(rt: HostRuntime) {
    let mut ledger = IfLedger::open();
    ledger.enter(1, 1, &counters(0xffff_ffff_ffff_fff0, 0xffff_fffe));
    ledger.enter(1, 2, &counters(16, 3));
    assert_eq!(rt; ledger.rises(), [32, 5, 0, 0, 0, 0, 0, 0, 0, 0, 0, 0, 0]);
    ledger.enter(1, 0, &counters(0xffff_ffff_ffff_ffe0, 0xffff_fff8));
    ledger.enter(2, 1, &counters(0, 0));
    ledger.enter(2, 2, &counters(100, 1));
    assert_eq!(rt; ledger.rises(), [148, 12, 0, 0, 0, 0, 0, 0, 0, 0, 0, 0, 0]);
    assert_eq!(rt; (ledger.run(), ledger.samples()), (2, 5));
}
