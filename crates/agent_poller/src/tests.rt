ghost use Rattle.std.specs.Prelude.{◌≡◌, []};

use crate::{IfCounters, ListMeter, Poller, SourceId};
use std::test::Fail;

// The counters of an interface with this index.
fn reading(index: u32) -> IfCounters<'static>
    ensures { result.tail.now ≡ [] }
{
    IfCounters {
        index,
        if_type: 6,
        speed: 1_000_000_000,
        direction: 1,
        status: 3,
        in_octets: 0,
        in_ucast: 0,
        in_multicast: 0,
        in_broadcast: 0,
        in_discards: 0,
        in_errors: 0,
        in_unknown: 0,
        out_octets: 0,
        out_ucast: 0,
        out_multicast: 0,
        out_broadcast: 0,
        out_discards: 0,
        out_errors: 0,
        promiscuous: 2,
        tail: &[],
    }
}

// A failed read spends no number, and the source stays due.
#[test]
fn polls(rt: HostRuntime) -> Result<(), Fail> {
    let readings = vec![in rt.alloc(); reading(1), reading(2)]?;
    let mut meter = ListMeter::new(readings, vec![in rt.alloc(); 2]?);
    let source = SourceId { class: 0, index: 1 };
    let mut poller = Poller::new(source, 1000, u32::MAX);
    assert!(rt; !poller.due(999) && poller.due(1000) && poller.due(u32::MAX));
    assert!(rt; matches!(poller.poll(1000, &mut meter), Ok(polled) if polled.sequence == u32::MAX));
    assert!(rt; !poller.due(1999) && poller.due(2000));
    assert!(rt; poller.poll(2000, &mut meter).is_err());
    assert!(rt; poller.due(2000));
    assert!(rt;
        matches!(poller.poll(2000, &mut meter), Ok(polled) if polled.sequence == 0 && polled.counters.index == 2)
    );
    Ok(())
}
