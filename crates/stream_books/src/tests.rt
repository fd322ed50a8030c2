use crate::{Booked, Entered, SamplePlace, SampleReading, SourceRecord, StreamRecord, Taken};

// The figures themselves are proved: this runs what was built of them once.
#[test]
fn over_a_restart(rt: HostRuntime) {
    let mut stream = StreamRecord::open(64);
    stream.take(5000, 100_000, 90_000, 5);
    stream.take(5000, 100_010, 90_010, 7);
    let first = stream.take(5000, 130_000, 1000, 1);
    assert_eq!(rt; (first.taken, first.number), (Taken::First, 1));
    assert_eq!(rt; stream.take(5000, 131_000, 120_000, 8).taken, Taken::Stale);
    let view = stream.view();
    assert_eq!(rt;
        (view.issued, view.received, view.pending, view.lost),
        (4, 3, 0, 1)
    );
    let mut source = SourceRecord::open_flow(1024);
    let at = |datagram| SamplePlace { datagram, index: 0 };
    let sample = |sequence, pool, rate| SampleReading {
        sequence,
        pool,
        drops: 7,
        rate,
    };
    source.enter(1, at(1), sample(1, 2, 256));
    source.enter(1, at(3), sample(3, 9, 256));
    assert_eq!(rt;
        source.enter(1, at(2), sample(3, 9, 256)),
        Booked::Entered(Entered::Repeat)
    );
    source.enter(2, at(1), sample(1, 4, 512));
    let view = source.view(3);
    assert_eq!(rt; (view.generations, view.stale), (2, 0));
    let view = view.ledger;
    assert_eq!(rt;
        (
            view.received,
            view.lost,
            view.repeated,
            view.pool,
            view.rate
        ),
        (3, 1, 1, 7, 512)
    );
}
