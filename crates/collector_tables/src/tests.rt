use crate::{SourceKey, SourceTable, StreamKey, StreamTable};
use std::hash::RandomState;
use std::mem::size_of;
use std::process::Abort;
use std::test::Fail;
use stream_books::{SourceRecord, StreamRecord};

// What is kept of a stream and of a source, in bytes, with the key under which it is kept: all of it lies inline.
#[test]
fn sizes_of_a_stream_and_a_source(rt: HostRuntime) {
    let stream = size_of::<StreamKey>() + size_of::<StreamRecord>();
    let source = size_of::<SourceKey>() + size_of::<SourceRecord>();
    assert!(rt; stream <= 1536, "a stream takes {stream}");
    assert!(rt; source <= 2048, "a source takes {source}");
}

// The room that is taken at the opening is that of the limits, and never as much once more.
#[test]
fn room_at_the_greatest_limits(rt: HostRuntime) -> Result<(), Fail> {
    let streams = StreamTable::open(rt.alloc(), 4_096, RandomState::new(&rt)?)?.room();
    let sources = SourceTable::open(rt.alloc(), 65_536, RandomState::new(&rt)?)?.room();
    assert!(rt;
        4_096 <= streams && streams < 8_192,
        "room for {streams} streams"
    );
    assert!(rt;
        65_536 <= sources && sources < 131_072,
        "room for {sources} sources"
    );
    Ok(())
}
