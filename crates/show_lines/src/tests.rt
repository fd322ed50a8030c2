use crate::show_entry;
use sflow_io::{MemorySink, WriteFault};

// Version 5, agent 10.0.0.1, sub-agent 0, sequence number 1, uptime 1,000 ms, no samples.
const EMPTY: [u8; 28] = *b"\0\0\0\x05\0\0\0\x01\x0a\0\0\x01\0\0\0\0\0\0\0\x01\0\0\x03\xe8\0\0\0\0";

const LINES: &str = "entry 1 at 1000 bytes 28\n\
datagram agent 10.0.0.1 sub 0 seq 1 uptime 1000 samples 0\n";

#[test]
fn an_entry_is_shown_as_far_as_it_fits(rt: HostRuntime) {
    let mut sink = MemorySink::new(rt.alloc(), 100, Vec::new(rt.alloc()));
    assert_eq!(rt; show_entry(&mut sink, 1, 1000, None, &EMPTY), Ok(()));
    assert!(rt; sink.bytes() == LINES.as_bytes());
    let mut few = MemorySink::new(rt.alloc(), 20, Vec::new(rt.alloc()));
    assert_eq!(rt;
        show_entry(&mut few, 1, 1000, None, &EMPTY),
        Err(WriteFault)
    );
    assert!(rt; few.bytes().len() == 20 && LINES.as_bytes().starts_with(few.bytes()));
}
