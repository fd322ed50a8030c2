// What the reader of a pcap file answers, and where it stands.

use capture_spec::ByteOrder;
use sflow_io::ReadRefusal;

/// What a reader of a pcap file gives.
#[derive(Clone, Copy, Debug, PartialEq, Eq)]
pub enum PcapNext {
    /// A packet that was captured at `at` ms, rounded down. Its captured bytes are the first `len` of the room, at
    /// most 262,144.
    Packet { at: u64, len: usize },
    /// The end of the file.
    End,
}

/// Where a reader of a pcap file stands.
#[derive(Clone, Copy, Debug, PartialEq, Eq)]
pub enum PcapStage {
    /// Before the header.
    Start,
    /// Behind so many packets, at most 2^48, of a file in this order; `offset` is that of the next byte, from the
    /// start of the input.
    Within {
        order: ByteOrder,
        count: u64,
        offset: u128,
    },
    /// It ended with this answer, `End` or a refusal, and gives it again and again.
    Ended {
        answer: Result<PcapNext, ReadRefusal>,
    },
}
