use agent_sampler::Skips;
use arrayvec::ArrayVec;
use data_format::{Address, SourceId};

/// What a line of a script says. IDs, numbers, pools and drops have 32 bits. Uptimes and times are in ms.
#[derive(Drop)]
pub enum ScriptLine {
    /// The most bytes of a datagram, from 512 to 65,535.
    Max {
        bytes: u32,
    },
    /// A sub-agent: its address, the number of its first datagram, when its first boot arrives, which is below
    /// 2^63, and how many samples its stage holds, from 1 to 1,024.
    Sub {
        id: u32,
        address: Address,
        first: u32,
        at: u64,
        stage: u32,
    },
    /// A source of flow samples of a sub-agent, whose class is at most 255 and whose rate is at least 1.
    Flow {
        id: u32,
        source: SourceId,
        rate: u32,
        first: u32,
        pool: u32,
        drops: u32,
        skips: Skips,
    },
    /// A source of counters samples of a sub-agent, whose class is at most 255: it is polled every so many ms, at
    /// least 1.
    Counter {
        id: u32,
        source: SourceId,
        every: u32,
        first: u32,
    },
    /// A packet that a source sees: the interfaces of 30 bits where it came in and went out, its VLAN of 12 bits
    /// if it has one, its length in bytes, and its first bytes.
    Packet {
        source: SourceId,
        input: u32,
        output: u32,
        vlan: Option<u16>,
        length: u32,
        header: ArrayVec<u8, 128>,
    },
    /// A poll of a sub-agent.
    Poll {
        id: u32,
        uptime: u32,
    },
    /// A send of a sub-agent.
    Send {
        id: u32,
        uptime: u32,
    },
    /// A restart of a sub-agent, whose new boot arrives at this time, which is below 2^63.
    Restart {
        id: u32,
        at: u64,
    },
    /// A reset of a source of flow samples, or of counters samples.
    Reset {
        flow: bool,
        source: SourceId,
    },
    /// A datagram of a boot, each counted from 1, arrives.
    Deliver {
        id: u32,
        boot: u64,
        number: u64,
        at: u64,
    },
}
