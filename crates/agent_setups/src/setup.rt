use agent_sampler::Skips;
use data_format::{Address, SourceId};

/// A source of flow samples, as it is set up.
#[derive(Drop)]
pub struct FlowSetup {
    /// What is sampled: a class of at most 255, and in the compact form an index below 2^24.
    pub source: SourceId,
    /// The sampling rate that samples show, at least 1.
    pub rate: u32,
    /// The numbers of packets from one mark to the next.
    pub skips: Skips,
    /// The sequence number of the first sample.
    pub first: u32,
    /// What the sample pool begins with, in packets.
    pub pool: u32,
    /// What the drops begin with, in packets.
    pub drops: u32,
}

/// A source of counters samples, as it is set up.
#[derive(Clone, Copy, Debug, Drop)]
pub struct CounterSetup {
    /// What is polled: a class of at most 255, and in the compact form an index below 2^24.
    pub source: SourceId,
    /// The time from one poll to the next, in ms, at least 1.
    pub every: u32,
    /// The sequence number of the first sample.
    pub first: u32,
}

/// A sub-agent, as it is set up.
#[derive(Drop)]
pub struct Setup {
    /// The address of the agent.
    pub agent: Address,
    /// Which sub-agent of it.
    pub sub_agent: u32,
    /// The most bytes of a datagram, from 64 to 65,535.
    pub max_datagram: u32,
    /// How many samples wait at most, from 1 to 1,024.
    pub stage: u32,
    /// The sequence number of the first datagram of a boot.
    pub first: u32,
    /// The sources of flow samples, at most 1,024, no two of them one source.
    pub flows: Vec<FlowSetup>,
    /// The sources of counters samples, at most 1,024, no two of them one source.
    pub counters: Vec<CounterSetup>,
}

/// Why a sub-agent isn't opened.
#[derive(Clone, Copy, Debug, PartialEq, Eq)]
pub enum OpenRefusal {
    /// The set-up breaks the rule of this number, and none of a lower one: 1 the bytes of a datagram aren't from 64 to
    /// 65,535; 2 the samples that wait aren't from 1 to 1,024; 3 there are more than 1,024 sources of a kind; 4 a source
    /// stands twice in a kind; 5 a sampling rate or a time from poll to poll is 0; 6 a class is above 255; 7 the form is
    /// compact, and an index is 2^24 or more.
    BadSetup {
        /// The number of the rule.
        number: u32,
    },
    /// There is no memory for it.
    Memory,
}
