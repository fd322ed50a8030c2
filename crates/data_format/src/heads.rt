use crate::{Port, SourceId};

/// How samples say sources and ports (sFlow Version 5, section 5).
#[derive(Clone, Copy, Debug, PartialEq, Eq)]
pub enum Form {
    /// Each in one word: formats 1 and 2.
    Compact,
    /// Each in two words: formats 3 and 4.
    Expanded,
}

/// What stands before the records of a flow sample (sFlow Version 5, section 5).
#[derive(Clone, Copy, Debug, PartialEq, Eq)]
pub struct FlowHead {
    /// The number of the sample among the flow samples of its source, which wraps.
    pub sequence: u32,
    /// What was sampled.
    pub source: SourceId,
    /// The sampling rate: of so many packets one is sampled.
    pub rate: u32,
    /// The sample pool: how many packets could have been sampled so far, which wraps.
    pub pool: u32,
    /// How many samples were dropped so far for want of resources, which wraps.
    pub drops: u32,
    /// Where the packet came in.
    pub input: Port,
    /// Where the packet went out.
    pub output: Port,
}

/// What stands before the records of a counters sample (sFlow Version 5, section 5).
#[derive(Clone, Copy, Debug, PartialEq, Eq)]
pub struct CountersHead {
    /// The number of the sample among the counters samples of its source, which wraps.
    pub sequence: u32,
    /// What was counted.
    pub source: SourceId,
}
