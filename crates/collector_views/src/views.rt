use books_spec::LedgerView;
use data_format::{Address, SourceId};

/// What is shown of a stream: the datagrams of one sub-agent of an agent.
#[derive(Clone, Copy, Debug)]
pub struct StreamView {
    /// The address of the agent.
    pub agent: Address,
    /// Which sub-agent of it.
    pub sub_agent: u32,
    /// How many boots it had.
    pub boots: u64,
    /// The numbers of its datagrams, over its boots.
    pub ledger: LedgerView,
    /// How many of its datagrams came from a boot before its last one.
    pub stale: u64,
}

/// What is shown of a source: the samples of one kind, class and index of a stream.
#[derive(Clone, Copy, Debug)]
pub struct SourceView {
    /// The number of its stream in order of first arrival, counted from 1.
    pub stream: u32,
    /// Whether flow samples are taken, else counters samples.
    pub flow: bool,
    /// What is sampled or counted.
    pub source: SourceId,
    /// How many generations it had in all boots of its stream: the stretches between restarts and its own resets.
    pub generations: u64,
    /// The numbers of its samples, over its generations.
    pub ledger: LedgerView,
    /// How many of its samples came from a generation before the current one of their boot.
    pub stale: u64,
}
