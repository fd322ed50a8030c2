use data_format::SourceId;

/// A source that lines have set up, and the ID of its sub-agent.
#[derive(Clone, Copy, Debug, Drop)]
pub struct SourceRow {
    pub owner: u32,
    /// Whether it is a source of flow samples, and not one of counters samples.
    pub flow: bool,
    pub source: SourceId,
}

/// A boot of a sub-agent.
#[derive(Clone, Copy, Debug, Drop)]
pub struct BootRow {
    /// When it arrives, in ms.
    pub at: u64,
    /// How many datagrams it has sent.
    pub sent: u64,
}

/// A sub-agent that lines have set up.
#[derive(Drop)]
pub struct SubRow {
    pub id: u32,
    /// Its boots, in their order.
    pub boots: Vec<BootRow>,
}

/// A sub-agent among those of the lines, and when its newest boot arrives.
#[derive(Clone, Copy, Debug, Drop)]
pub struct SubPlace {
    /// How many sub-agents stand before it.
    pub place: usize,
    /// When its newest boot arrives, in ms.
    pub at: u64,
}
