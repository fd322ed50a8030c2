use crate::ledger_view::LedgerView;

/// What the ledger of a source shows: sums over all its generations, in all boots.
#[derive(Debug, Clone, Copy, PartialEq, Eq)]
pub struct SourceLedgerView {
    /// How many generations the source had, in all boots.
    pub generations: u64,
    /// The numbers of its samples, over its generations.
    pub ledger: LedgerView,
    /// How many samples came from a generation before the current one of their boot.
    pub stale: u64,
}

/// What is shown of the interface counters of a source, over its generations in all boots.
#[derive(Debug, Clone, Copy)]
pub struct IfView {
    /// How many first samples had such counters.
    pub samples: u64,
    /// By how much each of the thirteen counters rose, in the order of their record, in bytes or packets.
    pub rises: [u128; 13],
}
