/// What a ledger shows: sums over all boots.
#[derive(Debug, Clone, Copy, PartialEq, Eq)]
pub struct LedgerView {
    /// How many numbers were issued, from the least to the greatest counted one of each boot.
    pub issued: u128,
    /// How many of them were counted.
    pub received: u64,
    /// How many numbers of the current boot weren't counted, and still may be.
    pub pending: u32,
    /// How many others weren't counted.
    pub lost: u128,
    /// How many marks brought a number once more.
    pub repeated: u64,
    /// How many marks came too late.
    pub late: u64,
    /// The rise of the sample pool, in packets: from the least to the greatest counted number of each boot.
    pub pool: u128,
    /// The rise of the drops, in packets, likewise.
    pub drops: u128,
    /// The sampling rate at the greatest counted number of the last boot that has one: one of so many packets.
    pub rate: u32,
}
