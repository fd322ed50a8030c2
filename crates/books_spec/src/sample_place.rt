/// Where a sample stands in its boot. Places are compared by the datagram and then by the index.
#[derive(Debug, Clone, Copy, PartialEq, Eq)]
pub struct SamplePlace {
    /// The number of its datagram in the boot, the integer that the sequence word stands for.
    pub datagram: i128,
    /// Its index among all samples of the datagram, counted from 0.
    pub index: u32,
}
