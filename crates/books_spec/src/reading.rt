/// What a sample shows of its source.
#[derive(Debug, Clone, Copy, PartialEq, Eq)]
pub struct SampleReading {
    /// The number of the sample among those of its source, which wraps.
    pub sequence: u32,
    /// The sample pool, in packets, which wraps; 0 in a counters sample.
    pub pool: u32,
    /// The drops, in packets, which wrap; 0 in a counters sample.
    pub drops: u32,
    /// The sampling rate: of so many packets one is sampled; 0 in a counters sample.
    pub rate: u32,
}
