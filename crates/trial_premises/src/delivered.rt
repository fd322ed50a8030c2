/// A datagram that is delivered, by what its agent counted.
#[derive(Clone, Copy, Debug, Drop)]
pub struct TrueDatagram {
    /// The boot of its sub-agent in which it was sent, counted from 1.
    pub boot: u64,
    /// Its number, which never wraps.
    pub number: u128,
    /// The uptime that it shows, in ms.
    pub uptime: u32,
    /// When it arrives, in ms.
    pub arrival: u64,
}

/// A sample of a datagram, by what its agent counted.
#[derive(Clone, Copy, Debug, Drop)]
pub struct TrueSample {
    /// The place of its source among those of its sub-agent: the flow sources in order of set-up, and behind them the
    /// counter sources; counted from 0.
    pub source: usize,
    /// The generation of its source in the boot, counted from 1.
    pub generation: u64,
    /// Its number, which never wraps.
    pub number: u128,
    /// Its sample pool in packets, which never wraps.
    pub pool: u128,
    /// Its drops in packets, which never wrap.
    pub drops: u128,
}
