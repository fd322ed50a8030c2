/// A datagram arrives.
#[derive(Clone, Copy, Debug, PartialEq, Eq, Drop)]
pub struct Arrival {
    /// The boot in which it was sent, counted from 1.
    pub boot: u64,
    /// Which datagram of its boot it is, counted from 1.
    pub number: u64,
    /// When it arrives, in ms.
    pub at: u64,
}

/// What arrives where a datagram is decided, in this order.
#[derive(Clone, Copy, Debug, PartialEq, Eq, Drop)]
pub struct Arrivals {
    /// The datagram.
    pub first: Option<Arrival>,
    /// The datagram once more.
    pub second: Option<Arrival>,
    /// The datagram that was held.
    pub held: Option<Arrival>,
}
