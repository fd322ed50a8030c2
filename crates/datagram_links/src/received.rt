/// What a receive gives.
#[derive(Clone, Copy, Debug, PartialEq, Eq)]
pub enum Received {
    /// A datagram, or as much of it as the room holds: the first `len` bytes of the room. It arrived at `at` ms.
    Got { len: usize, at: u64 },
    /// Nothing came for a while.
    Quiet,
}
