/// An item that a link over memory gives.
#[derive(Debug, Drop)]
pub enum LinkItem {
    /// A datagram that arrives at `at` ms.
    Got { at: u64, bytes: Vec<u8> },
    /// Nothing comes for a while.
    Quiet,
}
