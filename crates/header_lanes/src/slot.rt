/// A header protocol, and the first bytes of a header, as far as facts depend on them. What stands behind them is of
/// earlier headers.
#[derive(Debug, Clone, Copy)]
pub struct Slot {
    pub protocol: u32,
    pub len: usize,
    pub bytes: [u8; 96],
}
