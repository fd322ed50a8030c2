/// The bytes of a body, without the padding behind them.
#[derive(Clone, Copy, Debug, Drop)]
pub struct Body<'a> {
    /// The bytes.
    pub bytes: &'a [u8],
    /// The place of the first of them: bytes from the datagram's first byte on.
    pub at: usize,
}
