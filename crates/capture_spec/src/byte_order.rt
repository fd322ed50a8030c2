// The order of the bytes of a number.

/// Which byte of a number comes first.
#[derive(Clone, Copy, Debug, PartialEq, Eq)]
pub enum ByteOrder {
    /// The highest.
    HighFirst,
    /// The lowest.
    LowFirst,
}
