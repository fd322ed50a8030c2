/// What is wrong with the bytes of a datagram.
#[derive(Clone, Copy, Debug, PartialEq, Eq)]
pub enum FaultKind {
    /// The innermost body has fewer bytes left than the item takes with its padding: `left` of `need`.
    Short { need: u64, left: u64 },
    /// A padding byte isn't zero, though zeros are asked for.
    Pad,
    /// The version word isn't 5; `found` is that word.
    Version { found: u32 },
    /// The word that says the kind of an address is above 2; `found` is that word.
    AddressType { found: u32 },
    /// The word that says the kind of a path segment is neither 1 nor 2; `found` is that word.
    SegmentType { found: u32 },
    /// `left` bytes follow the last sample.
    Trailing { left: u64 },
    /// The datagram has more than 65,535 bytes.
    TooLong,
}

/// The first fault of a datagram.
#[derive(Clone, Copy, Debug, PartialEq, Eq)]
pub struct Fault {
    /// The place of the faulty item: bytes from the datagram's first byte on.
    pub at: usize,
    /// What is wrong there.
    pub kind: FaultKind,
}
