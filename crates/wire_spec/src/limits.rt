/// The most bytes that a datagram has: what UDP carries (RFC 768).
pub const MAX_DATAGRAM: usize = 65_535;

/// The most entries of a capture that are read.
pub const MAX_ENTRIES: u64 = 1 << 48;
