use data_format::Port;

/// A packet that a source sees.
#[derive(Clone, Copy, Debug)]
pub struct Packet<'a> {
    /// Where it came in.
    pub input: Port,
    /// Where it went out.
    pub output: Port,
    /// Its length in bytes, the frame check sequence among them.
    pub frame_length: u32,
    /// Its VLAN (IEEE 802.1Q), if it has one.
    pub vlan: Option<u16>,
    /// Its first bytes, from the Ethernet header on. A sample shows at most 128 of them.
    pub header: &'a [u8],
}

/// What came of a packet that was observed.
#[derive(Clone, Copy, Debug, PartialEq, Eq)]
pub enum Seen {
    /// It isn't marked for a sample.
    Passed,
    /// A sample of it is staged.
    Issued {
        /// The sequence number of the sample.
        sequence: u32,
    },
    /// It is marked, but the stage is full.
    Dropped,
}

/// Why a packet isn't observed: the first of these that holds.
#[derive(Clone, Copy, Debug, PartialEq, Eq)]
pub enum ObserveRefusal {
    /// No source of flow samples is this one.
    NoSource,
    /// The form is compact, and the form of a port is above 3 or its value is 2^30 or more.
    BadPort,
    /// A datagram with the sample of this packet alone would have too many bytes.
    TooLarge,
}
