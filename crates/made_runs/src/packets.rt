use data_format::Port;

/// A packet of the run. It has no VLAN.
#[derive(Clone, Copy, Debug, PartialEq, Eq, Drop)]
pub struct MadePacket {
    /// Where it came in.
    pub input: Port,
    /// Where it went out.
    pub output: Port,
    /// Its length in bytes, the frame check sequence among them, from 64 to 1,518.
    pub frame_length: u32,
    /// Its first bytes, from the Ethernet header on.
    pub header: [u8; 48],
}
