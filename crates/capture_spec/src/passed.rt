// Why a packet has no payload.

/// Why a captured packet isn't taken: it holds no whole UDP datagram to port 6343.
#[derive(Clone, Copy, Debug, PartialEq, Eq)]
pub enum Passed {
    /// The frame ends inside its Ethernet header or its tags, or inside the fixed header of IP.
    Short,
    /// Its type is neither 0x0800 (IPv4) nor 0x86dd (IPv6).
    NotIp,
    /// The version isn't the one that the type says, or a length of the IPv4 header is too small.
    BadIp,
    /// A fragment of an IPv4 packet.
    Fragment,
    /// The protocol isn't UDP.
    NotUdp,
    /// The UDP header or the UDP length doesn't fit in the packet of IP.
    BadLen,
    /// The UDP datagram fits in the packet, which was captured only in part.
    Cut,
    /// The port that it is sent to isn't 6343.
    Port,
}
