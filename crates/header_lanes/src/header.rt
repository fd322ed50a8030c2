ghost use Rattle.std.specs.Prelude.{◌≡◌};
ghost use Rattle.header_lanes.specs.declared.header.Kind.TheVariants.{Unscanned};
ghost use Rattle.header_lanes.specs.Numbers.{bare};

use data_format::Address;

/// What a sampled header is.
#[derive(Debug, Clone, Copy, PartialEq, Eq)]
pub enum Kind {
    /// The header protocol is none of Ethernet, IPv4 and IPv6.
    Unscanned,
    /// The header ends before a part that has to be read.
    Short,
    /// The type is a length, at most 1500 (IEEE 802.3).
    Length,
    /// The type is from 1501 to 1535, which IEEE 802.3 leaves undefined.
    Undefined,
    /// The type is 0x0806.
    Arp,
    /// There is an IPv4 header (RFC 791).
    Ipv4,
    /// There is an IPv6 header (RFC 8200).
    Ipv6,
    /// The type is another one.
    OtherType,
    /// The type is that of an IP header, and the first byte isn't one of such a header.
    BadIp,
}

/// What a sampled header says. A fact that it doesn't give is `None`, an address `Unknown`.
#[derive(Debug, Clone, Copy, PartialEq, Eq)]
pub struct HeaderFacts {
    /// What the header is.
    pub kind: Kind,
    /// The identifier in the first tag, at most 4095 (IEEE 802.1Q).
    pub vlan: Option<u16>,
    /// The type behind the tags, where it is above 1535.
    pub ethertype: Option<u16>,
    /// The protocol of an IPv4 header, or the next header of an IPv6 header.
    pub proto: Option<u8>,
    /// The source address of the IP header.
    pub src: Address,
    /// The destination address of the IP header.
    pub dst: Address,
    /// The source port of TCP (RFC 9293) or UDP (RFC 768).
    pub src_port: Option<u16>,
    /// The destination port of TCP or UDP.
    pub dst_port: Option<u16>,
    /// The byte of TCP's control bits, FIN in the lowest bit.
    pub tcp_flags: Option<u8>,
}

impl HeaderFacts {
    /// `Unscanned`, and no fact.
    pub fn none() -> HeaderFacts
        ensures { result ≡ bare Unscanned }
    {
        only(Kind::Unscanned)
    }
}

/// A kind, and no fact beside it.
pub fn only(kind: Kind) -> HeaderFacts
    ensures { result ≡ bare kind }
{
    HeaderFacts {
        kind,
        vlan: None,
        ethertype: None,
        proto: None,
        src: Address::Unknown,
        dst: Address::Unknown,
        src_port: None,
        dst_port: None,
        tcp_flags: None,
    }
}
