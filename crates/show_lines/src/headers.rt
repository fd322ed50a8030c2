// The lines of the records of a sampled packet's headers, up to the tail.
ghost use Rattle.rec_headers.specs.Contents.{raw_content, ethernet_content, ipv4_content, ipv6_content};
ghost use Rattle.text_lines.specs.Pages.{Prints};
ghost use Rattle.data_format.specs.Values.{members_of};
ghost use Rattle.show_lines.specs.FlowLines.{header_front, ethernet_front, ipv4_front, ipv6_front};

use byte_ends::{Failed, Sink};
use data_format::Address;
use rec_headers::{EthernetRec, Ipv4Rec, Ipv6Rec, RawHeader};
use text_lines::{Page, Piece};

// The first bytes of a packet.
#[tactic(auto, unfolding(crate::specs::FlowLines::header_front))]
pub(crate) fn put_header<K: Sink>(
    page: &mut Page,
    sink: &mut K,
    this: &RawHeader<'_>,
) -> Result<(), Failed>
    ensures { Prints (K.seen sink.old) (K.seen sink.new) page.old page.new result
        (header_front (members_of (raw_content this.now).0)) }
{
    let pieces = [
        Piece::Text("  header protocol "),
        Piece::Number(this.protocol as u128),
        Piece::Text(" length "),
        Piece::Number(this.frame_length as u128),
        Piece::Text(" stripped "),
        Piece::Number(this.stripped as u128),
        Piece::Text(" bytes "),
        Piece::Number(this.header.len() as u128),
        Piece::Text(" "),
        Piece::Hex(this.header),
    ];
    page.put_line(sink, &pieces)
}

// An Ethernet header.
#[tactic(auto, unfolding(crate::specs::FlowLines::ethernet_front))]
pub(crate) fn put_ethernet<K: Sink>(
    page: &mut Page,
    sink: &mut K,
    this: &EthernetRec<'_>,
) -> Result<(), Failed>
    ensures { Prints (K.seen sink.old) (K.seen sink.new) page.old page.new result
        (ethernet_front (members_of (ethernet_content this.now).0)) }
{
    let pieces = [
        Piece::Text("  ethernet length "),
        Piece::Number(this.length as u128),
        Piece::Text(" src "),
        Piece::Mac(this.src_mac),
        Piece::Text(" dst "),
        Piece::Mac(this.dst_mac),
        Piece::Text(" type "),
        Piece::Number(this.ethertype as u128),
    ];
    page.put_line(sink, &pieces)
}

// An IPv4 header.
#[tactic(auto, unfolding(crate::specs::FlowLines::ipv4_front))]
pub(crate) fn put_ipv4<K: Sink>(
    page: &mut Page,
    sink: &mut K,
    this: &Ipv4Rec<'_>,
) -> Result<(), Failed>
    ensures { Prints (K.seen sink.old) (K.seen sink.new) page.old page.new result
        (ipv4_front (members_of (ipv4_content this.now).0)) }
{
    let pieces = [
        Piece::Text("  ipv4 length "),
        Piece::Number(this.length as u128),
        Piece::Text(" protocol "),
        Piece::Number(this.protocol as u128),
        Piece::Text(" src "),
        Piece::Address(Address::V4(this.src)),
        Piece::Text(" dst "),
        Piece::Address(Address::V4(this.dst)),
        Piece::Text(" sport "),
        Piece::Number(this.src_port as u128),
        Piece::Text(" dport "),
        Piece::Number(this.dst_port as u128),
        Piece::Text(" flags "),
        Piece::Number(this.tcp_flags as u128),
        Piece::Text(" tos "),
        Piece::Number(this.tos as u128),
    ];
    page.put_line(sink, &pieces)
}

// An IPv6 header.
#[tactic(auto, unfolding(crate::specs::FlowLines::ipv6_front))]
pub(crate) fn put_ipv6<K: Sink>(
    page: &mut Page,
    sink: &mut K,
    this: &Ipv6Rec<'_>,
) -> Result<(), Failed>
    ensures { Prints (K.seen sink.old) (K.seen sink.new) page.old page.new result
        (ipv6_front (members_of (ipv6_content this.now).0)) }
{
    let pieces = [
        Piece::Text("  ipv6 length "),
        Piece::Number(this.length as u128),
        Piece::Text(" protocol "),
        Piece::Number(this.protocol as u128),
        Piece::Text(" src "),
        Piece::Address(Address::V6(this.src)),
        Piece::Text(" dst "),
        Piece::Address(Address::V6(this.dst)),
        Piece::Text(" sport "),
        Piece::Number(this.src_port as u128),
        Piece::Text(" dport "),
        Piece::Number(this.dst_port as u128),
        Piece::Text(" flags "),
        Piece::Number(this.tcp_flags as u128),
        Piece::Text(" priority "),
        Piece::Number(this.priority as u128),
    ];
    page.put_line(sink, &pieces)
}
