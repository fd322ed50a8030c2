// The lines of the records of switches and routes, up to the tail.
ghost use Rattle.rec_extended.specs.Contents.{switch_content};
ghost use Rattle.rec_extended.specs.RouteContents.{router_content, gateway_content};
ghost use Rattle.text_lines.specs.Pages.{Prints};
ghost use Rattle.data_format.specs.Values.{members_of};
ghost use Rattle.show_lines.specs.FlowLines.{switch_front, router_front, route_text, gateway_front};

use crate::parts::{put_list, put_text};
use crate::path::put_path;
use byte_ends::{Failed, Sink};
use rec_extended::{GatewayRec, RouterRec, SwitchRec};
use text_lines::{Page, Piece};

// The VLANs of a packet.
#[tactic(auto, unfolding(crate::specs::FlowLines::switch_front))]
pub(crate) fn put_switch<K: Sink>(
    page: &mut Page,
    sink: &mut K,
    this: &SwitchRec<'_>,
) -> Result<(), Failed>
    ensures { Prints (K.seen sink.old) (K.seen sink.new) page.old page.new result
        (switch_front (members_of (switch_content this.now).0)) }
{
    let pieces = [
        Piece::Text("  switch src "),
        Piece::Number(this.src_vlan as u128),
        Piece::Text("/"),
        Piece::Number(this.src_priority as u128),
        Piece::Text(" dst "),
        Piece::Number(this.dst_vlan as u128),
        Piece::Text("/"),
        Piece::Number(this.dst_priority as u128),
    ];
    page.put_line(sink, &pieces)
}

// The route of a packet.
pub(crate) fn put_router<K: Sink>(
    page: &mut Page,
    sink: &mut K,
    this: &RouterRec<'_>,
) -> Result<(), Failed>
    ensures { Prints (K.seen sink.old) (K.seen sink.new) page.old page.new result
        (router_front (members_of (router_content this.now).0)) }
{
    let pieces = [
        Piece::Text("  router nexthop "),
        Piece::Address(this.nexthop),
        Piece::Text(" src "),
        Piece::Number(this.src_mask as u128),
        Piece::Text(" dst "),
        Piece::Number(this.dst_mask as u128),
    ];
    page.put_line(sink, &pieces)
}

// The BGP route of a packet.
pub(crate) fn put_gateway<K: Sink>(
    page: &mut Page,
    sink: &mut K,
    this: &GatewayRec<'_>,
) -> Result<(), Failed>
    ensures { Prints (K.seen sink.old) (K.seen sink.new) page.old page.new result
        (gateway_front (members_of (gateway_content this.now).0)) }
{
    put_route(page, sink, this)?;
    put_text(page, sink, " path ")?;
    put_path(page, sink, this.path())?;
    put_text(page, sink, " communities ")?;
    put_list(page, sink, &this.communities())?;
    let pieces = [
        Piece::Text(" localpref "),
        Piece::Number(this.localpref as u128),
    ];
    page.put_line(sink, &pieces)
}

// What stands before its path.
fn put_route<K: Sink>(page: &mut Page, sink: &mut K, this: &GatewayRec<'_>) -> Result<(), Failed>
    ensures { Prints (K.seen sink.old) (K.seen sink.new) page.old page.new result
        (route_text (members_of (gateway_content this.now).0)) }
{
    let pieces = [
        Piece::Text("  gateway nexthop "),
        Piece::Address(this.nexthop),
        Piece::Text(" as "),
        Piece::Number(this.as_number as u128),
        Piece::Text(" src "),
        Piece::Number(this.src_as as u128),
        Piece::Text(" peer "),
        Piece::Number(this.src_peer_as as u128),
    ];
    page.put_line(sink, &pieces)
}
