// The lines of the records of users, URLs, label stacks and translated addresses, up to the tail.
ghost use Rattle.rec_more.specs.Contents.{user_content, url_content, mpls_content, nat_content};
ghost use Rattle.text_lines.specs.Pages.{Prints};
ghost use Rattle.data_format.specs.Values.{members_of};
ghost use Rattle.show_lines.specs.FurtherLines.{user_front, url_front, hop_text, mpls_front, nat_front};

use crate::parts::{put_list, put_text};
use byte_ends::{Failed, Sink};
use rec_more::{MplsRec, NatRec, UrlRec, UserRec};
use text_lines::{Page, Piece};

// The users of a packet.
#[tactic(auto, unfolding(crate::specs::FurtherLines::user_front))]
pub(crate) fn put_user<K: Sink>(
    page: &mut Page,
    sink: &mut K,
    this: &UserRec<'_>,
) -> Result<(), Failed>
    ensures { Prints (K.seen sink.old) (K.seen sink.new) page.old page.new result
        (user_front (members_of (user_content this.now).0)) }
{
    let pieces = [
        Piece::Text("  user src "),
        Piece::Number(this.src_charset as u128),
        Piece::Text(" "),
        Piece::Hex(this.src_user),
        Piece::Text(" dst "),
        Piece::Number(this.dst_charset as u128),
        Piece::Text(" "),
        Piece::Hex(this.dst_user),
    ];
    page.put_line(sink, &pieces)
}

// The URL that a packet is about.
#[tactic(auto, unfolding(crate::specs::FurtherLines::url_front))]
pub(crate) fn put_url<K: Sink>(
    page: &mut Page,
    sink: &mut K,
    this: &UrlRec<'_>,
) -> Result<(), Failed>
    ensures { Prints (K.seen sink.old) (K.seen sink.new) page.old page.new result
        (url_front (members_of (url_content this.now).0)) }
{
    let pieces = [
        Piece::Text("  url direction "),
        Piece::Number(this.direction as u128),
        Piece::Text(" url "),
        Piece::Hex(this.url),
        Piece::Text(" host "),
        Piece::Hex(this.host),
    ];
    page.put_line(sink, &pieces)
}

// The label stacks of a packet.
pub(crate) fn put_mpls<K: Sink>(
    page: &mut Page,
    sink: &mut K,
    this: &MplsRec<'_>,
) -> Result<(), Failed>
    ensures { Prints (K.seen sink.old) (K.seen sink.new) page.old page.new result
        (mpls_front (members_of (mpls_content this.now).0)) }
{
    put_hop(page, sink, this)?;
    put_list(page, sink, &this.in_stack)?;
    put_text(page, sink, " out ")?;
    put_list(page, sink, &this.out_stack)
}

// What stands before its stacks.
fn put_hop<K: Sink>(page: &mut Page, sink: &mut K, this: &MplsRec<'_>) -> Result<(), Failed>
    ensures { Prints (K.seen sink.old) (K.seen sink.new) page.old page.new result
        (hop_text (members_of (mpls_content this.now).0)) }
{
    let pieces = [
        Piece::Text("  mpls nexthop "),
        Piece::Address(this.nexthop),
        Piece::Text(" in "),
    ];
    page.put_line(sink, &pieces)
}

// The translated addresses of a packet.
pub(crate) fn put_nat<K: Sink>(
    page: &mut Page,
    sink: &mut K,
    this: &NatRec<'_>,
) -> Result<(), Failed>
    ensures { Prints (K.seen sink.old) (K.seen sink.new) page.old page.new result
        (nat_front (members_of (nat_content this.now).0)) }
{
    let pieces = [
        Piece::Text("  nat src "),
        Piece::Address(this.src),
        Piece::Text(" dst "),
        Piece::Address(this.dst),
    ];
    page.put_line(sink, &pieces)
}
