// The lines of a sample's records.
ghost use Rattle.std.specs.Prelude.{◌≡◌};
ghost use Rattle.data_format.specs.Trees.{frame_tree, trees_of};
ghost use Rattle.datagram_core.specs.Kinds.{HasKind};
ghost use Rattle.datagram_core.specs.Records.{record_tree, table_of};
ghost use Rattle.datagram_core.specs.declared.records.RecordKind.{RecordKind};
ghost use Rattle.text_lines.specs.Pages.{Prints};
ghost use Rattle.data_format.specs.Values.{tail_in};
ghost use Rattle.show_lines.specs.Joined.{texts_of};
ghost use Rattle.show_lines.specs.Shown.{record_text, record_front};

use crate::counters::{put_dot3, put_interface, put_processor, put_vlan};
use crate::extended::{put_gateway, put_router, put_switch};
use crate::further::{put_mpls, put_nat, put_url, put_user};
use crate::headers::{put_ethernet, put_header, put_ipv4, put_ipv6};
use crate::lines::{put_frame, put_line_end};
use byte_ends::{Failed, Sink};
use datagram_core::{Record, Records};
use text_lines::Page;

// The line of each record, in their order.
pub(crate) fn put_records<K: Sink>(
    page: &mut Page,
    sink: &mut K,
    mut records: Records<'_>,
) -> Result<(), Failed>
    ensures { Prints (K.seen sink.old) (K.seen sink.new) page.old page.new result
        (texts_of (record_text records.entry.kind)
        (trees_of (frame_tree (table_of records.entry.kind)) records.entry.frames)) }
{
    while let Some(record) = records.next() {
        put_record(page, sink, &record)?;
    }
    Ok(())
}

// The line of a record of this kind, with its end.
fn put_record<K: Sink>(page: &mut Page, sink: &mut K, this: &Record<'_>) -> Result<(), Failed>
    ensures { (kind : RecordKind) → HasKind kind this.now
        → Prints (K.seen sink.old) (K.seen sink.new) page.old page.new result (record_text kind (record_tree this.now)) }
{
    put_record_front(page, sink, this)?;
    put_line_end(page, sink, tail_of(this))
}

// The line up to its tail.
fn put_record_front<K: Sink>(page: &mut Page, sink: &mut K, this: &Record<'_>) -> Result<(), Failed>
    ensures { (kind : RecordKind) → HasKind kind this.now
        → Prints (K.seen sink.old) (K.seen sink.new) page.old page.new result (record_front kind (record_tree this.now)) }
{
    match this {
        Record::RawHeader(r) => put_header(page, sink, r),
        Record::Ethernet(r) => put_ethernet(page, sink, r),
        Record::Ipv4(r) => put_ipv4(page, sink, r),
        Record::Ipv6(r) => put_ipv6(page, sink, r),
        Record::Switch(r) => put_switch(page, sink, r),
        Record::Router(r) => put_router(page, sink, r),
        Record::Gateway(r) => put_gateway(page, sink, r),
        Record::User(r) => put_user(page, sink, r),
        Record::Url(r) => put_url(page, sink, r),
        Record::Mpls(r) => put_mpls(page, sink, r),
        Record::Nat(r) => put_nat(page, sink, r),
        Record::IfCounters(r) => put_interface(page, sink, r),
        Record::EthernetCounters(r) => put_dot3(page, sink, r),
        Record::VlanCounters(r) => put_vlan(page, sink, r),
        Record::Processor(r) => put_processor(page, sink, r),
        Record::Other(frame) => put_frame(page, sink, "  record ", frame.format, frame.body),
    }
}

// The bytes behind what the format has.
fn tail_of<'a>(this: &Record<'a>) -> &'a [u8]
    ensures { result.now ≡ tail_in (record_tree this.now) }
{
    match this {
        Record::RawHeader(r) => r.tail,
        Record::Ethernet(r) => r.tail,
        Record::Ipv4(r) => r.tail,
        Record::Ipv6(r) => r.tail,
        Record::Switch(r) => r.tail,
        Record::Router(r) => r.tail,
        Record::Gateway(r) => r.tail,
        Record::User(r) => r.tail,
        Record::Url(r) => r.tail,
        Record::Mpls(r) => r.tail,
        Record::Nat(r) => r.tail,
        Record::IfCounters(r) => r.tail,
        Record::EthernetCounters(r) => r.tail,
        Record::VlanCounters(r) => r.tail,
        Record::Processor(r) => r.tail,
        Record::Other(_) => &[],
    }
}
