// The record in a frame, by its kind and its format.
ghost use Rattle.std.specs.Prelude.{◌≡◌, ◌+◌, ◌<◌, ◌^◌, length, IfOk};
ghost use Rattle.wire_spec.specs.Reading.{inside_at};
ghost use Rattle.xdr_words.specs.Readers.{Gives};
ghost use Rattle.data_format.specs.Views.{IsFormat, body_of, format_word, frame_view};
ghost use Rattle.datagram_core.specs.Records.{IsRecordFrom, record_tree, table_of};
ghost use Rattle.datagram_core.specs.declared.records.RecordKind.TheVariants.{Flow, Counters};
ghost use Rattle.datagram_core.specs.Tables.{flow_records_read, counter_records_read};
ghost use Rattle.datagram_core.specs.Kinds.{HasKind};

use crate::Record;
use crate::records::RecordKind;
use data_format::{Fault, Frame, RecordBody};
use rec_counters::{EthernetCounters, IfCounters, VlanCounters};
use rec_extended::{GatewayRec, RouterRec, SwitchRec};
use rec_headers::{EthernetRec, Ipv4Rec, Ipv6Rec, RawHeader};
use rec_more::{MplsRec, NatRec, ProcessorCounters, UrlRec, UserRec};
use wire_spec::Pad;

/// A record is read by its check, which has no use for the value.
pub(crate) const BY_CHECK: usize = 0;
/// A record is read to be given.
pub(crate) const TO_GIVE: usize = 1;

impl<'a> Record<'a> {
    /// The record of this kind in a frame, by its format; or the first fault in its body. The place behind the body is
    /// below 2^32. `FOR` says what it is read for, and changes nothing that is read.
    // So the check has an instance of its own, which is inlined there and makes no value.
    #[inline(always)]
    pub(crate) fn read<const FOR: usize>(
        kind: RecordKind,
        frame: Frame<'a>,
        pad: Pad,
    ) -> Result<Record<'a>, Fault>
        requires { frame.at + length frame.body.now < 2 ^ 32 }
        ensures exact { Gives record_tree (λ f. f) result
            (inside_at pad (table_of kind) (format_word frame.entry.format) (body_of (frame_view frame.entry))) }
        ensures from { IfOk result (λ r. IsRecordFrom frame.entry r) }
        ensures kind { IsFormat frame.entry.format → IfOk result (λ r. HasKind kind r) }
    {
        match kind {
            RecordKind::Flow => read_flow::<FOR>(frame, pad),
            RecordKind::Counters => read_counters::<FOR>(frame, pad),
            RecordKind::Unknown => Ok(Record::Other(frame)),
        }
    }
}

// The flow record in a frame, or the first fault in its body.
#[inline(always)]
fn read_flow<'a, const FOR: usize>(frame: Frame<'a>, pad: Pad) -> Result<Record<'a>, Fault>
    requires { frame.at + length frame.body.now < 2 ^ 32 }
    ensures exact { Gives record_tree (λ f. f) result
        (inside_at pad flow_records_read (format_word frame.entry.format) (body_of (frame_view frame.entry))) }
    ensures from { IfOk result (λ r. IsRecordFrom frame.entry r) }
    ensures kind { IsFormat frame.entry.format → IfOk result (λ r. HasKind Flow r) }
{
    if frame.format.enterprise != 0 {
        return Ok(Record::Other(frame));
    }
    match frame.format.number {
        1 => Ok(Record::RawHeader(RawHeader::read(frame, pad)?)),
        2 => Ok(Record::Ethernet(EthernetRec::read(frame, pad)?)),
        3 => Ok(Record::Ipv4(Ipv4Rec::read(frame, pad)?)),
        4 => Ok(Record::Ipv6(Ipv6Rec::read(frame, pad)?)),
        1001 => Ok(Record::Switch(SwitchRec::read(frame, pad)?)),
        1002 => Ok(Record::Router(RouterRec::read(frame, pad)?)),
        1003 => Ok(Record::Gateway(GatewayRec::read(frame, pad)?)),
        1004 => Ok(Record::User(UserRec::read(frame, pad)?)),
        1005 => Ok(Record::Url(UrlRec::read(frame, pad)?)),
        1006 => Ok(Record::Mpls(MplsRec::read(frame, pad)?)),
        1007 => Ok(Record::Nat(NatRec::read(frame, pad)?)),
        _ => Ok(Record::Other(frame)),
    }
}

// The counter record in a frame, or the first fault in its body.
#[inline(always)]
fn read_counters<'a, const FOR: usize>(frame: Frame<'a>, pad: Pad) -> Result<Record<'a>, Fault>
    requires { frame.at + length frame.body.now < 2 ^ 32 }
    ensures exact { Gives record_tree (λ f. f) result
        (inside_at pad counter_records_read (format_word frame.entry.format) (body_of (frame_view frame.entry))) }
    ensures from { IfOk result (λ r. IsRecordFrom frame.entry r) }
    ensures kind { IsFormat frame.entry.format → IfOk result (λ r. HasKind Counters r) }
{
    if frame.format.enterprise != 0 {
        return Ok(Record::Other(frame));
    }
    match frame.format.number {
        1 => Ok(Record::IfCounters(IfCounters::read(frame, pad)?)),
        2 => Ok(Record::EthernetCounters(EthernetCounters::read(frame, pad)?)),
        5 => Ok(Record::VlanCounters(VlanCounters::read(frame, pad)?)),
        1001 => Ok(Record::Processor(ProcessorCounters::read(frame, pad)?)),
        _ => Ok(Record::Other(frame)),
    }
}
