// The pieces of a datagram that is being written, and how they are put behind what stands in a room. For each of them
// there is room, so that none is refused.
ghost use Rattle.std.specs.Prelude.{◌≡◌, ◌≤◌, ◌+◌, ◌%◌, length, take, drop, IsOkAnd};
ghost use Rattle.std.specs.Int.{w32, to_be_bytes};
ghost use Rattle.wire_spec.specs.Heads.{datagram_tree};
ghost use Rattle.wire_spec.specs.Padding.{padding_of};
ghost use Rattle.wire_spec.specs.Shapes.{none, other};
ghost use Rattle.wire_spec.specs.Spelling.{spell, padded};
ghost use Rattle.xdr_words.specs.Written.{Puts, room_left};
ghost use Rattle.data_format.specs.Samples.{IsFlowHead, IsCountersHead};
ghost use Rattle.data_format.specs.declared.heads.FlowHead.{FlowHead};
ghost use Rattle.data_format.specs.declared.heads.CountersHead.{CountersHead};
ghost use Rattle.data_format.specs.Views.{IsFormat, format_word};
ghost use Rattle.datagram_core.specs.Heads.{head_of};
ghost use Rattle.datagram_core.specs.Records.{record_tree};
ghost use Rattle.datagram_core.specs.Written.{begun_bytes, begun_flow, begun_counters, FormatFits, SlicesFit, record_body, Extends, patch};

use crate::record_writing::{format_word_of, write_body};
use crate::{DatagramHead, Record};
use data_format::{CountersHead, FlowHead, Form, Format};
use sample_expanded::{CountersSampleX, FlowSampleX};
use sample_std::{CountersSample, FlowSample};
use xdr_words::{Item, Out, OutFull, write_run};

/// How many bytes the version, a head and a count have.
pub(crate) fn front_length(head: &DatagramHead) -> usize
    ensures exact { result ≡ length (spell (datagram_tree (head_of head.now) none)) }
    ensures words { result % 4 ≡ 0 }
    ensures least { 24 ≤ result }
    ensures most { result ≤ 40 }
{
    20 + head.agent.length()
}

/// How many bytes an array has.
#[inline(always)]
pub(crate) fn size_of_array<const N: usize>(bytes: &[u8; N]) -> usize
    ensures size { result ≡ N }
    ensures length { length bytes.now ≡ N }
{
    bytes.len()
}

/// The version, the head and a count of 0 samples.
pub(crate) fn write_front(out: &mut Out<'_>, head: &DatagramHead) -> Result<(), OutFull>
    requires { length (spell (datagram_tree (head_of head.now) none)) ≤ room_left out.old }
    ensures { Puts out.old out.new result (spell (datagram_tree (head_of head.now) none)) }
{
    out.put_word(5)?;
    head.agent.write(out)?;
    let items = [
        Item::Word(head.sub_agent),
        Item::Word(head.sequence),
        Item::Word(head.uptime),
        Item::Word(0),
    ];
    write_run(out, &items, &[])
}

/// How many bytes the format, the length and the head of a flow sample have, with a count.
#[inline(always)]
pub(crate) fn flow_length(form: Form) -> usize
    ensures { (head : FlowHead) → length (begun_bytes (begun_flow form head)) ≡ result }
{
    match form {
        Form::Compact => 40,
        Form::Expanded => 52,
    }
}

/// How many bytes the format, the length and the head of a counters sample have, with a count.
pub(crate) fn counters_length(form: Form) -> usize
    ensures { (head : CountersHead) → length (begun_bytes (begun_counters form head)) ≡ result }
{
    match form {
        Form::Compact => 20,
        Form::Expanded => 24,
    }
}

/// The format of a flow sample, a length of 0, its head, and a count of 0 records.
#[inline(always)]
pub(crate) fn write_flow(out: &mut Out<'_>, form: Form, head: &FlowHead) -> Result<(), OutFull>
    requires form { IsFlowHead form head.now }
    requires room { length (begun_bytes (begun_flow form head.now)) ≤ room_left out.old }
    ensures { Puts out.old out.new result (begun_bytes (begun_flow form head.now)) }
{
    match form {
        Form::Compact => {
            out.put_word(1)?;
            out.put_word(0)?;
            FlowSample::write_head(head, out)?;
            out.put_word(0)
        }
        Form::Expanded => {
            out.put_word(3)?;
            out.put_word(0)?;
            FlowSampleX::write_head(head, out)?;
            out.put_word(0)
        }
    }
}

/// The format of a counters sample, a length of 0, its head, and a count of 0 records.
pub(crate) fn write_counters(
    out: &mut Out<'_>,
    form: Form,
    head: &CountersHead,
) -> Result<(), OutFull>
    requires form { IsCountersHead form head.now }
    requires room { length (begun_bytes (begun_counters form head.now)) ≤ room_left out.old }
    ensures { Puts out.old out.new result (begun_bytes (begun_counters form head.now)) }
{
    match form {
        Form::Compact => {
            out.put_word(2)?;
            out.put_word(0)?;
            CountersSample::write_head(head, out)?;
            out.put_word(0)
        }
        Form::Expanded => {
            out.put_word(4)?;
            out.put_word(0)?;
            CountersSampleX::write_head(head, out)?;
            out.put_word(0)
        }
    }
}

/// The frame of a record whose body has this size in bytes.
#[inline(always)]
pub(crate) fn write_record(out: &mut Out<'_>, item: &Record<'_>, size: usize) -> Result<(), OutFull>
    requires format { FormatFits item.now }
    requires slices { SlicesFit item.now }
    requires size { size ≡ length (record_body item.now) }
    requires most { size ≤ 1000000 }
    requires room { length (spell (record_tree item.now)) ≤ room_left out.old }
    ensures { Puts out.old out.new result (spell (record_tree item.now)) }
{
    out.put_word(format_word_of(item))?;
    out.put_word(size as u32)?;
    write_body(item, out)?;
    out.put_padding(size)
}

/// The frame of a sample that is kept as it is.
pub(crate) fn write_other(out: &mut Out<'_>, format: Format, body: &[u8]) -> Result<(), OutFull>
    requires format { IsFormat format }
    requires body { length body.now ≤ 65535 }
    requires room { length (spell (other (format_word format) body.now)) ≤ room_left out.old }
    ensures { Puts out.old out.new result (spell (other (format_word format) body.now)) }
{
    out.put_word(format.to_word())?;
    out.put_opaque(body)
}

// ---- behind what stands in a room

/// The version, the head and a count of 0 samples, at the front of the room.
pub(crate) fn append_front(room: &mut [u8], head: &DatagramHead) -> usize
    requires { length (spell (datagram_tree (head_of head.now) none)) ≤ length room.old }
    ensures extends { Extends room.old room.new 0 result (spell (datagram_tree (head_of head.now) none)) }
    ensures words { result % 4 ≡ 0 }
    ensures least { 24 ≤ result }
{
    let size = front_length(head);
    let mut out = Out::new(room);
    match write_front(&mut out, head) {
        Ok(()) => size,
        Err(_) => unreachable!(),
    }
}

/// The format of a flow sample, a length of 0, its head, and a count of 0 records.
#[inline(always)]
pub(crate) fn append_flow(
    room: &mut [u8],
    len: usize,
    form: Form,
    head: &FlowHead,
) -> Result<usize, OutFull>
    requires form { IsFlowHead form head.now }
    requires room { len + length (begun_bytes (begun_flow form head.now)) ≤ length room.old }
    ensures { IsOkAnd result (λ n. Extends room.old room.new len n (begun_bytes (begun_flow form head.now))) }
{
    let mut out = Out::resume(room, len);
    write_flow(&mut out, form, head)?;
    Ok(out.len())
}

/// The format of a counters sample, a length of 0, its head, and a count of 0 records.
pub(crate) fn append_counters(
    room: &mut [u8],
    len: usize,
    form: Form,
    head: &CountersHead,
) -> Result<usize, OutFull>
    requires form { IsCountersHead form head.now }
    requires room { len + length (begun_bytes (begun_counters form head.now)) ≤ length room.old }
    ensures { IsOkAnd result (λ n. Extends room.old room.new len n (begun_bytes (begun_counters form head.now))) }
{
    let mut out = Out::resume(room, len);
    write_counters(&mut out, form, head)?;
    Ok(out.len())
}

/// The frame of a record whose body has this size in bytes.
#[inline(always)]
pub(crate) fn append_record(
    room: &mut [u8],
    len: usize,
    item: &Record<'_>,
    size: usize,
) -> Result<usize, OutFull>
    requires format { FormatFits item.now }
    requires slices { SlicesFit item.now }
    requires size { size ≡ length (record_body item.now) }
    requires most { size ≤ 1000000 }
    requires room { len + length (spell (record_tree item.now)) ≤ length room.old }
    ensures { IsOkAnd result (λ n. Extends room.old room.new len n (spell (record_tree item.now))) }
{
    let mut out = Out::resume(room, len);
    write_record(&mut out, item, size)?;
    Ok(out.len())
}

/// The frame of a sample that is kept as it is.
pub(crate) fn append_other(
    room: &mut [u8],
    len: usize,
    format: Format,
    body: &[u8],
) -> Result<usize, OutFull>
    requires format { IsFormat format }
    requires body { length body.now ≤ 65535 }
    requires room { len + length (spell (other (format_word format) body.now)) ≤ length room.old }
    ensures { IsOkAnd result (λ n. Extends room.old room.new len n (spell (other (format_word format) body.now))) }
{
    let mut out = Out::resume(room, len);
    write_other(&mut out, format, body)?;
    Ok(out.len())
}

/// Bytes and their padding.
#[inline(always)]
pub(crate) fn append_tail(room: &mut [u8], len: usize, tail: &[u8]) -> Result<usize, OutFull>
    requires tail { length tail.now ≤ 65535 }
    requires room { len + length (padded tail.now) ≤ length room.old }
    ensures { IsOkAnd result (λ n. Extends room.old room.new len n (padded tail.now)) }
{
    let mut out = Out::resume(room, len);
    out.put_fixed(tail)?;
    Ok(out.len())
}

/// A word in place of four bytes of the first `len`.
#[inline(always)]
pub(crate) fn patch_word(room: &mut [u8], len: usize, place: usize, value: u32)
    requires len { len ≤ length room.old }
    requires place { place + 4 ≤ len }
    ensures size { length room.new ≡ length room.old }
    ensures patched { take len room.new ≡ patch place (to_be_bytes w32 value) (take len room.old) }
    ensures behind { drop len room.new ≡ drop len room.old }
{
    let mut out = Out::resume(room, len);
    out.patch_word(place, value);
}
