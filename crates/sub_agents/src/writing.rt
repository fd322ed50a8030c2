// Samples that wait are written into a datagram. There is always room for them.
ghost use Rattle.std.specs.Prelude.{◌≡◌, ◌≤◌, ◌+◌, [], length, take, map};
ghost use Rattle.std.specs.List.{AllByRecursion};
ghost use Rattle.wire_spec.specs.Heads.{Head};
ghost use Rattle.wire_spec.specs.Shapes.{Trees, none};
ghost use Rattle.wire_spec.specs.Spelling.{spell};
ghost use Rattle.data_format.specs.Samples.{IsFlowHead, IsCountersHead};
ghost use Rattle.datagram_core.specs.Heads.{head_of};
ghost use Rattle.datagram_core.specs.Kinds.{HasKind};
ghost use Rattle.datagram_core.specs.Records.{record_tree};
ghost use Rattle.datagram_core.specs.Written.{Begun, and_then, begun_bytes, begun_flow, begun_counters, closed_sample, with_record, SlicesFit};
ghost use Rattle.datagram_core.specs.Writers.{left_of, IsClosed, IsOpen, IsOpenFor, Has, HasBegun, Grows, SameRoom};
ghost use Rattle.datagram_core.specs.declared.records.RecordKind.{RecordKind};
ghost use Rattle.datagram_core.specs.declared.records.RecordKind.TheVariants as kinds;
ghost use Rattle.sub_agents.specs.declared.staged.Staged.TheVariants.{Flow, Counters};
ghost use Rattle.sub_agents.specs.Sizes.{vlan_size};
ghost use Rattle.sub_agents.specs.Staged.{IsWritable, staged_value, staged_size, values, datagram_bytes, header_value};
ghost use Rattle.sub_agents.specs.Written.{Appended, Filled, size_of, with_vlan};

use crate::staged::{Staged, StagedCounters, StagedFlow};
use circular_buffer::HeapCircularBuffer;
use data_format::{CountersHead, FlowHead, Form};
use datagram_core::{DatagramHead, DatagramWriter, Record};
use rec_extended::SwitchRec;
use rec_headers::RawHeader;

/// The header protocol of Ethernet (sFlow Version 5, section 5).
const ETHERNET: u32 = 1;

/// How many bytes a packet's header lacks at its end: those of the frame check sequence.
const STRIPPED: u32 = 4;

// Begins a flow sample.
fn begin_flow(writer: &mut DatagramWriter<'_>, form: Form, head: &FlowHead)
    requires closed { IsClosed writer.old }
    requires form { IsFlowHead form head.now }
    requires room { length (begun_bytes (begun_flow form head.now)) ≤ left_of writer.old }
    ensures grows { Grows writer.old writer.new (length (begun_bytes (begun_flow form head.now))) }
    ensures open { IsOpen writer.new }
    ensures kind { IsOpenFor kinds.Flow writer.new }
    ensures begun { (h : Head) (samples : Trees) → Has writer.old h samples
        → HasBegun writer.new h samples (begun_flow form head.now) }
{
    match writer.open_flow(form, head) {
        Ok(()) => {}
        Err(_) => unreachable!(),
    }
}

// Begins a counters sample.
fn begin_counters(writer: &mut DatagramWriter<'_>, form: Form, head: &CountersHead)
    requires closed { IsClosed writer.old }
    requires form { IsCountersHead form head.now }
    requires room { length (begun_bytes (begun_counters form head.now)) ≤ left_of writer.old }
    ensures grows { Grows writer.old writer.new (length (begun_bytes (begun_counters form head.now))) }
    ensures open { IsOpen writer.new }
    ensures kind { IsOpenFor kinds.Counters writer.new }
    ensures begun { (h : Head) (samples : Trees) → Has writer.old h samples
        → HasBegun writer.new h samples (begun_counters form head.now) }
{
    match writer.open_counters(form, head) {
        Ok(()) => {}
        Err(_) => unreachable!(),
    }
}

// A record of the sample that is begun.
fn add_record(writer: &mut DatagramWriter<'_>, item: &Record<'_>)
    requires open { IsOpen writer.old }
    requires kind { (kind : RecordKind) → IsOpenFor kind writer.old → HasKind kind item.now }
    requires slices { SlicesFit item.now }
    requires room { length (spell (record_tree item.now)) ≤ left_of writer.old }
    ensures { Filled writer.old writer.new (record_tree item.now) }
{
    match writer.push_record(item) {
        Ok(()) => {}
        Err(_) => unreachable!(),
    }
}

// The front of a packet.
fn add_header(writer: &mut DatagramWriter<'_>, flow: &StagedFlow)
    requires kind { IsOpenFor kinds.Flow writer.old }
    requires room { length (spell (header_value flow.now)) ≤ left_of writer.old }
    requires shown { length flow.now.header.items ≤ 128 }
    ensures { Filled writer.old writer.new (header_value flow.now) }
{
    let header = flow.header.as_slice();
    let record = Record::RawHeader(RawHeader {
        protocol: ETHERNET,
        frame_length: flow.frame_length,
        stripped: STRIPPED,
        header,
        tail: &[],
    });
    add_record(writer, &record);
}

// The VLAN of a packet, the same on both sides.
fn add_vlan(writer: &mut DatagramWriter<'_>, vlan: Option<u16>)
    requires kind { IsOpenFor kinds.Flow writer.old }
    requires room { vlan_size vlan ≤ left_of writer.old }
    ensures room { SameRoom writer.old writer.new }
    ensures left { left_of writer.new + vlan_size vlan ≡ left_of writer.old }
    ensures open { IsOpen writer.new }
    ensures filled { (h : Head) (samples : Trees) (s : Begun) → HasBegun writer.old h samples s
        → HasBegun writer.new h samples (with_vlan s vlan) }
{
    if let Some(vlan) = vlan {
        let record = Record::Switch(SwitchRec {
            src_vlan: vlan as u32,
            src_priority: 0,
            dst_vlan: vlan as u32,
            dst_priority: 0,
            tail: &[],
        });
        add_record(writer, &record);
    }
}

// Closes the sample that is begun.
fn end_sample(writer: &mut DatagramWriter<'_>)
    requires open { IsOpen writer.old }
    ensures room { SameRoom writer.old writer.new }
    ensures left { left_of writer.new ≡ left_of writer.old }
    ensures closed { IsClosed writer.new }
    ensures has { (h : Head) (samples : Trees) (s : Begun) → HasBegun writer.old h samples s
        → Has writer.new h (and_then samples (closed_sample s [])) }
{
    match writer.close_sample(&[]) {
        Ok(()) => {}
        Err(_) => unreachable!(),
    }
}

// A flow sample.
fn write_flow(writer: &mut DatagramWriter<'_>, form: Form, flow: &StagedFlow)
    requires closed { IsClosed writer.old }
    requires writable { IsWritable form (Flow flow.now) }
    requires room { staged_size form (Flow flow.now) ≤ left_of writer.old }
    ensures { Appended writer.old writer.new (staged_value form (Flow flow.now)) }
{
    begin_flow(writer, form, &flow.head);
    add_header(writer, flow);
    add_vlan(writer, flow.vlan);
    end_sample(writer);
}

// A counters sample.
fn write_counters(writer: &mut DatagramWriter<'_>, form: Form, sample: &StagedCounters)
    requires closed { IsClosed writer.old }
    requires writable { IsWritable form (Counters sample.now) }
    requires room { staged_size form (Counters sample.now) ≤ left_of writer.old }
    ensures { Appended writer.old writer.new (staged_value form (Counters sample.now)) }
{
    begin_counters(writer, form, &sample.head);
    add_record(writer, &Record::IfCounters(sample.counters));
    end_sample(writer);
}

// A sample.
fn write_sample(writer: &mut DatagramWriter<'_>, form: Form, sample: &Staged)
    requires closed { IsClosed writer.old }
    requires writable { IsWritable form sample.now }
    requires room { staged_size form sample.now ≤ left_of writer.old }
    ensures { Appended writer.old writer.new (staged_value form sample.now) }
{
    match sample {
        Staged::Flow(flow) => write_flow(writer, form, flow),
        Staged::Counters(counters) => write_counters(writer, form, counters),
    }
}

// The first so many samples.
fn write_samples(
    writer: &mut DatagramWriter<'_>,
    form: Form,
    stage: &HeapCircularBuffer<Staged>,
    count: usize,
)
    requires closed { IsClosed writer.old }
    requires count { count ≤ length stage.now.items }
    requires writable { AllByRecursion (IsWritable form) stage.now.items }
    requires room { size_of (map (staged_value form) (take count stage.now.items)) ≤ left_of writer.old }
    ensures room { SameRoom writer.old writer.new }
    ensures closed { IsClosed writer.new }
    ensures has { (h : Head) → Has writer.old h none
        → Has writer.new h (values (map (staged_value form) (take count stage.now.items))) }
{
    for place in 0..count {
        let Some(sample) = stage.get(place) else {
            unreachable!()
        };
        write_sample(writer, form, sample);
    }
}

/// The datagram of the first so many samples, at the front of the room: how many bytes it has.
pub(crate) fn write_datagram(
    room: &mut [u8],
    head: &DatagramHead,
    form: Form,
    stage: &HeapCircularBuffer<Staged>,
    count: usize,
) -> usize
    requires count { count ≤ length stage.now.items }
    requires writable { AllByRecursion (IsWritable form) stage.now.items }
    requires room { length (datagram_bytes (head_of head.now) (map (staged_value form) (take count stage.now.items))) ≤ length room.old }
    requires most { length room.old ≤ 65535 }
    ensures written { take result room.new ≡ datagram_bytes (head_of head.now) (map (staged_value form) (take count stage.now.items)) }
    ensures length { length room.new ≡ length room.old }
    ensures within { result ≤ length room.old }
{
    let mut writer = DatagramWriter::start(room, head);
    write_samples(&mut writer, form, stage, count);
    writer.finish()
}
