// A datagram that was read is written anew.
ghost use Rattle.std.specs.Prelude.{◌≡◌, ◌<◌, ◌≤◌, length, take, drop, IfOk, IfErr};
ghost use Rattle.wire_spec.specs.Heads.{Head, datagram_tree};
ghost use Rattle.wire_spec.specs.Shapes.{Trees, none};
ghost use Rattle.wire_spec.specs.Spelling.{spell, spell_all};
ghost use Rattle.data_format.specs.Trees.{frame_trees};
ghost use Rattle.datagram_core.specs.Kinds.{IsUnreadOther};
ghost use Rattle.datagram_core.specs.Records.{table_of};
ghost use Rattle.datagram_core.specs.Samples.{HasRecords, HasFormat, sample_tree};
ghost use Rattle.datagram_core.specs.Tables.{samples_read};
ghost use Rattle.datagram_core.specs.Trees.{tree_of};
ghost use Rattle.datagram_core.specs.Written.{Begun, and_then, filled, closed_sample};
ghost use Rattle.datagram_core.specs.Writers.{IsClosed, IsOpenFor, Has, HasBegun, SameRoom, most_of};

use crate::writer_parts::front_length;
use crate::{Datagram, DatagramWriter, Records, Sample, Samples};
use data_format::Form;
use xdr_words::OutFull;

/// A room has fewer bytes than the datagram that is to be written there.
#[derive(Clone, Copy, Debug, PartialEq, Eq)]
pub struct RoomTooShort;

/// The datagram with zero padding, at the front of the room: how many bytes it has, as many as those from which
/// it was read. An error comes exactly where the room has fewer bytes.
pub fn write_anew(datagram: &Datagram<'_>, room: &mut [u8]) -> Result<usize, RoomTooShort>
    ensures written { IfOk result (λ n. take n room.new ≡ spell (tree_of datagram.now)) }
    ensures length { IfOk result (λ n. n ≡ length (spell (tree_of datagram.now))) }
    ensures full { IfErr result (λ e. length room.old < length (spell (tree_of datagram.now))) }

    // The bytes behind the datagram stay, and so do those behind the first 65,535, also where the room is too short.
    ensures kept { IfOk result (λ n. drop n room.new ≡ drop n room.old) }
    ensures behind { drop 65535 room.new ≡ drop 65535 room.old }
{
    let head = datagram.head();
    if room.len() < front_length(&head) {
        return Err(RoomTooShort);
    }
    let mut writer = DatagramWriter::start(room, &head);
    match write_samples(&mut writer, datagram.samples()) {
        Ok(()) => Ok(writer.finish()),
        Err(_) => Err(RoomTooShort),
    }
}

// All samples of a datagram, or the first piece that doesn't fit.
fn write_samples(writer: &mut DatagramWriter<'_>, mut samples: Samples<'_>) -> Result<(), OutFull>
    requires closed { IsClosed writer.old }
    requires short { length (spell_all (frame_trees samples_read samples)) ≤ 65535 }
    ensures room { SameRoom writer.old writer.new }
    ensures closed { IfOk result (λ u. IsClosed writer.new) }
    ensures has { (h : Head) → Has writer.old h none
        → IfOk result (λ u. Has writer.new h (frame_trees samples_read samples.entry)) }
    ensures full { (h : Head) → Has writer.old h none
        → IfErr result (λ e. most_of writer.old < length (spell (datagram_tree h (frame_trees samples_read samples.entry)))) }
{
    while let Some(sample) = samples.next() {
        write_sample(writer, &sample)?;
    }
    Ok(())
}

// One sample with its records, or the first piece of it that doesn't fit.
fn write_sample(writer: &mut DatagramWriter<'_>, sample: &Sample<'_>) -> Result<(), OutFull>
    requires closed { IsClosed writer.old }
    requires records { HasRecords sample.now }
    requires unread { IsUnreadOther sample.now }
    requires format { HasFormat sample.now }
    requires short { length (spell (sample_tree sample.now)) ≤ 65535 }
    ensures room { SameRoom writer.old writer.new }
    ensures closed { IfOk result (λ u. IsClosed writer.new) }
    ensures has { (h : Head) (samples : Trees) → Has writer.old h samples
        → IfOk result (λ u. Has writer.new h (and_then samples (sample_tree sample.now))) }
    ensures full { (h : Head) (samples : Trees) → Has writer.old h samples
        → IfErr result (λ e. most_of writer.old < length (spell (datagram_tree h (and_then samples (sample_tree sample.now))))) }
{
    match sample {
        Sample::Flow(flow) => {
            writer.open_flow(Form::Compact, &flow.head())?;
            fill(writer, sample.records(), flow.tail())
        }
        Sample::FlowX(flow) => {
            writer.open_flow(Form::Expanded, &flow.head())?;
            fill(writer, sample.records(), flow.tail())
        }
        Sample::Counters(counters) => {
            writer.open_counters(Form::Compact, &counters.head())?;
            fill(writer, sample.records(), counters.tail())
        }
        Sample::CountersX(counters) => {
            writer.open_counters(Form::Expanded, &counters.head())?;
            fill(writer, sample.records(), counters.tail())
        }
        Sample::Other(frame) => writer.push_other(frame.format, frame.body),
    }
}

// The records and the tail of a sample that is begun, or the first piece of them that doesn't fit.
fn fill(
    writer: &mut DatagramWriter<'_>,
    mut records: Records<'_>,
    tail: &[u8],
) -> Result<(), OutFull>
    requires kind { IsOpenFor records.kind writer.old }
    requires records { length (spell_all (frame_trees (table_of records.kind) records.frames)) ≤ 65535 }
    requires tail { length tail.now ≤ 65535 }
    ensures room { SameRoom writer.old writer.new }
    ensures closed { IfOk result (λ u. IsClosed writer.new) }
    ensures has { (h : Head) (samples : Trees) (s : Begun) → HasBegun writer.old h samples s → s.records ≡ none
        → IfOk result (λ u. Has writer.new h
        (and_then samples (closed_sample (filled s (frame_trees (table_of records.entry.kind) records.entry.frames)) tail.now))) }
    ensures full { (h : Head) (samples : Trees) (s : Begun) → HasBegun writer.old h samples s → s.records ≡ none
        → IfErr result (λ e. most_of writer.old < length (spell (datagram_tree h
        (and_then samples (closed_sample (filled s (frame_trees (table_of records.entry.kind) records.entry.frames)) tail.now))))) }
{
    while let Some(record) = records.next() {
        writer.push_record(&record)?;
    }
    writer.close_sample(tail)
}
