ghost use Rattle.std.specs.Prelude.{◌≡◌, ◌+◌, ◌*◌, ◌%◌, ◌<◌, ◌≤◌, length, IfSome};
ghost use Rattle.std.proofs.Props.{props};

use crate::record_writing::{body_length, frame_length};
use crate::writer_parts::{
    append_counters, append_flow, append_front, append_other, append_record, append_tail,
    counters_length, flow_length, front_length, patch_word,
};
use crate::{DatagramHead, Record, RecordKind};
use data_format::{CountersHead, FlowHead, Form, Format};
use wire_spec::MAX_DATAGRAM;
use xdr_words::OutFull;

/// A sample that is begun. Places count bytes from the room's first byte on.
#[derive(Clone, Copy, Drop)]
pub(crate) struct OpenSample {
    /// Which records it has.
    kind: RecordKind,
    /// The place of its format word.
    start: usize,
    /// The place of the number of its records.
    count_at: usize,
    /// How many records it has so far.
    records: u32,
}

/// A writer of one datagram into borrowed room (sFlow Version 5, section 5): first its head, then sample by sample, and
/// in a sample record by record. It uses at most the first 65,535 bytes of the room. While no sample is begun, what is
/// written is a whole datagram. Each call appends a whole piece, or answers `OutFull` exactly where the piece doesn't
/// fit, and then the writer and its room are as they were. The bytes behind what is written stay. It takes no memory.
#[derive(Drop)]
pub struct DatagramWriter<'b> {
    room: &'b mut [u8],
    // How many bytes are written.
    len: usize,
    // The place of the number of samples, and this number.
    count_at: usize,
    samples: u32,
    begun: Option<OpenSample>,
    ghost within: { len ≤ length room.now },
    ghost most: { len ≤ 65535 },
    ghost words: { len % 4 ≡ 0 },
    ghost counted: { count_at + 4 + 8 * samples ≤ len },
    ghost nested: { IfSome begun (λ o. (count_at + 4 + 8 * samples ≤ o.start) × (o.start + 8 ≤ o.count_at)
        × (o.count_at + 4 + 8 * o.records ≤ len) × (o.start % 4 ≡ 0)) } by { Prim.hlevel props },
}

impl<'b> DatagramWriter<'b> {
    ghost use Rattle.std.specs.Prelude.{◌-◌, min, IfOk, IfErr, [], IsOk, is_some, take, drop, List, ℕ, Some};
    ghost use Rattle.wire_spec.specs.Heads.{Head, datagram_tree};
    ghost use Rattle.wire_spec.specs.Shapes.{Tree, Trees, none, other};
    ghost use Rattle.wire_spec.specs.Spelling.{spell, padded};
    ghost use Rattle.data_format.specs.Samples.{IsFlowHead, IsCountersHead};
    ghost use Rattle.data_format.specs.Views.{IsFormat, format_word};
    ghost use Rattle.datagram_core.specs.Heads.{head_of};
    ghost use Rattle.datagram_core.specs.Records.{record_tree};
    ghost use Rattle.datagram_core.specs.Kinds.{HasKind, IsUnreadSample};
    ghost use Rattle.datagram_core.specs.Written.{Begun, and_then, begun_flow, begun_counters, begun_bytes, with_record, closed_sample, SlicesFit};
    ghost use Rattle.datagram_core.specs.Writers.{so_far, left_of, KeepsBehind, IsOpen, IsClosed, IsOpenFor, Has, HasBegun, Adds};
    ghost use Rattle.datagram_core.specs.declared.records.RecordKind.{RecordKind};
    ghost use Rattle.datagram_core.specs.declared.records.RecordKind.TheVariants.{Flow, Counters};

    /// Writes this head and a count of 0 samples.
    pub fn begin(room: &'b mut [u8], head: &DatagramHead) -> Result<DatagramWriter<'b>, OutFull>
        ensures same { IfOk result (λ w. w.room.ghost_name ≡ room.entry.ghost_name) }
        ensures has { IfOk result (λ w. Has w (head_of head.now) none) }
        ensures size { IfOk result (λ w. length w.room.now ≡ length room.old) }
        ensures behind { IfOk result (λ w. KeepsBehind room.old w) }
        ensures left { IfOk result (λ w. left_of w + length (spell (datagram_tree (head_of head.now) none)) ≡ min 65535 (length room.old)) }
        ensures need { IfErr result (λ e. e.need ≡ length (spell (datagram_tree (head_of head.now) none))) }
        ensures room { IfErr result (λ e. e.room ≡ min 65535 (length room.old)) }
        ensures full { IfErr result (λ e. e.room < e.need) }
    {
        let need = front_length(head);
        let left = room.len().min(MAX_DATAGRAM);
        if left < need {
            return Err(OutFull { need, room: left });
        }
        Ok(DatagramWriter::start(room, head))
    }

    /// Writes this head and a count of 0 samples into a room that is large enough for them. A caller of `begin` can't
    /// prove what the room holds in the end, since the writer stands in a `Result`; a caller of this can.
    pub fn start(room: &'b mut [u8], head: &DatagramHead) -> DatagramWriter<'b>
        requires { length (spell (datagram_tree (head_of head.now) none)) ≤ min 65535 (length room.old) }
        ensures same { result.room.ghost_name ≡ room.entry.ghost_name }
        ensures size { length result.room.now ≡ length room.old }
        ensures has { Has result (head_of head.now) none }
        ensures behind { KeepsBehind room.old result }
    {
        let len = append_front(room, head);
        DatagramWriter {
            room,
            len,
            count_at: len - 4,
            samples: 0,
            begun: None,
        }
    }

    /// Whether a sample is begun and not closed.
    pub fn is_open(&self) -> bool
        ensures { result ≡ is_some self.now.begun }
    {
        self.begun.is_some()
    }

    /// Begins a flow sample in this form: its format, its length, its head and a count of 0 records. No sample is begun,
    /// and in the compact form `compact` of the source and of both ports answers a word.
    #[inline(always)]
    pub fn open_flow(&mut self, form: Form, head: &FlowHead) -> Result<(), OutFull>
        requires closed { IsClosed self.old }
        requires form { IsFlowHead form head.now }
        ensures room { Adds self.old self.new result (length (begun_bytes (begun_flow form head.now))) }
        ensures open { IfOk result (λ u. IsOpen self.new) }
        ensures kind { IfOk result (λ u. IsOpenFor Flow self.new) }
        ensures begun { (h : Head) (samples : Trees) → Has self.old h samples
            → IfOk result (λ u. HasBegun self.new h samples (begun_flow form head.now)) }
    {
        self.check_room(flow_length(form))?;
        let len = append_flow(self.room, self.len, form, head)?;
        self.begin_sample(RecordKind::Flow, len);
        Ok(())
    }

    /// Begins a counters sample in this form, as `open_flow` does. No sample is begun, and in the compact form
    /// `compact` of the source answers a word.
    pub fn open_counters(&mut self, form: Form, head: &CountersHead) -> Result<(), OutFull>
        requires closed { IsClosed self.old }
        requires form { IsCountersHead form head.now }
        ensures room { Adds self.old self.new result (length (begun_bytes (begun_counters form head.now))) }
        ensures open { IfOk result (λ u. IsOpen self.new) }
        ensures kind { IfOk result (λ u. IsOpenFor Counters self.new) }
        ensures begun { (h : Head) (samples : Trees) → Has self.old h samples
            → IfOk result (λ u. HasBegun self.new h samples (begun_counters form head.now)) }
    {
        self.check_room(counters_length(form))?;
        let len = append_counters(self.room, self.len, form, head)?;
        self.begin_sample(RecordKind::Counters, len);
        Ok(())
    }

    /// Appends the whole frame of a record to the sample that is begun. A sample is begun that has records of this
    /// kind, or the record is `Other` with a format outside of the kind's table, whose enterprise is below 2^20 and
    /// whose number is below 2^12. Each slice in it has at most 65,535 bytes.
    #[inline(always)]
    pub fn push_record(&mut self, item: &Record<'_>) -> Result<(), OutFull>
        requires open { IsOpen self.old }
        requires kind { (kind : RecordKind) → IsOpenFor kind self.old → HasKind kind item.now }
        requires slices { SlicesFit item.now }
        ensures room { Adds self.old self.new result (length (spell (record_tree item.now))) }
        ensures open { IsOpen self.new }
        ensures kind { (kind : RecordKind) → IsOpenFor kind self.old → IsOpenFor kind self.new }
        ensures pushed { (h : Head) (samples : Trees) (s : Begun) → HasBegun self.old h samples s
            → IfOk result (λ u. HasBegun self.new h samples (with_record s (record_tree item.now))) }
    {
        let Some(sample) = self.begun else {
            unreachable!()
        };
        let size = body_length(item);
        self.check_room(frame_length(item, size))?;
        self.len = append_record(self.room, self.len, item, size)?;
        self.begun = Some(OpenSample {
            records: sample.records + 1,
            ..sample
        });
        Ok(())
    }

    /// Closes the sample that is begun: appends these bytes behind its records, at most 65,535, and their padding. With
    /// no such bytes it can't be refused.
    #[inline(always)]
    pub fn close_sample(&mut self, tail: &[u8]) -> Result<(), OutFull>
        requires open { IsOpen self.old }
        requires tail { length tail.now ≤ 65535 }
        ensures room { Adds self.old self.new result (length (padded tail.now)) }
        ensures closed { IfOk result (λ u. IsClosed self.new) }
        ensures has { (h : Head) (samples : Trees) (s : Begun) → HasBegun self.old h samples s
            → IfOk result (λ u. Has self.new h (and_then samples (closed_sample s tail.now))) }
        ensures empty { tail.now ≡ [] → IsOk result }
    {
        let Some(sample) = self.begun else {
            unreachable!()
        };
        self.check_room(tail.len() + (4 - tail.len() % 4) % 4)?;
        let length = self.len - sample.start - 8 + tail.len();
        self.len = append_tail(self.room, self.len, tail)?;
        self.begun = None;
        self.samples += 1;
        patch_word(self.room, self.len, sample.start + 4, length as u32);
        patch_word(self.room, self.len, sample.count_at, sample.records);
        patch_word(self.room, self.len, self.count_at, self.samples);
        Ok(())
    }

    /// Appends a sample of another format as it stands: none is begun, the format isn't 1 to 4 of enterprise 0, its
    /// enterprise is below 2^20 and its number below 2^12, and the body has at most 65,535 bytes.
    pub fn push_other(&mut self, format: Format, body: &[u8]) -> Result<(), OutFull>
        requires closed { IsClosed self.old }
        requires format { IsFormat format }
        requires unread { IsUnreadSample (format_word format) }
        requires body { length body.now ≤ 65535 }
        ensures room { Adds self.old self.new result (length (spell (other (format_word format) body.now))) }
        ensures closed { IsClosed self.new }
        ensures has { (h : Head) (samples : Trees) → Has self.old h samples
            → IfOk result (λ u. Has self.new h (and_then samples (other (format_word format) body.now))) }
    {
        self.check_room(8 + body.len() + (4 - body.len() % 4) % 4)?;
        self.len = append_other(self.room, self.len, format, body)?;
        self.samples += 1;
        patch_word(self.room, self.len, self.count_at, self.samples);
        Ok(())
    }

    /// The datagram's length in bytes, of which there are at most 65,535. No sample is begun.
    pub fn finish(self) -> usize
        requires closed { IsClosed self }
        ensures most { result ≤ 65535 }
        ensures written { (h : Head) (samples : Trees) → Has self.entry h samples
            → take result self.exit.0.now ≡ spell (datagram_tree h samples) }
        ensures length { (h : Head) (samples : Trees) → Has self.entry h samples
            → result ≡ length (spell (datagram_tree h samples)) }

        // Behind the datagram the room has the bytes that it had there.
        ensures behind { (bytes : List ℕ) → KeepsBehind bytes self.entry → drop result self.exit.0.now ≡ drop result bytes }
    {
        self.len
    }
    // That a piece of so many bytes fits.
    #[inline(always)]
    fn check_room(&self, need: usize) -> Result<(), OutFull>
        ensures fits { IfOk result (λ u. need ≤ left_of self.now) }
        ensures need { IfErr result (λ e. e.need ≡ need) }
        ensures room { IfErr result (λ e. e.room ≡ left_of self.now) }
        ensures short { IfErr result (λ e. left_of self.now < need) }
    {
        let room = self.room.len().min(MAX_DATAGRAM) - self.len;
        if room < need {
            return Err(OutFull { need, room });
        }
        Ok(())
    }

    // A sample is begun with the bytes up to `len`, the last four of which are the number of its records.
    #[inline(always)]
    fn begin_sample(&mut self, kind: RecordKind, len: usize)
        requires start { self.old.len + 12 ≤ len }
        requires len { len ≤ min 65535 (length self.old.room.now) }
        requires words { len % 4 ≡ 0 }
        ensures len { self.new.len ≡ len }
        ensures same { self.new.room.ghost_name ≡ self.old.room.ghost_name }
        ensures room { self.new.room.now ≡ self.old.room.now }
        ensures count_at { self.new.count_at ≡ self.old.count_at }
        ensures samples { self.new.samples ≡ self.old.samples }
        ensures begun { self.new.begun ≡ Some (record { kind = kind; start = self.old.len; count_at = len - 4; records = 0 }) }
    {
        self.begun = Some(OpenSample {
            kind,
            start: self.len,
            count_at: len - 4,
            records: 0,
        });
        self.len = len;
    }
}
