ghost use Rattle.std.specs.Prelude.{◌≡◌, ◌+◌, ◌<◌, ◌^◌, length, IfOk, Ok};
ghost use Rattle.wire_spec.specs.declared.pad.Pad.TheVariants.{Any};
ghost use Rattle.wire_spec.specs.Reading.{inside_at};
ghost use Rattle.xdr_words.specs.Readers.{Gives};
ghost use Rattle.data_format.specs.Trees.{table_test};
ghost use Rattle.data_format.specs.Views.{body_of, format_word, frame_view};
ghost use Rattle.datagram_core.specs.Records.{records_of};
ghost use Rattle.datagram_core.specs.Samples.{IsFrom, HasRecords, sample_tree};
ghost use Rattle.datagram_core.specs.Tables.{samples_read};
ghost use Rattle.datagram_core.specs.Kinds.{IsUnreadOther};

use crate::Records;
use crate::records::RecordKind;
use data_format::{Fault, Frame, Frames};
use sample_expanded::{CountersSampleX, FlowSampleX};
use sample_std::{CountersSample, FlowSample};
use wire_spec::Pad;

/// A sample of a datagram (sFlow Version 5, section 5).
#[derive(Drop)]
pub enum Sample<'a> {
    /// A flow sample in the compact form, format 1 of the standard.
    Flow(FlowSample<'a>),
    /// A counters sample in the compact form, format 2 of the standard.
    Counters(CountersSample<'a>),
    /// A flow sample in the expanded form, format 3 of the standard.
    FlowX(FlowSampleX<'a>),
    /// A counters sample in the expanded form, format 4 of the standard.
    CountersX(CountersSampleX<'a>),
    /// A sample of any other format, as its frame.
    Other(Frame<'a>),
}

impl<'a> Sample<'a> {
    /// The sample in a frame, by its format; or the first fault in its body. The place behind the body is below 2^32.
    // A check has no use for the value, which then isn't made.
    #[inline(always)]
    pub(crate) fn read(frame: Frame<'a>, pad: Pad) -> Result<Sample<'a>, Fault>
        requires { frame.at + length frame.body.now < 2 ^ 32 }
        ensures exact { Gives sample_tree (λ f. f) result
            (inside_at pad samples_read (format_word frame.entry.format) (body_of (frame_view frame.entry))) }
        ensures from { IfOk result (λ s. IsFrom frame.entry s) }
        ensures unread { IfOk result (λ s. IsUnreadOther s) }
    {
        if frame.format.enterprise != 0 {
            return Ok(Sample::Other(frame));
        }
        match frame.format.number {
            1 => Ok(Sample::Flow(FlowSample::read(frame, pad, &RecordKind::Flow)?)),
            2 => Ok(Sample::Counters(CountersSample::read(frame, pad, &RecordKind::Counters)?)),
            3 => Ok(Sample::FlowX(FlowSampleX::read(frame, pad, &RecordKind::Flow)?)),
            4 => Ok(Sample::CountersX(CountersSampleX::read(frame, pad, &RecordKind::Counters)?)),
            _ => Ok(Sample::Other(frame)),
        }
    }

    /// The sample in a frame in which the check found no fault; its records aren't checked again. The place behind the
    /// body is below 2^32.
    #[inline(always)]
    pub(crate) fn again(frame: Frame<'a>) -> Sample<'a>
        requires place { frame.at + length frame.body.now < 2 ^ 32 }
        requires passes { table_test Any samples_read (frame_view frame) ≡ Ok tt }
        ensures exact { inside_at Any samples_read (format_word frame.entry.format) (body_of (frame_view frame.entry))
            ≡ Ok (sample_tree result) }
        ensures from { IsFrom frame.entry result }
        ensures unread { IsUnreadOther result }
    {
        if frame.format.enterprise != 0 {
            return Sample::Other(frame);
        }
        match frame.format.number {
            1 => Sample::Flow(FlowSample::again(frame, &RecordKind::Flow)),
            2 => Sample::Counters(CountersSample::again(frame, &RecordKind::Counters)),
            3 => Sample::FlowX(FlowSampleX::again(frame, &RecordKind::Flow)),
            4 => Sample::CountersX(CountersSampleX::again(frame, &RecordKind::Counters)),
            _ => Sample::Other(frame),
        }
    }

    /// The records, from the first one on; none for `Other`. Each of them has passed the check of its kind, as the
    /// records of every sample that `Samples::next` gives have.
    pub fn records(&self) -> Records<'a>
        requires { HasRecords self.now }
        ensures { result ≡ records_of self.now }
    {
        match self {
            Sample::Flow(sample) => Records::over(RecordKind::Flow, sample.frames()),
            Sample::Counters(sample) => Records::over(RecordKind::Counters, sample.frames()),
            Sample::FlowX(sample) => Records::over(RecordKind::Flow, sample.frames()),
            Sample::CountersX(sample) => Records::over(RecordKind::Counters, sample.frames()),
            Sample::Other(_) => Records::over(RecordKind::Unknown, Frames::none()),
        }
    }
}
