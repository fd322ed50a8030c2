// The head of a sample that was checked is read once more, without its records.
ghost use Rattle.std.specs.Prelude.{◌≡◌, ◌+◌, ◌<◌, ◌^◌, length, Ok};
ghost use Rattle.wire_spec.specs.declared.pad.Pad.TheVariants.{Any};
ghost use Rattle.data_format.specs.Trees.{table_test};
ghost use Rattle.data_format.specs.Views.{frame_view};
ghost use Rattle.datagram_core.specs.SampleHeads.{IsHeadOf};
ghost use Rattle.datagram_core.specs.Tables.{samples_read};

use crate::RecordKind;
use data_format::{CountersHead, FlowHead, Frame};
use sample_expanded::{CountersSampleX, FlowSampleX};
use sample_std::{CountersSample, FlowSample};

/// What stands before the records of a sample (sFlow Version 5, section 5).
#[derive(Clone, Copy, Debug, PartialEq, Eq)]
pub enum SampleHead {
    /// Of a flow sample, in the compact or the expanded form, formats 1 and 3 of the standard.
    Flow(FlowHead),
    /// Of a counters sample, in the compact or the expanded form, formats 2 and 4 of the standard.
    Counters(CountersHead),
    /// The format is none of these, and isn't read.
    Other,
}

impl SampleHead {
    /// The head of the sample in a frame in which the check found no fault. The place behind the body is below 2^32.
    #[inline(always)]
    pub(crate) fn again(frame: Frame<'_>) -> SampleHead
        requires place { frame.at + length frame.body.now < 2 ^ 32 }
        requires passes { table_test Any samples_read (frame_view frame) ≡ Ok tt }
        ensures { IsHeadOf (frame_view frame.entry) result }
    {
        if frame.format.enterprise != 0 {
            return SampleHead::Other;
        }
        match frame.format.number {
            1 => SampleHead::Flow(FlowSample::head_again(frame, &RecordKind::Flow)),
            2 => SampleHead::Counters(CountersSample::head_again(frame, &RecordKind::Counters)),
            3 => SampleHead::Flow(FlowSampleX::head_again(frame, &RecordKind::Flow)),
            4 => SampleHead::Counters(CountersSampleX::head_again(frame, &RecordKind::Counters)),
            _ => SampleHead::Other,
        }
    }
}
