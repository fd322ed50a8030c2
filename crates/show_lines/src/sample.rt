// The lines of a datagram's samples.
ghost use Rattle.std.specs.Prelude.{◌≡◌};
ghost use Rattle.data_format.specs.Trees.{frame_trees};
ghost use Rattle.data_format.specs.Views.{FrameView};
ghost use Rattle.datagram_core.specs.Samples.{IsSampleOf, HasRecords, sample_tree};
ghost use Rattle.datagram_core.specs.Tables.{samples_read};
ghost use Rattle.text_lines.specs.Pages.{Prints};
ghost use Rattle.data_format.specs.Values.{tail_in};
ghost use Rattle.show_lines.specs.Joined.{texts_of};
ghost use Rattle.show_lines.specs.Shown.{sample_text, sample_front};

use crate::lines::{put_counters, put_flow, put_frame, put_line_end};
use crate::record::put_records;
use byte_ends::{Failed, Sink};
use datagram_core::{Sample, Samples};
use text_lines::Page;

// The lines of each sample, in their order.
pub(crate) fn put_samples<K: Sink>(
    page: &mut Page,
    sink: &mut K,
    mut samples: Samples<'_>,
) -> Result<(), Failed>
    ensures { Prints (K.seen sink.old) (K.seen sink.new) page.old page.new result
        (texts_of sample_text (frame_trees samples_read samples.entry)) }
{
    while let Some(sample) = samples.next() {
        put_sample(page, sink, &sample)?;
    }
    Ok(())
}

// The line of a sample, and those of its records.
fn put_sample<K: Sink>(page: &mut Page, sink: &mut K, sample: &Sample<'_>) -> Result<(), Failed>
    requires { HasRecords sample.now }
    ensures { (f : FrameView) → IsSampleOf f sample.now
        → Prints (K.seen sink.old) (K.seen sink.new) page.old page.new result (sample_text (sample_tree sample.now)) }
{
    put_sample_front(page, sink, sample)?;
    put_line_end(page, sink, tail_of(sample))?;
    put_records(page, sink, sample.records())
}

// The line up to its tail.
fn put_sample_front<K: Sink>(
    page: &mut Page,
    sink: &mut K,
    sample: &Sample<'_>,
) -> Result<(), Failed>
    ensures { (f : FrameView) → IsSampleOf f sample.now
        → Prints (K.seen sink.old) (K.seen sink.new) page.old page.new result (sample_front (sample_tree sample.now)) }
{
    match sample {
        Sample::Flow(s) => put_flow(page, sink, " flow", &s.head(), s.frames().len()),
        Sample::Counters(s) => put_counters(page, sink, " counters", &s.head(), s.frames().len()),
        Sample::FlowX(s) => put_flow(page, sink, " flowx", &s.head(), s.frames().len()),
        Sample::CountersX(s) => put_counters(page, sink, " countersx", &s.head(), s.frames().len()),
        Sample::Other(frame) => put_frame(page, sink, " sample ", frame.format, frame.body),
    }
}

// The bytes behind what the format has.
fn tail_of<'a>(sample: &Sample<'a>) -> &'a [u8]
    ensures { result.now ≡ tail_in (sample_tree sample.now) }
{
    match sample {
        Sample::Flow(s) => s.tail(),
        Sample::Counters(s) => s.tail(),
        Sample::FlowX(s) => s.tail(),
        Sample::CountersX(s) => s.tail(),
        Sample::Other(_) => &[],
    }
}
