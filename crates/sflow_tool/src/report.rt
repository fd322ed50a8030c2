// The report of what a collector took.
ghost use Rattle.std.specs.Prelude.{◌≡◌, List};
ghost use Rattle.text_lines.specs.Pages.{Prints};
ghost use Rattle.books_spec.specs.Items.{Item};
ghost use Rattle.books_spec.specs.declared.limits.Limits.{Limits};
ghost use Rattle.books_spec.specs.WholeBooks.{whole_books};
ghost use Rattle.flow_collector.specs.Collectors.{StandsFor};
ghost use Rattle.report_lines.specs.HeaderLines.{class_text, shown_taps};
ghost use Rattle.report_lines.specs.InterfaceLines.{report_with, tail_text};
ghost use Rattle.report_lines.specs.Reports.{stream_texts, source_texts};

use crate::interfaces::put_interfaces_if;
use byte_ends::{Failed, Sink};
use flow_collector::Collector;
use report_lines::{put_classes, put_end, put_source, put_stream, put_taps};
use sample_taps::{Tap, Taps};
use text_lines::Page;

// The report of what a collector took and of the consumers, with the lines of interfaces where they are asked for.
pub(crate) fn put_report<K: Sink>(
    page: &mut Page,
    sink: &mut K,
    collector: &Collector,
    interfaces: bool,
    taps: &Taps,
) -> Result<(), Failed>
    ensures { (l : Limits) (items : List Item) → StandsFor collector.now.books l items
        → Prints (K.seen sink.old) (K.seen sink.new) page.old page.new result
        (report_with interfaces (whole_books l items) collector.now.classes
        (shown_taps (λ x. (⟦<dyn Tap as Tap>⟧ x.vtable).text x.value) taps.now.held.items taps.now.ended)) }
{
    put_streams(page, sink, collector)?;
    put_sources(page, sink, collector)?;
    put_interfaces_if(page, sink, collector, interfaces)?;
    put_tail(page, sink, collector, taps)
}

// What stands behind the lines of streams, sources and interfaces.
fn put_tail<K: Sink>(
    page: &mut Page,
    sink: &mut K,
    collector: &Collector,
    taps: &Taps,
) -> Result<(), Failed>
    ensures { (l : Limits) (items : List Item) → StandsFor collector.now.books l items
        → Prints (K.seen sink.old) (K.seen sink.new) page.old page.new result
        (tail_text (whole_books l items).totals collector.now.classes
        (shown_taps (λ x. (⟦<dyn Tap as Tap>⟧ x.vtable).text x.value) taps.now.held.items taps.now.ended)) }
{
    put_classes_of(page, sink, collector)?;
    put_taps(page, sink, taps)?;
    put_end(page, sink, &collector.totals(), taps.ended())
}

// The line of the classes of the headers that were counted.
fn put_classes_of<K: Sink>(
    page: &mut Page,
    sink: &mut K,
    collector: &Collector,
) -> Result<(), Failed>
    ensures { Prints (K.seen sink.old) (K.seen sink.new) page.old page.new result
        (class_text collector.now.classes) }
{
    put_classes(page, sink, &collector.classes())
}

// The line of each stream, in order of first arrival.
fn put_streams<K: Sink>(page: &mut Page, sink: &mut K, collector: &Collector) -> Result<(), Failed>
    ensures { (l : Limits) (items : List Item) → StandsFor collector.now.books l items
        → Prints (K.seen sink.old) (K.seen sink.new) page.old page.new result
        (stream_texts 1 (whole_books l items).streams) }
{
    for place in 0..collector.stream_count() {
        if let Some(view) = collector.stream(place) {
            put_stream(page, sink, place as u64 + 1, &view)?;
        }
    }
    Ok(())
}

// The line of each source, in order of first arrival.
fn put_sources<K: Sink>(page: &mut Page, sink: &mut K, collector: &Collector) -> Result<(), Failed>
    ensures { (l : Limits) (items : List Item) → StandsFor collector.now.books l items
        → Prints (K.seen sink.old) (K.seen sink.new) page.old page.new result
        (source_texts (whole_books l items).sources) }
{
    for place in 0..collector.source_count() {
        if let Some(view) = collector.source(place) {
            put_source(page, sink, &view)?;
        }
    }
    Ok(())
}
