// The lines of the interfaces of a collector's sources.
ghost use Rattle.std.specs.Prelude.{◌≡◌, List, Some, slice_get};
ghost use Rattle.text_lines.specs.Pages.{Prints};
ghost use Rattle.books_spec.specs.Items.{Item, Source};
ghost use Rattle.books_spec.specs.declared.limits.Limits.{Limits};
ghost use Rattle.books_spec.specs.Books.{listed_sources};
ghost use Rattle.books_spec.specs.WholeBooks.{interface_line, whole_books};
ghost use Rattle.flow_collector.specs.Collectors.{StandsFor};
ghost use Rattle.report_lines.specs.InterfaceLines.{line_text, interface_texts, lines_if};

use byte_ends::{Failed, Sink};
use flow_collector::Collector;
use report_lines::put_interface;
use text_lines::Page;

// The lines of interfaces where they are asked for.
pub(crate) fn put_interfaces_if<K: Sink>(
    page: &mut Page,
    sink: &mut K,
    collector: &Collector,
    interfaces: bool,
) -> Result<(), Failed>
    ensures { (l : Limits) (items : List Item) → StandsFor collector.now.books l items
        → Prints (K.seen sink.old) (K.seen sink.new) page.old page.new result
        (lines_if interfaces (whole_books l items).interfaces) }
{
    if interfaces {
        put_interfaces(page, sink, collector)
    } else {
        Ok(())
    }
}

// The line of the interface of each source that shows one, in order of first arrival.
fn put_interfaces<K: Sink>(
    page: &mut Page,
    sink: &mut K,
    collector: &Collector,
) -> Result<(), Failed>
    ensures { (l : Limits) (items : List Item) → StandsFor collector.now.books l items
        → Prints (K.seen sink.old) (K.seen sink.new) page.old page.new result
        (interface_texts (whole_books l items).interfaces) }
{
    for place in 0..collector.source_count() {
        put_interface_at(page, sink, collector, place)?;
    }
    Ok(())
}

// The line of the interface of the source at a place, where it shows one.
fn put_interface_at<K: Sink>(
    page: &mut Page,
    sink: &mut K,
    collector: &Collector,
    place: usize,
) -> Result<(), Failed>
    ensures { (l : Limits) (items : List Item) (k : Source) → StandsFor collector.now.books l items
        → slice_get (listed_sources l items) place ≡ Some k
        → Prints (K.seen sink.old) (K.seen sink.new) page.old page.new result
        (line_text (interface_line l items k)) }
{
    let Some(view) = collector.interface(place) else {
        return Ok(());
    };
    let Some(source) = collector.source(place) else {
        return Ok(());
    };
    put_interface(page, sink, &source, &view)
}
