// The text of an AS path.
ghost use Rattle.std.specs.Prelude.{◌≡◌, ◌++◌, codes};
ghost use Rattle.as_paths.specs.Paths.{kind_word, segment_tree, segment_trees};
ghost use Rattle.text_lines.specs.Pages.{Prints};
ghost use Rattle.show_lines.specs.Joined.{texts_of, segment_name, segment_text, path_text};

use crate::parts::{put_list, put_text};
use byte_ends::{Failed, Sink};
use rec_extended::{AsPath, Segment};
use text_lines::Page;

// The segments that are left.
pub(crate) fn put_path<K: Sink>(
    page: &mut Page,
    sink: &mut K,
    mut path: AsPath<'_>,
) -> Result<(), Failed>
    ensures { Prints (K.seen sink.old) (K.seen sink.new) page.old page.new result
        (path_text (segment_trees path.entry)) }
{
    match path.next() {
        None => put_text(page, sink, "-"),
        Some(first) => {
            put_segment(page, sink, "", &first)?;
            put_segments(page, sink, path)
        }
    }
}

// Each segment that is left, and a semicolon before it.
fn put_segments<K: Sink>(page: &mut Page, sink: &mut K, mut rest: AsPath<'_>) -> Result<(), Failed>
    ensures { Prints (K.seen sink.old) (K.seen sink.new) page.old page.new result
        (texts_of (λ s. codes ";" ++ segment_text s) (segment_trees rest.entry)) }
{
    while let Some(segment) = rest.next() {
        put_segment(page, sink, ";", &segment)?;
    }
    Ok(())
}

// A segment behind a text.
fn put_segment<K: Sink>(
    page: &mut Page,
    sink: &mut K,
    before: &str,
    segment: &Segment<'_>,
) -> Result<(), Failed>
    ensures { Prints (K.seen sink.old) (K.seen sink.new) page.old page.new result
        (before.now ++ segment_text (segment_tree segment.now)) }
{
    put_text(page, sink, before)?;
    put_text(page, sink, name_of(segment))?;
    put_list(page, sink, &segment.numbers)
}

// Whether it is a set or a sequence.
fn name_of(segment: &Segment<'_>) -> &'static str
    ensures { result.now ≡ segment_name (kind_word segment.now.ordered) }
{
    if segment.ordered { "seq:" } else { "set:" }
}
