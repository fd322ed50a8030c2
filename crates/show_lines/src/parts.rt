// Parts of lines.
ghost use Rattle.std.specs.Prelude.{◌++◌, codes, decimal, drop, flat_map};
ghost use Rattle.as_paths.specs.WordLists.{word_trees};
ghost use Rattle.text_lines.specs.Pages.{Prints};
ghost use Rattle.show_lines.specs.Joined.{texts_of, number_text, list_text};

use byte_ends::{Failed, Sink};
use rec_extended::Words;
use text_lines::{Page, Piece};

// Text as it stands.
pub(crate) fn put_text<K: Sink>(page: &mut Page, sink: &mut K, text: &str) -> Result<(), Failed>
    ensures { Prints (K.seen sink.old) (K.seen sink.new) page.old page.new result text.now }
{
    page.put_line(sink, &[Piece::Text(text)])
}

// A number behind a text.
pub(crate) fn put_number<K: Sink>(
    page: &mut Page,
    sink: &mut K,
    before: &str,
    number: u64,
) -> Result<(), Failed>
    ensures { Prints (K.seen sink.old) (K.seen sink.new) page.old page.new result
        (before.now ++ decimal number) }
{
    page.put_line(sink, &[Piece::Text(before), Piece::Number(number as u128)])
}

// Numbers, each behind a space.
pub(crate) fn put_row<K: Sink>(page: &mut Page, sink: &mut K, numbers: &[u64]) -> Result<(), Failed>
    ensures { Prints (K.seen sink.old) (K.seen sink.new) page.old page.new result
        (flat_map (λ n. codes " " ++ decimal n) numbers.now) }
{
    for number in numbers {
        put_number(page, sink, " ", *number)?;
    }
    Ok(())
}

// A list of numbers.
pub(crate) fn put_list<K: Sink>(
    page: &mut Page,
    sink: &mut K,
    numbers: &Words<'_>,
) -> Result<(), Failed>
    ensures { Prints (K.seen sink.old) (K.seen sink.new) page.old page.new result
        (list_text (word_trees numbers.now)) }
{
    match numbers.get(0) {
        None => put_text(page, sink, "-"),
        Some(first) => {
            put_number(page, sink, "", first as u64)?;
            put_further(page, sink, numbers)
        }
    }
}

// Each number behind the first, and a comma before it.
fn put_further<K: Sink>(page: &mut Page, sink: &mut K, numbers: &Words<'_>) -> Result<(), Failed>
    ensures { Prints (K.seen sink.old) (K.seen sink.new) page.old page.new result
        (texts_of (λ n. codes "," ++ number_text n) (word_trees (drop 1 numbers.now))) }
{
    for place in 1..numbers.len() {
        if let Some(number) = numbers.get(place) {
            put_number(page, sink, ",", number as u64)?;
        }
    }
    Ok(())
}
