// What the report ends with: the first fault, and the totals.
ghost use Rattle.text_lines.specs.Pages.{Prints};
ghost use Rattle.report_lines.specs.Lines.{first_fault_text, fault_line, total_text};
ghost use Rattle.report_lines.specs.Reports.{end_text};

use byte_ends::{Failed, Sink};
use collector_views::{FirstFault, Totals};
use data_format::Fault;
use text_lines::{Page, Piece};

/// Puts the line of the first fault, where an entry was malformed, and the line of totals, with how many consumers were
/// dropped as done.
/// `Failed` is the sink's own; then the sink has taken a prefix of what the page held and these lines.
pub fn put_end<K: Sink>(
    page: &mut Page,
    sink: &mut K,
    totals: &Totals,
    ended: u64,
) -> Result<(), Failed>
    ensures { Prints (K.seen sink.old) (K.seen sink.new) page.old page.new result
        (end_text totals.now ended) }
{
    put_first_fault(page, sink, &totals.first_fault)?;
    put_total(page, sink, totals, ended)
}

/// Puts the line of the first fault; nothing where no entry was malformed.
/// `Failed` is the sink's own; then the sink has taken a prefix of what the page held and the line.
pub fn put_first_fault<K: Sink>(
    page: &mut Page,
    sink: &mut K,
    first: &Option<FirstFault>,
) -> Result<(), Failed>
    ensures { Prints (K.seen sink.old) (K.seen sink.new) page.old page.new result
        (first_fault_text first.now) }
{
    match first {
        None => Ok(()),
        Some(first) => put_fault(page, sink, first.entry, &first.fault),
    }
}

#[tactic(auto, unfolding(crate::specs::Lines::fault_line))]
fn put_fault<K: Sink>(
    page: &mut Page,
    sink: &mut K,
    number: u64,
    fault: &Fault,
) -> Result<(), Failed>
    ensures { Prints (K.seen sink.old) (K.seen sink.new) page.old page.new result
        (fault_line number fault.now) }
{
    let pieces = [
        Piece::Text("fault entry "),
        Piece::Number(number as u128),
        Piece::Text(" at "),
        Piece::Number(fault.at as u128),
        Piece::Text(" kind "),
        Piece::Kind(fault.kind),
        Piece::Text("\n"),
    ];
    page.put_line(sink, &pieces)
}

/// Puts the line of totals, which is the last one, with how many consumers were dropped as done.
/// `Failed` is the sink's own; then the sink has taken a prefix of what the page held and the line.
#[tactic(auto, unfolding(crate::specs::Lines::total_text))]
pub fn put_total<K: Sink>(
    page: &mut Page,
    sink: &mut K,
    totals: &Totals,
    ended: u64,
) -> Result<(), Failed>
    ensures { Prints (K.seen sink.old) (K.seen sink.new) page.old page.new result
        (total_text totals.now ended) }
{
    let pieces = [
        Piece::Text("total entries "),
        Piece::Number(totals.entries as u128),
        Piece::Text(" malformed "),
        Piece::Number(totals.malformed as u128),
        Piece::Text(" unlisted "),
        Piece::Number(totals.unlisted as u128),
        Piece::Text(" unlisted_samples "),
        Piece::Number(totals.unlisted_samples as u128),
        Piece::Text(" other "),
        Piece::Number(totals.other as u128),
        Piece::Text(" taps_ended "),
        Piece::Number(ended as u128),
        Piece::Text("\n"),
    ];
    page.put_line(sink, &pieces)
}
