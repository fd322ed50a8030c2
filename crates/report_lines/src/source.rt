ghost use Rattle.text_lines.specs.Pages.{Prints};
ghost use Rattle.collector_views.specs.Views.{source_shown};
ghost use Rattle.report_lines.specs.Lines.{source_text, flow_text, counters_text};

use byte_ends::{Failed, Sink};
use collector_views::SourceView;
use text_lines::{Page, Piece};

/// Puts the line of a source. One of flow samples has the rise of the pool, the drops and the rate besides.
/// `Failed` is the sink's own; then the sink has taken a prefix of what the page held and the line.
pub fn put_source<K: Sink>(page: &mut Page, sink: &mut K, view: &SourceView) -> Result<(), Failed>
    ensures { Prints (K.seen sink.old) (K.seen sink.new) page.old page.new result
        (source_text (source_shown view.now)) }
{
    if view.flow {
        put_flow(page, sink, view)
    } else {
        put_counters(page, sink, view)
    }
}

#[tactic(auto, unfolding(crate::specs::Lines::flow_text))]
fn put_flow<K: Sink>(page: &mut Page, sink: &mut K, view: &SourceView) -> Result<(), Failed>
    ensures { Prints (K.seen sink.old) (K.seen sink.new) page.old page.new result
        (flow_text (source_shown view.now)) }
{
    let ledger = &view.ledger;
    let pieces = [
        Piece::Text("source "),
        Piece::Number(view.stream as u128),
        Piece::Text(" flow "),
        Piece::Number(view.source.class as u128),
        Piece::Text(":"),
        Piece::Number(view.source.index as u128),
        Piece::Text(" generations "),
        Piece::Number(view.generations as u128),
        Piece::Text(" issued "),
        Piece::Number(ledger.issued),
        Piece::Text(" received "),
        Piece::Number(ledger.received as u128),
        Piece::Text(" pending "),
        Piece::Number(ledger.pending as u128),
        Piece::Text(" lost "),
        Piece::Number(ledger.lost),
        Piece::Text(" repeated "),
        Piece::Number(ledger.repeated as u128),
        Piece::Text(" late "),
        Piece::Number(ledger.late as u128),
        Piece::Text(" stale "),
        Piece::Number(view.stale as u128),
        Piece::Text(" pool "),
        Piece::Number(ledger.pool),
        Piece::Text(" drops "),
        Piece::Number(ledger.drops),
        Piece::Text(" rate "),
        Piece::Number(ledger.rate as u128),
        Piece::Text("\n"),
    ];
    page.put_line(sink, &pieces)
}

#[tactic(auto, unfolding(crate::specs::Lines::counters_text))]
fn put_counters<K: Sink>(page: &mut Page, sink: &mut K, view: &SourceView) -> Result<(), Failed>
    ensures { Prints (K.seen sink.old) (K.seen sink.new) page.old page.new result
        (counters_text (source_shown view.now)) }
{
    let ledger = &view.ledger;
    let pieces = [
        Piece::Text("source "),
        Piece::Number(view.stream as u128),
        Piece::Text(" counters "),
        Piece::Number(view.source.class as u128),
        Piece::Text(":"),
        Piece::Number(view.source.index as u128),
        Piece::Text(" generations "),
        Piece::Number(view.generations as u128),
        Piece::Text(" issued "),
        Piece::Number(ledger.issued),
        Piece::Text(" received "),
        Piece::Number(ledger.received as u128),
        Piece::Text(" pending "),
        Piece::Number(ledger.pending as u128),
        Piece::Text(" lost "),
        Piece::Number(ledger.lost),
        Piece::Text(" repeated "),
        Piece::Number(ledger.repeated as u128),
        Piece::Text(" late "),
        Piece::Number(ledger.late as u128),
        Piece::Text(" stale "),
        Piece::Number(view.stale as u128),
        Piece::Text("\n"),
    ];
    page.put_line(sink, &pieces)
}
