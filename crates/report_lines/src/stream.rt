ghost use Rattle.text_lines.specs.Pages.{Prints};
ghost use Rattle.collector_views.specs.Views.{stream_shown};
ghost use Rattle.report_lines.specs.Lines.{stream_text};

use byte_ends::{Failed, Sink};
use collector_views::StreamView;
use text_lines::{Page, Piece};

/// Puts the line of a stream, whose number counts from 1 in order of first arrival.
/// `Failed` is the sink's own; then the sink has taken a prefix of what the page held and the line.
#[tactic(auto, unfolding(crate::specs::Lines::stream_text))]
pub fn put_stream<K: Sink>(
    page: &mut Page,
    sink: &mut K,
    number: u64,
    view: &StreamView,
) -> Result<(), Failed>
    ensures { Prints (K.seen sink.old) (K.seen sink.new) page.old page.new result
        (stream_text number (stream_shown view.now)) }
{
    let ledger = &view.ledger;
    let pieces = [
        Piece::Text("stream "),
        Piece::Number(number as u128),
        Piece::Text(" agent "),
        Piece::Address(view.agent),
        Piece::Text(" sub "),
        Piece::Number(view.sub_agent as u128),
        Piece::Text(" boots "),
        Piece::Number(view.boots as u128),
        Piece::Text(" issued "),
        Piece::Number(ledger.issued),
        Piece::Text(" received "),
        Piece::Number(ledger.received as u128),
        Piece::Text(" pending "),
        Piece::Number(ledger.pending as u128),
        Piece::Text(" lost "),
        Piece::Number(ledger.lost),
        Piece::Text(" repeated "),
        Piece::Number(ledger.repeated as u128),
        Piece::Text(" late "),
        Piece::Number(ledger.late as u128),
        Piece::Text(" stale "),
        Piece::Number(view.stale as u128),
        Piece::Text("\n"),
    ];
    page.put_line(sink, &pieces)
}
