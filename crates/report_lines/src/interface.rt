ghost use Rattle.text_lines.specs.Pages.{Prints};
ghost use Rattle.collector_views.specs.InterfaceViews.{interface_shown};
ghost use Rattle.report_lines.specs.InterfaceLines.{interface_text};

use byte_ends::{Failed, Sink};
use collector_views::{IfView, SourceView};
use text_lines::{Page, Piece};

/// Puts the line of the interface of a source of counters samples: by how much each of its thirteen counters rose, first
/// those of what came in and then those of what went out.
/// `Failed` is the sink's own; then the sink has taken a prefix of what the page held and the line.
#[tactic(auto, unfolding(crate::specs::InterfaceLines::interface_text))]
pub fn put_interface<K: Sink>(
    page: &mut Page,
    sink: &mut K,
    source: &SourceView,
    view: &IfView,
) -> Result<(), Failed>
    ensures { Prints (K.seen sink.old) (K.seen sink.new) page.old page.new result
        (interface_text (interface_shown source.now view.now)) }
{
    let rises = &view.rises;
    let pieces = [
        Piece::Text("if "),
        Piece::Number(source.stream as u128),
        Piece::Text(" "),
        Piece::Number(source.source.class as u128),
        Piece::Text(":"),
        Piece::Number(source.source.index as u128),
        Piece::Text(" samples "),
        Piece::Number(view.samples as u128),
        Piece::Text(" in "),
        Piece::Number(rises[0]),
        Piece::Text(" "),
        Piece::Number(rises[1]),
        Piece::Text(" "),
        Piece::Number(rises[2]),
        Piece::Text(" "),
        Piece::Number(rises[3]),
        Piece::Text(" "),
        Piece::Number(rises[4]),
        Piece::Text(" "),
        Piece::Number(rises[5]),
        Piece::Text(" "),
        Piece::Number(rises[6]),
        Piece::Text(" out "),
        Piece::Number(rises[7]),
        Piece::Text(" "),
        Piece::Number(rises[8]),
        Piece::Text(" "),
        Piece::Number(rises[9]),
        Piece::Text(" "),
        Piece::Number(rises[10]),
        Piece::Text(" "),
        Piece::Number(rises[11]),
        Piece::Text(" "),
        Piece::Number(rises[12]),
        Piece::Text("\n"),
    ];
    page.put_line(sink, &pieces)
}
