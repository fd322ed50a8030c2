// The classes of the sampled headers.
ghost use Rattle.text_lines.specs.Pages.{Prints};
ghost use Rattle.report_lines.specs.HeaderLines.{class_line, class_text};

use byte_ends::{Failed, Sink};
use sample_taps::ClassTotals;
use text_lines::{Page, Piece};

/// Puts the line of the classes of headers; nothing where no header was counted, of whatever kind.
/// `Failed` is the sink's own; then the sink has taken a prefix of what the page held and the line.
pub fn put_classes<K: Sink>(
    page: &mut Page,
    sink: &mut K,
    classes: &ClassTotals,
) -> Result<(), Failed>
    ensures { Prints (K.seen sink.old) (K.seen sink.new) page.old page.new result
        (class_text classes.now) }
{
    if classes.headers() == 0 {
        return Ok(());
    }
    put_class_line(page, sink, classes)
}

#[tactic(auto, unfolding(crate::specs::HeaderLines::class_line))]
fn put_class_line<K: Sink>(
    page: &mut Page,
    sink: &mut K,
    classes: &ClassTotals,
) -> Result<(), Failed>
    ensures { Prints (K.seen sink.old) (K.seen sink.new) page.old page.new result
        (class_line classes.now) }
{
    let pieces = [
        Piece::Text("headers unscanned "),
        Piece::Number(classes.unscanned as u128),
        Piece::Text(" short "),
        Piece::Number(classes.short as u128),
        Piece::Text(" length "),
        Piece::Number(classes.length as u128),
        Piece::Text(" undefined "),
        Piece::Number(classes.undefined as u128),
        Piece::Text(" arp "),
        Piece::Number(classes.arp as u128),
        Piece::Text(" ipv4 "),
        Piece::Number(classes.ipv4 as u128),
        Piece::Text(" ipv6 "),
        Piece::Number(classes.ipv6 as u128),
        Piece::Text(" other "),
        Piece::Number(classes.other as u128),
        Piece::Text(" badip "),
        Piece::Number(classes.bad_ip as u128),
        Piece::Text(" tagged "),
        Piece::Number(classes.tagged as u128),
        Piece::Text(" tcp "),
        Piece::Number(classes.tcp as u128),
        Piece::Text(" udp "),
        Piece::Number(classes.udp as u128),
        Piece::Text("\n"),
    ];
    page.put_line(sink, &pieces)
}
