// The lines of the consumers.
ghost use Rattle.std.specs.Prelude.{◌≡◌, Some, ◌++◌, ◌<◌, codes, vec_len, slice_get};
ghost use Rattle.text_lines.specs.Pages.{Prints};
ghost use Rattle.report_lines.specs.HeaderLines.{tap_texts};

use byte_ends::{Failed, Sink};
use sample_taps::{Tap, Taps};
use text_lines::{Page, Piece};

/// Puts the line of each consumer that is held, in order.
/// `Failed` is the sink's own; then the sink has taken a prefix of what the page held and the lines.
pub fn put_taps<K: Sink>(page: &mut Page, sink: &mut K, taps: &Taps) -> Result<(), Failed>
    ensures { Prints (K.seen sink.old) (K.seen sink.new) page.old page.new result
        (tap_texts (λ x. (⟦<dyn Tap as Tap>⟧ x.vtable).text x.value) taps.now.held.items) }
{
    for place in 0..taps.len() {
        put_tap(page, sink, taps, place)?;
    }
    Ok(())
}

// The line of the consumer at this place, from 0 on.
fn put_tap<K: Sink>(page: &mut Page, sink: &mut K, taps: &Taps, place: usize) -> Result<(), Failed>
    requires { place < vec_len taps.now.held }
    ensures { (x : _) × (slice_get taps.now.held.items place ≡ Some x)
        × Prints (K.seen sink.old) (K.seen sink.new) page.old page.new result
        ((⟦<dyn Tap as Tap>⟧ x.vtable).text x.value ++ codes "\n") }
{
    let line = taps.line(place);
    let pieces = [Piece::Text(line.as_str()), Piece::Text("\n")];
    page.put_line(sink, &pieces)
}
