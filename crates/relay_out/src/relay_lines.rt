// The lines that tell what became of receivers.
ghost use Rattle.std.specs.Prelude.{◌≡◌, ◌≤◌, ◌+◌, length, vec_len};
ghost use Rattle.text_lines.specs.Pages.{Prints};
ghost use Rattle.relay_out.specs.Lines.{relay_line, relay_text, yes_or_no};

use crate::{Failed, Progress, Receivers, Routes};
use byte_ends::Sink;
use text_lines::{Page, Piece};

/// Puts a line for each route: its number, counted from 1, the place that its datagrams go to, how many its receiver
/// took since it was aimed, and whether it failed since then.
/// `Failed` is the sink's own; then the sink has taken a prefix of what the page held and the lines.
pub fn put_relays<K: Sink>(
    page: &mut Page,
    sink: &mut K,
    routes: &Routes,
    receivers: &Receivers,
) -> Result<(), Failed>
    requires { length routes.now ≤ vec_len receivers.now.held }
    ensures { Prints (K.seen sink.old) (K.seen sink.new) page.old page.new result
        (relay_text routes.now receivers.now.progress) }
{
    for at in 0..routes.len() {
        let progress = Progress {
            passed: receivers.passed(at),
            stopped: receivers.stopped(at),
        };
        put_relay(page, sink, at + 1, routes.place(at), progress)?;
    }
    Ok(())
}

fn yes_no(yes: bool) -> &'static str
    ensures { result.now ≡ yes_or_no yes }
{
    if yes { "yes" } else { "no" }
}

#[tactic(auto, unfolding(crate::specs::Lines::relay_line))]
fn put_relay<K: Sink>(
    page: &mut Page,
    sink: &mut K,
    number: usize,
    place: &str,
    progress: Progress,
) -> Result<(), Failed>
    ensures { Prints (K.seen sink.old) (K.seen sink.new) page.old page.new result
        (relay_line number place.now progress) }
{
    let pieces = [
        Piece::Text("relay "),
        Piece::Number(number as u128),
        Piece::Text(" place "),
        Piece::Text(place),
        Piece::Text(" passed "),
        Piece::Number(progress.passed as u128),
        Piece::Text(" stopped "),
        Piece::Text(yes_no(progress.stopped)),
        Piece::Text("\n"),
    ];
    page.put_line(sink, &pieces)
}
