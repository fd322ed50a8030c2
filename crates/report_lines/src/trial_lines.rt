// The two lines behind the report of a trial.
ghost use Rattle.std.specs.Prelude.{◌≡◌};
ghost use Rattle.text_lines.specs.Pages.{Prints};
ghost use Rattle.report_lines.specs.TrialLines.{agent_text, answer_text, premises_text};

use byte_ends::{Failed, Sink};
use text_lines::{Page, Piece};

/// Which premises hold of a trial, of what was delivered and under the limits of its collector.
#[derive(Clone, Copy, Debug, PartialEq, Eq)]
pub struct TrialPremises {
    /// Restarts show in the uptimes.
    pub visible: bool,
    /// Numbers, pools and drops are close enough to those before them.
    pub close: bool,
    /// Each stream and each source is listed.
    pub roomy: bool,
    /// Resets show in the numbers and their order.
    pub apparent: bool,
}

/// Puts the line of what was true: how many datagrams were sent, samples issued, and packets dropped.
/// `Failed` is the sink's own; then the sink has taken a prefix of what the page held and the line.
#[tactic(auto, unfolding(crate::specs::TrialLines::agent_text))]
pub fn put_agent_line<K: Sink>(
    page: &mut Page,
    sink: &mut K,
    datagrams: u128,
    samples: u128,
    drops: u128,
) -> Result<(), Failed>
    ensures { Prints (K.seen sink.old) (K.seen sink.new) page.old page.new result
        (agent_text datagrams samples drops) }
{
    let pieces = [
        Piece::Text("agent datagrams "),
        Piece::Number(datagrams),
        Piece::Text(" samples "),
        Piece::Number(samples),
        Piece::Text(" drops "),
        Piece::Number(drops),
        Piece::Text("\n"),
    ];
    page.put_line(sink, &pieces)
}

/// Puts the line of the premises, which is the last one.
/// `Failed` is the sink's own; then the sink has taken a prefix of what the page held and the line.
#[tactic(auto, unfolding(crate::specs::TrialLines::premises_text))]
pub fn put_premises_line<K: Sink>(
    page: &mut Page,
    sink: &mut K,
    premises: &TrialPremises,
) -> Result<(), Failed>
    ensures { Prints (K.seen sink.old) (K.seen sink.new) page.old page.new result
        (premises_text premises.now) }
{
    let pieces = [
        Piece::Text("premises visible "),
        Piece::Text(answer(premises.visible)),
        Piece::Text(" close "),
        Piece::Text(answer(premises.close)),
        Piece::Text(" roomy "),
        Piece::Text(answer(premises.roomy)),
        Piece::Text(" apparent "),
        Piece::Text(answer(premises.apparent)),
        Piece::Text("\n"),
    ];
    page.put_line(sink, &pieces)
}

fn answer(holds: bool) -> &'static str
    ensures { result.now ≡ answer_text holds }
{
    if holds { "yes" } else { "no" }
}
