// The lines that name a fault.
ghost use Rattle.text_lines.specs.Pages.{Prints};
ghost use Rattle.sflow_tool.specs.Faults.{fault_line};

use byte_ends::{Failed, Sink};
use text_lines::{Page, Piece};
use wire_spec::Fault;

// The number of an entry, and the place and the kind of its fault.
#[tactic(auto, unfolding(crate::specs::Faults::fault_line))]
pub(crate) fn put_fault<K: Sink>(
    page: &mut Page,
    sink: &mut K,
    number: u64,
    fault: &Fault,
) -> Result<(), Failed>
    ensures { Prints (K.seen sink.old) (K.seen sink.new) page.old page.new result
        (fault_line number fault.now) }
{
    let pieces = [
        Piece::Text("entry "),
        Piece::Number(number as u128),
        Piece::Text(" at "),
        Piece::Number(fault.at as u128),
        Piece::Text(" kind "),
        Piece::Kind(fault.kind),
        Piece::Text("\n"),
    ];
    page.put_line(sink, &pieces)
}
