// `check`: each entry of a capture that is no datagram.
ghost use Rattle.std.specs.Prelude.{◌≡◌};
ghost use Rattle.text_lines.specs.Pages.{Prints};
ghost use Rattle.sflow_tool.specs.Checks.{check_act, checked_line};
ghost use Rattle.command_runs.specs.Grammars.{captures};
ghost use Rattle.command_runs.specs.Outside.{outside};
ghost use Rattle.command_runs.specs.Runs.{Runs};

use crate::faults::put_fault;
use command_runs::{Counts, EntryVisitor, Sender, Status, visit_capture};
use datagram_core::Datagram;
use sflow_io::{Failed, Sink, Source};
use std::alloc::Global;
use text_lines::{Page, Piece};
use wire_spec::Pad;

// Puts a line for each entry that is no datagram under this reading of padding, and then counts them.
#[derive(Clone, Copy, Drop)]
struct FaultyEntries {
    pad: Pad,
}

impl EntryVisitor for FaultyEntries {
    ghost use Rattle.sflow_tool.specs.Checks.{check_task};

    ghost does = { λ self. check_task self.pad };

    ghost visited = { λ _ _. Unit {0} };

    #[tactic(auto, unfolding(crate::specs::Checks::check_line, crate::specs::Checks::is_faulty))]
    fn visit<K: Sink>(
        &mut self,
        page: &mut Page,
        sink: &mut K,
        number: u64,
        _at: u64,
        _from: Option<Sender>,
        bytes: &[u8],
    ) -> Result<bool, Failed> {
        match Datagram::parse(bytes, self.pad) {
            Ok(_) => Ok(false),
            Err(fault) => {
                put_fault(page, sink, number, &fault)?;
                Ok(true)
            }
        }
    }

    fn finish<K: Sink>(
        &mut self,
        page: &mut Page,
        sink: &mut K,
        counts: &Counts,
    ) -> Result<(), Failed> {
        put_counts(page, sink, counts)
    }

    fn waits(&self) -> bool {
        false
    }
}

// Names each faulty entry of a capture, and then says how many entries there are and how many are faulty. All memory
// is taken before the first byte is read.
pub(crate) fn check<S: Source, K: Sink>(
    alloc: Global,
    pad: Pad,
    source: &mut S,
    sink: &mut K,
) -> Status
    ensures { Runs captures (check_act pad) (outside (S.seen source.old) (K.seen sink.old))
        (outside (S.seen source.new) (K.seen sink.new)) result }
{
    visit_capture(alloc, &mut FaultyEntries { pad }, source, sink)
}

#[tactic(auto, unfolding(crate::specs::Checks::checked_line))]
fn put_counts<K: Sink>(page: &mut Page, sink: &mut K, counts: &Counts) -> Result<(), Failed>
    ensures { Prints (K.seen sink.old) (K.seen sink.new) page.old page.new result
        (checked_line counts.now.entries counts.now.marked) }
{
    let pieces = [
        Piece::Text("checked "),
        Piece::Number(counts.entries as u128),
        Piece::Text(" faulty "),
        Piece::Number(counts.marked as u128),
        Piece::Text("\n"),
    ];
    page.put_line(sink, &pieces)
}
