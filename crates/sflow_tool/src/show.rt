// `show`: the lines of each entry of a capture.
ghost use Rattle.command_runs.specs.Grammars.{captures};
ghost use Rattle.command_runs.specs.Outside.{outside};
ghost use Rattle.command_runs.specs.Runs.{Runs};
ghost use Rattle.sflow_tool.specs.Shows.{show_act};

use command_runs::{Counts, EntryVisitor, Sender, Status, visit_capture};
use sflow_io::{Failed, Sink, Source};
use show_lines::put_received;
use std::alloc::Global;
use text_lines::Page;

// Puts the lines of an entry, whatever it is.
#[derive(Clone, Copy, Drop)]
struct ShownEntries;

impl EntryVisitor for ShownEntries {
    ghost use Rattle.sflow_tool.specs.Shows.{show_task};

    ghost does = { λ _. show_task };

    ghost visited = { λ _ _. Unit {0} };

    fn visit<K: Sink>(
        &mut self,
        page: &mut Page,
        sink: &mut K,
        number: u64,
        at: u64,
        from: Option<Sender>,
        bytes: &[u8],
    ) -> Result<bool, Failed> {
        put_received(page, sink, number, at, from, bytes)?;
        Ok(false)
    }

    fn finish<K: Sink>(
        &mut self,
        _page: &mut Page,
        _sink: &mut K,
        _counts: &Counts,
    ) -> Result<(), Failed> {
        Ok(())
    }

    fn waits(&self) -> bool {
        false
    }
}

// Shows each entry of a capture. All memory is taken before the first byte is read.
pub(crate) fn show<S: Source, K: Sink>(alloc: Global, source: &mut S, sink: &mut K) -> Status
    ensures { Runs captures show_act (outside (S.seen source.old) (K.seen sink.old))
        (outside (S.seen source.new) (K.seen sink.new)) result }
{
    visit_capture(alloc, &mut ShownEntries, source, sink)
}
