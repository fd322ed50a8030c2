// A run over a capture, from its first byte to the status.
ghost use Rattle.std.specs.Prelude.{◌≡◌, ◌++◌, [], true, List};
ghost use Rattle.capture_spec.specs.Items.{Received};
ghost use Rattle.command_runs.specs.Endings.{Flushed, counted_status};
ghost use Rattle.command_runs.specs.Acts.{Act};
ghost use Rattle.command_runs.specs.Grammars.{Capture, captures};
ghost use Rattle.command_runs.specs.Outside.{outside};
ghost use Rattle.command_runs.specs.Runs.{Runs};
ghost use Rattle.command_runs.specs.Tasks.{Does};
ghost use Rattle.command_runs.specs.Walks.{AreCounts};

use crate::Status;
use crate::ending::{flush, new_room, status_of};
use crate::walk::{Counts, EntryVisitor, Stop, visit_entries};
use sflow_io::{CaptureReader, Sink, Source};
use std::alloc::Global;
use text_lines::Page;

/// Reads a capture and visits its entries. Beside the visitor's own, all memory is taken before the first byte is read.
pub fn visit_capture<S: Source, K: Sink, V: EntryVisitor>(
    alloc: Global,
    visitor: &mut V,
    source: &mut S,
    sink: &mut K,
) -> Status
    requires { V.visited visitor.old [] }
    ensures { (a : Act Capture) → Does (V.does visitor.old) a
        → Runs captures a (outside (S.seen source.old) (K.seen sink.old))
        (outside (S.seen source.new) (K.seen sink.new)) result }
{
    let Ok(mut reader) = CaptureReader::open(alloc) else {
        return Status::Memory;
    };
    let Ok(mut room) = new_room(alloc) else {
        return Status::Memory;
    };
    let mut page = Page::new();
    match visit_entries(&mut reader, source, &mut room, visitor, &mut page, sink) {
        Ok(counts) => finish(visitor, &mut page, sink, &counts),
        Err(Stop::Read(refusal)) => stop(visitor, &mut page, sink, status_of(refusal)),
        Err(Stop::Write) => Status::WriteFault,
    }
}

// Puts what comes behind all entries, and ends the run.
fn finish<K: Sink, V: EntryVisitor>(
    visitor: &mut V,
    page: &mut Page,
    sink: &mut K,
    counts: &Counts,
) -> Status
    ensures { (entries : List Received) → V.visited visitor.old entries → AreCounts (V.does visitor.old) entries counts.now
        → Flushed (K.seen sink.old) (K.seen sink.new)
        (page.old ++ (V.does visitor.old).last (record { version = counts.now.version; entries = entries }))
        (counted_status counts.now) result }
{
    match visitor.finish(page, sink, counts) {
        Ok(()) => flush(page, sink, status_by(counts)),
        Err(_) => Status::WriteFault,
    }
}

// Something was found where an entry is marked.
fn status_by(counts: &Counts) -> Status
    ensures { result ≡ counted_status counts.now }
{
    if counts.marked > 0 {
        Status::Found
    } else {
        Status::Done
    }
}

// Ends the run before the end of the capture. A visitor that waits has put nothing.
fn stop<K: Sink, V: EntryVisitor>(
    visitor: &V,
    page: &mut Page,
    sink: &mut K,
    status: Status,
) -> Status
    requires { (V.does visitor.now).waits ≡ true → page.old ≡ [] }
    ensures flushed { Flushed (K.seen sink.old) (K.seen sink.new) page.old status result }
    ensures waits { (V.does visitor.now).waits ≡ true → (result ≡ status) × (sink.new ≡ sink.old) }
{
    if visitor.waits() {
        return status;
    }
    flush(page, sink, status)
}
