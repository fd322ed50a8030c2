// `replay`: the report of a capture.
ghost use Rattle.std.specs.Prelude.{◌≡◌, ◌≤◌, ◌+◌, ◌<◌, ◌^◌, ◌++◌, [], ◌∷◌, List, length, option_map, vec_len};
ghost use Rattle.data_format.specs.Addresses.{address_of};
ghost use Rattle.books_spec.specs.Items.{Item};
ghost use Rattle.books_spec.specs.SampledHeaders.{HeaderedItem};
ghost use Rattle.books_spec.specs.WholeBooks.{whole_books};
ghost use Rattle.books_spec.specs.declared.limits.Limits.{Limits};
ghost use Rattle.books_spec.specs.Books.{most_entries};
ghost use Rattle.books_spec.specs.Limits.{AreLawful};
ghost use Rattle.sample_taps.specs.Classes.{no_classes};
ghost use Rattle.sample_taps.specs.Feeding.{Held};
ghost use Rattle.flow_collector.specs.Collectors.{StandsFor};
ghost use Rattle.flow_collector.specs.Gathering.{Gathered};
ghost use Rattle.flow_collector.specs.Headers.{headered_entry};
ghost use Rattle.flow_collector.specs.Items.{item_in};
ghost use Rattle.flow_collector.specs.Steps.{is_first};
ghost use Rattle.report_lines.specs.HeaderLines.{shown_taps};
ghost use Rattle.report_lines.specs.InterfaceLines.{report_with};
ghost use Rattle.command_runs.specs.Endings.{Flushed};
ghost use Rattle.command_runs.specs.Grammars.{captures};
ghost use Rattle.command_runs.specs.Outside.{outside};
ghost use Rattle.command_runs.specs.Runs.{Runs};
ghost use Rattle.command_runs.specs.Visits.{HasVisited};
ghost use Rattle.command_runs.specs.Walks.{IsFresh};
ghost use Rattle.sflow_tool.specs.Passing.{agent_where, first_agent};
ghost use Rattle.sflow_tool.specs.Replays.{Collects, HasTakeCause, Took, briefs_in, replay_act};
ghost use Rattle.sflow_tool.specs.WalkEnds.{LeavesAtEnd};

use crate::report::put_report;
use command_runs::{Status, flush, new_room, status_of};
use data_format::Address;
use datagram_core::Datagram;
use flow_collector::{Collector, Limits, Seeds, Taken};
use sample_taps::{Tap, Taps};
use sflow_io::{CaptureReader, Next, ReadRefusal, Sink, Source};
use std::alloc::Global;
use text_lines::Page;
use wire_spec::{MAX_ENTRIES, Pad};

// Reads a capture, feeds the consumers and writes the report. All memory is taken before the first byte is read.
pub(crate) fn replay<S: Source, K: Sink>(
    alloc: Global,
    limits: Limits,
    interfaces: bool,
    seeds: Seeds,
    source: &mut S,
    sink: &mut K,
    taps: &mut Taps,
) -> Status
    requires lawful { AreLawful limits }
    requires few { taps.old.ended + vec_len taps.old.held < 2 ^ 64 }
    ensures runs { Runs captures (replay_act limits interfaces
        (shown_taps (λ x. (⟦<dyn Tap as Tap>⟧ x.vtable).text x.value) taps.new.held.items taps.new.ended))
        (outside (S.seen source.old) (K.seen sink.old)) (outside (S.seen source.new) (K.seen sink.new)) result }
    ensures fed { HasVisited (λ entries. Held (λ x b y. (v : _) × (y ≡ record x { value = v }) × (⟦<dyn Tap as Tap>⟧ x.vtable).step x.value b v)
        (λ x. (⟦<dyn Tap as Tap>⟧ x.vtable).ended x.value) (briefs_in limits entries) taps.old.held.items taps.new.held.items)
        (S.seen source.old) (S.seen source.new) result }
    ensures ended { taps.new.ended + vec_len taps.new.held ≡ taps.old.ended + vec_len taps.old.held }
{
    let Ok(mut collector) = Collector::open_within(alloc, limits, seeds) else {
        return Status::Memory;
    };
    let Ok(mut reader) = CaptureReader::open(alloc) else {
        return Status::Memory;
    };
    let Ok(mut room) = new_room(alloc) else {
        return Status::Memory;
    };
    let mut page = Page::new();
    match take_entries(&mut reader, source, &mut room, &mut collector, taps) {
        Ok(()) => finish(&mut page, sink, &collector, interfaces, taps),
        Err(refusal) => status_of(refusal),
    }
}

// Puts the report, and ends the run.
pub(crate) fn finish<K: Sink>(
    page: &mut Page,
    sink: &mut K,
    collector: &Collector,
    interfaces: bool,
    taps: &Taps,
) -> Status
    ensures { (l : Limits) (items : List Item) → StandsFor collector.now.books l items
        → Flushed (K.seen sink.old) (K.seen sink.new)
        (page.old ++ report_with interfaces (whole_books l items) collector.now.classes
        (shown_taps (λ x. (⟦<dyn Tap as Tap>⟧ x.vtable).text x.value) taps.now.held.items taps.now.ended))
        Status.Done result }
{
    match put_report(page, sink, collector, interfaces, taps) {
        Ok(()) => flush(page, sink, Status::Done),
        Err(_) => Status::WriteFault,
    }
}

// Takes all entries of the capture, one after the other, each as soon as it is read.
fn take_entries<S: Source>(
    reader: &mut CaptureReader,
    source: &mut S,
    room: &mut [u8],
    collector: &mut Collector,
    taps: &mut Taps,
) -> Result<(), ReadRefusal>
    requires fresh { IsFresh reader.old }
    requires room { 65535 ≤ length room.old }
    requires few { taps.old.ended + vec_len taps.old.held < 2 ^ 64 }
    requires stands { StandsFor collector.old.books collector.old.books.limits [] }
    requires classes { collector.old.classes ≡ no_classes }
    ensures took { Took (λ entries. Collects (λ x b y. (v : _) × (y ≡ record x { value = v }) × (⟦<dyn Tap as Tap>⟧ x.vtable).step x.value b v)
        (λ x. (⟦<dyn Tap as Tap>⟧ x.vtable).ended x.value) collector.old.books.limits collector.new taps.old.held.items taps.new.held.items
        (taps.old.ended + vec_len taps.old.held) (taps.new.ended + vec_len taps.new.held) entries)
        (S.seen source.old) (S.seen source.new) result }
    ensures at_end { LeavesAtEnd result (S.seen source.new) }
    ensures cause { HasTakeCause (S.seen source.old) (S.seen source.new) result }
    ensures ended { taps.new.ended + vec_len taps.new.held ≡ taps.old.ended + vec_len taps.old.held }
{
    for count in 0..MAX_ENTRIES + 1 {
        match reader.next(source, room) {
            Ok(Next::Entry { at, from: _, len }) => {
                let bytes = &room[..len];
                take_entry(collector, at, bytes, taps);
            }
            Ok(Next::End) => return Ok(()),
            Err(refusal) => return Err(refusal),
        }
    }
    unreachable!()
}

// Takes an entry, a datagram or none, whatever its padding is. The answer is the agent of a datagram that is First.
pub(crate) fn take_entry(
    collector: &mut Collector,
    at: u64,
    bytes: &[u8],
    taps: &mut Taps,
) -> Option<Address>
    requires { taps.old.ended + vec_len taps.old.held < 2 ^ 64 }
    ensures gathers { (l : Limits) (items : List HeaderedItem) (xs : _) → length items < most_entries
        → Gathered (λ x b y. (v : _) × (y ≡ record x { value = v }) × (⟦<dyn Tap as Tap>⟧ x.vtable).step x.value b v)
        (λ x. (⟦<dyn Tap as Tap>⟧ x.vtable).ended x.value) collector.old l items xs taps.old.held.items
        → Gathered (λ x b y. (v : _) × (y ≡ record x { value = v }) × (⟦<dyn Tap as Tap>⟧ x.vtable).step x.value b v)
        (λ x. (⟦<dyn Tap as Tap>⟧ x.vtable).ended x.value) collector.new l (headered_entry at bytes.now ∷ items) xs taps.new.held.items }
    ensures first { (l : Limits) (items : List Item) → StandsFor collector.old.books l items
        → option_map address_of result ≡ first_agent l items (item_in at bytes.now) }
    ensures ended { taps.new.ended + vec_len taps.new.held ≡ taps.old.ended + vec_len taps.old.held }
{
    match Datagram::parse(bytes, Pad::Any) {
        Ok(datagram) => agent_of(collector.take(at, &datagram, taps), &datagram),
        Err(fault) => {
            collector.reject(&fault);
            None
        }
    }
}

// The agent of a datagram that was taken so, where it is First.
fn agent_of(taken: Taken, datagram: &Datagram<'_>) -> Option<Address>
    ensures { option_map address_of result ≡ agent_where (is_first taken) datagram.now.head.agent }
{
    match taken {
        Taken::First => Some(datagram.head().agent),
        _ => None,
    }
}
