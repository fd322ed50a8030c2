// `relay`: what `collect` does, and each datagram that is First goes on to receivers.
ghost use Rattle.std.specs.Prelude.{◌≡◌, ◌≤◌, ◌+◌, ◌<◌, ◌-◌, ◌^◌, ◌++◌, [], ℕ, List, OnErr, OnOk, length, vec_len};
ghost use Rattle.byte_ends.specs.Seen.{Seen};
ghost use Rattle.datagram_links.specs.Links.{Makes, received_one};
ghost use Rattle.text_lines.specs.Pages.{Prints};
ghost use Rattle.books_spec.specs.Items.{Item};
ghost use Rattle.books_spec.specs.Limits.{AreLawful};
ghost use Rattle.books_spec.specs.WholeBooks.{whole_books};
ghost use Rattle.books_spec.specs.declared.limits.Limits.{Limits};
ghost use Rattle.sample_taps.specs.Classes.{no_classes};
ghost use Rattle.sample_taps.specs.Feeding.{Held};
ghost use Rattle.flow_collector.specs.Collectors.{StandsFor};
ghost use Rattle.report_lines.specs.HeaderLines.{shown_taps};
ghost use Rattle.report_lines.specs.InterfaceLines.{report_with};
ghost use Rattle.relay_out.specs.Lines.{relay_text};
ghost use Rattle.relay_out.specs.Relays.{progress_at};
ghost use Rattle.relay_out.specs.Runs.{RunServed};
ghost use Rattle.command_runs.specs.Endings.{Flushed};
ghost use Rattle.sflow_tool.specs.Collects.{HasCome, TurnsEnd};
ghost use Rattle.sflow_tool.specs.Passing.{passed_on};
ghost use Rattle.sflow_tool.specs.Relays.{PassesTurn, Relayed, RelaysOver};
ghost use Rattle.sflow_tool.specs.Replays.{Collects, briefs_in};
ghost use Rattle.sflow_tool.specs.Surroundings.{surroundings};

use crate::collect::receive_one;
use crate::report::put_report;
use command_runs::{Status, flush, new_room};
use command_words::Collection;
use datagram_links::{Link, Receiver};
use flow_collector::{Collector, Seeds};
use relay_out::{Receivers, Routes, put_relays};
use sample_taps::{Tap, Taps};
use sflow_io::{Failed, Sink};
use std::alloc::Global;
use text_lines::Page;

// Listens and aims the receivers, receives as often as is asked for, feeds the consumers, passes on what is First, and
// writes the report and the lines of the receivers. All memory is taken before the link or a receiver is used.
pub(crate) fn relay<K: Sink, L: Link>(
    alloc: Global,
    asked: &Collection<'_>,
    routes: &Routes,
    seeds: Seeds,
    sink: &mut K,
    link: &mut L,
    taps: &mut Taps,
    receivers: &mut Receivers,
) -> Status
    requires lawful { AreLawful asked.now.limits }
    requires few { taps.old.ended + vec_len taps.old.held < 2 ^ 64 }
    requires enough { length routes.now ≤ vec_len receivers.old.held }
    ensures runs { (source : Seen) → RelaysOver asked.now routes.now receivers.new.progress
        (surroundings source (K.seen sink.old) (L.seen link.old)
        (shown_taps (λ x. (⟦<dyn Tap as Tap>⟧ x.vtable).text x.value) taps.old.held.items taps.old.ended))
        (surroundings source (K.seen sink.new) (L.seen link.new)
        (shown_taps (λ x. (⟦<dyn Tap as Tap>⟧ x.vtable).text x.value) taps.new.held.items taps.new.ended)) result }
    ensures fed { HasCome (λ entries. Held (λ x b y. (v : _) × (y ≡ record x { value = v }) × (⟦<dyn Tap as Tap>⟧ x.vtable).step x.value b v)
        (λ x. (⟦<dyn Tap as Tap>⟧ x.vtable).ended x.value) (briefs_in asked.now.limits entries) taps.old.held.items taps.new.held.items)
        asked.now (L.seen link.old) (L.seen link.new) result }
    ensures relayed { Relayed (λ x. (⟦<dyn Receiver as Receiver>⟧ x.vtable).seen x.value) asked.now routes.now
        (L.seen link.old) (L.seen link.new) result receivers.old.held.items receivers.old.progress
        receivers.new.held.items receivers.new.progress }
    ensures turns { asked.now.turns < 2 ^ 32 }
    ensures ended { taps.new.ended + vec_len taps.new.held ≡ taps.old.ended + vec_len taps.old.held }
{
    let turns = asked.turns;
    let Ok(mut collector) = Collector::open_within(alloc, asked.limits, seeds) else {
        return Status::Memory;
    };
    let Ok(mut room) = new_room(alloc) else {
        return Status::Memory;
    };
    let mut page = Page::new();
    let Ok(()) = link.listen(asked.listen.text()) else {
        return Status::LinkFault;
    };
    match relay_turns(
        turns,
        link,
        &mut room,
        &mut collector,
        taps,
        routes,
        receivers,
    ) {
        Ok(()) => {
            let interfaces = asked.interfaces;
            finish(
                &mut page, sink, &collector, interfaces, taps, routes, receivers,
            )
        }
        Err(_) => Status::LinkFault,
    }
}

// Aims the receivers, receives so often, and takes each datagram and passes it on as soon as it comes. The room is for the
// bytes of one.
fn relay_turns<L: Link>(
    turns: u32,
    link: &mut L,
    room: &mut [u8],
    collector: &mut Collector,
    taps: &mut Taps,
    routes: &Routes,
    receivers: &mut Receivers,
) -> Result<(), Failed>
    requires room { length room.old ≡ 65535 }
    requires few { taps.old.ended + vec_len taps.old.held < 2 ^ 64 }
    requires stands { StandsFor collector.old.books collector.old.books.limits [] }
    requires classes { collector.old.classes ≡ no_classes }
    requires enough { length routes.now ≤ vec_len receivers.old.held }
    ensures took { TurnsEnd (λ entries. Collects (λ x b y. (v : _) × (y ≡ record x { value = v }) × (⟦<dyn Tap as Tap>⟧ x.vtable).step x.value b v)
        (λ x. (⟦<dyn Tap as Tap>⟧ x.vtable).ended x.value) collector.old.books.limits collector.new taps.old.held.items taps.new.held.items
        (taps.old.ended + vec_len taps.old.held) (taps.new.ended + vec_len taps.new.held) entries
        × RunServed (λ x. (⟦<dyn Receiver as Receiver>⟧ x.vtable).seen x.value) (passed_on collector.old.books.limits entries)
        routes.now receivers.old.held.items receivers.new.held.items receivers.new.progress)
        (L.seen link.old) (L.seen link.new) turns result }
    ensures ended { taps.new.ended + vec_len taps.new.held ≡ taps.old.ended + vec_len taps.old.held }
    ensures many { vec_len receivers.new.held ≡ vec_len receivers.old.held }
{
    receivers.aim(routes);
    for count in 0..turns {
        receivers.leave_room(routes);
        let Ok(()) = relay_one(link, room, collector, taps, routes, receivers) else {
            return Err(Failed);
        };
    }
    Ok(())
}

// Receives once, takes the datagram if one comes, and passes it on if it is First.
fn relay_one<L: Link>(
    link: &mut L,
    room: &mut [u8],
    collector: &mut Collector,
    taps: &mut Taps,
    routes: &Routes,
    receivers: &mut Receivers,
) -> Result<(), Failed>
    requires room { length room.old ≡ 65535 }
    requires few { taps.old.ended + vec_len taps.old.held < 2 ^ 64 }
    requires enough { length routes.now ≤ vec_len receivers.old.held }
    requires counts { (at : ℕ) → at < length routes.now → (progress_at receivers.old.progress at).passed < 2 ^ 64 - 1 }
    ensures moves { Makes (L.seen link.old) (received_one (L.seen link.old)) (L.seen link.new) result }
    ensures turn { OnOk result (PassesTurn (λ x b y. (v : _) × (y ≡ record x { value = v }) × (⟦<dyn Tap as Tap>⟧ x.vtable).step x.value b v)
        (λ x. (⟦<dyn Tap as Tap>⟧ x.vtable).ended x.value) collector.old collector.new taps.old.held.items taps.new.held.items
        (taps.old.ended + vec_len taps.old.held) (taps.new.ended + vec_len taps.new.held) (L.seen link.old)
        (λ x. (⟦<dyn Receiver as Receiver>⟧ x.vtable).seen x.value) routes.now receivers.old.held.items receivers.old.progress
        receivers.new.held.items receivers.new.progress) }
    ensures failed { OnErr result ((collector.new ≡ collector.old) × (taps.new ≡ taps.old) × (receivers.new ≡ receivers.old)) }
    ensures ended { taps.new.ended + vec_len taps.new.held ≡ taps.old.ended + vec_len taps.old.held }
    ensures many { vec_len receivers.new.held ≡ vec_len receivers.old.held }
{
    match receive_one(link, room, collector, taps) {
        Ok(Some(first)) => {
            receivers.pass(routes, &first.agent, &room[..first.len]);
            Ok(())
        }
        Ok(None) => Ok(()),
        Err(_) => Err(Failed),
    }
}

// Puts the report and the lines of the receivers, and ends the run.
fn finish<K: Sink>(
    page: &mut Page,
    sink: &mut K,
    collector: &Collector,
    interfaces: bool,
    taps: &Taps,
    routes: &Routes,
    receivers: &Receivers,
) -> Status
    requires { length routes.now ≤ vec_len receivers.now.held }
    ensures { (l : Limits) (items : List Item) → StandsFor collector.now.books l items
        → Flushed (K.seen sink.old) (K.seen sink.new)
        (page.old ++ (report_with interfaces (whole_books l items) collector.now.classes
        (shown_taps (λ x. (⟦<dyn Tap as Tap>⟧ x.vtable).text x.value) taps.now.held.items taps.now.ended)
        ++ relay_text routes.now receivers.now.progress))
        Status.Done result }
{
    match put_all(page, sink, collector, interfaces, taps, routes, receivers) {
        Ok(()) => flush(page, sink, Status::Done),
        Err(_) => Status::WriteFault,
    }
}

fn put_all<K: Sink>(
    page: &mut Page,
    sink: &mut K,
    collector: &Collector,
    interfaces: bool,
    taps: &Taps,
    routes: &Routes,
    receivers: &Receivers,
) -> Result<(), Failed>
    requires { length routes.now ≤ vec_len receivers.now.held }
    ensures { (l : Limits) (items : List Item) → StandsFor collector.now.books l items
        → Prints (K.seen sink.old) (K.seen sink.new) page.old page.new result
        (report_with interfaces (whole_books l items) collector.now.classes
        (shown_taps (λ x. (⟦<dyn Tap as Tap>⟧ x.vtable).text x.value) taps.now.held.items taps.now.ended)
        ++ relay_text routes.now receivers.now.progress) }
{
    put_report(page, sink, collector, interfaces, taps)?;
    put_relays(page, sink, routes, receivers)
}
