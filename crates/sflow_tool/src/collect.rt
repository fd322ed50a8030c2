// `collect`: the report of the datagrams that come over a link.
ghost use Rattle.std.specs.Prelude.{◌≡◌, ◌+◌, ◌<◌, ◌≤◌, ◌^◌, [], IfOk, IfSome, OnErr, length, vec_len};
ghost use Rattle.byte_ends.specs.Seen.{Seen};
ghost use Rattle.datagram_links.specs.Links.{Makes, received_one};
ghost use Rattle.books_spec.specs.Limits.{AreLawful};
ghost use Rattle.sample_taps.specs.Classes.{no_classes};
ghost use Rattle.sample_taps.specs.Feeding.{Held};
ghost use Rattle.flow_collector.specs.Collectors.{StandsFor};
ghost use Rattle.report_lines.specs.HeaderLines.{shown_taps};
ghost use Rattle.sflow_tool.specs.Collects.{CollectsOver, HasCome, TakesTurn, TurnsEnd, collected_text};
ghost use Rattle.sflow_tool.specs.Passing.{first_in};
ghost use Rattle.sflow_tool.specs.Replays.{Collects, briefs_in};
ghost use Rattle.sflow_tool.specs.Surroundings.{surroundings};

use crate::replay::{finish, take_entry};
use command_runs::{Status, new_room};
use command_words::Collection;
use data_format::Address;
use datagram_links::{Link, Received};
use flow_collector::{Collector, Seeds};
use sample_taps::{Tap, Taps};
use sflow_io::{Failed, Sink};
use std::alloc::Global;
use text_lines::Page;

// Listens, receives as often as is asked for, feeds the consumers and writes the report. A receive that gives nothing
// counts as well. All memory is taken before the link is used.
pub(crate) fn collect<K: Sink, L: Link>(
    alloc: Global,
    asked: &Collection<'_>,
    seeds: Seeds,
    sink: &mut K,
    link: &mut L,
    taps: &mut Taps,
) -> Status
    requires lawful { AreLawful asked.now.limits }
    requires few { taps.old.ended + vec_len taps.old.held < 2 ^ 64 }
    ensures runs { (source : Seen) → CollectsOver asked.now (collected_text asked.now) (surroundings source (K.seen sink.old) (L.seen link.old)
        (shown_taps (λ x. (⟦<dyn Tap as Tap>⟧ x.vtable).text x.value) taps.old.held.items taps.old.ended))
        (surroundings source (K.seen sink.new) (L.seen link.new)
        (shown_taps (λ x. (⟦<dyn Tap as Tap>⟧ x.vtable).text x.value) taps.new.held.items taps.new.ended)) result }
    ensures fed { HasCome (λ entries. Held (λ x b y. (v : _) × (y ≡ record x { value = v }) × (⟦<dyn Tap as Tap>⟧ x.vtable).step x.value b v)
        (λ x. (⟦<dyn Tap as Tap>⟧ x.vtable).ended x.value) (briefs_in asked.now.limits entries) taps.old.held.items taps.new.held.items)
        asked.now (L.seen link.old) (L.seen link.new) result }
    ensures ended { taps.new.ended + vec_len taps.new.held ≡ taps.old.ended + vec_len taps.old.held }
{
    let Ok(mut collector) = Collector::open_within(alloc, asked.limits, seeds) else {
        return Status::Memory;
    };
    let Ok(mut room) = new_room(alloc) else {
        return Status::Memory;
    };
    let mut page = Page::new();
    let Ok(()) = link.listen(asked.listen.text()) else {
        return Status::LinkFault;
    };
    match receive_turns(asked.turns, link, &mut room, &mut collector, taps) {
        Ok(()) => finish(&mut page, sink, &collector, asked.interfaces, taps),
        Err(_) => Status::LinkFault,
    }
}

// Receives so often, and takes each datagram as soon as it comes. The room is for the bytes of one.
fn receive_turns<L: Link>(
    turns: u32,
    link: &mut L,
    room: &mut [u8],
    collector: &mut Collector,
    taps: &mut Taps,
) -> Result<(), Failed>
    requires room { length room.old ≡ 65535 }
    requires few { taps.old.ended + vec_len taps.old.held < 2 ^ 64 }
    requires stands { StandsFor collector.old.books collector.old.books.limits [] }
    requires classes { collector.old.classes ≡ no_classes }
    ensures took { TurnsEnd (λ entries. Collects (λ x b y. (v : _) × (y ≡ record x { value = v }) × (⟦<dyn Tap as Tap>⟧ x.vtable).step x.value b v)
        (λ x. (⟦<dyn Tap as Tap>⟧ x.vtable).ended x.value) collector.old.books.limits collector.new taps.old.held.items taps.new.held.items
        (taps.old.ended + vec_len taps.old.held) (taps.new.ended + vec_len taps.new.held) entries)
        (L.seen link.old) (L.seen link.new) turns result }
    ensures ended { taps.new.ended + vec_len taps.new.held ≡ taps.old.ended + vec_len taps.old.held }
{
    for count in 0..turns {
        let Ok(_) = receive_one(link, room, collector, taps) else {
            return Err(Failed);
        };
    }
    Ok(())
}

// A datagram that is First: its agent, and how many bytes it has.
#[derive(Clone, Copy, Debug)]
pub(crate) struct FirstDatagram {
    pub agent: Address,
    pub len: usize,
}

// Receives once, and takes the datagram if one comes. The answer is that of a datagram that is First; it stands in the room.
pub(crate) fn receive_one<L: Link>(
    link: &mut L,
    room: &mut [u8],
    collector: &mut Collector,
    taps: &mut Taps,
) -> Result<Option<FirstDatagram>, Failed>
    requires room { length room.old ≡ 65535 }
    requires few { taps.old.ended + vec_len taps.old.held < 2 ^ 64 }
    ensures moves { Makes (L.seen link.old) (received_one (L.seen link.old)) (L.seen link.new) result }
    ensures turn { IfOk result (λ first. TakesTurn (λ x b y. (v : _) × (y ≡ record x { value = v }) × (⟦<dyn Tap as Tap>⟧ x.vtable).step x.value b v)
        (λ x. (⟦<dyn Tap as Tap>⟧ x.vtable).ended x.value) collector.old collector.new taps.old.held.items taps.new.held.items
        (taps.old.ended + vec_len taps.old.held) (taps.new.ended + vec_len taps.new.held) (L.seen link.old) (first_in room.new first)) }
    ensures fits { IfOk result (λ first. IfSome first (λ f. f.len ≤ length room.new)) }
    ensures failed { OnErr result ((collector.new ≡ collector.old) × (taps.new ≡ taps.old)) }
    ensures ended { taps.new.ended + vec_len taps.new.held ≡ taps.old.ended + vec_len taps.old.held }
{
    match link.receive(room) {
        Ok(Received::Got { len, at }) => match take_entry(collector, at, &room[..len], taps) {
            Some(agent) => Ok(Some(FirstDatagram { agent, len })),
            None => Ok(None),
        },
        Ok(Received::Quiet) => Ok(None),
        Err(_) => Err(Failed),
    }
}
