// The lines of counter records, up to the tail: their fields in the order of the wire.
ghost use Rattle.std.specs.Prelude.{◌++◌, codes, decimal, flat_map};
ghost use Rattle.rec_counters.specs.Contents.{interface_content, ethernet_content, vlan_content};
ghost use Rattle.rec_more.specs.Contents.{processor_content};
ghost use Rattle.text_lines.specs.Pages.{Prints};
ghost use Rattle.show_lines.specs.CounterLines.{interface_front, dot3_front, vlan_front, processor_front};
ghost use Rattle.data_format.specs.Values.{members_of};

use crate::parts::{put_row, put_text};
use byte_ends::{Failed, Sink};
use rec_counters::{EthernetCounters, IfCounters, VlanCounters};
use rec_more::ProcessorCounters;
use text_lines::Page;

// The counters of an interface.
#[tactic(auto, unfolding(crate::specs::CounterLines::interface_front))]
pub(crate) fn put_interface<K: Sink>(
    page: &mut Page,
    sink: &mut K,
    this: &IfCounters<'_>,
) -> Result<(), Failed>
    ensures { Prints (K.seen sink.old) (K.seen sink.new) page.old page.new result
        (interface_front (members_of (interface_content this.now).0)) }
{
    let numbers = [
        this.index as u64,
        this.if_type as u64,
        this.speed,
        this.direction as u64,
        this.status as u64,
        this.in_octets,
        this.in_ucast as u64,
        this.in_multicast as u64,
        this.in_broadcast as u64,
        this.in_discards as u64,
        this.in_errors as u64,
        this.in_unknown as u64,
        this.out_octets,
        this.out_ucast as u64,
        this.out_multicast as u64,
        this.out_broadcast as u64,
        this.out_discards as u64,
        this.out_errors as u64,
        this.promiscuous as u64,
    ];
    put_named(page, sink, "  if", &numbers)
}

// The counters of an Ethernet interface.
#[tactic(auto, unfolding(crate::specs::CounterLines::dot3_front))]
pub(crate) fn put_dot3<K: Sink>(
    page: &mut Page,
    sink: &mut K,
    this: &EthernetCounters<'_>,
) -> Result<(), Failed>
    ensures { Prints (K.seen sink.old) (K.seen sink.new) page.old page.new result
        (dot3_front (members_of (ethernet_content this.now).0)) }
{
    let numbers = [
        this.alignment_errors as u64,
        this.fcs_errors as u64,
        this.single_collisions as u64,
        this.multiple_collisions as u64,
        this.sqe_errors as u64,
        this.deferred as u64,
        this.late_collisions as u64,
        this.excessive_collisions as u64,
        this.mac_transmit_errors as u64,
        this.carrier_errors as u64,
        this.too_long as u64,
        this.mac_receive_errors as u64,
        this.symbol_errors as u64,
    ];
    put_named(page, sink, "  dot3", &numbers)
}

// The counters of a VLAN.
#[tactic(auto, unfolding(crate::specs::CounterLines::vlan_front))]
pub(crate) fn put_vlan<K: Sink>(
    page: &mut Page,
    sink: &mut K,
    this: &VlanCounters<'_>,
) -> Result<(), Failed>
    ensures { Prints (K.seen sink.old) (K.seen sink.new) page.old page.new result
        (vlan_front (members_of (vlan_content this.now).0)) }
{
    let numbers = [
        this.vlan as u64,
        this.octets,
        this.ucast as u64,
        this.multicast as u64,
        this.broadcast as u64,
        this.discards as u64,
    ];
    put_named(page, sink, "  vlan", &numbers)
}

// The load of a processor.
#[tactic(auto, unfolding(crate::specs::CounterLines::processor_front))]
pub(crate) fn put_processor<K: Sink>(
    page: &mut Page,
    sink: &mut K,
    this: &ProcessorCounters<'_>,
) -> Result<(), Failed>
    ensures { Prints (K.seen sink.old) (K.seen sink.new) page.old page.new result
        (processor_front (members_of (processor_content this.now).0)) }
{
    let numbers = [
        this.cpu_5s as u64,
        this.cpu_1m as u64,
        this.cpu_5m as u64,
        this.total_memory,
        this.free_memory,
    ];
    put_named(page, sink, "  processor", &numbers)
}

// A name, and then numbers, each behind a space.
fn put_named<K: Sink>(
    page: &mut Page,
    sink: &mut K,
    name: &str,
    numbers: &[u64],
) -> Result<(), Failed>
    ensures { Prints (K.seen sink.old) (K.seen sink.new) page.old page.new result
        (name.now ++ flat_map (λ n. codes " " ++ decimal n) numbers.now) }
{
    put_text(page, sink, name)?;
    put_row(page, sink, numbers)
}
