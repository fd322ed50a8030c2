// The lines, from plain values.
ghost use Rattle.datagram_core.specs.Heads.{head_of};
ghost use Rattle.sflow_io.specs.Senders.{sender_of, sender_in};
ghost use Rattle.text_lines.specs.Pages.{Prints};
ghost use Rattle.show_lines.specs.Lines.{entry_line, sent_line, received_line, fault_line, datagram_line, flow_front, counters_front, frame_front, line_end};

use data_format::{CountersHead, FlowHead, Format};
use datagram_core::DatagramHead;
use sflow_io::{Failed, Sender, Sink};
use text_lines::{Page, Piece};
use wire_spec::Fault;

// The number of an entry, its arrival in ms, and how many bytes it has.
#[tactic(auto, unfolding(crate::specs::Lines::entry_line))]
pub(crate) fn put_entry_line<K: Sink>(
    page: &mut Page,
    sink: &mut K,
    number: u64,
    at: u64,
    count: usize,
) -> Result<(), Failed>
    ensures { Prints (K.seen sink.old) (K.seen sink.new) page.old page.new result
        (entry_line number at count) }
{
    let pieces = [
        Piece::Text("entry "),
        Piece::Number(number as u128),
        Piece::Text(" at "),
        Piece::Number(at as u128),
        Piece::Text(" bytes "),
        Piece::Number(count as u128),
        Piece::Text("\n"),
    ];
    page.put_line(sink, &pieces)
}

// The same with the address and the port of its sender.
#[tactic(auto, unfolding(crate::specs::Lines::sent_line))]
fn put_sent_line<K: Sink>(
    page: &mut Page,
    sink: &mut K,
    number: u64,
    at: u64,
    from: &Sender,
    count: usize,
) -> Result<(), Failed>
    ensures { Prints (K.seen sink.old) (K.seen sink.new) page.old page.new result
        (sent_line number at (sender_of from.now) count) }
{
    let pieces = [
        Piece::Text("entry "),
        Piece::Number(number as u128),
        Piece::Text(" at "),
        Piece::Number(at as u128),
        Piece::Text(" from "),
        Piece::Address(from.address),
        Piece::Text(" "),
        Piece::Number(from.port as u128),
        Piece::Text(" bytes "),
        Piece::Number(count as u128),
        Piece::Text("\n"),
    ];
    page.put_line(sink, &pieces)
}

// The line of an entry, with its sender where there is one.
pub(crate) fn put_received_line<K: Sink>(
    page: &mut Page,
    sink: &mut K,
    number: u64,
    at: u64,
    from: Option<Sender>,
    count: usize,
) -> Result<(), Failed>
    ensures { Prints (K.seen sink.old) (K.seen sink.new) page.old page.new result
        (received_line number at (sender_in from) count) }
{
    match from {
        None => put_entry_line(page, sink, number, at, count),
        Some(sender) => put_sent_line(page, sink, number, at, &sender, count),
    }
}

// The place of a fault, and its kind.
#[tactic(auto, unfolding(crate::specs::Lines::fault_line))]
pub(crate) fn put_fault<K: Sink>(page: &mut Page, sink: &mut K, fault: &Fault) -> Result<(), Failed>
    ensures { Prints (K.seen sink.old) (K.seen sink.new) page.old page.new result
        (fault_line fault.now) }
{
    let pieces = [
        Piece::Text("fault at "),
        Piece::Number(fault.at as u128),
        Piece::Text(" kind "),
        Piece::Kind(fault.kind),
        Piece::Text("\n"),
    ];
    page.put_line(sink, &pieces)
}

// The head of a datagram, and how many samples it has.
#[tactic(auto, unfolding(crate::specs::Lines::datagram_line))]
pub(crate) fn put_head<K: Sink>(
    page: &mut Page,
    sink: &mut K,
    head: &DatagramHead,
    samples: u32,
) -> Result<(), Failed>
    ensures { Prints (K.seen sink.old) (K.seen sink.new) page.old page.new result
        (datagram_line (head_of head.now) samples) }
{
    let pieces = [
        Piece::Text("datagram agent "),
        Piece::Address(head.agent),
        Piece::Text(" sub "),
        Piece::Number(head.sub_agent as u128),
        Piece::Text(" seq "),
        Piece::Number(head.sequence as u128),
        Piece::Text(" uptime "),
        Piece::Number(head.uptime as u128),
        Piece::Text(" samples "),
        Piece::Number(samples as u128),
        Piece::Text("\n"),
    ];
    page.put_line(sink, &pieces)
}

// A flow sample, and how many records it has.
#[tactic(auto, unfolding(crate::specs::Lines::flow_front))]
pub(crate) fn put_flow<K: Sink>(
    page: &mut Page,
    sink: &mut K,
    name: &str,
    head: &FlowHead,
    records: u32,
) -> Result<(), Failed>
    ensures { Prints (K.seen sink.old) (K.seen sink.new) page.old page.new result
        (flow_front name.now head.now records) }
{
    let pieces = [
        Piece::Text(name),
        Piece::Text(" seq "),
        Piece::Number(head.sequence as u128),
        Piece::Text(" source "),
        Piece::Number(head.source.class as u128),
        Piece::Text(":"),
        Piece::Number(head.source.index as u128),
        Piece::Text(" rate "),
        Piece::Number(head.rate as u128),
        Piece::Text(" pool "),
        Piece::Number(head.pool as u128),
        Piece::Text(" drops "),
        Piece::Number(head.drops as u128),
        Piece::Text(" in "),
        Piece::Number(head.input.form as u128),
        Piece::Text(":"),
        Piece::Number(head.input.value as u128),
        Piece::Text(" out "),
        Piece::Number(head.output.form as u128),
        Piece::Text(":"),
        Piece::Number(head.output.value as u128),
        Piece::Text(" records "),
        Piece::Number(records as u128),
    ];
    page.put_line(sink, &pieces)
}

// A counters sample, and how many records it has.
#[tactic(auto, unfolding(crate::specs::Lines::counters_front))]
pub(crate) fn put_counters<K: Sink>(
    page: &mut Page,
    sink: &mut K,
    name: &str,
    head: &CountersHead,
    records: u32,
) -> Result<(), Failed>
    ensures { Prints (K.seen sink.old) (K.seen sink.new) page.old page.new result
        (counters_front name.now head.now records) }
{
    let pieces = [
        Piece::Text(name),
        Piece::Text(" seq "),
        Piece::Number(head.sequence as u128),
        Piece::Text(" source "),
        Piece::Number(head.source.class as u128),
        Piece::Text(":"),
        Piece::Number(head.source.index as u128),
        Piece::Text(" records "),
        Piece::Number(records as u128),
    ];
    page.put_line(sink, &pieces)
}

// A sample or a record whose format isn't read.
#[tactic(auto, unfolding(crate::specs::Lines::frame_front))]
pub(crate) fn put_frame<'a, K: Sink>(
    page: &mut Page,
    sink: &mut K,
    name: &'a str,
    format: Format,
    body: &'a [u8],
) -> Result<(), Failed>
    ensures { Prints (K.seen sink.old) (K.seen sink.new) page.old page.new result
        (frame_front name.now format body.now) }
{
    let pieces = [
        Piece::Text(name),
        Piece::Number(format.enterprise as u128),
        Piece::Text(":"),
        Piece::Number(format.number as u128),
        Piece::Text(" bytes "),
        Piece::Number(body.len() as u128),
        Piece::Text(" "),
        Piece::Hex(body),
    ];
    page.put_line(sink, &pieces)
}

// The tail, where there is one, and the end of the line.
#[tactic(auto, unfolding(crate::specs::Lines::line_end))]
pub(crate) fn put_line_end<K: Sink>(
    page: &mut Page,
    sink: &mut K,
    tail: &[u8],
) -> Result<(), Failed>
    ensures { Prints (K.seen sink.old) (K.seen sink.new) page.old page.new result
        (line_end tail.now) }
{
    if tail.is_empty() {
        return page.put_line(sink, &[Piece::Text("\n")]);
    }
    page.put_line(
        sink,
        &[Piece::Text(" tail "), Piece::Hex(tail), Piece::Text("\n")],
    )
}
