ghost use Rattle.std.specs.Prelude.{◌≡◌, ◌≤◌, length};
ghost use Rattle.datagram_core.specs.Trees.{tree_of};
ghost use Rattle.byte_ends.specs.Seen.{WritesAll};
ghost use Rattle.sflow_io.specs.Senders.{sender_in};
ghost use Rattle.text_lines.specs.Pages.{Prints};
ghost use Rattle.show_lines.specs.Shown.{entry_text, received_text, outcome_of, outcome_text, datagram_text};

use crate::lines::{put_entry_line, put_fault, put_head, put_received_line};
use crate::sample::put_samples;
use datagram_core::Datagram;
use sflow_io::{Failed, Sender, Sink, WriteFault};
use text_lines::Page;
use wire_spec::Pad;

/// Appends the lines of an entry of a capture to what the sink took and the page holds: its line, and then the line
/// of the first fault of its bytes, or those of the datagram, its samples and their records. The number counts from 1,
/// `at` is the arrival in ms, and padding may hold anything. It takes no memory.
///
/// `Failed` is the sink's own; then the sink has taken a prefix of that text, and what the page holds is left open.
pub fn put_entry<K: Sink>(
    page: &mut Page,
    sink: &mut K,
    number: u64,
    at: u64,
    bytes: &[u8],
) -> Result<(), Failed>
    ensures { Prints (K.seen sink.old) (K.seen sink.new) page.old page.new result
        (entry_text number (record { arrival = at; bytes = bytes.now })) }
{
    put_entry_line(page, sink, number, at, bytes.len())?;
    put_outcome(page, sink, bytes)
}

/// The same for an entry of either version of a capture, whose line tells the sender where there is one.
pub fn put_received<K: Sink>(
    page: &mut Page,
    sink: &mut K,
    number: u64,
    at: u64,
    from: Option<Sender>,
    bytes: &[u8],
) -> Result<(), Failed>
    ensures { Prints (K.seen sink.old) (K.seen sink.new) page.old page.new result
        (received_text number (record { arrival = at; sender = sender_in from; bytes = bytes.now })) }
{
    put_received_line(page, sink, number, at, from, bytes.len())?;
    put_outcome(page, sink, bytes)
}

/// Writes the lines of one entry of a capture, as `put_received` has them: a datagram of at most 65,535 bytes, which
/// arrived at `at` ms from this sender, where it is known, and whose number counts from 1. It takes no memory.
///
/// `WriteFault` comes only where a write of the sink failed; then the sink has taken a prefix of the lines.
pub fn show_entry<K: Sink>(
    sink: &mut K,
    number: u64,
    at: u64,
    from: Option<Sender>,
    bytes: &[u8],
) -> Result<(), WriteFault>
    requires { length bytes.now ≤ 65535 }
    ensures { WritesAll (K.seen sink.old) (K.seen sink.new) result
        (received_text number (record { arrival = at; sender = sender_in from; bytes = bytes.now })) }
{
    match write_entry(sink, number, at, from, bytes) {
        Ok(()) => Ok(()),
        Err(Failed) => Err(WriteFault),
    }
}

// The same through a page of its own.
fn write_entry<K: Sink>(
    sink: &mut K,
    number: u64,
    at: u64,
    from: Option<Sender>,
    bytes: &[u8],
) -> Result<(), Failed>
    ensures { WritesAll (K.seen sink.old) (K.seen sink.new) result
        (received_text number (record { arrival = at; sender = sender_in from; bytes = bytes.now })) }
{
    let mut page = Page::new();
    put_received(&mut page, sink, number, at, from, bytes)?;
    page.flush(sink)
}

// The lines of the datagram that the bytes are, or that of their first fault.
fn put_outcome<K: Sink>(page: &mut Page, sink: &mut K, bytes: &[u8]) -> Result<(), Failed>
    ensures { Prints (K.seen sink.old) (K.seen sink.new) page.old page.new result
        (outcome_text (outcome_of bytes.now)) }
{
    match Datagram::parse(bytes, Pad::Any) {
        Ok(datagram) => put_datagram(page, sink, &datagram),
        Err(fault) => put_fault(page, sink, &fault),
    }
}

// The line of a datagram, and those of its samples.
fn put_datagram<K: Sink>(
    page: &mut Page,
    sink: &mut K,
    datagram: &Datagram<'_>,
) -> Result<(), Failed>
    ensures { Prints (K.seen sink.old) (K.seen sink.new) page.old page.new result
        (datagram_text (tree_of datagram.now)) }
{
    let samples = datagram.samples();
    put_head(page, sink, &datagram.head(), samples.len())?;
    put_samples(page, sink, samples)
}
