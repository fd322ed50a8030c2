// A capture of version 2, item by item, on its way to a sink.
ghost use Rattle.std.specs.Prelude.{◌≡◌, ◌≤◌, ◌++◌, length};
ghost use Rattle.capture_spec.specs.Items.{datagram_bytes, end_item, item_front, item_head, sent_bytes, word as word_bytes};
ghost use Rattle.data_format.specs.Addresses.{address_of};
ghost use Rattle.sflow_io.specs.Senders.{sender_of};
ghost use Rattle.text_lines.specs.Pages.{Prints};
ghost use Rattle.wire_spec.specs.Spelling.{padded};
ghost use Rattle.pcap_payloads.specs.Outcomes.{header_behind};

use data_format::Address;
use sflow_io::{Failed, Sender, Sink};
use text_lines::Page;

// The magic, and the version 2 as a word.
const HEADER: [u8; 8] = *b"SFLC\0\0\0\x02";

// The header, where nothing was put before.
pub(crate) fn put_header_behind<K: Sink>(
    page: &mut Page,
    sink: &mut K,
    taken: u64,
) -> Result<(), Failed>
    ensures { Prints (K.seen sink.old) (K.seen sink.new) page.old page.new result (header_behind taken) }
{
    if taken == 0 {
        page.put(sink, &HEADER)
    } else {
        Ok(())
    }
}

#[tactic(auto, unfolding(capture_spec::specs::Items::word))]
fn put_word<K: Sink>(page: &mut Page, sink: &mut K, word: u32) -> Result<(), Failed>
    ensures { Prints (K.seen sink.old) (K.seen sink.new) page.old page.new result (word_bytes word) }
{
    page.put(sink, &word.to_be_bytes())
}

// The item word, the arrival, and the kind of the sender's address.
#[tactic(auto, unfolding(capture_spec::specs::Items::item_head, capture_spec::specs::Items::word, capture_spec::specs::Items::hyper))]
fn head_of(at: u64, kind: u32) -> [u8; 16]
    ensures { result ≡ item_head at kind }
{
    let [a, b, c, d, e, f, g, h] = at.to_be_bytes();
    let [i, j, k, l] = kind.to_be_bytes();
    [0, 0, 0, 1, a, b, c, d, e, f, g, h, i, j, k, l]
}

#[tactic(auto, unfolding(capture_spec::specs::Items::end_item, capture_spec::specs::Items::word, capture_spec::specs::Items::hyper))]
fn end_of(count: u64) -> [u8; 12]
    ensures { result ≡ end_item count }
{
    let [a, b, c, d, e, f, g, h] = count.to_be_bytes();
    [0, 0, 0, 0, a, b, c, d, e, f, g, h]
}

// The bytes of an address, and a port.
fn put_place<K: Sink>(
    page: &mut Page,
    sink: &mut K,
    address: &[u8],
    port: u32,
) -> Result<(), Failed>
    ensures { Prints (K.seen sink.old) (K.seen sink.new) page.old page.new result
        (address.now ++ word_bytes port) }
{
    page.put(sink, address)?;
    put_word(page, sink, port)
}

// The front of an item, by the kind of the address and its bytes.
fn put_head<K: Sink>(
    page: &mut Page,
    sink: &mut K,
    at: u64,
    kind: u32,
    address: &[u8],
    port: u32,
) -> Result<(), Failed>
    ensures { Prints (K.seen sink.old) (K.seen sink.new) page.old page.new result
        (item_head at kind ++ (address.now ++ word_bytes port)) }
{
    page.put(sink, &head_of(at, kind))?;
    put_place(page, sink, address, port)
}

// The item up to the sender's port.
#[tactic(auto, unfolding(capture_spec::specs::Items::item_front))]
fn put_front<K: Sink>(
    page: &mut Page,
    sink: &mut K,
    at: u64,
    address: &Address,
    port: u32,
) -> Result<(), Failed>
    ensures { Prints (K.seen sink.old) (K.seen sink.new) page.old page.new result
        (item_front at (address_of address.now) port) }
{
    match address {
        Address::Unknown => put_head(page, sink, at, 0, &[], port),
        Address::V4(bytes) => put_head(page, sink, at, 1, bytes, port),
        Address::V6(bytes) => put_head(page, sink, at, 2, bytes, port),
    }
}

/// Puts the bytes, and zeros up to a multiple of four.
pub fn put_padded<K: Sink>(page: &mut Page, sink: &mut K, bytes: &[u8]) -> Result<(), Failed>
    ensures { Prints (K.seen sink.old) (K.seen sink.new) page.old page.new result (padded bytes.now) }
{
    page.put(sink, bytes)?;
    page.put(sink, &[0u8; 4][..(4 - bytes.len() % 4) % 4])
}

// The length, the bytes, and zeros up to a multiple of four.
fn put_datagram<K: Sink>(page: &mut Page, sink: &mut K, bytes: &[u8]) -> Result<(), Failed>
    requires { length bytes.now ≤ 65535 }
    ensures { Prints (K.seen sink.old) (K.seen sink.new) page.old page.new result (datagram_bytes bytes.now) }
{
    put_word(page, sink, bytes.len() as u32)?;
    put_padded(page, sink, bytes)
}

/// Puts an entry item of a capture of version 2. There are at most 65,535 bytes.
pub fn put_item<K: Sink>(
    page: &mut Page,
    sink: &mut K,
    at: u64,
    sender: &Sender,
    bytes: &[u8],
) -> Result<(), Failed>
    requires { length bytes.now ≤ 65535 }
    ensures { Prints (K.seen sink.old) (K.seen sink.new) page.old page.new result
        (sent_bytes (sender_of sender.now) (record { arrival = at; bytes = bytes.now })) }
{
    put_front(page, sink, at, &sender.address, sender.port as u32)?;
    put_datagram(page, sink, bytes)
}

/// Puts the end item of a capture of version 2, behind so many entries.
pub fn put_end_item<K: Sink>(page: &mut Page, sink: &mut K, count: u64) -> Result<(), Failed>
    ensures { Prints (K.seen sink.old) (K.seen sink.new) page.old page.new result (end_item count) }
{
    page.put(sink, &end_of(count))
}

// The end item behind so many entries, and before it the header if there were none.
pub(crate) fn put_end<K: Sink>(page: &mut Page, sink: &mut K, taken: u64) -> Result<(), Failed>
    ensures { Prints (K.seen sink.old) (K.seen sink.new) page.old page.new result
        (header_behind taken ++ end_item taken) }
{
    put_header_behind(page, sink, taken)?;
    put_end_item(page, sink, taken)
}
