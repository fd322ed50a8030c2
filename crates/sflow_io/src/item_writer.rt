// The items of a capture of version 2, byte by byte.
ghost use Rattle.std.specs.Prelude.{◌≡◌, ◌≤◌, ◌++◌, length};
ghost use Rattle.wire_spec.specs.Heads.{unknown};
ghost use Rattle.capture_spec.specs.Items.{datagram_bytes, end_item, item_front, item_head, sent_bytes, word};
ghost use Rattle.byte_ends.specs.Seen.{WritesAll};
ghost use Rattle.sflow_io.specs.Senders.{sender_of};

use crate::{Failed, Sender, Sink, write_all};
use data_format::Address;

// An entry item up to its sender's port, where no address is given.
#[tactic(auto, unfolding(capture_spec::specs::Items::item_front, capture_spec::specs::Items::item_head, capture_spec::specs::Items::word, capture_spec::specs::Items::hyper))]
fn front_of_unknown(at: u64, port: u16) -> [u8; 20]
    ensures { result ≡ item_front at unknown port }
{
    let [a, b, c, d, e, f, g, h] = at.to_be_bytes();
    let [i, j, k, l] = (port as u32).to_be_bytes();
    [0, 0, 0, 1, a, b, c, d, e, f, g, h, 0, 0, 0, 0, i, j, k, l]
}

// An entry item up to the word of its address.
#[tactic(auto, unfolding(capture_spec::specs::Items::item_head, capture_spec::specs::Items::word, capture_spec::specs::Items::hyper))]
fn head_of(at: u64, kind: u32) -> [u8; 16]
    ensures { result ≡ item_head at kind }
{
    let [a, b, c, d, e, f, g, h] = at.to_be_bytes();
    let [i, j, k, l] = kind.to_be_bytes();
    [0, 0, 0, 1, a, b, c, d, e, f, g, h, i, j, k, l]
}

// The same, and then the bytes of the address and the port.
fn write_known<K: Sink>(
    sink: &mut K,
    at: u64,
    kind: u32,
    address: &[u8],
    port: u16,
) -> Result<(), Failed>
    ensures { WritesAll (K.seen sink.old) (K.seen sink.new) result
        (item_head at kind ++ (address.now ++ word port)) }
{
    write_all(sink, head_of(at, kind).as_slice())?;
    write_all(sink, address)?;
    write_all(sink, word_of(port as u32).as_slice())
}

// An entry item up to its sender's port.
#[tactic(auto, unfolding(capture_spec::specs::Items::item_front))]
fn write_front<K: Sink>(sink: &mut K, at: u64, from: &Sender) -> Result<(), Failed>
    ensures { WritesAll (K.seen sink.old) (K.seen sink.new) result
        (item_front at (sender_of from.now).address (sender_of from.now).port) }
{
    match from.address {
        Address::Unknown => write_all(sink, front_of_unknown(at, from.port).as_slice()),
        Address::V4(address) => write_known(sink, at, 1, address.as_slice(), from.port),
        Address::V6(address) => write_known(sink, at, 2, address.as_slice(), from.port),
    }
}

#[tactic(auto, unfolding(capture_spec::specs::Items::word))]
fn word_of(n: u32) -> [u8; 4]
    ensures { result ≡ word n }
{
    n.to_be_bytes()
}

// The length of a datagram, its bytes, and zeros up to a multiple of four.
fn write_datagram<K: Sink>(sink: &mut K, bytes: &[u8]) -> Result<(), Failed>
    requires { length bytes.now ≤ 65535 }
    ensures { WritesAll (K.seen sink.old) (K.seen sink.new) result (datagram_bytes bytes.now) }
{
    write_all(sink, word_of(bytes.len() as u32).as_slice())?;
    write_all(sink, bytes)?;
    let padding = (4 - bytes.len() % 4) % 4;
    write_all(sink, &[0u8; 4][..padding])
}

// An entry item.
pub(crate) fn write_item<K: Sink>(
    sink: &mut K,
    at: u64,
    from: &Sender,
    bytes: &[u8],
) -> Result<(), Failed>
    requires { length bytes.now ≤ 65535 }
    ensures { WritesAll (K.seen sink.old) (K.seen sink.new) result
        (sent_bytes (sender_of from.now) (record { arrival = at; bytes = bytes.now })) }
{
    write_front(sink, at, from)?;
    write_datagram(sink, bytes)
}

// The end item behind so many entries.
#[tactic(auto, unfolding(capture_spec::specs::Items::end_item, capture_spec::specs::Items::word, capture_spec::specs::Items::hyper))]
pub(crate) fn end_of(count: u64) -> [u8; 12]
    ensures { result ≡ end_item count }
{
    let [a, b, c, d, e, f, g, h] = count.to_be_bytes();
    [0, 0, 0, 0, a, b, c, d, e, f, g, h]
}
