// The items of version 2, each field read from its first byte on.
ghost use Rattle.std.specs.Prelude.{◌≡◌, ◌≢◌, ◌+◌, ◌^◌, ◌<◌, ◌≤◌, ℕ, List, Some, Err, length, take, drop};
ghost use Rattle.std.specs.Int.{w32, from_be_bytes};
ghost use Rattle.wire_spec.specs.Heads.{ipv4, ipv6};
ghost use Rattle.data_format.specs.Addresses.{address_of};
ghost use Rattle.capture_spec.specs.declared.capture_version.CaptureVersion.TheVariants.{Two};
ghost use Rattle.capture_spec.specs.ItemReading.{front_of_address, front_of_end, front_of_head, front_of_item, front_of_kind, front_of_port, front_of_word, no_address};
ghost use Rattle.byte_ends.specs.Unread.{unread};
ghost use Rattle.sflow_io.specs.declared.capture.ReadRefusal.TheVariants.{ReadFault};
ghost use Rattle.sflow_io.specs.CaptureAnswers.{AnswersLast, EndsSource, HasReadCause, IsNoEntry, address_size};
ghost use Rattle.sflow_io.specs.Fronts.{ReadsFront, after_front, datagram_front};
ghost use Rattle.sflow_io.specs.ReadFaults.{StopsIn};
ghost use Rattle.sflow_io.specs.Senders.{sender_in};

use crate::entry_reader::{arrival_in, read_sized, word_in};
use crate::part::{EntryStart, read_part, size_of};
use crate::{InputKind, Next, ReadRefusal, Sender, Source};
use byte_ends::ReadAhead;
use data_format::Address;

fn first_four(front: &[u8; 8]) -> [u8; 4]
    ensures { result ≡ take 4 front.now }
{
    [front[0], front[1], front[2], front[3]]
}

fn port_behind_four(front: &[u8; 8]) -> u32
    ensures { result ≡ from_be_bytes w32 (drop 4 front.now) }
{
    u32::from_be_bytes([front[4], front[5], front[6], front[7]])
}

fn first_sixteen(front: &[u8; 20]) -> [u8; 16]
    ensures { result ≡ take 16 front.now }
{
    let mut address = [0; 16];
    address.copy_from_slice(&front[..16]);
    address
}

fn port_behind_sixteen(front: &[u8; 20]) -> u32
    ensures { result ≡ from_be_bytes w32 (drop 16 front.now) }
{
    u32::from_be_bytes([front[16], front[17], front[18], front[19]])
}

// The datagram of an entry item, from its length on.
fn read_datagram<S: Source>(
    ahead: &mut ReadAhead,
    source: &mut S,
    room: &mut [u8],
    start: &EntryStart,
) -> Result<Next, ReadRefusal>
    requires room { 65535 ≤ length room.old }
    requires offset { start.now.offset < 2 ^ 127 }
    requires more { start.now.more ≤ 28 }
    requires time { start.now.at < 2 ^ 64 }
    ensures reads { ReadsFront (datagram_front (sender_in start.now.from) start.now.more start.now.at) start.now.offset
        ahead.old (S.seen source.old) ahead.new (S.seen source.new) room.new result }
{
    let mut word = [0u8; 4];
    if let Err(refusal) = read_part(ahead, source, &mut word, start.offset) {
        return Err(refusal);
    }
    read_sized(ahead, source, room, start, u32::from_be_bytes(word))
}

// An entry item behind the word of its sender's port.
fn read_behind_port<S: Source>(
    ahead: &mut ReadAhead,
    source: &mut S,
    room: &mut [u8],
    offset: u128,
    at: u64,
    address: Address,
    port: u32,
) -> Result<Next, ReadRefusal>
    requires room { 65535 ≤ length room.old }
    requires offset { offset < 2 ^ 127 }
    ensures reads { ReadsFront (front_of_port at (address_of address) (address_size (address_of address)) port) offset
        ahead.old (S.seen source.old) ahead.new (S.seen source.new) room.new result }
{
    let size = size_of(&address);
    if port > 65535 {
        return Err(ReadRefusal::BadInput {
            at: offset + (16 + size) as u128,
            kind: InputKind::Port,
        });
    }
    let port = port as u16;
    let start = EntryStart {
        offset,
        at,
        from: Some(Sender { address, port }),
        more: 12 + size,
    };
    read_datagram(ahead, source, room, &start)
}

// An entry item behind the word that says that no address is given.
fn read_unknown<S: Source>(
    ahead: &mut ReadAhead,
    source: &mut S,
    room: &mut [u8],
    offset: u128,
    at: u64,
) -> Result<Next, ReadRefusal>
    requires room { 65535 ≤ length room.old }
    requires offset { offset < 2 ^ 127 }
    ensures reads { ReadsFront (front_of_address at no_address 0) offset
        ahead.old (S.seen source.old) ahead.new (S.seen source.new) room.new result }
{
    let mut port = [0u8; 4];
    if let Err(refusal) = read_part(ahead, source, &mut port, offset) {
        return Err(refusal);
    }
    let port = u32::from_be_bytes(port);
    read_behind_port(ahead, source, room, offset, at, Address::Unknown, port)
}

// An entry item behind the word that says that an address of IPv4 follows.
fn read_ipv4<S: Source>(
    ahead: &mut ReadAhead,
    source: &mut S,
    room: &mut [u8],
    offset: u128,
    at: u64,
) -> Result<Next, ReadRefusal>
    requires room { 65535 ≤ length room.old }
    requires offset { offset < 2 ^ 127 }
    ensures reads { ReadsFront (front_of_address at ipv4 4) offset
        ahead.old (S.seen source.old) ahead.new (S.seen source.new) room.new result }
{
    let mut front = [0u8; 8];
    if let Err(refusal) = read_part(ahead, source, &mut front, offset) {
        return Err(refusal);
    }
    let address = Address::V4(first_four(&front));
    let port = port_behind_four(&front);
    read_behind_port(ahead, source, room, offset, at, address, port)
}

// An entry item behind the word that says that an address of IPv6 follows.
fn read_ipv6<S: Source>(
    ahead: &mut ReadAhead,
    source: &mut S,
    room: &mut [u8],
    offset: u128,
    at: u64,
) -> Result<Next, ReadRefusal>
    requires room { 65535 ≤ length room.old }
    requires offset { offset < 2 ^ 127 }
    ensures reads { ReadsFront (front_of_address at ipv6 16) offset
        ahead.old (S.seen source.old) ahead.new (S.seen source.new) room.new result }
{
    let mut front = [0u8; 20];
    if let Err(refusal) = read_part(ahead, source, &mut front, offset) {
        return Err(refusal);
    }
    let address = Address::V6(first_sixteen(&front));
    let port = port_behind_sixteen(&front);
    read_behind_port(ahead, source, room, offset, at, address, port)
}

// An entry item behind its arrival and the word of its sender's address.
fn read_sender<S: Source>(
    ahead: &mut ReadAhead,
    source: &mut S,
    room: &mut [u8],
    offset: u128,
    at: u64,
    kind: u32,
) -> Result<Next, ReadRefusal>
    requires room { 65535 ≤ length room.old }
    requires offset { offset < 2 ^ 127 }
    ensures reads { ReadsFront (front_of_kind at kind) offset
        ahead.old (S.seen source.old) ahead.new (S.seen source.new) room.new result }
{
    match kind {
        0 => read_unknown(ahead, source, room, offset, at),
        1 => read_ipv4(ahead, source, room, offset, at),
        2 => read_ipv6(ahead, source, room, offset, at),
        _ => Err(ReadRefusal::BadInput {
            at: offset + 12,
            kind: InputKind::Address,
        }),
    }
}

// An entry item behind its word.
fn read_head<S: Source>(
    ahead: &mut ReadAhead,
    source: &mut S,
    room: &mut [u8],
    offset: u128,
) -> Result<Next, ReadRefusal>
    requires room { 65535 ≤ length room.old }
    requires offset { offset < 2 ^ 127 }
    ensures reads { ReadsFront front_of_head offset
        ahead.old (S.seen source.old) ahead.new (S.seen source.new) room.new result }
{
    let mut head = [0u8; 12];
    if let Err(refusal) = read_part(ahead, source, &mut head, offset) {
        return Err(refusal);
    }
    read_sender(
        ahead,
        source,
        room,
        offset,
        arrival_in(&head),
        word_in(&head),
    )
}

// What may follow the end item of an input: the end.
fn read_after<S: Source>(
    ahead: &mut ReadAhead,
    source: &mut S,
    offset: u128,
) -> Result<Next, ReadRefusal>
    requires offset { offset < 2 ^ 127 }
    ensures reads { (room : List ℕ) → ReadsFront after_front offset
        ahead.old (S.seen source.old) ahead.new (S.seen source.new) room result }
    ensures none { IsNoEntry result }
{
    let mut byte = [0u8; 1];
    match ahead.read_most(source, &mut byte) {
        Ok(0) => Ok(Next::End),
        Ok(_) => Err(ReadRefusal::BadInput {
            at: offset + 12,
            kind: InputKind::After,
        }),
        Err(_) => Err(ReadRefusal::ReadFault),
    }
}

// The end item behind its word, where so many entries stand before it.
fn read_end_item<S: Source>(
    ahead: &mut ReadAhead,
    source: &mut S,
    count: u64,
    offset: u128,
) -> Result<Next, ReadRefusal>
    requires offset { offset < 2 ^ 127 }
    ensures reads { (room : List ℕ) → ReadsFront (front_of_end count) offset
        ahead.old (S.seen source.old) ahead.new (S.seen source.new) room result }
    ensures none { IsNoEntry result }
{
    let mut number = [0u8; 8];
    if let Err(refusal) = read_part(ahead, source, &mut number, offset) {
        return Err(refusal);
    }
    if u64::from_be_bytes(number) != count {
        return Err(ReadRefusal::BadInput {
            at: offset + 4,
            kind: InputKind::Count,
        });
    }
    read_after(ahead, source, offset)
}

// An item behind its word.
fn read_behind_word<S: Source>(
    ahead: &mut ReadAhead,
    source: &mut S,
    room: &mut [u8],
    word: u32,
    count: u64,
    offset: u128,
) -> Result<Next, ReadRefusal>
    requires room { 65535 ≤ length room.old }
    requires offset { offset < 2 ^ 127 }
    ensures reads { ReadsFront (front_of_word count word) offset
        ahead.old (S.seen source.old) ahead.new (S.seen source.new) room.new result }
    ensures none { word ≢ 1 → IsNoEntry result }
{
    match word {
        0 => read_end_item(ahead, source, count, offset),
        1 => read_head(ahead, source, room, offset),
        _ => Err(ReadRefusal::BadInput {
            at: offset,
            kind: InputKind::Item,
        }),
    }
}

// The item that begins at this offset, behind so many entries.
pub(crate) fn read_item<S: Source>(
    ahead: &mut ReadAhead,
    source: &mut S,
    room: &mut [u8],
    count: u64,
    offset: u128,
) -> Result<Next, ReadRefusal>
    requires room { 65535 ≤ length room.old }
    requires offset { offset < 2 ^ 127 }
    ensures reads { ReadsFront (front_of_item count) offset
        ahead.old (S.seen source.old) ahead.new (S.seen source.new) room.new result }
{
    let mut word = [0u8; 4];
    if let Err(refusal) = read_part(ahead, source, &mut word, offset) {
        return Err(refusal);
    }
    read_behind_word(ahead, source, room, u32::from_be_bytes(word), count, offset)
}

// What may follow the last entry that is read: an end item.
pub(crate) fn read_last_item<S: Source>(
    ahead: &mut ReadAhead,
    source: &mut S,
    room: &mut [u8],
    count: u64,
    offset: u128,
) -> Result<Next, ReadRefusal>
    requires room { 65535 ≤ length room.old }
    requires offset { offset < 2 ^ 127 }
    ensures told { (bytes : List ℕ) → unread ahead.old (S.seen source.old) ≡ Some bytes
        → AnswersLast Two offset bytes (front_of_item count bytes) result }
    ensures none { IsNoEntry result }
    ensures at_end { EndsSource result (S.seen source.new).told }
    ensures cause { HasReadCause (S.seen source.old) (S.seen source.new) result }
    ensures stops { result ≡ Err ReadFault
        → StopsIn (front_of_item count) (unread ahead.old (S.seen source.old)) (S.seen source.new).told }
{
    let mut word = [0u8; 4];
    if let Err(refusal) = read_part(ahead, source, &mut word, offset) {
        return Err(refusal);
    }
    let word = u32::from_be_bytes(word);
    if word == 1 {
        return Err(ReadRefusal::Spent);
    }
    read_behind_word(ahead, source, room, word, count, offset)
}
