// An entry of version 1, and the datagrams of both versions, each read from its first byte on.
ghost use Rattle.std.specs.Prelude.{◌≡◌, ◌+◌, ◌^◌, ◌<◌, ◌≤◌, ℕ, List, Some, None, Err, length, take, drop};
ghost use Rattle.std.specs.Int.{w32, w64, from_be_bytes};
ghost use Rattle.wire_spec.specs.Padding.{padding_of};
ghost use Rattle.wire_spec.specs.CaptureReading.{first_nonzero, front_of_padding};
ghost use Rattle.capture_spec.specs.declared.capture_version.CaptureVersion.TheVariants.{One};
ghost use Rattle.capture_spec.specs.ItemReading.{front_from, front_in};
ghost use Rattle.byte_ends.specs.Unread.{StopsWithin, unread};
ghost use Rattle.sflow_io.specs.declared.capture.ReadRefusal.TheVariants.{ReadFault};
ghost use Rattle.sflow_io.specs.CaptureAnswers.{AnswersFront, AnswersLast, EndsSource, HasReadCause, IsNoEntry, IsShortEntry};
ghost use Rattle.sflow_io.specs.Fronts.{ReadsFront, body_front, sized_front};
ghost use Rattle.sflow_io.specs.ReadFaults.{StopsIn};
ghost use Rattle.sflow_io.specs.Senders.{sender_in};

use crate::part::EntryStart;
use crate::{InputKind, Next, ReadRefusal, Source};
use byte_ends::ReadAhead;

pub(crate) fn arrival_in(head: &[u8; 12]) -> u64
    ensures { result ≡ from_be_bytes w64 (take 8 head.now) }
{
    u64::from_be_bytes([
        head[0], head[1], head[2], head[3], head[4], head[5], head[6], head[7],
    ])
}

// The word behind the arrival.
pub(crate) fn word_in(head: &[u8; 12]) -> u32
    ensures { result ≡ from_be_bytes w32 (take 4 (drop 8 head.now)) }
{
    u32::from_be_bytes([head[8], head[9], head[10], head[11]])
}

// The place of the first byte that isn't zero.
fn find_nonzero(bytes: &[u8]) -> Option<usize>
    ensures { result ≡ first_nonzero bytes.now }
{
    bytes.iter().position(|byte| *byte != 0)
}

// The padding of an entry whose bytes are the first of the room.
fn read_padding<S: Source>(
    ahead: &mut ReadAhead,
    source: &mut S,
    room: &[u8],
    start: &EntryStart,
    len: usize,
) -> Result<Next, ReadRefusal>
    requires length { len ≤ 65535 }
    requires room { len ≤ length room.now }
    requires offset { start.now.offset < 2 ^ 127 }
    requires more { start.now.more ≤ 28 }
    ensures told { (bytes : List ℕ) → unread ahead.old (S.seen source.old) ≡ Some bytes
        → AnswersFront start.now.offset (front_from (sender_in start.now.from) start.now.more
        (front_of_padding start.now.at (take len room.now) bytes)) room.now (unread ahead.new (S.seen source.new)) result }
    ensures short { IsShortEntry result }
    ensures at_end { EndsSource result (S.seen source.new).told }
    ensures cause { HasReadCause (S.seen source.old) (S.seen source.new) result }
    ensures stops { result ≡ Err ReadFault
        → StopsWithin (unread ahead.old (S.seen source.old)) (S.seen source.new).told (padding_of len) }
{
    let most = (4 - len % 4) % 4;
    let mut padding = [0u8; 4];
    let Ok(count) = ahead.read_most(source, &mut padding[..most]) else {
        return Err(ReadRefusal::ReadFault);
    };
    if let Some(zeros) = find_nonzero(&padding[..count]) {
        let at = start.offset + (start.more + (12 + len + zeros)) as u128;
        return Err(ReadRefusal::BadInput {
            at,
            kind: InputKind::Padding,
        });
    }
    if count < most {
        return Err(ReadRefusal::BadInput {
            at: start.offset,
            kind: InputKind::Cut,
        });
    }
    Ok(Next::Entry {
        at: start.at,
        from: start.from,
        len,
    })
}

// The bytes of an entry, and their padding.
fn read_body<S: Source>(
    ahead: &mut ReadAhead,
    source: &mut S,
    room: &mut [u8],
    start: &EntryStart,
    len: usize,
) -> Result<Next, ReadRefusal>
    requires length { len ≤ 65535 }
    requires room { len ≤ length room.old }
    requires offset { start.now.offset < 2 ^ 127 }
    requires more { start.now.more ≤ 28 }
    ensures told { (bytes : List ℕ) → unread ahead.old (S.seen source.old) ≡ Some bytes
        → AnswersFront start.now.offset (body_front (sender_in start.now.from) start.now.more start.now.at len bytes)
        room.new (unread ahead.new (S.seen source.new)) result }
    ensures short { IsShortEntry result }
    ensures at_end { EndsSource result (S.seen source.new).told }
    ensures cause { HasReadCause (S.seen source.old) (S.seen source.new) result }
    ensures stops { result ≡ Err ReadFault
        → StopsWithin (unread ahead.old (S.seen source.old)) (S.seen source.new).told (len + padding_of len) }
{
    let Ok(count) = ahead.read_most(source, &mut room[..len]) else {
        return Err(ReadRefusal::ReadFault);
    };
    if count < len {
        return Err(ReadRefusal::BadInput {
            at: start.offset,
            kind: InputKind::Cut,
        });
    }
    read_padding(ahead, source, room, start, len)
}

// A datagram behind the word of its length.
pub(crate) fn read_sized<S: Source>(
    ahead: &mut ReadAhead,
    source: &mut S,
    room: &mut [u8],
    start: &EntryStart,
    len: u32,
) -> Result<Next, ReadRefusal>
    requires room { 65535 ≤ length room.old }
    requires offset { start.now.offset < 2 ^ 127 }
    requires more { start.now.more ≤ 28 }
    ensures reads { ReadsFront (sized_front (sender_in start.now.from) start.now.more start.now.at len) start.now.offset
        ahead.old (S.seen source.old) ahead.new (S.seen source.new) room.new result }
{
    if len > 65535 {
        return Err(ReadRefusal::BadInput {
            at: start.offset + (start.more + 8) as u128,
            kind: InputKind::Long,
        });
    }
    read_body(ahead, source, room, start, len as usize)
}

// The entry of version 1 that begins at this offset, or the end.
pub(crate) fn read_entry<S: Source>(
    ahead: &mut ReadAhead,
    source: &mut S,
    room: &mut [u8],
    offset: u128,
) -> Result<Next, ReadRefusal>
    requires room { 65535 ≤ length room.old }
    requires offset { offset < 2 ^ 127 }
    ensures reads { ReadsFront (front_in One 0) offset ahead.old (S.seen source.old) ahead.new (S.seen source.new)
        room.new result }
{
    let mut head = [0u8; 12];
    let Ok(count) = ahead.read_most(source, &mut head) else {
        return Err(ReadRefusal::ReadFault);
    };
    if count == 0 {
        return Ok(Next::End);
    }
    if count < 12 {
        return Err(ReadRefusal::BadInput {
            at: offset,
            kind: InputKind::Cut,
        });
    }
    let start = EntryStart {
        offset,
        at: arrival_in(&head),
        from: None,
        more: 0,
    };
    read_sized(ahead, source, room, &start, word_in(&head))
}

// What may follow the last entry that is read of version 1: the end.
pub(crate) fn read_end<S: Source>(
    ahead: &mut ReadAhead,
    source: &mut S,
) -> Result<Next, ReadRefusal>
    ensures told { (count offset : ℕ) (bytes : List ℕ) → unread ahead.old (S.seen source.old) ≡ Some bytes
        → AnswersLast One offset bytes (front_in One count bytes) result }
    ensures none { IsNoEntry result }
    ensures at_end { EndsSource result (S.seen source.new).told }
    ensures cause { HasReadCause (S.seen source.old) (S.seen source.new) result }
    ensures stops { (count : ℕ) → result ≡ Err ReadFault
        → StopsIn (front_in One count) (unread ahead.old (S.seen source.old)) (S.seen source.new).told }
{
    let mut byte = [0u8; 1];
    match ahead.read_most(source, &mut byte) {
        Ok(0) => Ok(Next::End),
        Ok(_) => Err(ReadRefusal::Spent),
        Err(_) => Err(ReadRefusal::ReadFault),
    }
}
