// A packet, read from its first byte on.
ghost use Rattle.std.specs.Prelude.{◌≡◌, ◌+◌, ◌^◌, ◌<◌, ◌≤◌, ℕ, List, Some, Err, length, drop};
ghost use Rattle.byte_ends.specs.Unread.{StopsWithin};
ghost use Rattle.sflow_io.specs.declared.capture.ReadRefusal.TheVariants.{ReadFault};
ghost use Rattle.pcap_file.specs.PcapFaults.{StopsInPacket};
ghost use Rattle.capture_spec.specs.PcapFiles.{word_of, arrival_at, captured_at, front_of, front_of_bytes};
ghost use Rattle.byte_ends.specs.Unread.{unread};
ghost use Rattle.sflow_io.specs.CaptureAnswers.{HasReadCause};
ghost use Rattle.pcap_file.specs.PcapAnswers.{AnswersFront, AnswersLast, EndsSource, IsNoPacket, IsShortPacket};

use crate::{PcapNext, ReadRefusal, Source};
use byte_ends::ReadAhead;
use capture_spec::ByteOrder;
use wire_spec::InputKind;

/// The most bytes of a packet.
const MOST: u32 = 262_144;

fn word_in(order: ByteOrder, bytes: [u8; 4]) -> u32
    ensures { result ≡ word_of order bytes }
{
    match order {
        ByteOrder::HighFirst => u32::from_be_bytes(bytes),
        ByteOrder::LowFirst => u32::from_le_bytes(bytes),
    }
}

fn arrival_in(order: ByteOrder, head: &[u8; 16]) -> u64
    ensures { result ≡ arrival_at order head.now }
{
    let seconds = word_in(order, [head[0], head[1], head[2], head[3]]);
    let microseconds = word_in(order, [head[4], head[5], head[6], head[7]]);
    u64::from(seconds) * 1000 + u64::from(microseconds) / 1000
}

fn captured_in(order: ByteOrder, head: &[u8; 16]) -> u32
    ensures { result ≡ captured_at order head.now }
{
    word_in(order, [head[8], head[9], head[10], head[11]])
}

// The captured bytes of a packet.
fn read_bytes<S: Source>(
    ahead: &mut ReadAhead,
    source: &mut S,
    room: &mut [u8],
    offset: u128,
    at: u64,
    len: usize,
) -> Result<PcapNext, ReadRefusal>
    requires length { len ≤ 262144 }
    requires room { len ≤ length room.old }
    ensures told { (bytes : List ℕ) → unread ahead.old (S.seen source.old) ≡ Some bytes
        → AnswersFront offset (front_of_bytes at len bytes) room.new (unread ahead.new (S.seen source.new)) result }
    ensures short { IsShortPacket result }
    ensures at_end { EndsSource result (S.seen source.new).told }
    ensures cause { HasReadCause (S.seen source.old) (S.seen source.new) result }
    ensures stops { result ≡ Err ReadFault → StopsWithin (unread ahead.old (S.seen source.old)) (S.seen source.new).told len }
{
    let Ok(count) = ahead.read_most(source, &mut room[..len]) else {
        return Err(ReadRefusal::ReadFault);
    };
    if count < len {
        return Err(ReadRefusal::BadInput {
            at: offset,
            kind: InputKind::Cut,
        });
    }
    Ok(PcapNext::Packet { at, len })
}

// The packet that begins at this offset, or the end.
pub(crate) fn read_packet<S: Source>(
    ahead: &mut ReadAhead,
    source: &mut S,
    room: &mut [u8],
    order: ByteOrder,
    offset: u128,
) -> Result<PcapNext, ReadRefusal>
    requires room { 262144 ≤ length room.old }
    requires offset { offset < 2 ^ 127 }
    ensures told { (bytes : List ℕ) → unread ahead.old (S.seen source.old) ≡ Some bytes
        → AnswersFront offset (front_of order bytes) room.new (unread ahead.new (S.seen source.new)) result }
    ensures short { IsShortPacket result }
    ensures at_end { EndsSource result (S.seen source.new).told }
    ensures cause { HasReadCause (S.seen source.old) (S.seen source.new) result }
    ensures stops { result ≡ Err ReadFault → StopsInPacket order (unread ahead.old (S.seen source.old)) (S.seen source.new).told }
{
    let mut head = [0u8; 16];
    let Ok(count) = ahead.read_most(source, &mut head) else {
        return Err(ReadRefusal::ReadFault);
    };
    if count == 0 {
        return Ok(PcapNext::End);
    }
    if count < 12 {
        return Err(ReadRefusal::BadInput {
            at: offset,
            kind: InputKind::Cut,
        });
    }
    let captured = captured_in(order, &head);
    if captured > MOST {
        return Err(ReadRefusal::BadInput {
            at: offset + 8,
            kind: InputKind::Long,
        });
    }
    if count < 16 {
        return Err(ReadRefusal::BadInput {
            at: offset,
            kind: InputKind::Cut,
        });
    }
    let at = arrival_in(order, &head);
    read_bytes(ahead, source, room, offset, at, captured as usize)
}

// What may follow the last packet that is read: the end.
pub(crate) fn read_end<S: Source>(
    ahead: &mut ReadAhead,
    source: &mut S,
) -> Result<PcapNext, ReadRefusal>
    ensures told { (bytes : List ℕ) → unread ahead.old (S.seen source.old) ≡ Some bytes
        → AnswersLast bytes result }
    ensures none { IsNoPacket result }
    ensures at_end { EndsSource result (S.seen source.new).told }
    ensures cause { HasReadCause (S.seen source.old) (S.seen source.new) result }
    ensures stops { result ≡ Err ReadFault → StopsWithin (unread ahead.old (S.seen source.old)) (S.seen source.new).told 1 }
{
    let mut byte = [0u8; 1];
    match ahead.read_most(source, &mut byte) {
        Ok(0) => Ok(PcapNext::End),
        Ok(_) => Err(ReadRefusal::Spent),
        Err(_) => Err(ReadRefusal::ReadFault),
    }
}
