ghost use Rattle.std.specs.Prelude.{◌≡◌, ◌≤◌, [], ℕ, List, Some, Err, length, IfOk};
ghost use Rattle.capture_spec.specs.declared.byte_order.ByteOrder.{ByteOrder};
ghost use Rattle.sflow_io.specs.declared.capture.ReadRefusal.TheVariants.{ReadFault};
ghost use Rattle.capture_spec.specs.PcapFiles.{Packet};
ghost use Rattle.pcap_file.specs.PcapFaults.{StopsInPacket};
ghost use Rattle.pcap_file.specs.PcapSteps.{HasGiven, IsBehind, LeadsOn, with_answer};
ghost use Rattle.byte_ends.specs.Seen.{Seen};
ghost use Rattle.pcap_file.specs.declared.reading.PcapStage.TheVariants.{Within, Ended};
ghost use Rattle.byte_ends.specs.Unread.{unread};
ghost use Rattle.sflow_io.specs.CaptureAnswers.{HasReadCause};
ghost use Rattle.pcap_file.specs.PcapAnswers.{Answer, Answers, AnswersWithin, EndsSource, HasEnded, IsFresh, IsPlaced, IsShortPacket, IsStageAfter, KeepsLimits, ReaderState, stage_after};

use crate::header::read_header;
use crate::packet_reader::{read_end, read_packet};
use crate::{PcapNext, PcapStage, ReadRefusal, Source};
use byte_ends::ReadAhead;
use capture_spec::ByteOrder;
use sflow_io::Memory;
use std::alloc::Global;
use std::marker::Model;

/// The most packets that are read of a file, 2^48.
const MOST_PACKETS: u64 = 1 << 48;

/// A reader of a classic pcap file, packet by packet. It reads its source at least 64 KiB at a time.
#[derive(Drop)]
pub struct PcapReader {
    ahead: ReadAhead,
    stage: PcapStage,
}

impl Model for PcapReader {
    ghost use Rattle.pcap_file.specs.PcapAnswers.{IsPlaced, ReaderState};

    ghost Value = { ReaderState };

    ghost view = { λ r. record { stage = r.stage; held = r.ahead } };

    ghost invariant = { λ r. IsPlaced r.stage };
}

impl PcapReader {
    /// A reader before its first byte. It takes memory for the bytes that it reads ahead, and none later.
    pub fn open(alloc: Global) -> Result<PcapReader, Memory>
        ensures opened { IfOk result (λ reader. IsFresh reader) }

        // It has given nothing of any bytes.
        ensures begins { IfOk result (λ reader. (bytes : List ℕ) (source : Seen) → source.told ≡ Some bytes
            → HasGiven bytes [] reader source) }
    {
        match ReadAhead::new(alloc) {
            Ok(ahead) => Ok(PcapReader {
                ahead,
                stage: PcapStage::Start,
            }),
            Err(_) => Err(Memory),
        }
    }

    /// The next packet of the file, whose captured bytes are then the first of the room, or `End`.
    ///
    /// `BadInput` comes exactly where what is left isn't a file's, at the offset of its first fault; bytes are met in
    /// order. `Spent` comes exactly where 2^48 packets were given and a further byte follows. `ReadFault` comes only
    /// where the source's count of faults rose in this call. After `End` and after a refusal it answers the same
    /// again, and reads nothing.
    ///
    /// The reader owns what it has read ahead, so a reader is used with one source.
    pub fn next<S: Source>(
        &mut self,
        source: &mut S,
        room: &mut [u8],
    ) -> Result<PcapNext, ReadRefusal>
        requires { 262144 ≤ length room.old }

        // The answer is that of the bytes that are left, whatever the pieces in which they come.
        ensures told { (bytes : List ℕ) → unread self.old.held (S.seen source.old) ≡ Some bytes
            → Answers self.old.stage bytes room.new (unread self.new.held (S.seen source.new)) self.new.stage result }
        ensures stage { IsStageAfter self.old.stage self.new.stage result }
        ensures length { IsShortPacket result }
        ensures at_end { ¬ (HasEnded self.old.stage) → EndsSource result (S.seen source.new).told }
        ensures leads_on { LeadsOn self.old.stage self.new.stage result }

        // The last answer comes again.
        ensures again { (last : Answer) → self.old.stage ≡ Ended last → result ≡ last }
        ensures unmoved { HasEnded self.old.stage
            → (self.new ≡ self.old) × (source.new ≡ source.old) × (room.new ≡ room.old) }
        ensures cause { ¬ (HasEnded self.old.stage)
            → HasReadCause (S.seen source.old) (S.seen source.new) result }

        // At a read fault behind whole packets none has left the source that wasn't given.
        ensures stops { (order : ByteOrder) (count offset : ℕ) → self.old.stage ≡ Within order count offset
            → result ≡ Err ReadFault → StopsInPacket order (unread self.old.held (S.seen source.old)) (S.seen source.new).told }

        // What was given from the start of the input on stays what the reading of a file gives.
        ensures given { (bytes : List ℕ) (packets : List Packet) → HasGiven bytes packets self.old (S.seen source.old)
            → HasGiven bytes (with_answer packets room.new result) self.new (S.seen source.new) }
    {
        match self.stage {
            PcapStage::Start => match read_header(&mut self.ahead, source) {
                Ok(order) => self.go_on(source, room, order, 0, 24),
                Err(refusal) => {
                    let answer = Err(refusal);
                    self.stage = PcapStage::Ended { answer };
                    answer
                }
            },
            PcapStage::Within {
                order,
                count,
                offset,
            } => self.go_on(source, room, order, count, offset),
            PcapStage::Ended { answer } => answer,
        }
    }

    // Reads on behind so many packets, where the next byte has this offset.
    fn go_on<S: Source>(
        &mut self,
        source: &mut S,
        room: &mut [u8],
        order: ByteOrder,
        count: u64,
        offset: u128,
    ) -> Result<PcapNext, ReadRefusal>
        requires room { 262144 ≤ length room.old }
        requires placed { IsPlaced (Within order count offset) }
        ensures told { (bytes : List ℕ) → unread self.old.held (S.seen source.old) ≡ Some bytes
            → AnswersWithin order count offset bytes room.new (unread self.new.held (S.seen source.new)) result }
        ensures stage { self.new.stage ≡ stage_after (Within order count offset) result }
        ensures length { IsShortPacket result }
        ensures at_end { EndsSource result (S.seen source.new).told }
        ensures cause { HasReadCause (S.seen source.old) (S.seen source.new) result }
        ensures stops { result ≡ Err ReadFault
            → StopsInPacket order (unread self.old.held (S.seen source.old)) (S.seen source.new).told }
        ensures leads_on { LeadsOn (Within order count offset) self.new.stage result }
        ensures given { (bytes : List ℕ) (packets : List Packet)
            → IsBehind order packets bytes count offset (unread self.old.held (S.seen source.old))
            → HasGiven bytes (with_answer packets room.new result) self.new (S.seen source.new) }
    {
        let answer = read_within(&mut self.ahead, source, room, order, count, offset);
        self.stage = stage_behind(order, count, offset, answer);
        answer
    }
}

// A further packet, or behind 2^48 of them the end.
fn read_within<S: Source>(
    ahead: &mut ReadAhead,
    source: &mut S,
    room: &mut [u8],
    order: ByteOrder,
    count: u64,
    offset: u128,
) -> Result<PcapNext, ReadRefusal>
    requires room { 262144 ≤ length room.old }
    requires placed { IsPlaced (Within order count offset) }
    ensures told { (bytes : List ℕ) → unread ahead.old (S.seen source.old) ≡ Some bytes
        → AnswersWithin order count offset bytes room.new (unread ahead.new (S.seen source.new)) result }
    ensures limits { KeepsLimits count result }
    ensures length { IsShortPacket result }
    ensures at_end { EndsSource result (S.seen source.new).told }
    ensures cause { HasReadCause (S.seen source.old) (S.seen source.new) result }
    ensures stops { result ≡ Err ReadFault → StopsInPacket order (unread ahead.old (S.seen source.old)) (S.seen source.new).told }
{
    if count < MOST_PACKETS {
        read_packet(ahead, source, room, order, offset)
    } else {
        read_end(ahead, source)
    }
}

// Where a reader stands after this answer.
fn stage_behind(
    order: ByteOrder,
    count: u64,
    offset: u128,
    answer: Result<PcapNext, ReadRefusal>,
) -> PcapStage
    requires placed { IsPlaced (Within order count offset) }
    requires limits { KeepsLimits count answer }
    ensures after { result ≡ stage_after (Within order count offset) answer }
    ensures leads_on { LeadsOn (Within order count offset) result answer }
    ensures placed { IsPlaced result }
{
    let Ok(PcapNext::Packet { len, .. }) = answer else {
        return PcapStage::Ended { answer };
    };
    PcapStage::Within {
        order,
        count: count + 1,
        offset: offset + (16 + len) as u128,
    }
}
