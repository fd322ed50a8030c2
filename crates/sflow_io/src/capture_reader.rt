ghost use Rattle.std.specs.Prelude.{◌≡◌, ◌≤◌, [], ℕ, List, Option, Some, Err, length, IfOk};
ghost use Rattle.wire_spec.specs.Bytes.{AreBytes};
ghost use Rattle.capture_spec.specs.declared.capture_version.CaptureVersion.{CaptureVersion};
ghost use Rattle.capture_spec.specs.Items.{Received};
ghost use Rattle.capture_spec.specs.ItemReading.{front_in};
ghost use Rattle.byte_ends.specs.Seen.{Seen};
ghost use Rattle.byte_ends.specs.Unread.{unread};
ghost use Rattle.sflow_io.specs.declared.capture.ReadRefusal.TheVariants.{ReadFault};
ghost use Rattle.sflow_io.specs.declared.capture.Stage.TheVariants.{Within, Ended};
ghost use Rattle.sflow_io.specs.ReadFaults.{StopsIn};
ghost use Rattle.sflow_io.specs.CaptureSteps.{HasGiven, IsBehind, with_answer};
ghost use Rattle.sflow_io.specs.CaptureAnswers.{Answer, Answers, AnswersWithin, EndsSource, HasEnded, HasReadCause, IsFresh, IsPlaced, IsShortEntry, IsStageAfter, KeepsLimits, LeadsOn, entry_size, front_size, number_in, stage_after, version_in};
ghost use Rattle.sflow_io.specs.Senders.{sender_in};

use crate::capture_header::read_header;
use crate::entry_reader::{read_end, read_entry};
use crate::item_reader::{read_item, read_last_item};
use crate::part::size_of;
use crate::{Memory, Next, ReadRefusal, Sender, Source, Stage};
use byte_ends::ReadAhead;
use capture_spec::CaptureVersion;
use std::alloc::Global;
use std::marker::Model;
use wire_spec::MAX_ENTRIES;

/// A reader of a capture of either version, entry by entry. It reads its source at least 64 KiB at a time.
#[derive(Drop)]
pub struct CaptureReader {
    ahead: ReadAhead,
    stage: Stage,
}

impl Model for CaptureReader {
    ghost use Rattle.sflow_io.specs.CaptureAnswers.{IsPlaced, ReaderState};

    ghost Value = { ReaderState };

    ghost view = { λ r. record { stage = r.stage; held = r.ahead } };

    ghost invariant = { λ r. IsPlaced r.stage };
}

impl CaptureReader {
    /// A reader before its first byte. It takes memory for the bytes that it reads ahead.
    pub fn open(alloc: Global) -> Result<CaptureReader, Memory>
        ensures opened { IfOk result (λ reader. IsFresh reader) }

        // It has given nothing of any bytes.
        ensures begins { IfOk result (λ reader. (bytes : List ℕ) (source : Seen) → source.told ≡ Some bytes
            → HasGiven bytes [] reader source) }
    {
        match ReadAhead::new(alloc) {
            Ok(ahead) => Ok(CaptureReader {
                ahead,
                stage: Stage::Start,
            }),
            Err(_) => Err(Memory),
        }
    }

    /// The version of the capture, 1 or 2: `None` until a word that is one of these was read as the version.
    pub fn version(&self) -> Option<u32>
        ensures { result ≡ number_in (version_in self.now.stage) }
    {
        match self.stage {
            Stage::Start => None,
            Stage::Within { version, .. } => Some(number_of(version)),
            Stage::Ended { version, .. } => match version {
                Some(version) => Some(number_of(version)),
                None => None,
            },
        }
    }

    /// The next entry of the capture, whose bytes are then the first of the room, or `End`.
    ///
    /// `BadInput` comes exactly where what is left isn't a capture's, at the offset of its first fault; bytes
    /// are met in order. `Spent` comes exactly where 2^48 entries were given and a further one is to come: in version 1
    /// a byte follows, in version 2 the word of an entry item. `ReadFault` comes only where the source's count of faults
    /// rose in this call. After `End` and after a refusal it answers the same again, and reads nothing.
    ///
    /// The reader owns what it has read ahead, so a reader is used with one source.
    pub fn next<S: Source>(&mut self, source: &mut S, room: &mut [u8]) -> Result<Next, ReadRefusal>
        requires { 65535 ≤ length room.old }

        // The answer is that of the bytes that are left, whatever the pieces in which they come.
        ensures told { (bytes : List ℕ) → unread self.old.held (S.seen source.old) ≡ Some bytes
            → Answers self.old.stage bytes room.new (unread self.new.held (S.seen source.new)) self.new.stage result }
        ensures stage { IsStageAfter self.old.stage self.new.stage result }
        ensures length { IsShortEntry result }
        ensures at_end { ¬ (HasEnded self.old.stage) → EndsSource result (S.seen source.new).told }
        ensures leads_on { LeadsOn self.old.stage self.new.stage result }

        // The last answer comes again.
        ensures again { (v : Option CaptureVersion) (last : Answer) → self.old.stage ≡ Ended v last → result ≡ last }
        ensures unmoved { HasEnded self.old.stage
            → (self.new ≡ self.old) × (source.new ≡ source.old) × (room.new ≡ room.old) }
        ensures cause { ¬ (HasEnded self.old.stage)
            → HasReadCause (S.seen source.old) (S.seen source.new) result }

        // What was given from the start of the input on stays what a capture's reading gives. At a read fault no
        // whole entry has left the source that wasn't given.
        ensures given { (bytes : List ℕ) (entries : List Received) → AreBytes bytes
            → HasGiven bytes entries self.old (S.seen source.old)
            → HasGiven bytes (with_answer entries room.new result) self.new (S.seen source.new) }
    {
        match self.stage {
            Stage::Start => match read_header(&mut self.ahead, source) {
                Ok(version) => self.go_on(source, room, version, 0, 8),
                Err(refusal) => {
                    let answer = Err(refusal);
                    self.stage = Stage::Ended {
                        version: None,
                        answer,
                    };
                    answer
                }
            },
            Stage::Within {
                version,
                count,
                offset,
            } => self.go_on(source, room, version, count, offset),
            Stage::Ended { answer, .. } => answer,
        }
    }

    // Reads on behind so many entries, where the next byte has this offset.
    fn go_on<S: Source>(
        &mut self,
        source: &mut S,
        room: &mut [u8],
        version: CaptureVersion,
        count: u64,
        offset: u128,
    ) -> Result<Next, ReadRefusal>
        requires room { 65535 ≤ length room.old }
        requires placed { IsPlaced (Within version count offset) }
        ensures told { (bytes : List ℕ) → unread self.old.held (S.seen source.old) ≡ Some bytes
            → AnswersWithin version count offset bytes room.new (unread self.new.held (S.seen source.new)) result }
        ensures stage { self.new.stage ≡ stage_after (Within version count offset) result }
        ensures length { IsShortEntry result }
        ensures at_end { EndsSource result (S.seen source.new).told }
        ensures cause { HasReadCause (S.seen source.old) (S.seen source.new) result }
        ensures leads_on { LeadsOn (Within version count offset) self.new.stage result }
        ensures given { (bytes : List ℕ) (entries : List Received) → AreBytes bytes
            → IsBehind version entries bytes count offset (unread self.old.held (S.seen source.old))
            → HasGiven bytes (with_answer entries room.new result) self.new (S.seen source.new) }
    {
        let answer = read_within(&mut self.ahead, source, room, version, count, offset);
        self.stage = stage_behind(version, count, offset, answer);
        answer
    }
}

fn number_of(version: CaptureVersion) -> u32
    ensures { Some result ≡ number_in (Some version) }
{
    match version {
        CaptureVersion::One => 1,
        CaptureVersion::Two => 2,
    }
}

// A further entry, or behind 2^48 of them the end.
fn read_within<S: Source>(
    ahead: &mut ReadAhead,
    source: &mut S,
    room: &mut [u8],
    version: CaptureVersion,
    count: u64,
    offset: u128,
) -> Result<Next, ReadRefusal>
    requires room { 65535 ≤ length room.old }
    requires placed { IsPlaced (Within version count offset) }
    ensures told { (bytes : List ℕ) → unread ahead.old (S.seen source.old) ≡ Some bytes
        → AnswersWithin version count offset bytes room.new (unread ahead.new (S.seen source.new)) result }
    ensures limits { KeepsLimits count result }
    ensures length { IsShortEntry result }
    ensures at_end { EndsSource result (S.seen source.new).told }
    ensures cause { HasReadCause (S.seen source.old) (S.seen source.new) result }
    ensures stops { result ≡ Err ReadFault
        → StopsIn (front_in version count) (unread ahead.old (S.seen source.old)) (S.seen source.new).told }
{
    match version {
        CaptureVersion::One => {
            if count < MAX_ENTRIES {
                read_entry(ahead, source, room, offset)
            } else {
                read_end(ahead, source)
            }
        }
        CaptureVersion::Two => {
            if count < MAX_ENTRIES {
                read_item(ahead, source, room, count, offset)
            } else {
                read_last_item(ahead, source, room, count, offset)
            }
        }
    }
}

// How many bytes an entry has before its datagram.
fn front_of(from: &Option<Sender>) -> usize
    ensures { result ≡ front_size (sender_in from.now) }
{
    match from {
        None => 12,
        Some(sender) => 24 + size_of(&sender.address),
    }
}

// How many bytes an entry has.
fn whole_of(from: &Option<Sender>, len: usize) -> u128
    requires { len ≤ 65535 }
    ensures { result ≡ entry_size (sender_in from.now) len }
{
    (front_of(from) + len + (4 - len % 4) % 4) as u128
}

// Where a reader stands after this answer.
fn stage_behind(
    version: CaptureVersion,
    count: u64,
    offset: u128,
    answer: Result<Next, ReadRefusal>,
) -> Stage
    requires placed { IsPlaced (Within version count offset) }
    requires limits { KeepsLimits count answer }
    ensures after { result ≡ stage_after (Within version count offset) answer }
    ensures leads_on { LeadsOn (Within version count offset) result answer }
    ensures placed { IsPlaced result }
{
    let Ok(Next::Entry { from, len, .. }) = answer else {
        return Stage::Ended {
            version: Some(version),
            answer,
        };
    };
    Stage::Within {
        version,
        count: count + 1,
        offset: offset + whole_of(&from, len),
    }
}
