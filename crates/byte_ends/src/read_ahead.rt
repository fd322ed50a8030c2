ghost use Rattle.std.specs.Prelude.{◌≡◌, ◌≤◌, ◌<◌, [], ◌++◌, length, take, IfOk, OnOk, OnErr, vec_len};
ghost use Rattle.std.specs.Io.{ReadsAtMost};
ghost use Rattle.std.specs.Io.KnownBytes.{IsAtEnd};
ghost use Rattle.byte_ends.specs.Seen.{Gives, ReadsOnce, ReadsMost, failed, with_held};

use crate::{Failed, Source};
use std::alloc::{AllocError, Global};
use std::marker::Model;

// How many bytes of a source are read at a time.
const ROOM: usize = 1 << 16;

/// Bytes that were read ahead of a source, so that it is read at least 64 KiB at a time. It is seen as the bytes that
/// it still holds. It owns them, so it is used with one source.
#[derive(Drop)]
pub struct ReadAhead {
    room: Vec<u8>,
    from: usize,
    to: usize,
}

impl Model for ReadAhead {
    ghost use Rattle.std.specs.Prelude.{◌≤◌, ◌<◌, ℕ, List, slice_range, vec_len};

    ghost Value = { List ℕ };

    ghost view = { λ a. slice_range a.room.items a.from a.to };

    ghost invariant = { λ a. (a.from ≤ a.to) × (a.to ≤ vec_len a.room) × (0 < vec_len a.room) };
}

pub(crate) fn new_room(alloc: Global) -> Result<Vec<u8>, AllocError>
    ensures { IfOk result (λ room. vec_len room ≡ 65536) }
{
    Ok(vec![in alloc; 0; ROOM]?)
}

impl ReadAhead {
    /// Room for 65,536 bytes, which holds none yet. `AllocError` comes only for want of memory.
    pub fn new(alloc: Global) -> Result<ReadAhead, AllocError>
        ensures { IfOk result (λ ahead. ahead ≡ []) }
    {
        let room = new_room(alloc)?;
        Ok(ReadAhead {
            room,
            from: 0,
            to: 0,
        })
    }

    // Reads the source where nothing is held.
    fn hold<S: Source>(&mut self, source: &mut S) -> Result<(), Failed>
        ensures stands { OnOk result (Gives (with_held self.old (S.seen source.old)) (with_held self.new (S.seen source.new)) []) }
        ensures end { OnOk result (self.new ≡ [] → IsAtEnd (S.seen source.new).told) }
        ensures fails { OnErr result ((self.old ≡ []) × (self.new ≡ []) × (S.seen source.new ≡ failed (S.seen source.old))) }
    {
        if self.from < self.to {
            return Ok(());
        }
        let count = source.read(&mut self.room)?;
        self.from = 0;
        self.to = count;
        Ok(())
    }

    // Moves the first bytes that are held to the start of the room.
    fn give(&mut self, room: &mut [u8]) -> usize
        ensures bound { result ≤ length room.new }
        ensures bytes { self.old ≡ take result room.new ++ self.new }
        ensures none { result ≡ 0 → 0 < length room.new → self.old ≡ [] }
    {
        let rest = &self.room[self.from..self.to];
        let count = rest.len().min(room.len());
        room[..count].copy_from_slice(&rest[..count]);
        self.from += count;
        count
    }

    // Reads the bytes that are held, and then those of the source.
    fn read<S: Source>(&mut self, source: &mut S, room: &mut [u8]) -> Result<usize, Failed>
        ensures bound { ReadsAtMost result room.new }
        ensures reads { ReadsOnce (with_held self.old (S.seen source.old)) (with_held self.new (S.seen source.new))
            result room.new }
        ensures none { OnErr result (self.new ≡ []) }
    {
        self.hold(source)?;
        Ok(self.give(room))
    }

    /// Reads until the room is full or the source is at its end, and answers how many bytes it moved. The source is
    /// read only where nothing is held. After `Failed` nothing is held; the bytes moved before it stand at the start
    /// of the room, and how many is not told.
    pub fn read_most<S: Source>(&mut self, source: &mut S, room: &mut [u8]) -> Result<usize, Failed>
        ensures reads { ReadsMost (with_held self.old (S.seen source.old)) (with_held self.new (S.seen source.new))
            result room.new }
        ensures none { OnErr result (self.new ≡ []) }
    {
        let mut filled = 0;
        while filled < room.len() {
            let count = self.read(source, &mut room[filled..])?;
            if count == 0 {
                return Ok(filled);
            }
            filled += count;
        }
        Ok(filled)
    }
}
