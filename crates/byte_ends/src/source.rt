ghost use Rattle.std.specs.Io.{ReadsAtMost};
ghost use Rattle.byte_ends.specs.Seen.{Seen, ReadsOnce, ReadsMost};

use crate::Failed;

/// Bytes that are given in pieces.
pub trait Source {
    /// The bytes that are left, or None where the source doesn't tell them; and how many calls have failed,
    /// up to 2^64 - 1.
    ghost seen: { Self → Seen };

    /// Moves the first bytes that are left to the start of the room, and answers how many they are: at
    /// most `room.len()`, and into room that isn't empty 0 exactly at the end of what is left.
    /// `Failed` comes only where the count of faults rose in this call; then no byte has left the source.
    fn read(&mut self, room: &mut [u8]) -> Result<usize, Failed>
        ensures bound { ReadsAtMost result room.new }
        ensures reads { ReadsOnce (seen self.old) (seen self.new) result room.new };
}

/// Reads until the room is full or the source is at its end, and answers how many bytes it moved.
/// After `Failed` the bytes moved before it stand at the start of the room; how many is not told.
pub fn read_most<S: Source>(source: &mut S, room: &mut [u8]) -> Result<usize, Failed>
    ensures { ReadsMost (S.seen source.old) (S.seen source.new) result room.new }
{
    let mut filled = 0;
    while filled < room.len() {
        let count = source.read(&mut room[filled..])?;
        if count == 0 {
            return Ok(filled);
        }
        filled += count;
    }
    Ok(filled)
}
