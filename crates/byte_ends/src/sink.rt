ghost use Rattle.std.specs.Prelude.{◌<◌, length, IfOk};
ghost use Rattle.std.specs.Io.{WritesAtMost};
ghost use Rattle.byte_ends.specs.Seen.{Seen, WritesOnce, WritesAll};

use crate::Failed;

/// A place that takes bytes in pieces.
pub trait Sink {
    /// The bytes that were taken, or None where the sink doesn't tell them; and how many calls have failed,
    /// up to 2^64 - 1.
    ghost seen: { Self → Seen };

    /// Appends the first bytes of the piece, and answers how many they are: at most the piece's length,
    /// and at least one of a piece that isn't empty.
    /// `Failed` comes only where the count of faults rose in this call; then nothing was taken.
    fn write(&mut self, bytes: &[u8]) -> Result<usize, Failed>
        ensures bound { WritesAtMost result bytes.now }
        ensures some { 0 < length bytes.now → IfOk result (λ n. 0 < n) }
        ensures writes { WritesOnce (seen self.old) (seen self.new) result bytes.now };
}

/// Writes all of the bytes. After `Failed` the sink has taken a prefix of them, and the call that failed was the
/// last.
pub fn write_all<K: Sink>(sink: &mut K, bytes: &[u8]) -> Result<(), Failed>
    ensures { WritesAll (K.seen sink.old) (K.seen sink.new) result bytes.now }
{
    let mut rest = bytes;
    while !rest.is_empty() {
        let count = sink.write(rest)?;
        rest = &rest[count..];
    }
    Ok(())
}
