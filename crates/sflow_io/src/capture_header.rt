ghost use Rattle.std.specs.Prelude.{◌≡◌, ℕ, List, Some, Err, IfErr};
ghost use Rattle.byte_ends.specs.Unread.{StopsWithin, unread};
ghost use Rattle.sflow_io.specs.declared.capture.ReadRefusal.TheVariants.{ReadFault};
ghost use Rattle.sflow_io.specs.CaptureAnswers.{HasReadCause, IsOfHeader, ReadsHeader};

use crate::{InputKind, ReadRefusal, Source};
use byte_ends::ReadAhead;
use capture_spec::CaptureVersion;

/// The four bytes that a capture begins with.
const MAGIC: [u8; 4] = *b"SFLC";

/// The magic, and the version 1 as a word.
pub(crate) const HEADER: [u8; 8] = *b"SFLC\0\0\0\x01";

/// The magic, and the version 2 as a word.
pub(crate) const HEADER_OF_ITEMS: [u8; 8] = *b"SFLC\0\0\0\x02";

// The header at the start of the input.
pub(crate) fn read_header<S: Source>(
    ahead: &mut ReadAhead,
    source: &mut S,
) -> Result<CaptureVersion, ReadRefusal>
    ensures told { (bytes : List ℕ) → unread ahead.old (S.seen source.old) ≡ Some bytes
        → ReadsHeader bytes (unread ahead.new (S.seen source.new)) result }
    ensures refuses { IfErr result (λ e. IsOfHeader e) }
    ensures cause { HasReadCause (S.seen source.old) (S.seen source.new) result }
    ensures stops { result ≡ Err ReadFault → StopsWithin (unread ahead.old (S.seen source.old)) (S.seen source.new).told 8 }
{
    let mut room = [0u8; 8];
    let Ok(count) = ahead.read_most(source, &mut room) else {
        return Err(ReadRefusal::ReadFault);
    };
    let front = &room[..count];
    if front == HEADER.as_slice() {
        return Ok(CaptureVersion::One);
    }
    if front == HEADER_OF_ITEMS.as_slice() {
        return Ok(CaptureVersion::Two);
    }
    if front.starts_with(MAGIC.as_slice()) {
        return Err(ReadRefusal::BadInput {
            at: 4,
            kind: InputKind::Version,
        });
    }
    Err(ReadRefusal::BadInput {
        at: 0,
        kind: InputKind::Magic,
    })
}
