// One line of the input, byte by byte.
ghost use Rattle.std.specs.Prelude.{◌≡◌, length};
ghost use Rattle.byte_ends.specs.Unread.{unread};
ghost use Rattle.script_lines.specs.Fronts.{GivesByte, GivesFront, HasFaults};

use byte_ends::{Failed, ReadAhead, Source};

/// What stands at the front of the input.
#[derive(Clone, Copy, Debug, Drop)]
pub(crate) enum Front {
    /// A line, whose bytes are the first `len` of the room.
    Line { len: usize },
    /// A line with more bytes than one may have.
    Long,
    /// The end.
    End,
}

fn read_byte<S: Source>(ahead: &mut ReadAhead, source: &mut S) -> Result<Option<u8>, Failed>
    ensures gives { GivesByte (unread ahead.old (S.seen source.old)) (unread ahead.new (S.seen source.new))
        (S.seen source.new).told result }
    ensures faults { HasFaults (S.seen source.old) (S.seen source.new) result }
{
    let mut byte = [0u8; 1];
    if ahead.read_most(source, &mut byte)? == 0 {
        return Ok(None);
    }
    Ok(Some(byte[0]))
}

/// The line at the front of the input, whose bytes are then the first of the room. The room is as long as a line may be.
pub(crate) fn read_text<S: Source>(
    ahead: &mut ReadAhead,
    source: &mut S,
    room: &mut [u8],
) -> Result<Front, Failed>
    requires { length room.old ≡ 16384 }
    ensures gives { GivesFront (unread ahead.old (S.seen source.old)) (unread ahead.new (S.seen source.new))
        (S.seen source.new).told room.new result }
    ensures faults { HasFaults (S.seen source.old) (S.seen source.new) result }
{
    let mut len = 0;
    while len < room.len() {
        match read_byte(ahead, source)? {
            Some(b'\n') => return Ok(Front::Line { len }),
            Some(byte) => {
                room[len] = byte;
                len += 1;
            }
            None if len > 0 => return Ok(Front::Line { len }),
            None => return Ok(Front::End),
        }
    }
    match read_byte(ahead, source)? {
        Some(byte) if byte != b'\n' => Ok(Front::Long),
        _ => Ok(Front::Line { len }),
    }
}
