ghost use Rattle.xdr_words.specs.Readers.{Reads, remaining};

use crate::Words;
use wire_spec::{Fault, FaultKind};
use xdr_words::Cursor;

/// A part of an AS path (sFlow Version 5, section 5).
#[derive(Drop)]
pub struct Segment<'a> {
    /// Whether it is a sequence, in the order of the path, or a set.
    pub ordered: bool,
    /// The AS numbers.
    pub numbers: Words<'a>,
}

impl<'a> Segment<'a> {
    ghost use Rattle.as_paths.specs.Paths.{segment_at};

    // The word that says its kind, and its numbers, or the first fault.
    pub fn read(cursor: &mut Cursor<'a>) -> Result<Segment<'a>, Fault>
        ensures { Reads (λ s. s) (λ f. f) cursor.old cursor.new result (segment_at (remaining cursor.old)) }
    {
        let mut next = cursor.fork();
        let at = next.at();
        let ordered = match next.word()? {
            1 => false,
            2 => true,
            found => {
                return Err(Fault {
                    at,
                    kind: FaultKind::SegmentType { found },
                });
            }
        };
        let numbers = Words::read(&mut next)?;
        *cursor = next;
        Ok(Segment { ordered, numbers })
    }
}
