ghost use Rattle.std.specs.Prelude.{◌≡◌, ◌≤◌, ◌^◌, ◌<◌, ◌%◌, [], ◌∷◌, List, length, IfOk, IfErr, IfNone, IfSome, Ok, Err};
ghost use Rattle.wire_spec.specs.Bodies.{items_at};
ghost use Rattle.wire_spec.specs.Spelling.{spell_all, AllTrees, IsLawful};
ghost use Rattle.wire_spec.specs.Reading.{reading};
ghost use Rattle.wire_spec.specs.Shapes.{array, Tree};
ghost use Rattle.wire_spec.specs.Tables.{path_segment};
ghost use Rattle.xdr_words.specs.Readers.{Reads, Gives, remaining};
ghost use Rattle.as_paths.specs.declared.segment.Segment.{Segment};
ghost use Rattle.as_paths.specs.Paths.{segment_at, segment_trees, path_at, path_over, SpellsSegments, FailsSegments};

use crate::Segment;
use std::marker::Model;
use wire_spec::{Fault, FaultKind, Pad};
use xdr_words::Cursor;

/// The segments of an AS path that are still to be given (sFlow Version 5, section 5). Contracts see the list of them.
#[derive(Drop)]
pub struct AsPath<'a> {
    bytes: &'a [u8],
    // How many segments these bytes are.
    count: u32,
}

impl<'a> Model for AsPath<'a> {
    ghost use Rattle.std.specs.Prelude.{List, ◌<◌, ◌^◌, length};
    ghost use Rattle.wire_spec.specs.Bytes.{AreBytes};
    ghost use Rattle.as_paths.specs.declared.segment.Segment.{Segment};
    ghost use Rattle.as_paths.specs.Paths.{segments_in, AreSegments};

    ghost Value = { List Segment };

    ghost view = { λ p. segments_in p.count p.bytes.now };

    ghost invariant = { λ p. (length p.bytes.now < 2 ^ 32) × AreBytes p.bytes.now × AreSegments p.count p.bytes.now };
}

impl<'a> AsPath<'a> {
    /// The `count` segments that these bytes are, at most 65,535. `Short` at a word that isn't all there, `SegmentType`
    /// at a segment's first word that is neither 1 nor 2, or `Trailing` at the first byte behind the last segment, the
    /// first of these from the front on. Places count from 0.
    pub fn over(bytes: &'a [u8], count: u32) -> Result<AsPath<'a>, Fault>
        requires { length bytes.now ≤ 65535 }
        ensures segments { Gives (λ p. p) (λ f. f) result (path_over count bytes.now) }
        ensures spelled { IfOk result (λ p. SpellsSegments count bytes.now (segment_trees p)) }
        ensures fault { IfErr result (λ f. FailsSegments count bytes.now f) }
    {
        AsPath::cut(bytes, count)
    }

    // The segments that these bytes are, as the definition reads them one after the other.
    #[inline(always)]
    fn cut(bytes: &'a [u8], count: u32) -> Result<AsPath<'a>, Fault>
        requires { length bytes.now ≤ 65535 }
        ensures { Gives (λ p. p) (λ f. f) result (path_over count bytes.now) }
    {
        let mut cursor = Cursor::new(bytes, Pad::Any);
        pass_segments(&mut cursor, count)?;
        if cursor.left() > 0 {
            return Err(Fault {
                at: cursor.at(),
                kind: FaultKind::Trailing {
                    left: cursor.left() as u64,
                },
            });
        }
        Ok(AsPath { bytes, count })
    }

    /// A count word, and that many segments; the first fault as for `over`. A fault leaves the cursor as it was.
    pub fn read(cursor: &mut Cursor<'a>) -> Result<AsPath<'a>, Fault>
        ensures segments { Reads (λ p. p) (λ f. f) cursor.old cursor.new result (path_at (remaining cursor.old)) }
        ensures exact { Reads (λ p. Tree.array (segment_trees p)) (λ f. f) cursor.old cursor.new result
            (reading cursor.old.pad (array path_segment) (remaining cursor.old)) }
    {
        AsPath::take_counted(cursor)
    }

    // A count word and that many segments, as the definition reads them one after the other.
    fn take_counted(cursor: &mut Cursor<'a>) -> Result<AsPath<'a>, Fault>
        ensures { Reads (λ p. p) (λ f. f) cursor.old cursor.new result (path_at (remaining cursor.old)) }
    {
        let mut next = cursor.fork();
        let count = next.list_count()?;
        let path = AsPath::take(&mut next, count)?;
        *cursor = next;
        Ok(path)
    }

    // So many segments.
    fn take(cursor: &mut Cursor<'a>, count: u32) -> Result<AsPath<'a>, Fault>
        ensures { Reads (λ p. p) (λ f. f) cursor.old cursor.new result (items_at segment_at count (remaining cursor.old)) }
    {
        let mut next = cursor.fork();
        let from = next.at();
        let rest = next.rest();
        pass_segments(&mut next, count)?;
        let bytes = &rest[..next.at() - from];
        *cursor = next;
        Ok(AsPath { bytes, count })
    }

    /// How many are left.
    pub fn len(&self) -> u32
        ensures { result ≡ length self.now }
    {
        self.count
    }

    /// The first one that is left, which is then passed; `None` exactly where none is left.
    pub fn next(&mut self) -> Option<Segment<'a>>
        ensures none { IfNone result ((self.old ≡ []) × (self.new ≡ [])) }
        ensures some { IfSome result (λ s. self.old ≡ s ∷ self.new) }
    {
        if self.count == 0 {
            return None;
        }
        let mut cursor = Cursor::new(self.bytes, Pad::Any);
        match Segment::read(&mut cursor) {
            Ok(segment) => {
                self.bytes = cursor.rest();
                self.count -= 1;
                Some(segment)
            }
            Err(_) => unreachable!(),
        }
    }

    /// These segments once more.
    pub fn fork(&self) -> AsPath<'a>
        ensures { result ≡ self.now }
    {
        AsPath {
            bytes: self.bytes,
            count: self.count,
        }
    }

    /// The bytes that spell those that are left.
    pub fn bytes(&self) -> &'a [u8]
        ensures spelled { spell_all (segment_trees self.now) ≡ result.now }
        ensures whole { length result.now % 4 ≡ 0 }
        ensures lawful { AllTrees (IsLawful path_segment) (segment_trees self.now) }
    {
        self.bytes
    }
}

// Past so many segments, or the first fault.
fn pass_segments(cursor: &mut Cursor<'_>, count: u32) -> Result<(), Fault>
    ensures ok { IfOk result (λ u. (xs : List Segment) × (items_at segment_at count (remaining cursor.old) ≡ Ok (xs, remaining cursor.new))) }
    ensures pad { cursor.new.pad ≡ cursor.old.pad }
    ensures err { IfErr result (λ f. items_at segment_at count (remaining cursor.old) ≡ Err f) }
{
    for _ in 0..count {
        Segment::read(cursor)?;
    }
    Ok(())
}
