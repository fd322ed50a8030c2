ghost use Rattle.std.specs.Prelude.{◌≡◌, ◌+◌, ◌*◌, ◌<◌, ◌≤◌, ◌%◌, ◌^◌, length, take, drop, slice_get, Some, IfNone, IfSome};
ghost use Rattle.xdr_words.specs.Readers.{Reads, remaining};
ghost use Rattle.std.specs.Int.{w32, from_be_bytes};
ghost use Rattle.wire_spec.specs.Bodies.{items_at};
ghost use Rattle.wire_spec.specs.Reading.{word_at, reading};
ghost use Rattle.wire_spec.specs.Shapes.{word, array, Tree};
ghost use Rattle.wire_spec.specs.Spelling.{spell_all, AllTrees, IsLawful};
ghost use Rattle.as_paths.specs.WordLists.{words_in, word_trees, numbers_at};

use byteorder::{BigEndian, ByteOrder};
use std::marker::Model;
use wire_spec::{Fault, FaultKind};
use xdr_words::Cursor;

/// Words of four bytes each, the most significant first, one after the other (RFC 4506 section 4.13). Contracts see
/// the list of them.
#[derive(Drop)]
pub struct Words<'a> {
    bytes: &'a [u8],
}

impl<'a> Model for Words<'a> {
    ghost use Rattle.std.specs.Prelude.{ℕ, List};
    ghost use Rattle.as_paths.specs.WordLists.{words_in, AreWords};

    ghost Value = { List ℕ };

    ghost view = { λ w. words_in w.bytes.now };

    ghost invariant = { λ w. AreWords w.bytes.now };
}

impl<'a> Words<'a> {
    /// The words of bytes, whose number is a multiple of 4 and at most 65,535.
    pub fn over(bytes: &'a [u8]) -> Words<'a>
        requires whole { length bytes.now % 4 ≡ 0 }
        requires most { length bytes.now ≤ 65535 }
        ensures { result ≡ words_in bytes.now }
    {
        Words { bytes }
    }

    /// A count word, and that many words. `Short` at the first of them that isn't all there. A fault leaves the cursor as
    /// it was.
    pub fn read(cursor: &mut Cursor<'a>) -> Result<Words<'a>, Fault>
        ensures numbers { Reads (λ w. w) (λ f. f) cursor.old cursor.new result (numbers_at (remaining cursor.old)) }
        ensures exact { Reads (λ w. Tree.array (word_trees w)) (λ f. f) cursor.old cursor.new result
            (reading cursor.old.pad (array word) (remaining cursor.old)) }
    {
        Words::take_counted(cursor)
    }

    // A count word and that many words, as the definition reads them one after the other.
    fn take_counted(cursor: &mut Cursor<'a>) -> Result<Words<'a>, Fault>
        ensures { Reads (λ w. w) (λ f. f) cursor.old cursor.new result (numbers_at (remaining cursor.old)) }
    {
        let mut next = cursor.fork();
        let count = next.list_count()? as usize;
        let words = Words::take(&mut next, count)?;
        *cursor = next;
        Ok(words)
    }

    // So many words.
    fn take(cursor: &mut Cursor<'a>, count: usize) -> Result<Words<'a>, Fault>
        requires { count < 2 ^ 32 }
        ensures { Reads (λ w. w) (λ f. f) cursor.old cursor.new result (items_at word_at count (remaining cursor.old)) }
    {
        let at = cursor.at();
        let left = cursor.left();
        if left / 4 < count {
            return Err(Fault {
                at: at + left / 4 * 4,
                kind: FaultKind::Short {
                    need: 4,
                    left: (left % 4) as u64,
                },
            });
        }
        let bytes = cursor.fixed(4 * count)?;
        Ok(Words { bytes })
    }

    /// How many they are.
    pub fn len(&self) -> u32
        ensures { result ≡ length self.now }
    {
        (self.bytes.len() / 4) as u32
    }

    /// The one at `place`, from 0 on; `None` exactly where `place` is at least `len()`.
    pub fn get(&self, place: u32) -> Option<u32>
        ensures none { IfNone result (length self.now ≤ place) }
        ensures some { IfSome result (λ n. slice_get self.now place ≡ Some n) }
    {
        if place >= self.len() {
            return None;
        }
        Some(word_of(self.bytes, place as usize))
    }

    /// These words once more.
    pub fn fork(&self) -> Words<'a>
        ensures { result ≡ self.now }
    {
        Words { bytes: self.bytes }
    }

    /// Their bytes.
    pub fn bytes(&self) -> &'a [u8]
        ensures words { words_in result.now ≡ self.now }
        ensures spelled { spell_all (word_trees self.now) ≡ result.now }
        ensures whole { length result.now % 4 ≡ 0 }
        ensures lawful { AllTrees (IsLawful word) (word_trees self.now) }
    {
        self.bytes
    }
}

// The word at this place, counted in words.
fn word_of(bytes: &[u8], place: usize) -> u32
    requires { 4 * place + 4 ≤ length bytes.now }
    ensures { result ≡ from_be_bytes w32 (take 4 (drop (4 * place) bytes.now)) }
{
    BigEndian::read_u32(&bytes[4 * place..])
}
