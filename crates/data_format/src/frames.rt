ghost use Rattle.std.specs.Prelude.{◌≡◌, [], ◌∷◌, ◌+◌, ◌<◌, ◌^◌, length, IfNone, IfSome, IfOk, IfErr};
ghost use Rattle.wire_spec.specs.Fails.{Fails};
ghost use Rattle.wire_spec.specs.Shapes.{array, frame, Table, Tree};
ghost use Rattle.wire_spec.specs.Spells.{Spells};
ghost use Rattle.xdr_words.specs.Readers.{Reads, Passes, remaining};
ghost use Rattle.data_format.specs.Frames.{checked_at, frames_at};
ghost use Rattle.data_format.specs.Trees.{IsTestOf, AllPass, frame_trees};
ghost use Rattle.data_format.specs.Views.{IsFormat, frame_view};

use crate::check::AnyBody;
use crate::{BodyCheck, Format, Frame};
use std::marker::Model;
use wire_spec::{Fault, Pad};
use xdr_words::Cursor;

/// Frames that were read, those that are still to be given. Contracts see the list of them.
#[derive(Drop)]
pub struct Frames<'a> {
    rest: &'a [u8],
    // The place of the first byte of `rest`.
    at: usize,
    // How many frames stand at the front of `rest`.
    count: u32,
}

impl<'a> Model for Frames<'a> {
    ghost use Rattle.std.specs.Prelude.{List, ◌+◌, ◌<◌, ◌^◌, length};
    ghost use Rattle.data_format.specs.Views.{FrameView};
    ghost use Rattle.data_format.specs.Frames.{frames_in, AreFrames};

    ghost Value = { List FrameView };

    ghost view = { λ f. frames_in f.count (record { at = f.at; bytes = f.rest.now }) };

    ghost invariant = { λ f. (f.at + length f.rest.now < 2 ^ 32) × AreFrames f.count (record { at = f.at; bytes = f.rest.now }) };
}

impl<'a> Frames<'a> {
    /// A count word and that many frames, each of them with the format word, the length word, the body and its
    /// padding; `pad` is the cursor's reading of padding. The first fault from the front on: `Short` at a word or a
    /// padded body that isn't all there; else the fault that the check finds in the body; else `Pad` at the body's
    /// first padding byte that isn't zero, where zeros are asked for. A fault leaves the cursor as it was.
    pub fn read<C: BodyCheck>(
        cursor: &mut Cursor<'a>,
        pad: Pad,
        check: &C,
    ) -> Result<Frames<'a>, Fault>
        requires { pad ≡ cursor.old.pad }
        ensures exact { Reads (λ f. f) (λ f. f) cursor.old cursor.new result
            (frames_at pad (λ f. C.test check.now pad f) (remaining cursor.old)) }

        // Where the check's test is that of a table, they are an array of the table's frames.
        ensures spelled { (T : Table) → IsTestOf pad T (λ f. C.test check.now pad f)
            → IfOk result (λ fs. Passes (Spells pad (array (frame T)) (Tree.array (frame_trees T fs))) cursor.old cursor.new) }
        ensures fault { (T : Table) → IsTestOf pad T (λ f. C.test check.now pad f)
            → IfErr result (λ f. Fails pad (array (frame T)) (remaining cursor.old) f) }
        ensures passes { (T : Table) → IsTestOf pad T (λ f. C.test check.now pad f) → IfOk result (λ fs. AllPass T fs) }
    {
        // It tells that what is left are bytes.
        let _ = cursor.at();
        Frames::take(cursor, pad, check)
    }

    // A count word and that many frames, as the definition reads them one after the other.
    fn take<C: BodyCheck>(cursor: &mut Cursor<'a>, pad: Pad, check: &C) -> Result<Frames<'a>, Fault>
        requires { pad ≡ cursor.old.pad }
        ensures { Reads (λ f. f) (λ f. f) cursor.old cursor.new result
            (frames_at pad (λ f. C.test check.now pad f) (remaining cursor.old)) }
    {
        let mut next = cursor.fork();
        let count = next.list_count()?;
        let rest = next.rest();
        let at = next.at();
        for _ in 0..count {
            read_frame(&mut next, pad, check)?;
        }
        *cursor = next;
        Ok(Frames { rest, at, count })
    }

    /// No frames.
    pub fn none() -> Frames<'a>
        ensures { result ≡ [] }
    {
        Frames {
            rest: &[],
            at: 0,
            count: 0,
        }
    }

    /// How many are left.
    #[inline(always)]
    pub fn len(&self) -> u32
        ensures { result ≡ length self.now }
    {
        self.count
    }

    /// These frames once more.
    #[inline(always)]
    pub fn fork(&self) -> Frames<'a>
        ensures { result ≡ self.now }
    {
        Frames {
            rest: self.rest,
            at: self.at,
            count: self.count,
        }
    }

    /// The first one that is left, which is then passed; `None` exactly where none is left. The place behind its body
    /// is below 2^32.
    #[inline(always)]
    pub fn next(&mut self) -> Option<Frame<'a>>
        ensures none { IfNone result ((self.old ≡ []) × (self.new ≡ [])) }
        ensures some { IfSome result (λ f. self.old ≡ frame_view f ∷ self.new) }
        ensures format { IfSome result (λ f. IsFormat f.format) }
        ensures place { IfSome result (λ f. f.at + length f.body.now < 2 ^ 32) }
    {
        if self.count == 0 {
            return None;
        }
        let mut cursor = Cursor::within(self.rest, Pad::Any, self.at);
        match read_frame(&mut cursor, Pad::Any, &AnyBody) {
            Ok(frame) => {
                self.rest = cursor.rest();
                self.at = cursor.at();
                self.count -= 1;
                Some(frame)
            }
            Err(_) => unreachable!(),
        }
    }
}

// One frame that the check takes, or the first fault.
fn read_frame<'a, C: BodyCheck>(
    cursor: &mut Cursor<'a>,
    pad: Pad,
    check: &C,
) -> Result<Frame<'a>, Fault>
    requires { pad ≡ cursor.old.pad }
    ensures exact { Reads frame_view (λ f. f) cursor.old cursor.new result
        (checked_at pad (λ f. C.test check.now pad f) (remaining cursor.old)) }
    ensures format { IfOk result (λ f. IsFormat f.format) }
    ensures place { IfOk result (λ f. f.at + length f.body.now < 2 ^ 32) }
{
    let mut next = cursor.fork();
    let format = Format::from_word(next.word()?);
    let body = next.body()?;
    let frame = Frame {
        format,
        body: body.bytes,
        at: body.at,
    };
    check.check(frame, pad)?;
    next.body_end(frame.body.len())?;
    *cursor = next;
    Ok(frame)
}
