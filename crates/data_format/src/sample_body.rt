ghost use Rattle.std.specs.Prelude.{◌≡◌, ◌+◌, ◌<◌, ◌^◌, length, IfOk, IfErr, IsOk, Ok};
ghost use Rattle.wire_spec.specs.Bytes.{AreBytes};
ghost use Rattle.wire_spec.specs.declared.pad.Pad.TheVariants.{Any};
ghost use Rattle.wire_spec.specs.Fails.{Fails};
ghost use Rattle.wire_spec.specs.Shapes.{Table};
ghost use Rattle.wire_spec.specs.Spelling.{spell_all};
ghost use Rattle.wire_spec.specs.Whole.{SpellsFront};
ghost use Rattle.xdr_words.specs.Readers.{Gives};
ghost use Rattle.xdr_words.specs.Written.{Puts};
ghost use Rattle.data_format.specs.Parts.{with_frames};
ghost use Rattle.data_format.specs.Ranges.{StandIn, EndsWith};
ghost use Rattle.data_format.specs.SampleBodies.{body_parts, body_tree, HasHead};
ghost use Rattle.data_format.specs.Samples.{sample_reading};
ghost use Rattle.data_format.specs.Trees.{IsTestOf, AllPass};
ghost use Rattle.data_format.specs.Views.{body_of, frame_view};

use crate::{AnyBody, BodyCheck, Frame, Frames, HeadForm};
use std::marker::{Model, PhantomData};
use wire_spec::{Fault, Pad};
use xdr_words::{Cursor, Out, OutFull};

/// A sample as the body of a frame holds it (sFlow Version 5, section 5): a head that is spelled in the form `F`, the
/// frames of its records, and the bytes behind them. Contracts see these three.
#[derive(Drop)]
pub struct SampleBody<'a, H: Copy, F: HeadForm<H>> {
    head: H,
    frames: Frames<'a>,
    tail: &'a [u8],
    form: PhantomData<F>,
}

impl<'a, H: Copy, F: HeadForm<H>> Model for SampleBody<'a, H, F> {
    ghost use Rattle.data_format.specs.Samples.{SampleView};

    ghost Value = { SampleView H };

    ghost view = { λ s. record { head = s.head; frames = s.frames; tail = s.tail.now } };

    ghost invariant = { λ s. F.fits s.head };
}

impl<'a, H: Copy, F: HeadForm<H>> SampleBody<'a, H, F> {
    /// The sample in a frame's body, whatever the frame's format; `pad` is how padding is read. The first fault from
    /// the front on: `Short` at a word, or at a record's padded body, that the sample's body doesn't hold; else what
    /// the check finds in a record's body, and `Pad` at the padding behind it, as `Frames::read` says. The place behind
    /// the body is below 2^32.
    #[inline(always)]
    pub fn read<C: BodyCheck>(
        frame: Frame<'a>,
        pad: Pad,
        check: &C,
    ) -> Result<SampleBody<'a, H, F>, Fault>
        requires { frame.at + length frame.body.now < 2 ^ 32 }
        ensures exact { Gives (body_parts F.trees) (λ f. f) result
            (sample_reading pad F.members (λ f. C.test check.now pad f) (body_of (frame_view frame.entry))) }

        // Each part of the head is within the range that the form has for it.
        ensures form { IfOk result (λ s. F.fits s.head) }

        // Where the check's test is that of a table, it is a sample over this table.
        ensures spelled { (T : Table) → IsTestOf pad T (λ f. C.test check.now pad f)
            → IfOk result (λ s. SpellsFront pad (with_frames F.members T) frame.entry.body.now (body_tree F.trees T s, s.tail)) }
        ensures fault { (T : Table) → IsTestOf pad T (λ f. C.test check.now pad f)
            → IfErr result (λ f. Fails pad (with_frames F.members T) (body_of (frame_view frame.entry)) f) }
        ensures passes { (T : Table) → IsTestOf pad T (λ f. C.test check.now pad f) → IfOk result (λ s. AllPass T s.frames) }

        // The body of each record stands in the sample's body at its place; the tail is the rest of the body.
        ensures ranges { IfOk result (λ s. StandIn (body_of (frame_view frame.entry)) s.frames) }
        ensures tail { IfOk result (λ s. EndsWith frame.entry.body.now s.tail) }
    {
        SampleBody::within(frame.body, frame.at, pad, check)
    }

    // The sample in the bytes of a body, the first of which stands at this place.
    #[inline(always)]
    fn within<C: BodyCheck>(
        body: &'a [u8],
        at: usize,
        pad: Pad,
        check: &C,
    ) -> Result<SampleBody<'a, H, F>, Fault>
        requires { at + length body.now < 2 ^ 32 }
        ensures exact { Gives (body_parts F.trees) (λ f. f) result
            (sample_reading pad F.members (λ f. C.test check.now pad f) (record { at = at; bytes = body.now })) }
        ensures form { IfOk result (λ s. F.fits s.head) }
        ensures bytes { AreBytes body.now }
    {
        let mut cursor = Cursor::within(body, pad, at);
        let head = F::take(&mut cursor)?;
        let frames = Frames::read(&mut cursor, pad, check)?;
        let tail = cursor.rest();
        let form = PhantomData;
        Ok(SampleBody {
            head,
            frames,
            tail,
            form,
        })
    }

    /// The sample in the body of a frame in which this check found no fault; it isn't made again. The place behind the
    /// body is below 2^32.
    #[inline(always)]
    pub fn again<C: BodyCheck>(frame: Frame<'a>, _check: &C) -> SampleBody<'a, H, F>
        requires place { frame.at + length frame.body.now < 2 ^ 32 }
        requires passes { IsOk (sample_reading Any F.members (λ f. C.test _check.now Any f) (body_of (frame_view frame))) }
        ensures exact { sample_reading Any F.members (λ f. C.test _check.now Any f) (body_of (frame_view frame.entry))
            ≡ Ok (body_parts F.trees result) }
        ensures passes { (T : Table) → IsTestOf Any T (λ f. C.test _check.now Any f) → AllPass T result.frames }
        ensures ranges { StandIn (body_of (frame_view frame.entry)) result.frames }
        ensures tail { EndsWith frame.entry.body.now result.tail }
    {
        match SampleBody::read(frame, Pad::Any, &AnyBody) {
            Ok(sample) => sample,
            Err(_) => unreachable!(),
        }
    }

    /// The head alone of the sample in the body of a frame in which this check found no fault. The place behind the body
    /// is below 2^32.
    #[inline(always)]
    pub fn head_again<C: BodyCheck>(frame: Frame<'_>, _check: &C) -> H
        requires place { frame.at + length frame.body.now < 2 ^ 32 }
        requires passes { IsOk (sample_reading Any F.members (λ f. C.test _check.now Any f) (body_of (frame_view frame))) }
        ensures exact { HasHead F.members (λ f. C.test _check.now Any f) (body_of (frame_view frame.entry)) (F.trees result) }
        ensures form { F.fits result }
    {
        let mut cursor = Cursor::within(frame.body, Pad::Any, frame.at);
        match F::take(&mut cursor) {
            Ok(head) => head,
            Err(_) => unreachable!(),
        }
    }

    /// What stands before the records. Each part is within the range that the form has for it.
    pub fn head(&self) -> H
        ensures head { result ≡ self.now.head }
        ensures form { F.fits result }
    {
        self.head
    }

    /// The frames of the records, from the first one on.
    pub fn frames(&self) -> Frames<'a>
        ensures { result ≡ self.now.frames }
    {
        self.frames.fork()
    }

    /// The bytes of the body behind the records.
    pub fn tail(&self) -> &'a [u8]
        ensures { result.now ≡ self.now.tail }
    {
        self.tail
    }

    /// The head of a sample, without the count of its records, whole or not at all. Each part is within the range that
    /// the form has for it: in the compact form `compact` of each source and port answers a word.
    #[inline(always)]
    pub fn write_head(head: &H, out: &mut Out<'_>) -> Result<(), OutFull>
        requires { F.fits head.now }
        ensures { Puts out.old out.new result (spell_all (F.trees head.now)) }
    {
        F::put(head, out)
    }
}
