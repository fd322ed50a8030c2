ghost use Rattle.std.specs.Prelude.{◌≡◌, [], ◌∷◌, ◌+◌, ◌<◌, ◌^◌, length, Ok, IfNone, IfSome};
ghost use Rattle.wire_spec.specs.declared.pad.Pad.TheVariants.{Any};
ghost use Rattle.data_format.specs.Trees.{AllPass, table_test};
ghost use Rattle.data_format.specs.Views.{FrameView, IsFormat, frame_view};
ghost use Rattle.datagram_core.specs.SampleHeads.{IsHeadOf};
ghost use Rattle.datagram_core.specs.Samples.{IsSampleOf};
ghost use Rattle.datagram_core.specs.Tables.{samples_read};
ghost use Rattle.datagram_core.specs.Kinds.{IsUnreadOther};

use crate::{Sample, SampleHead};
use data_format::{Frame, Frames};
use std::marker::Model;

/// The samples of a datagram that are still to be given, in their order. Contracts see the list of their frames.
#[derive(Drop)]
pub struct Samples<'a> {
    frames: Frames<'a>,
}

impl<'a> Model for Samples<'a> {
    ghost use Rattle.std.specs.Prelude.{List};
    ghost use Rattle.data_format.specs.Trees.{AllPass};
    ghost use Rattle.data_format.specs.Views.{FrameView};
    ghost use Rattle.datagram_core.specs.Tables.{samples_read};

    ghost Value = { List FrameView };

    ghost view = { λ s. s.frames };

    ghost invariant = { λ s. AllPass samples_read s.frames };
}

impl<'a> Samples<'a> {
    /// The samples in these frames, in which their check found no fault.
    pub(crate) fn over(frames: Frames<'a>) -> Samples<'a>
        requires { AllPass samples_read frames }
        ensures { result ≡ frames.entry }
    {
        Samples { frames }
    }

    /// The same samples once more.
    pub fn fork(&self) -> Samples<'a>
        ensures { result ≡ self.now }
    {
        Samples {
            frames: self.frames.fork(),
        }
    }

    /// How many are left.
    pub fn len(&self) -> u32
        ensures { result ≡ length self.now }
    {
        self.frames.len()
    }

    // The frame of the first one that is left, which is then passed; `None` exactly where none is left. The check finds
    // no fault in it, and the place behind its body is below 2^32.
    #[inline(always)]
    fn next_frame(&mut self) -> Option<Frame<'a>>
        ensures none { IfNone result ((self.old ≡ []) × (self.new ≡ [])) }
        ensures some { IfSome result (λ f. self.old ≡ frame_view f ∷ self.new) }
        ensures format { IfSome result (λ f. IsFormat f.format) }
        ensures place { IfSome result (λ f. f.at + length f.body.now < 2 ^ 32) }
        ensures passes { IfSome result (λ f. table_test Any samples_read (frame_view f) ≡ Ok tt) }
    {
        self.frames.next()
    }

    /// The first one that is left, which is then passed; `None` exactly where none is left.
    #[inline(always)]
    pub fn next(&mut self) -> Option<Sample<'a>>
        ensures none { IfNone result ((self.old ≡ []) × (self.new ≡ [])) }
        ensures some { IfSome result (λ s. (f : FrameView) × (self.old ≡ f ∷ self.new) × IsSampleOf f s) }
        ensures unread { IfSome result (λ s. IsUnreadOther s) }
    {
        let frame = self.next_frame()?;
        Some(Sample::again(frame))
    }

    /// The head of the first one that is left, which is then passed with its records; `None` exactly where none is left.
    #[inline(always)]
    pub fn next_head(&mut self) -> Option<SampleHead>
        ensures none { IfNone result ((self.old ≡ []) × (self.new ≡ [])) }
        ensures some { IfSome result (λ h. (f : FrameView) × (self.old ≡ f ∷ self.new) × IsHeadOf f h) }
    {
        let passed = self.next_frame()?;
        Some(SampleHead::again(passed))
    }
}
