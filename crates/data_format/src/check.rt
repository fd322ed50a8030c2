ghost use Rattle.std.specs.Prelude.{◌≡◌, ◌+◌, ◌<◌, ◌^◌, length, Result, Ok};
ghost use Rattle.wire_spec.specs.declared.pad.Pad.{Pad};
ghost use Rattle.wire_spec.specs.declared.fault.Fault.{Fault};
ghost use Rattle.xdr_words.specs.Readers.{Tests};
ghost use Rattle.data_format.specs.Views.{FrameView, frame_view};

use crate::Frame;
use wire_spec::{Fault, Pad};

/// What is asked of the body of a frame, beyond that it is there.
pub trait BodyCheck {
    /// For each way to read padding and each format, body and place: the one fault that is found, or none.
    ghost test: { Self → Pad → FrameView → Result (Unit {0}) Fault };

    /// That fault, or none. The place behind the body is below 2^32.
    fn check(&self, frame: Frame<'_>, pad: Pad) -> Result<(), Fault>
        requires { frame.at + length frame.body.now < 2 ^ 32 }
        ensures { Tests (λ f. f) result (test self.now pad (frame_view frame.entry)) };
}

/// The check that finds no fault in any body.
#[derive(Clone, Copy, Drop)]
pub struct AnyBody;

impl BodyCheck for AnyBody {
    ghost test = { λ _ _ _. Ok tt };

    fn check(&self, _frame: Frame<'_>, _pad: Pad) -> Result<(), Fault> {
        Ok(())
    }
}
