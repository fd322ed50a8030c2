ghost use Rattle.std.specs.Prelude.{◌≡◌, ◌+◌, ◌<◌, ◌≤◌, ◌^◌, List, ℕ, length, IfOk, IfErr};
ghost use Rattle.wire_spec.specs.Bytes.{AreBytes};
ghost use Rattle.wire_spec.specs.Fails.{Fails};
ghost use Rattle.wire_spec.specs.Shapes.{Shape};
ghost use Rattle.wire_spec.specs.Spelling.{IsLawful};
ghost use Rattle.wire_spec.specs.Whole.{SpellsFront};
ghost use Rattle.xdr_words.specs.Readers.{Gives};
ghost use Rattle.xdr_words.specs.Written.{Puts};
ghost use Rattle.data_format.specs.Ranges.{EndsWith};
ghost use Rattle.data_format.specs.Records.{Content, record_reading, record_bytes, IsReadFrom};
ghost use Rattle.data_format.specs.Views.{body_of, frame_view};

use crate::Frame;
use wire_spec::{Fault, Pad};
use xdr_words::{Out, OutFull};

/// A record of the standard (sFlow Version 5, section 5) as the body of a frame holds it: its fields in the order of
/// the wire, and a tail behind them.
pub trait RecordBody<'a>: Sized + Drop {
    /// The shape of its fields.
    ghost shape: { Shape };

    /// The value of its fields, and its tail.
    ghost content: { Self → Content };

    /// Each of its slices other than the tail has at most 65,535 bytes. Most records have none.
    ghost are_short: { Self → Type 0 } = { λ _. Unit {0} };

    /// Where in the body these slices stand.
    ghost has_slices: { List ℕ → Self → Type 0 } = { λ _ _. Unit {0} };

    /// The record in the bytes of a body, the first of which stands at this place; `pad` is how padding is read. The
    /// place behind them is below 2^32.
    fn within(body: &'a [u8], at: usize, pad: Pad) -> Result<Self, Fault>
        requires { at + length body.now < 2 ^ 32 }
        ensures exact { Gives content (λ f. f) result (record_reading pad shape (record { at = at; bytes = body.now })) }
        ensures bytes { AreBytes body.now }
        ensures slices { IfOk result (λ r. has_slices body.now r) };

    /// The length of its body in bytes.
    fn length(&self) -> usize
        requires slices { are_short self.now }
        requires tail { length ((content self.now).1) ≤ 65535 }
        ensures { result ≡ length (record_bytes (content self.now)) };

    /// Its body, whole or not at all.
    fn put(&self, out: &mut Out<'_>) -> Result<(), OutFull>
        requires slices { are_short self.now }
        requires tail { length ((content self.now).1) ≤ 65535 }
        ensures written { Puts out.old out.new result (record_bytes (content self.now)) }
        ensures lawful { IsLawful shape (content self.now).0 };

    /// The record in a frame's body, whatever the frame's format; `pad` is how padding is read. The first fault from
    /// the front on: `Short` at an item, with its padding, that the body doesn't hold; `Pad` at a padding byte that
    /// isn't zero, where zeros are asked for; `AddressType` at the word of an address where it is above 2;
    /// `SegmentType` at a segment's first word where it is neither 1 nor 2. The place behind the body is below 2^32.
    #[inline(always)]
    final fn read(frame: Frame<'a>, pad: Pad) -> Result<Self, Fault>
        requires { frame.at + length frame.body.now < 2 ^ 32 }
        ensures exact { Gives content (λ f. f) result (record_reading pad shape (body_of (frame_view frame.entry))) }
        ensures spelled { IfOk result (λ r. SpellsFront pad shape frame.entry.body.now (content r)) }
        ensures fault { IfErr result (λ f. Fails pad shape (body_of (frame_view frame.entry)) f) }
        ensures slices { IfOk result (λ r. has_slices frame.entry.body.now r) }

        // The tail is the rest of the body.
        ensures tail { IfOk result (λ r. EndsWith frame.entry.body.now ((content r).1)) }
    {
        Self::within(frame.body, frame.at, pad)
    }

    /// Its body, whole or not at all.
    #[inline(always)]
    final fn write(&self, out: &mut Out<'_>) -> Result<(), OutFull>
        requires slices { are_short self.now }
        requires tail { length ((content self.now).1) ≤ 65535 }
        ensures written { Puts out.old out.new result (record_bytes (content self.now)) }

        // Wherever this body stands and however padding is read, the record is read from it again.
        ensures again { IsReadFrom shape (record_bytes (content self.now)) (content self.now) }
    {
        self.put(out)
    }
}
