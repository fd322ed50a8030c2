ghost use Rattle.std.specs.Prelude.{◌≡◌, ◌≢◌, ℕ, List, Some, Err, bytes_eq};
ghost use Rattle.sflow_io.specs.declared.capture.ReadRefusal.TheVariants.{BadInput, ReadFault};
ghost use Rattle.capture_spec.specs.PcapFiles.{four_at, version, ethernet};
ghost use Rattle.byte_ends.specs.Unread.{unread};
ghost use Rattle.sflow_io.specs.CaptureAnswers.{HasReadCause};
ghost use Rattle.byte_ends.specs.Unread.{StopsWithin};
ghost use Rattle.pcap_file.specs.PcapAnswers.{ReadsHeader, header_in, header_reading};

use crate::{ReadRefusal, Source};
use byte_ends::ReadAhead;
use capture_spec::ByteOrder;
use wire_spec::InputKind;

// These four bytes stand at this place.
fn stands_at(front: &[u8], at: usize, part: &[u8; 4]) -> bool
    ensures { result ≡ bytes_eq (four_at at front.now) part.now }
{
    at <= front.len() && front[at..].starts_with(part)
}

fn refusal(at: u128, kind: InputKind) -> ReadRefusal
    ensures { result ≡ BadInput at kind }
{
    ReadRefusal::BadInput { at, kind }
}

// What a header of this order lacks.
#[tactic(auto, unfolding(crate::specs::PcapAnswers::header_in))]
fn check_header(
    front: &[u8],
    order: ByteOrder,
    bytes: &[u8; 4],
    link: &[u8; 4],
) -> Result<ByteOrder, ReadRefusal>
    requires version_is { bytes.now ≡ version order }
    requires link_is { link.now ≡ ethernet order }
    ensures says { result ≡ header_in order front.now }
    ensures unread { result ≢ Err ReadFault }
{
    if !stands_at(front, 4, bytes) {
        return Err(refusal(4, InputKind::Version));
    }
    if !stands_at(front, 20, link) {
        return Err(refusal(20, InputKind::Link));
    }
    Ok(order)
}

// What these first bytes of the input say.
#[tactic(auto, unfolding(crate::specs::PcapAnswers::header_reading))]
fn header_of(front: &[u8]) -> Result<ByteOrder, ReadRefusal>
    ensures says { result ≡ header_reading front.now }
    ensures unread { result ≢ Err ReadFault }
{
    if stands_at(front, 0, &[0xa1, 0xb2, 0xc3, 0xd4]) {
        return check_header(front, ByteOrder::HighFirst, &[0, 2, 0, 4], &[0, 0, 0, 1]);
    }
    if stands_at(front, 0, &[0xd4, 0xc3, 0xb2, 0xa1]) {
        return check_header(front, ByteOrder::LowFirst, &[2, 0, 4, 0], &[1, 0, 0, 0]);
    }
    Err(refusal(0, InputKind::Magic))
}

// The header at the start of the input.
pub(crate) fn read_header<S: Source>(
    ahead: &mut ReadAhead,
    source: &mut S,
) -> Result<ByteOrder, ReadRefusal>
    ensures told { (bytes : List ℕ) → unread ahead.old (S.seen source.old) ≡ Some bytes
        → ReadsHeader bytes (unread ahead.new (S.seen source.new)) result }
    ensures cause { HasReadCause (S.seen source.old) (S.seen source.new) result }
    ensures stops { result ≡ Err ReadFault → StopsWithin (unread ahead.old (S.seen source.old)) (S.seen source.new).told 24 }
{
    let mut room = [0u8; 24];
    let Ok(count) = ahead.read_most(source, &mut room) else {
        return Err(ReadRefusal::ReadFault);
    };
    header_of(&room[..count])
}
