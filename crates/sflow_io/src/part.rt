// What several fields of a capture are read by.
ghost use Rattle.std.specs.Prelude.{◌≡◌, ◌≤◌, length};
ghost use Rattle.data_format.specs.Addresses.{address_of};
ghost use Rattle.sflow_io.specs.CaptureAnswers.{address_size};
ghost use Rattle.sflow_io.specs.Fronts.{ReadsPart};

use crate::{InputKind, ReadRefusal, Sender, Source};
use byte_ends::ReadAhead;
use data_format::Address;

/// Where an entry begins, and what stands before its datagram: the arrival, the sender where there is one, and how many
/// bytes more than in version 1.
#[derive(Clone, Copy)]
pub(crate) struct EntryStart {
    pub(crate) offset: u128,
    pub(crate) at: u64,
    pub(crate) from: Option<Sender>,
    pub(crate) more: usize,
}

/// How many bytes an address has.
pub(crate) fn size_of(address: &Address) -> usize
    ensures { result ≡ address_size (address_of address.now) }
{
    match address {
        Address::Unknown => 0,
        Address::V4(_) => 4,
        Address::V6(_) => 16,
    }
}

/// A whole part of what begins at this offset.
pub(crate) fn read_part<S: Source>(
    ahead: &mut ReadAhead,
    source: &mut S,
    part: &mut [u8],
    offset: u128,
) -> Result<(), ReadRefusal>
    ensures reads { ReadsPart offset ahead.old (S.seen source.old) ahead.new (S.seen source.new) part.new result }
{
    let Ok(count) = ahead.read_most(source, part) else {
        return Err(ReadRefusal::ReadFault);
    };
    if count < part.len() {
        return Err(ReadRefusal::BadInput {
            at: offset,
            kind: InputKind::Cut,
        });
    }
    Ok(())
}
