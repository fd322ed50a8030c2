ghost use Rattle.std.specs.Prelude.{◌≡◌};
ghost use Rattle.wire_spec.specs.FaultNames.{fault_name};

use data_format::{Address, Mac};
use wire_spec::FaultKind;

/// A piece of a line.
#[derive(Clone, Copy, Debug)]
pub enum Piece<'a> {
    /// Text as it stands.
    Text(&'a str),
    /// A number, 0 to 2^128 - 1, in decimal digits without a leading zero.
    Number(u128),
    /// An address: `unknown`, four decimal numbers with dots, or eight groups of four lower-case
    /// hexadecimal digits with colons, none of them shortened.
    Address(Address),
    /// Bytes, each as two lower-case hexadecimal digits; `-` where there are none.
    Hex(&'a [u8]),
    /// A MAC address (IEEE 802.3): six bytes, each as two such digits, with colons between them.
    Mac(Mac),
    /// The kind of a fault: `short`, `pad`, `version`, `address`, `segment`, `trailing` or `toolong`.
    Kind(FaultKind),
}

// The kind of a fault as it is printed.
pub(crate) fn kind_name(kind: &FaultKind) -> &'static str
    ensures { result.now ≡ fault_name kind.now }
{
    match kind {
        FaultKind::Short { .. } => "short",
        FaultKind::Pad => "pad",
        FaultKind::Version { .. } => "version",
        FaultKind::AddressType { .. } => "address",
        FaultKind::SegmentType { .. } => "segment",
        FaultKind::Trailing { .. } => "trailing",
        FaultKind::TooLong => "toolong",
    }
}
