// The text of an address.
ghost use Rattle.std.specs.Prelude.{◌≡◌};
ghost use Rattle.wire_spec.specs.Texts.{grouped as grouped_text, dotted as dotted_text};

use crate::hex::{high, low};
use arrayvec::ArrayString;
use itoa::Buffer;

/// Four decimal numbers with dots between them.
pub(crate) fn dotted(bytes: &[u8; 4]) -> ArrayString<15>
    ensures { result.bytes ≡ dotted_text bytes.now }
{
    let mut text = ArrayString::new();
    let mut digits = Buffer::new();
    text.push_str(digits.format(bytes[0]));
    text.push_str(".");
    text.push_str(digits.format(bytes[1]));
    text.push_str(".");
    text.push_str(digits.format(bytes[2]));
    text.push_str(".");
    text.push_str(digits.format(bytes[3]));
    text
}

/// Eight groups of four hexadecimal digits with colons between them.
pub(crate) fn grouped(b: &[u8; 16]) -> [u8; 39]
    ensures { result ≡ grouped_text b.now }
{
    [
        high(b[0]),
        low(b[0]),
        high(b[1]),
        low(b[1]),
        b':',
        high(b[2]),
        low(b[2]),
        high(b[3]),
        low(b[3]),
        b':',
        high(b[4]),
        low(b[4]),
        high(b[5]),
        low(b[5]),
        b':',
        high(b[6]),
        low(b[6]),
        high(b[7]),
        low(b[7]),
        b':',
        high(b[8]),
        low(b[8]),
        high(b[9]),
        low(b[9]),
        b':',
        high(b[10]),
        low(b[10]),
        high(b[11]),
        low(b[11]),
        b':',
        high(b[12]),
        low(b[12]),
        high(b[13]),
        low(b[13]),
        b':',
        high(b[14]),
        low(b[14]),
        high(b[15]),
        low(b[15]),
    ]
}
