// The text of bytes.
ghost use Rattle.std.specs.Prelude.{◌≡◌, ◌<◌, ◌/◌, ◌%◌, false};
ghost use Rattle.std.specs.Fmt.{digit_glyph};
ghost use Rattle.wire_spec.specs.Texts.{hex, hex_byte};
ghost use Rattle.text_lines.specs.Bytes.{mac_text};

use data_format::Mac;

// A lower-case hexadecimal digit.
fn digit(n: u8) -> u8
    requires { n < 16 }
    ensures { result ≡ digit_glyph false n }
{
    if n < 10 { b'0' + n } else { b'a' + (n - 10) }
}

pub(crate) fn high(byte: u8) -> u8
    ensures { result ≡ digit_glyph false (byte / 16) }
{
    digit(byte / 16)
}

pub(crate) fn low(byte: u8) -> u8
    ensures { result ≡ digit_glyph false (byte % 16) }
{
    digit(byte % 16)
}

/// Two lower-case hexadecimal digits.
pub(crate) fn pair(byte: u8) -> [u8; 2]
    ensures { result ≡ hex_byte byte }
{
    [high(byte), low(byte)]
}

/// The pairs of eight bytes.
#[inline(always)]
pub(crate) fn eight_pairs(bytes: [u8; 8]) -> [u8; 16]
    ensures { result ≡ hex bytes }
{
    let [a, b, c, d, e, f, g, h] = bytes;
    [
        high(a),
        low(a),
        high(b),
        low(b),
        high(c),
        low(c),
        high(d),
        low(d),
        high(e),
        low(e),
        high(f),
        low(f),
        high(g),
        low(g),
        high(h),
        low(h),
    ]
}

/// Six pairs of digits with colons between them.
pub(crate) fn colons(mac: &Mac) -> [u8; 17]
    ensures { result ≡ mac_text mac.now.0 }
{
    let b = mac.0;
    [
        high(b[0]),
        low(b[0]),
        b':',
        high(b[1]),
        low(b[1]),
        b':',
        high(b[2]),
        low(b[2]),
        b':',
        high(b[3]),
        low(b[3]),
        b':',
        high(b[4]),
        low(b[4]),
        b':',
        high(b[5]),
        low(b[5]),
    ]
}
