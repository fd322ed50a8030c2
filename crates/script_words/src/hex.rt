// Bytes in hexadecimal digits.
ghost use Rattle.std.specs.Prelude.{◌≡◌, ◌<◌, IfSome, length, nat_le, option_map};
ghost use Rattle.script_spec.specs.Words.{hex_value as hex, hex_byte as byte, hex_bytes, where_true};

use arrayvec::ArrayVec;

// A lower-case hexadecimal digit.
fn hex_value(digit: u8) -> Option<u8>
    ensures value { result ≡ hex digit }
    ensures range { IfSome result (λ n. n < 16) }
{
    match digit {
        b'0'..=b'9' => Some(digit - b'0'),
        b'a'..=b'f' => Some(digit - b'a' + 10),
        _ => None,
    }
}

// Two digits, the higher one first.
pub(crate) fn hex_byte(high: u8, low: u8) -> Option<u8>
    ensures { result ≡ byte high low }
{
    let high = hex_value(high)?;
    let low = hex_value(low)?;
    Some(16 * high + low)
}

// Pairs of digits, for at most 128 bytes.
pub(crate) fn hex_bytes_in(word: &[u8]) -> Option<ArrayVec<u8, 128>>
    ensures { option_map (λ bytes. bytes.items) result ≡ where_true (λ bytes. nat_le (length bytes) 128) (hex_bytes word.now) }
{
    let mut bytes = ArrayVec::new();
    let mut at = 0;
    while at < word.len() {
        if at + 1 == word.len() {
            return None;
        }
        if bytes.try_push(hex_byte(word[at], word[at + 1])?).is_err() {
            return None;
        }
        at += 2;
    }
    Some(bytes)
}
