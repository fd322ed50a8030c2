// The numbers that options take.
ghost use Rattle.std.specs.Prelude.{◌≡◌};
ghost use Rattle.std.specs.Char.{is_ascii_digit};
ghost use Rattle.std.specs.List.{list_all};
ghost use Rattle.command_words.specs.Numbers.{has_leading_zero as leading_zero, is_numeral as numeral, number_in as number, wide_number_in as wide_number};

fn has_leading_zero(digits: &[u8]) -> bool
    ensures { result ≡ leading_zero digits.now }
{
    digits.len() > 1 && digits[0] == b'0'
}

fn are_digits(bytes: &[u8]) -> bool
    ensures { result ≡ list_all is_ascii_digit bytes.now }
{
    bytes.iter().all(|byte| byte.is_ascii_digit())
}

// One decimal digit or more, without a leading zero.
fn is_numeral(text: &str) -> bool
    ensures { result ≡ numeral text.now }
{
    let bytes = text.as_bytes();
    !bytes.is_empty() && !has_leading_zero(bytes) && are_digits(bytes)
}

/// The number of 32 bits that the text writes in decimal digits, without a leading zero.
pub(crate) fn number_in(text: &str) -> Option<u32>
    ensures { result ≡ number text.now }
{
    if is_numeral(text) {
        text.parse().ok()
    } else {
        None
    }
}

/// The number of 64 bits that the text writes so.
pub(crate) fn wide_number_in(text: &str) -> Option<u64>
    ensures { result ≡ wide_number text.now }
{
    if is_numeral(text) {
        text.parse::<u64>().ok()
    } else {
        None
    }
}
