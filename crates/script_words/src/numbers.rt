// Numbers, each one word.
ghost use Rattle.std.specs.Prelude.{◌≡◌, ◌≤◌, true, Some, IfSome};
ghost use Rattle.std.specs.Char.{is_ascii_digit};
ghost use Rattle.std.specs.List.{list_all};
ghost use Rattle.script_spec.specs.Words.{has_leading_zero as leading_zero, is_between, is_numeral as is_numeral_in, number, where_true};
ghost use Rattle.script_words.specs.Taken.{Reads, value64};

fn has_leading_zero(word: &[u8]) -> bool
    ensures { result ≡ leading_zero word.now }
{
    word.len() > 1 && word[0] == b'0'
}

fn are_digits(word: &[u8]) -> bool
    ensures { result ≡ list_all is_ascii_digit word.now }
{
    word.iter().all(|byte| byte.is_ascii_digit())
}

// One decimal digit or more, without a leading zero.
fn is_numeral(word: &[u8]) -> bool
    ensures { result ≡ is_numeral_in word.now }
{
    !word.is_empty() && !has_leading_zero(word) && are_digits(word)
}

// The number of 64 bits that a numeral writes.
fn value_of(numeral: &[u8]) -> Option<u64>
    requires { is_numeral_in numeral.now ≡ true }
    ensures { result ≡ value64 numeral.now }
{
    match str::from_utf8(numeral) {
        Ok(text) => text.parse().ok(),
        Err(_) => None,
    }
}

fn within(number: u64, least: u64, most: u64) -> Option<u64>
    ensures value { result ≡ where_true (is_between least most) (Some number) }
    ensures range { IfSome result (λ n. n ≤ most) }
{
    if least <= number && number <= most {
        Some(number)
    } else {
        None
    }
}

/// The number that the word writes, where it is from `least` to `most`.
pub(crate) fn number_in(word: &[u8], least: u64, most: u64) -> Option<u64>
    ensures reads { Reads (λ n. n) (number least most) word.now result }
    ensures range { IfSome result (λ n. n ≤ most) }
{
    if !is_numeral(word) {
        return None;
    }
    within(value_of(word)?, least, most)
}
