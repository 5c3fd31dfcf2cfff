//! Counts as words of a session.
ghost use Rattle.std.specs.Prelude.{◌≡◌, ◌<◌, ◌≤◌, ◌^◌, true, length, IfSome};
ghost use Rattle.std.specs.Char.{is_ascii_digit};
ghost use Rattle.std.specs.List.{list_all};
ghost use Rattle.xf_base.specs.Fixed.{number_after};
ghost use Rattle.xf_filter.specs.Words.{count_of, divisor_of, remainder_of};

/// The greatest number of digits of a count.
const MOST_DIGITS: usize = 15;

/// The divisor of a modulo that a word writes: a count from 1 on.
pub fn divisor_of(word: &[u8]) -> Option<u64>
    ensures exact { result ≡ divisor_of word.now }
    ensures small { IfSome result (λ divisor. divisor < 10 ^ 15) }
{
    match count_of(word) {
        Some(count) if count > 0 => Some(count),
        _ => None,
    }
}

/// The remainder of a modulo that a word writes: a count below the divisor.
pub fn remainder_of(divisor: u64, word: &[u8]) -> Option<u64>
    ensures exact { result ≡ remainder_of divisor word.now }
    ensures small { IfSome result (λ remainder. remainder < divisor) }
{
    match count_of(word) {
        Some(count) if count < divisor => Some(count),
        _ => None,
    }
}

/// The count that a word writes: 1 to 15 digits, of which the first may be 0.
pub fn count_of(word: &[u8]) -> Option<u64>
    ensures exact { result ≡ count_of word.now }
    ensures small { IfSome result (λ count. count < 10 ^ 15) }
{
    if word.is_empty() || word.len() > MOST_DIGITS || !all_digits(word) {
        return None;
    }
    Some(number_of(word))
}

fn all_digits(word: &[u8]) -> bool
    ensures { result ≡ list_all is_ascii_digit word.now }
{
    word.iter().all(u8::is_ascii_digit)
}

/// The number that few digits write.
fn number_of(digits: &[u8]) -> u64
    requires few { length digits.now ≤ 15 }
    requires digits { list_all is_ascii_digit digits.now ≡ true }
    ensures value { result ≡ number_after 0 digits.now }
    ensures small { result < 10 ^ 15 }
{
    let mut number: u64 = 0;
    for byte in digits {
        number = number * 10 + u64::from(*byte - b'0');
    }
    number
}
