//! Numbers with a fixed number of decimals, kept as whole numbers of units of the last decimal.
ghost use Rattle.std.specs.Prelude.{◌≡◌, ◌==◌, ◌+◌, ◌^◌, ◌<◌, ◌++◌, true, not, ◌||◌, min, length, drop, replicate, take, vec_len, Ok, IfSome, OnOk, OnErr, IsUtf8};
ghost use Rattle.std.specs.List.{list_all, list_any, before_first, after_first};
ghost use Rattle.std.specs.Char.{is_ascii_digit};
ghost use Rattle.xf_base.specs.Fixed.{is_negative, without_sign, number_after, units_of, read_digits, number_of, with_zeros, with_point, fixed_text};

use crate::blank::without_blanks;
use crate::out_of_memory::OutOfMemory;
use itoa::Buffer;
use thiserror::Error;

/// Why a text is no number. The first that holds, in this order.
#[derive(Clone, Copy, Debug, PartialEq, Eq, Error)]
pub enum NumberRefusal {
    /// Nothing but blanks.
    #[error("empty")]
    Empty,
    /// Not an optional sign and digits with at most one point.
    #[error("not a number")]
    NotNumber,
    /// A digit other than 0 after the last decimal.
    #[error("too many decimals")]
    TooManyDecimals,
    /// Below -10^15 or above 10^15 units.
    #[error("out of range")]
    OutOfRange,
}

/// The greatest number of units that a cell may hold; the least is as far below 0.
pub const GREATEST_NUMBER: u64 = 1_000_000_000_000_000;

/// So many digits write no number above the greatest.
const PLAIN_DIGITS: usize = 15;

/// The number of units that a text writes: `1.50` is 15 at one decimal. Blanks at its ends do not count, a sign may
/// stand in front and one point before, among or after the digits.
pub fn read_fixed(text: &[u8], decimals: u8) -> Result<i64, NumberRefusal>
    ensures { result ≡ number_of text.now decimals }
{
    if decimals == 0
        && let Some(number) = plain_number(text)
    {
        return Ok(number);
    }
    let text = without_blanks(text);
    if text.is_empty() {
        return Err(NumberRefusal::Empty);
    }
    let (is_negative, digits) = split_sign(text);
    let (whole, fraction) = split_at_point(digits);
    let number = read_digits(whole, fraction, decimals)? as i64;
    Ok(if is_negative { -number } else { number })
}

/// The number of a text that is few digits alone, or a sign and these. Most whole numbers are such, and their digits are
/// gone over once.
fn plain_number(text: &[u8]) -> Option<i64>
    ensures { IfSome result (λ number. number_of text.now 0 ≡ Ok number) }
{
    let (is_negative, digits) = split_sign(text);
    let number = plain_digits(digits)? as i64;
    Some(if is_negative { -number } else { number })
}

/// The number of a text that is digits alone, from 1 to 15 of them.
fn plain_digits(text: &[u8]) -> Option<u64>
    ensures some { IfSome result (λ _. 0 < length text.now) }
    ensures digits { IfSome result (λ _. list_all is_ascii_digit text.now ≡ true) }
    ensures value { IfSome result (λ number. number ≡ number_after 0 text.now) }
    ensures small { IfSome result (λ number. number < GREATEST_NUMBER) }
{
    if text.is_empty() || text.len() > PLAIN_DIGITS {
        return None;
    }
    let mut number: u64 = 0;
    for byte in text {
        if !byte.is_ascii_digit() {
            return None;
        }
        number = number * 10 + u64::from(*byte - b'0');
    }
    Some(number)
}

/// Whether a `-` stands in front, and what stands after the sign.
fn split_sign(text: &[u8]) -> (bool, &[u8])
    ensures sign { result.0 ≡ is_negative text.now }
    ensures rest { result.1.now ≡ without_sign text.now }
{
    match text {
        [b'-', rest @ ..] => (true, rest),
        [b'+', rest @ ..] => (false, rest),
        _ => (false, text),
    }
}

/// What stands before the first point and what stands after it.
fn split_at_point(text: &[u8]) -> (&[u8], &[u8])
    ensures whole { result.0.now ≡ before_first (λ b. b == 46) text.now }
    ensures fraction { result.1.now ≡ after_first (λ b. b == 46) text.now }
{
    for (i, byte) in text.iter().enumerate() {
        if *byte == b'.' {
            return (&text[..i], &text[i + 1..]);
        }
    }
    (text, &text[text.len()..])
}

fn read_digits(whole: &[u8], fraction: &[u8], decimals: u8) -> Result<u64, NumberRefusal>
    ensures { result ≡ read_digits whole.now fraction.now decimals }
{
    if !are_digits(whole, fraction) {
        return Err(NumberRefusal::NotNumber);
    }
    if has_more_decimals(fraction, decimals) {
        return Err(NumberRefusal::TooManyDecimals);
    }
    let number = units_capped(whole, fraction, decimals);
    if number > GREATEST_NUMBER {
        return Err(NumberRefusal::OutOfRange);
    }
    Ok(number)
}

/// Whether both are digits alone, and one is not empty.
fn are_digits(whole: &[u8], fraction: &[u8]) -> bool
    ensures { result
        ≡ not ((length whole.now + length fraction.now == 0)
        || not (list_all is_ascii_digit whole.now)
        || not (list_all is_ascii_digit fraction.now)) }
{
    whole.len() + fraction.len() > 0 && all_digits(whole) && all_digits(fraction)
}

pub(crate) fn all_digits(text: &[u8]) -> bool
    ensures { result ≡ list_all is_ascii_digit text.now }
{
    text.iter().all(u8::is_ascii_digit)
}

/// Whether a digit other than 0 stands after so many decimals.
fn has_more_decimals(fraction: &[u8], decimals: u8) -> bool
    ensures { result ≡ list_any (λ digit. not (digit == 48)) (drop decimals fraction.now) }
{
    has_nonzero(&fraction[fraction.len().min(usize::from(decimals))..])
}

fn has_nonzero(digits: &[u8]) -> bool
    ensures { result ≡ list_any (λ digit. not (digit == 48)) digits.now }
{
    digits.iter().any(|digit| *digit != b'0')
}

/// The number of units, or one above the greatest where it is above.
fn units_capped(whole: &[u8], fraction: &[u8], decimals: u8) -> u64
    ensures { result ≡ min (units_of whole.now fraction.now decimals) (GREATEST_NUMBER + 1) }
{
    let decimals = usize::from(decimals);
    let kept = &fraction[..fraction.len().min(decimals)];
    let front = number_after_capped(number_after_capped(0, whole), kept);
    zeros_after_capped(front, decimals - kept.len())
}

/// The number that digits write after those of `front`, or one above the greatest where it is above.
pub(crate) fn number_after_capped(front: u64, digits: &[u8]) -> u64
    ensures { result ≡ min (number_after front digits.now) (GREATEST_NUMBER + 1) }
{
    let mut number = front.min(GREATEST_NUMBER + 1);
    for digit in digits {
        number = (number * 10 + u64::from(digit.saturating_sub(b'0'))).min(GREATEST_NUMBER + 1);
    }
    number
}

/// The same for so many zeros.
fn zeros_after_capped(front: u64, zeros: usize) -> u64
    ensures { result ≡ min (number_after front (replicate zeros 48)) (GREATEST_NUMBER + 1) }
{
    let mut number = front.min(GREATEST_NUMBER + 1);
    for _ in 0..zeros {
        number = (number * 10).min(GREATEST_NUMBER + 1);
    }
    number
}

/// Appends a number of units: `-`, the digits, and a point before the last `decimals` of them.
pub fn put_fixed(out: &mut Vec<u8>, number: i128, decimals: u8) -> Result<(), OutOfMemory>
    ensures ok { OnOk result (out.new.items ≡ out.old.items ++ fixed_text number decimals) }
    ensures err { OnErr result (out.new.items ≡ out.old.items) }
    ensures utf8 { IsUtf8 (fixed_text number decimals) }
{
    let start = out.len();
    let appended = append_fixed(out, number, decimals);
    if appended.is_err() {
        out.truncate(start);
    }
    appended
}

/// Appends the same, or only its front where memory is refused.
fn append_fixed(out: &mut Vec<u8>, number: i128, decimals: u8) -> Result<(), OutOfMemory>
    ensures ok { OnOk result (out.new.items ≡ out.old.items ++ fixed_text number decimals) }
    ensures err { OnErr result (take (vec_len out.old) out.new.items ≡ out.old.items) }
{
    if number < 0 {
        out.push(b'-')?;
    }
    let mut buffer = Buffer::new();
    let digits = buffer.format(number.unsigned_abs());
    append_with_point(out, digits.as_bytes(), usize::from(decimals))
}

/// Appends digits with a point before the last `decimals` of them, or only their front where memory is refused.
fn append_with_point(out: &mut Vec<u8>, digits: &[u8], decimals: usize) -> Result<(), OutOfMemory>
    requires some { 0 < length digits.now }
    requires few { decimals < 256 }
    ensures ok { OnOk result (out.new.items ≡ out.old.items ++ with_point decimals (with_zeros (decimals + 1) digits.now)) }
    ensures err { OnErr result (take (vec_len out.old) out.new.items ≡ out.old.items) }
{
    if decimals == 0 {
        out.extend_from_slice(digits)?;
    } else if digits.len() > decimals {
        let (front, back) = digits.split_at(digits.len() - decimals);
        out.extend_from_slice(front)?;
        out.push(b'.')?;
        out.extend_from_slice(back)?;
    } else {
        out.extend_from_slice(b"0.")?;
        out.resize(out.len() + (decimals - digits.len()), b'0')?;
        out.extend_from_slice(digits)?;
    }
    Ok(())
}
