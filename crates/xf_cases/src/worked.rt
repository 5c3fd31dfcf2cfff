//! Calls with values worked by hand: each makes one call, and its contract says what that gives. So the contract of the
//! call is seen to say enough to know it.
ghost use Rattle.std.specs.Prelude.{◌≡◌, Ok, Err, IfOk, pos, codes};
ghost use Rattle.xf_base.specs.declared.date.DateRefusal.TheVariants.{NoSuchDay};
ghost use Rattle.xf_base.specs.declared.fixed.NumberRefusal.TheVariants.{TooManyDecimals};
ghost use Rattle.xf_base.specs.declared.key.Key.TheVariants as key;

use std::alloc::{AllocError, Global};
use std::cmp::Ordering;
use xf_base::{
    AtomForm, DateRefusal, Key, KeyForm, NumberRefusal, OutOfMemory, Text, key_of_word, put_word,
    read_date, read_fixed,
};
use xf_model::{PlainRange, moved};

/// The day of a date that is none: 2001 was no leap year.
pub fn no_leap_day() -> Result<i64, DateRefusal>
    ensures { result ≡ Err NoSuchDay }
{
    read_date(b"2001-02-29")
}

/// One and a half, in tenths.
pub fn tenths() -> Result<i64, NumberRefusal>
    ensures { result ≡ Ok (pos 15) }
{
    read_fixed(b"1.50", 1)
}

/// A number of hundredths where there are tenths alone.
pub fn hundredths() -> Result<i64, NumberRefusal>
    ensures { result ≡ Err TooManyDecimals }
{
    read_fixed(b"1.25", 1)
}

/// A text with a blank and a quote, written as one word.
pub fn written_word(alloc: Global) -> Result<Vec<u8>, OutOfMemory>
    ensures { IfOk result (λ word. word.items ≡ codes "\"a \\\"b\"") }
{
    let mut word = Vec::new(alloc);
    put_word(&mut word, b"a \"b")?;
    Ok(word)
}

/// Numbers are ordered by their values, not by their digits.
pub fn order_of_numbers() -> Ordering
    ensures { result ≡ Ordering.Less }
{
    Key::Num(9).cmp(&Key::Num(10))
}

/// The key that a word names where keys are tenths.
pub fn key_of_tenths(alloc: Global) -> Result<Key, OutOfMemory>
    ensures { IfOk result (λ found. found ≡ key.Num (pos 15)) }
{
    let word = Text::of(alloc, "1.5")?;
    key_of_word(alloc, &KeyForm::One(AtomForm::Fixed(1)), &word)
}

/// How many of the numbers 5 and 7 come into a filter when its end goes from 7 to 8: its upper end is not in it.
pub fn moved_by_end(alloc: Global) -> Result<u64, AllocError>
    ensures { IfOk result (λ number. number ≡ 1) }
{
    let mut rows = Vec::new(alloc);
    rows.push([5].to_vec(alloc)?)?;
    rows.push([7].to_vec(alloc)?)?;
    let old = Some(PlainRange { low: 0, high: 7 });
    let new = Some(PlainRange { low: 0, high: 8 });
    Ok(moved(0, old, new, rows.as_slice()))
}
