//! What is written for days, numbers, words, keys and refusals.
use super::form::{DATE, DATE_AND_NUMBER, NUMBER, TEXT, TEXT_AND_DATE, key_at};
use crate::see::see_text;
use std::alloc::Global;
use std::fmt::Display;
use std::test::Fail;
use xf_base::{
    DateRefusal, FIRST_DAY, KeyForm, LAST_DAY, NumberRefusal, OutOfMemory, put_date, put_fixed,
    put_key, put_number, put_word, texts_read_back,
};

/// What has a text.
enum Written {
    Day(i64),
    /// Units, and how many decimals.
    Units(i128, u8),
    Count(u64),
    Word(&'static str),
    /// A form, and the place of a key.
    Key(KeyForm, usize),
    BadDate(DateRefusal),
    BadNumber(NumberRefusal),
    Want,
}

/// What is written, and its text; the days before and after those of the calendar are written as numbers.
static WRITTEN: [(Written, &str); 53] = [
    (Written::Day(0), "1970-01-01"),
    (Written::Day(-1), "1969-12-31"),
    (Written::Day(11_336), "2001-01-14"),
    (Written::Day(11_016), "2000-02-29"),
    (Written::Day(11_017), "2000-03-01"),
    (Written::Day(-25_509), "1900-02-28"),
    (Written::Day(-25_508), "1900-03-01"),
    (Written::Day(FIRST_DAY), "0000-01-01"),
    (Written::Day(LAST_DAY), "9999-12-31"),
    (Written::Day(FIRST_DAY - 1), "-719529"),
    (Written::Day(LAST_DAY + 1), "2932897"),
    (Written::Day(i64::MIN), "-9223372036854775808"),
    (Written::Units(5, 2), "0.05"),
    (Written::Units(-5, 2), "-0.05"),
    (Written::Units(7, 0), "7"),
    (Written::Units(0, 0), "0"),
    (Written::Units(-7, 0), "-7"),
    (Written::Units(1_234, 2), "12.34"),
    (Written::Units(-120, 1), "-12.0"),
    (Written::Units(100, 3), "0.100"),
    (
        Written::Units(i128::MIN, 0),
        "-170141183460469231731687303715884105728",
    ),
    (
        Written::Units(i128::MAX, 38),
        "1.70141183460469231731687303715884105727",
    ),
    (Written::Count(u64::MAX), "18446744073709551615"),
    (Written::Count(0), "0"),
    (Written::Word("a"), "a"),
    (Written::Word(""), "\"\""),
    (Written::Word("a b"), "\"a b\""),
    (Written::Word("a\"b\\"), "\"a\\\"b\\\\\""),
    (Written::Word("a\\b"), "a\\b"),
    (Written::Word("a\tb"), "\"a\\tb\""),
    (Written::Word("a\rb"), "\"a\\rb\""),
    (Written::Word("a\nb"), "\"a\\nb\""),
    (Written::Word("\u{e9}"), "\u{e9}"),
    (Written::Key(NUMBER, 0), "-0.5"),
    (Written::Key(DATE, 1), "2001-01-14"),
    (Written::Key(DATE, 2), "2932897"),
    (Written::Key(TEXT, 0), "-5"),
    (Written::Key(DATE_AND_NUMBER, 1), "11336"),
    (Written::Key(TEXT, 3), "a|b"),
    (Written::Key(DATE, 4), ""),
    (Written::Key(TEXT_AND_DATE, 3), "a|b"),
    (Written::Key(TEXT_AND_DATE, 5), "a|b|1970-01-02"),
    (Written::Key(DATE_AND_NUMBER, 5), "a|b|0.01"),
    (Written::Key(DATE_AND_NUMBER, 6), "1970-01-01|-1.50"),
    (Written::Key(NUMBER, 6), "0|-150"),
    (Written::Key(TEXT_AND_DATE, 7), "1|b"),
    (Written::BadDate(DateRefusal::Form), "not a date"),
    (Written::BadDate(DateRefusal::NoSuchDay), "no such day"),
    (Written::BadNumber(NumberRefusal::Empty), "empty"),
    (Written::BadNumber(NumberRefusal::NotNumber), "not a number"),
    (
        Written::BadNumber(NumberRefusal::TooManyDecimals),
        "too many decimals",
    ),
    (
        Written::BadNumber(NumberRefusal::OutOfRange),
        "out of range",
    ),
    (Written::Want, "out of memory"),
];

fn put_shown<D: Display>(alloc: Global, out: &mut Vec<u8>, value: &D) -> Result<(), OutOfMemory> {
    let text = format!(in alloc; "{value}")?;
    Ok(out.extend_from_slice(text.as_bytes())?)
}

fn put(alloc: Global, out: &mut Vec<u8>, written: &Written) -> Result<(), OutOfMemory> {
    match written {
        Written::Day(day) => put_date(out, *day),
        Written::Units(number, decimals) => put_fixed(out, *number, *decimals),
        Written::Count(count) => put_number(out, *count),
        Written::Word(text) => put_word(out, text.as_bytes()),
        Written::Key(form, place) => put_key(out, form, &key_at(alloc, *place)?),
        Written::BadDate(refusal) => put_shown(alloc, out, refusal),
        Written::BadNumber(refusal) => put_shown(alloc, out, refusal),
        Written::Want => put_shown(alloc, out, &OutOfMemory),
    }
}

#[test]
fn writes_texts(rt: HostRuntime) -> Result<(), Fail> {
    for (written, want) in &WRITTEN {
        let mut out = Vec::new(rt.alloc());
        put(rt.alloc(), &mut out, written)?;
        see_text(&rt, want, out.as_slice(), want)?;
    }
    texts_read_back();
    Ok(())
}
