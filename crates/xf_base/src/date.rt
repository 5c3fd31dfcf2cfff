//! Civil dates, kept as days from 1970-01-01 on.
ghost use Rattle.std.specs.Prelude.{◌≡◌, ◌<◌, ◌≤◌, ◌^◌, ◌+◌, ◌%◌, ◌/◌, ◌∷◌, ◌++◌, true, decimal, length, is_some, if◌then◌else◌, IfSome, IfOk, OnOk, OnErr, IsUtf8};
ghost use Rattle.std.specs.List.{list_all};
ghost use Rattle.std.specs.Char.{is_ascii_digit};
ghost use Rattle.xf_base.specs.Date.{is_date_form, day_of, date_of, day_text, is_day, month_of, month_start, year_start, IsDateOf};
ghost use Rattle.xf_base.specs.Fixed.{number_after, with_zeros};
ghost use Rattle.xf_base.specs.Schema.{IsDay};

use crate::blank::without_blanks;
use crate::fixed::{all_digits, number_after_capped, put_fixed};
use crate::out_of_memory::OutOfMemory;
use jiff::civil::Date;
use jiff_core::civil;
use thiserror::Error;

/// Why a text is no date. The first that holds, in this order.
#[derive(Clone, Copy, Debug, PartialEq, Eq, Error)]
pub enum DateRefusal {
    /// Not four digits, `-`, two digits, `-`, two digits.
    #[error("not a date")]
    Form,
    /// The Gregorian calendar has no such day.
    #[error("no such day")]
    NoSuchDay,
}

/// The first day that is read and written as a date, 0000-01-01.
pub const FIRST_DAY: i64 = -719_528;

/// The last one, 9999-12-31.
pub const LAST_DAY: i64 = 2_932_896;

/// The day that a text writes as `YYYY-MM-DD`, in the Gregorian calendar, as the number of days after 1970-01-01; it is
/// negative before that day. Blanks at the text's ends do not count.
pub fn read_date(text: &[u8]) -> Result<i64, DateRefusal>
    ensures value { result ≡ date_of text.now }
    ensures within { IfOk result IsDay }
{
    let text = without_blanks(text);
    if !is_date_form(text) {
        return Err(DateRefusal::Form);
    }
    let year = number_of_digits(&text[..4]);
    let month = number_of_digits(&text[5..7]);
    let day = number_of_digits(&text[8..10]);
    day_of(year, month as u8, day as u8)
}

/// Whether a text is four digits, `-`, two digits, `-`, two digits.
fn is_date_form(text: &[u8]) -> bool
    ensures { result ≡ is_date_form text.now }
{
    text.len() == 10
        && text[4] == b'-'
        && text[7] == b'-'
        && all_digits(&text[..4])
        && all_digits(&text[5..7])
        && all_digits(&text[8..10])
}

/// The number that a few digits write.
fn number_of_digits(digits: &[u8]) -> u16
    requires few { length digits.now ≤ 4 }
    requires digits { list_all is_ascii_digit digits.now ≡ true }
    ensures value { result ≡ number_after 0 digits.now }
    ensures bound { result < 10 ^ length digits.now }
{
    number_after_capped(0, digits) as u16
}

/// The day of a year, a month and a day of the month, if the calendar has it.
fn day_of(year: u16, month: u8, day: u8) -> Result<i64, DateRefusal>
    requires year { year < 10000 }
    requires month { month < 100 }
    requires day { day < 100 }
    ensures value { result ≡ day_of year month day }
    ensures within { IfOk result IsDay }
{
    match Date::new(year as i16, month as i8, day as i8) {
        Ok(date) => Ok(i64::from(date.to_plain().to_unix_epoch_day())),
        Err(_) => Err(DateRefusal::NoSuchDay),
    }
}

/// Appends a day, given by the number of days after 1970-01-01, as `YYYY-MM-DD`. A number that is no day of the years
/// 0000 to 9999 is written as it is.
pub fn put_date(out: &mut Vec<u8>, day: i64) -> Result<(), OutOfMemory>
    ensures ok { OnOk result (out.new.items ≡ out.old.items ++ day_text day) }
    ensures err { OnErr result (out.new.items ≡ out.old.items) }
    ensures utf8 { IsUtf8 (day_text day) }
{
    match date_of_day(day) {
        Some(date) => {
            out.extend_from_slice(&date_text(date.year as u16, date.month, date.day))?;
            Ok(())
        }
        None => put_fixed(out, i128::from(day), 0),
    }
}

/// The month, from 1 on, of a day; None for a number that is no day of the years 0000 to 9999.
pub fn month_of(day: i64) -> Option<u8>
    ensures { result ≡ (if is_day day then Some (month_of day) else None) }
{
    let date = date_of_day(day)?;
    Some(date.month)
}

/// The first day of a day's month; None for a number that is no day of the years 0000 to 9999.
pub fn month_start(day: i64) -> Option<i64>
    ensures { result ≡ (if is_day day then Some (month_start day) else None) }
{
    let date = date_of_day(day)?;
    Some(day - i64::from(date.day - 1))
}

/// The first day of a day's year; None for a number that is no day of the years 0000 to 9999.
pub fn year_start(day: i64) -> Option<i64>
    ensures { result ≡ (if is_day day then Some (year_start day) else None) }
{
    let date = date_of_day(day)?;
    Some(day - i64::from(date.day_of_year() - 1))
}

/// The date of a day; None for a number that is no day of the years 0000 to 9999.
fn date_of_day(day: i64) -> Option<civil::Date>
    ensures some { is_some result ≡ is_day day }
    ensures date { IfSome result (IsDateOf day) }
{
    match civil::Date::from_unix_epoch_day(day) {
        Ok(date) if date.year >= 0 => Some(date),
        _ => None,
    }
}

/// A date as `YYYY-MM-DD`.
fn date_text(year: u16, month: u8, day: u8) -> [u8; 10]
    requires year { year < 10000 }
    requires month { month < 100 }
    requires day { day < 100 }
    ensures { result ≡ with_zeros 4 (decimal year) ++ 45 ∷ with_zeros 2 (decimal month) ++ 45 ∷ with_zeros 2 (decimal day) }
{
    let [y1, y2] = two_digits((year / 100) as u8);
    let [y3, y4] = two_digits((year % 100) as u8);
    let [m1, m2] = two_digits(month);
    let [d1, d2] = two_digits(day);
    [y1, y2, y3, y4, b'-', m1, m2, b'-', d1, d2]
}

fn two_digits(number: u8) -> [u8; 2]
    requires { number < 100 }
    ensures { result ≡ with_zeros 2 (decimal number) }
{
    [b'0' + number / 10, b'0' + number % 10]
}
