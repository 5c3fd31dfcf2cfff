//! The stock of roundings: what a board and a session may name.
ghost use Rattle.std.specs.Prelude.{◌≡◌, ◌++◌, ◌≤ℤ◌, pos, IfOk};
ghost use Rattle.xf_access.specs.Round.{floor_to, is_width, first_letters, is_letter_count};

use crate::rounding::Rounding;
use std::alloc::Global;
use xf_base::{Key, OutOfMemory, Text, month_start, year_start};

/// A rounding of the stock. A key to which it does not apply is given back.
#[derive(Clone, Copy, Debug, PartialEq, Eq)]
pub enum StockRounding {
    /// The key itself.
    Same,
    /// Of a number the greatest multiple of the width, 1 to 10^15, that is not above it, and the least i64 where that
    /// multiple is below it. Any other width gives back every key.
    Floor(i64),
    /// Of a day of the years 0000 to 9999 the first day of its month.
    MonthOf,
    /// Of such a day the first day of its year.
    YearOf,
    /// Of a text its first so many characters, 1 to 64. Any other count gives back every key.
    FirstLetters(u8),
}

impl StockRounding {
    pub const GREATEST_WIDTH: i64 = 1_000_000_000_000_000;

    pub const MOST_LETTERS: u8 = 64;

    ghost use Rattle.xf_access.specs.Round.{rounded_number, rounded_text};

    fn round_number(&self, number: i64) -> i64
        ensures { result ≡ rounded_number self.now number }
    {
        match self {
            StockRounding::Floor(width) if is_width(*width) => floor_to(*width, number),
            StockRounding::MonthOf => month_start(number).unwrap_or(number),
            StockRounding::YearOf => year_start(number).unwrap_or(number),
            _ => number,
        }
    }

    fn round_text<'a>(&self, text: &'a str) -> &'a str
        ensures { result.now ≡ rounded_text self.now text.now }
    {
        match self {
            StockRounding::FirstLetters(count) if is_letter_count(*count) => {
                first_letters(*count, text)
            }
            _ => text,
        }
    }
}

impl Rounding for StockRounding {
    ghost use Rattle.xf_access.specs.Round.{rounded_key};
    ghost use Rattle.xf_access.specs.RoundLaws.{rounded_key_keeps_order};

    ghost rounded = { rounded_key };

    ghost keeps_order = { rounded_key_keeps_order };

    fn round(&self, alloc: Global, key: &Key) -> Result<Key, OutOfMemory> {
        Ok(match key {
            Key::Num(number) => Key::Num(self.round_number(*number)),
            Key::Text(text) => Key::Text(Text::of(alloc, self.round_text(text.as_str()))?),
            Key::Pair(_, _) => key.copy(alloc)?,
        })
    }
}

fn is_width(width: i64) -> bool
    ensures { result ≡ is_width width }
{
    1 <= width && width <= StockRounding::GREATEST_WIDTH
}

/// The greatest multiple of a width that is not above a number, or `i64::MIN` where the multiple is below that.
fn floor_to(width: i64, number: i64) -> i64
    requires { pos 1 ≤ℤ width }
    ensures { result ≡ floor_to width number }
{
    width.saturating_mul(number.div_euclid(width))
}

fn is_letter_count(count: u8) -> bool
    ensures { result ≡ is_letter_count count }
{
    1 <= count && count <= StockRounding::MOST_LETTERS
}

/// The first so many characters of a text, or all of them where it has no more.
fn first_letters(count: u8, text: &str) -> &str
    ensures { result.now ≡ first_letters count text.now }
{
    let rest = after_letters(count, text);
    &text[..text.len() - rest.len()]
}

/// What follows them.
fn after_letters(count: u8, text: &str) -> &str
    ensures { first_letters count text.now ++ result.now ≡ text.now }
{
    let mut rest = text.chars();
    let mut left = count;
    while left > 0 && rest.next().is_some() {
        left -= 1;
    }
    rest.as_str()
}
