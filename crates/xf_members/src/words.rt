//! Arrays of words: accessors, roundings and reducers, in their whole shape.
ghost use Rattle.std.specs.Prelude.{◌≡◌, map, pos, true, IfOk, IfSome};
ghost use Rattle.serde_json.specs.View.{view};
ghost use Rattle.xf_members.specs.Words.{accessor_rule, accessor_said, both_said, floor_of, is_sound_rounding, letters_of, one_column, part_over, part_rule, part_said, plain_part, plain_rounding, reducer_rule, reducer_said, rounding_by, rounding_rule, rounding_said, two_columns};

use crate::value::{array_of, whole_number};
use serde_json::Value;
use std::alloc::Global;
use xf_access::StockRounding;
use xf_base::{OutOfMemory, Text};
use xf_columns::{AccessorWords, ReducerWords, SimpleWords};

// ---- accessors

/// The accessor that an array of words says.
pub fn accessor_rule(alloc: Global, value: &Value) -> Result<Option<AccessorWords>, OutOfMemory>
    ensures { IfOk result (λ said. said ≡ accessor_rule (view value.now)) }
{
    match array_of(value) {
        Some(words) => accessor_said(alloc, words),
        None => Ok(None),
    }
}

fn accessor_said(alloc: Global, words: &[Value]) -> Result<Option<AccessorWords>, OutOfMemory>
    ensures { IfOk result (λ said. said ≡ accessor_said (map view words.now)) }
{
    match words {
        [keyword, column] => match (keyword.as_str(), column.as_str()) {
            (Some(keyword), Some(column)) => one_column(alloc, keyword, column),
            _ => Ok(None),
        },
        [keyword, first, second] => {
            match (keyword.as_str(), first.as_str(), second.as_str()) {
                (Some(keyword), Some(first), Some(second)) => {
                    two_columns(alloc, keyword, first, second)
                }
                _ => Ok(None),
            }
        }
        _ => Ok(None),
    }
}

/// An accessor of one column, by its keyword.
fn one_column(
    alloc: Global,
    keyword: &str,
    column: &str,
) -> Result<Option<AccessorWords>, OutOfMemory>
    ensures { IfOk result (λ said. said ≡ one_column keyword.now column.now) }
{
    Ok(Some(match keyword {
        "column" => AccessorWords::Column(Text::of(alloc, column)?),
        "tags" => AccessorWords::Tags(Text::of(alloc, column)?),
        "weekday" => AccessorWords::Weekday(Text::of(alloc, column)?),
        "month" => AccessorWords::Month(Text::of(alloc, column)?),
        _ => return Ok(None),
    }))
}

/// An accessor of two columns.
fn two_columns(
    alloc: Global,
    keyword: &str,
    first: &str,
    second: &str,
) -> Result<Option<AccessorWords>, OutOfMemory>
    ensures { IfOk result (λ said. said ≡ two_columns keyword.now first.now second.now) }
{
    if keyword != "pair" {
        return Ok(None);
    }
    let first = Text::of(alloc, first)?;
    let second = Text::of(alloc, second)?;
    Ok(Some(AccessorWords::Pair(first, second)))
}

// ---- roundings

/// The rounding that an array of words and a number says.
pub fn rounding_rule(value: &Value) -> Option<StockRounding>
    ensures value { result ≡ rounding_rule (view value.now) }
    ensures sound { IfSome result (λ rounding. is_sound_rounding rounding ≡ true) }
{
    match array_of(value) {
        Some(words) => rounding_said(words),
        None => None,
    }
}

fn rounding_said(words: &[Value]) -> Option<StockRounding>
    ensures value { result ≡ rounding_said (map view words.now) }
    ensures sound { IfSome result (λ rounding. is_sound_rounding rounding ≡ true) }
{
    match words {
        [keyword] => match keyword.as_str() {
            Some(keyword) => plain_rounding(keyword),
            None => None,
        },
        [keyword, number] => match (keyword.as_str(), whole_number(number)) {
            (Some(keyword), Some(number)) => rounding_by(keyword, number),
            _ => None,
        },
        _ => None,
    }
}

/// A rounding that is one word.
fn plain_rounding(keyword: &str) -> Option<StockRounding>
    ensures value { result ≡ plain_rounding keyword.now }
    ensures sound { IfSome result (λ rounding. is_sound_rounding rounding ≡ true) }
{
    match keyword {
        "same" => Some(StockRounding::Same),
        "month" => Some(StockRounding::MonthOf),
        "year" => Some(StockRounding::YearOf),
        _ => None,
    }
}

/// A rounding with a number.
fn rounding_by(keyword: &str, number: u64) -> Option<StockRounding>
    ensures value { result ≡ rounding_by keyword.now number }
    ensures sound { IfSome result (λ rounding. is_sound_rounding rounding ≡ true) }
{
    match keyword {
        "floor" => floor_of(number),
        "letters" => letters_of(number),
        _ => None,
    }
}

fn floor_of(width: u64) -> Option<StockRounding>
    ensures value { result ≡ floor_of width }
    ensures sound { IfSome result (λ rounding. is_sound_rounding rounding ≡ true) }
{
    if 1 <= width && width <= StockRounding::GREATEST_WIDTH as u64 {
        Some(StockRounding::Floor(width as i64))
    } else {
        None
    }
}

fn letters_of(count: u64) -> Option<StockRounding>
    ensures value { result ≡ letters_of count }
    ensures sound { IfSome result (λ rounding. is_sound_rounding rounding ≡ true) }
{
    if 1 <= count && count <= u64::from(StockRounding::MOST_LETTERS) {
        Some(StockRounding::FirstLetters(count as u8))
    } else {
        None
    }
}

// ---- reducers

/// The reducer that an array of words says.
pub fn reducer_rule(alloc: Global, value: &Value) -> Result<Option<ReducerWords>, OutOfMemory>
    ensures { IfOk result (λ said. said ≡ reducer_rule (view value.now)) }
{
    match array_of(value) {
        Some(words) => reducer_said(alloc, words),
        None => Ok(None),
    }
}

fn reducer_said(alloc: Global, words: &[Value]) -> Result<Option<ReducerWords>, OutOfMemory>
    ensures { IfOk result (λ said. said ≡ reducer_said (map view words.now)) }
{
    match words {
        [keyword, first, second] => match keyword.as_str() {
            Some(keyword) => both_said(alloc, keyword, first, second),
            None => Ok(None),
        },
        _ => match part_said(alloc, words)? {
            Some(part) => Ok(Some(ReducerWords::One(part))),
            None => Ok(None),
        },
    }
}

/// Two parts side by side.
fn both_said(
    alloc: Global,
    keyword: &str,
    first: &Value,
    second: &Value,
) -> Result<Option<ReducerWords>, OutOfMemory>
    ensures { IfOk result (λ said. said ≡ both_said keyword.now (view first.now) (view second.now)) }
{
    if keyword != "both" {
        return Ok(None);
    }
    let Some(first) = part_rule(alloc, first)? else {
        return Ok(None);
    };
    let Some(second) = part_rule(alloc, second)? else {
        return Ok(None);
    };
    Ok(Some(ReducerWords::Both(first, second)))
}

/// The part of a reducer that an array of words says.
fn part_rule(alloc: Global, value: &Value) -> Result<Option<SimpleWords>, OutOfMemory>
    ensures { IfOk result (λ said. said ≡ part_rule (view value.now)) }
{
    match array_of(value) {
        Some(words) => part_said(alloc, words),
        None => Ok(None),
    }
}

fn part_said(alloc: Global, words: &[Value]) -> Result<Option<SimpleWords>, OutOfMemory>
    ensures { IfOk result (λ said. said ≡ part_said (map view words.now)) }
{
    match words {
        [keyword] => match keyword.as_str() {
            Some("count") => Ok(Some(SimpleWords::Count)),
            _ => Ok(None),
        },
        [keyword, column] => match (keyword.as_str(), column.as_str()) {
            (Some(keyword), Some(column)) => part_over(alloc, keyword, column),
            _ => Ok(None),
        },
        _ => Ok(None),
    }
}

/// A part that reads a column.
fn part_over(alloc: Global, keyword: &str, column: &str) -> Result<Option<SimpleWords>, OutOfMemory>
    ensures { IfOk result (λ said. said ≡ part_over keyword.now column.now) }
{
    Ok(Some(match keyword {
        "sum" => SimpleWords::Sum(Text::of(alloc, column)?),
        "sumcount" => SimpleWords::SumCount(Text::of(alloc, column)?),
        "sumsquares" => SimpleWords::SumSquares(Text::of(alloc, column)?),
        "spread" => SimpleWords::Spread(Text::of(alloc, column)?),
        _ => return Ok(None),
    }))
}
