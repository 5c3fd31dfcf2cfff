//! What a few words of a line spell. Words are numbered from 1; the first that does not fit is told by its number.
ghost use Rattle.std.specs.Prelude.{◌≡◌, ◌≤◌, ◌+◌, length, IfOk};
ghost use Rattle.xf_script.specs.Grammar.{Answers, accessor_behind, accessor_from, both_behind, filter_from, item_from, known_at, offset_at, one_from, reducer_from, rounding_at, rounding_behind, simple_at, simple_behind};
ghost use Rattle.xf_script.specs.Openers.{accessor_opener_of, letters_of, reducer_opener_of, rounding_opener_of, width_of};

use crate::count::{letters_of, width_of};
use crate::line_refusal::LineRefusal;
use crate::one_word::{bad_word, count_at, end_at, known, last_at, word_at};
use crate::opener::{
    AccessorOpener, ReducerOpener, RoundingOpener, accessor_opener_of, reducer_opener_of,
    rounding_opener_of,
};
use std::alloc::Global;
use xf_base::Text;
use xf_columns::{AccessorWords, ReducerWords, RoundingWords, SimpleWords};
use xf_filter::{RawFilter, RawItem, read_filter, read_item};

// ---- filters and items

/// The filter that all words from a number on spell.
pub fn filter_from(alloc: Global, words: &[Text], first: usize) -> Result<RawFilter, LineRefusal>
    requires { (1 ≤ first) × (first ≤ length words.now + 1) }
    ensures { Answers result (filter_from words.now first) }
{
    Ok(read_filter(alloc, words, first)?)
}

/// The item that all words from a number on spell.
pub fn item_from(alloc: Global, words: &[Text], first: usize) -> Result<RawItem, LineRefusal>
    requires { (1 ≤ first) × (first ≤ length words.now + 1) }
    ensures { Answers result (item_from words.now first) }
{
    Ok(read_item(alloc, words, first)?)
}

// ---- offsets

/// An offset, which may be left out.
pub fn offset_at(words: &[Text], number: usize) -> Result<Option<u64>, LineRefusal>
    requires { 1 ≤ number }
    ensures { Answers result (offset_at words.now number) }
{
    if words.len() < number {
        return Ok(None);
    }
    let offset = count_at(words, number)?;
    end_at(words, number + 1)?;
    Ok(Some(offset))
}

// ---- accessors

/// The accessor that all words from a number on spell.
pub fn accessor_from(
    alloc: Global,
    words: &[Text],
    first: usize,
) -> Result<AccessorWords, LineRefusal>
    requires { 1 ≤ first }
    ensures { Answers result (accessor_from words.now first) }
{
    let opener = accessor_opener_at(words, first)?;
    accessor_behind(alloc, opener, words, first + 1)
}

/// The accessor behind its first word.
fn accessor_behind(
    alloc: Global,
    opener: AccessorOpener,
    words: &[Text],
    next: usize,
) -> Result<AccessorWords, LineRefusal>
    requires { 1 ≤ next }
    ensures { Answers result (accessor_behind opener words.now next) }
{
    match opener {
        AccessorOpener::Column => Ok(AccessorWords::Column(last_at(alloc, words, next)?)),
        AccessorOpener::Pair => {
            let first = word_at(alloc, words, next)?;
            let second = last_at(alloc, words, next + 1)?;
            Ok(AccessorWords::Pair(first, second))
        }
        AccessorOpener::Tags => Ok(AccessorWords::Tags(last_at(alloc, words, next)?)),
        AccessorOpener::Weekday => Ok(AccessorWords::Weekday(last_at(alloc, words, next)?)),
        AccessorOpener::Month => Ok(AccessorWords::Month(last_at(alloc, words, next)?)),
    }
}

/// How an accessor begins.
fn accessor_opener_at(words: &[Text], number: usize) -> Result<AccessorOpener, LineRefusal>
    requires { 1 ≤ number }
    ensures exact { Answers result (known_at accessor_opener_of words.now number) }
    ensures within { IfOk result (λ opener. number ≤ length words.now) }
{
    match words.get(number - 1) {
        Some(word) => known(accessor_opener_of(word.as_str()), number),
        None => Err(bad_word(number)),
    }
}

// ---- roundings

/// The rounding from a number on, and the number of the word behind it.
pub fn rounding_at(words: &[Text], first: usize) -> Result<(RoundingWords, usize), LineRefusal>
    requires { 1 ≤ first }
    ensures exact { Answers result (rounding_at words.now first) }
    ensures after { IfOk result (λ rounding. 1 ≤ rounding.1) }
{
    let opener = rounding_opener_at(words, first)?;
    rounding_behind(opener, words, first + 1)
}

/// The rounding behind its first word.
fn rounding_behind(
    opener: RoundingOpener,
    words: &[Text],
    next: usize,
) -> Result<(RoundingWords, usize), LineRefusal>
    requires { 1 ≤ next }
    ensures exact { Answers result (rounding_behind opener words.now next) }
    ensures after { IfOk result (λ rounding. 1 ≤ rounding.1) }
{
    match opener {
        RoundingOpener::Same => Ok((RoundingWords::Same, next)),
        RoundingOpener::Floor => {
            let width = width_at(words, next)?;
            Ok((RoundingWords::Floor(width), next + 1))
        }
        RoundingOpener::Month => Ok((RoundingWords::Month, next)),
        RoundingOpener::Year => Ok((RoundingWords::Year, next)),
        RoundingOpener::Letters => {
            let letters = letters_at(words, next)?;
            Ok((RoundingWords::Letters(letters), next + 1))
        }
    }
}

/// How a rounding begins.
fn rounding_opener_at(words: &[Text], number: usize) -> Result<RoundingOpener, LineRefusal>
    requires { 1 ≤ number }
    ensures exact { Answers result (known_at rounding_opener_of words.now number) }
    ensures within { IfOk result (λ opener. number ≤ length words.now) }
{
    match words.get(number - 1) {
        Some(word) => known(rounding_opener_of(word.as_str()), number),
        None => Err(bad_word(number)),
    }
}

/// The width of a `floor`.
fn width_at(words: &[Text], number: usize) -> Result<u64, LineRefusal>
    requires { 1 ≤ number }
    ensures exact { Answers result (known_at width_of words.now number) }
    ensures within { IfOk result (λ width. number ≤ length words.now) }
{
    match words.get(number - 1) {
        Some(word) => known(width_of(word.as_str().as_bytes()), number),
        None => Err(bad_word(number)),
    }
}

/// How many characters `letters` keeps.
fn letters_at(words: &[Text], number: usize) -> Result<u8, LineRefusal>
    requires { 1 ≤ number }
    ensures exact { Answers result (known_at letters_of words.now number) }
    ensures within { IfOk result (λ letters. number ≤ length words.now) }
{
    match words.get(number - 1) {
        Some(word) => known(letters_of(word.as_str().as_bytes()), number),
        None => Err(bad_word(number)),
    }
}

// ---- reducers

/// The reducer that all words from a number on spell.
pub fn reducer_from(
    alloc: Global,
    words: &[Text],
    first: usize,
) -> Result<ReducerWords, LineRefusal>
    requires { 1 ≤ first }
    ensures { Answers result (reducer_from words.now first) }
{
    match reducer_opener_at(words, first)? {
        ReducerOpener::Both => both_behind(alloc, words, first + 1),
        _ => one_from(alloc, words, first),
    }
}

/// Two reducers side by side, behind the word `both`.
fn both_behind(alloc: Global, words: &[Text], next: usize) -> Result<ReducerWords, LineRefusal>
    requires { 1 ≤ next }
    ensures { Answers result (both_behind words.now next) }
{
    let (first, next) = simple_at(alloc, words, next)?;
    let (second, next) = simple_at(alloc, words, next)?;
    end_at(words, next)?;
    Ok(ReducerWords::Both(first, second))
}

/// A reducer alone.
fn one_from(alloc: Global, words: &[Text], first: usize) -> Result<ReducerWords, LineRefusal>
    requires { 1 ≤ first }
    ensures { Answers result (one_from words.now first) }
{
    let (one, next) = simple_at(alloc, words, first)?;
    end_at(words, next)?;
    Ok(ReducerWords::One(one))
}

/// A reducer that is not `both`, and the number of the word behind it.
fn simple_at(
    alloc: Global,
    words: &[Text],
    first: usize,
) -> Result<(SimpleWords, usize), LineRefusal>
    requires { 1 ≤ first }
    ensures exact { Answers result (simple_at words.now first) }
    ensures after { IfOk result (λ simple. 1 ≤ simple.1) }
{
    let opener = reducer_opener_at(words, first)?;
    simple_behind(alloc, opener, words, first + 1)
}

/// The reducer behind its first word.
fn simple_behind(
    alloc: Global,
    opener: ReducerOpener,
    words: &[Text],
    next: usize,
) -> Result<(SimpleWords, usize), LineRefusal>
    requires { 1 ≤ next }
    ensures exact { Answers result (simple_behind opener words.now next) }
    ensures after { IfOk result (λ simple. 1 ≤ simple.1) }
{
    match opener {
        ReducerOpener::Count => Ok((SimpleWords::Count, next)),
        ReducerOpener::Sum => {
            let column = word_at(alloc, words, next)?;
            Ok((SimpleWords::Sum(column), next + 1))
        }
        ReducerOpener::SumCount => {
            let column = word_at(alloc, words, next)?;
            Ok((SimpleWords::SumCount(column), next + 1))
        }
        ReducerOpener::SumSquares => {
            let column = word_at(alloc, words, next)?;
            Ok((SimpleWords::SumSquares(column), next + 1))
        }
        ReducerOpener::Spread => {
            let column = word_at(alloc, words, next)?;
            Ok((SimpleWords::Spread(column), next + 1))
        }
        ReducerOpener::Both => Err(bad_word(next - 1)),
    }
}

/// How a reducer begins.
fn reducer_opener_at(words: &[Text], number: usize) -> Result<ReducerOpener, LineRefusal>
    requires { 1 ≤ number }
    ensures exact { Answers result (known_at reducer_opener_of words.now number) }
    ensures within { IfOk result (λ opener. number ≤ length words.now) }
{
    match words.get(number - 1) {
        Some(word) => known(reducer_opener_of(word.as_str()), number),
        None => Err(bad_word(number)),
    }
}
