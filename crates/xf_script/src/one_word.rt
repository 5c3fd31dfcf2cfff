//! One word of a line. Words are numbered from 1; one that does not fit is told by its number.
ghost use Rattle.std.specs.Prelude.{◌≡◌, ◌≤◌, length, codes, IfOk};
ghost use Rattle.xf_script.specs.Grammar.{Answers, count_at, end_at, keyword_of, known, known_at, last_at, word_at};
ghost use Rattle.xf_script.specs.Openers.{field_of, removal_of, sort_of};
ghost use Rattle.xf_script.specs.declared.line_refusal.LineRefusal.TheVariants as refusal;

use crate::count::field_of;
use crate::line_refusal::LineRefusal;
use crate::opener::{Removal, Sort, removal_of, sort_of};
use std::alloc::Global;
use xf_base::Text;
use xf_filter::count_of;

/// The fault of a word.
pub fn bad_word(number: usize) -> LineRefusal
    ensures { result ≡ refusal.Word number }
{
    LineRefusal::Word {
        number: number as u64,
    }
}

/// A value that is there, or the word of this number is bad.
pub fn known<A: Drop>(value: Option<A>, number: usize) -> Result<A, LineRefusal>
    ensures { result ≡ known number value }
{
    match value {
        Some(value) => Ok(value),
        None => Err(bad_word(number)),
    }
}

/// The word of a number, as a text of its own.
pub fn word_at(alloc: Global, words: &[Text], number: usize) -> Result<Text, LineRefusal>
    requires { 1 ≤ number }
    ensures exact { Answers result (word_at words.now number) }
    ensures within { IfOk result (λ word. number ≤ length words.now) }
{
    match words.get(number - 1) {
        Some(word) => Ok(word.copy(alloc)?),
        None => Err(bad_word(number)),
    }
}

/// Whether the line ends before the word of a number.
pub fn end_at(words: &[Text], number: usize) -> Result<(), LineRefusal>
    ensures { Answers result (end_at words.now number) }
{
    if words.len() < number {
        Ok(())
    } else {
        Err(bad_word(number))
    }
}

/// The last word of a line, whose number this is.
pub fn last_at(alloc: Global, words: &[Text], number: usize) -> Result<Text, LineRefusal>
    requires { 1 ≤ number }
    ensures { Answers result (last_at words.now number) }
{
    let word = word_at(alloc, words, number)?;
    end_at(words, number + 1)?;
    Ok(word)
}

/// A count.
pub fn count_at(words: &[Text], number: usize) -> Result<u64, LineRefusal>
    requires { 1 ≤ number }
    ensures exact { Answers result (count_at words.now number) }
    ensures within { IfOk result (λ count. number ≤ length words.now) }
{
    match words.get(number - 1) {
        Some(word) => known(count_of(word.as_str().as_bytes()), number),
        None => Err(bad_word(number)),
    }
}

/// The number of a field, or None for the word `natural`.
pub fn field_at(words: &[Text], number: usize) -> Result<Option<u8>, LineRefusal>
    requires { 1 ≤ number }
    ensures exact { Answers result (known_at field_of words.now number) }
    ensures within { IfOk result (λ field. number ≤ length words.now) }
{
    match words.get(number - 1) {
        Some(word) => known(field_of(word.as_str()), number),
        None => Err(bad_word(number)),
    }
}

/// Whether a word is `of`.
pub fn of_at(words: &[Text], number: usize) -> Result<(), LineRefusal>
    requires { 1 ≤ number }
    ensures { Answers result (known_at (keyword_of (codes "of")) words.now number) }
{
    match words.get(number - 1) {
        Some(word) if word.as_str() == "of" => Ok(()),
        _ => Err(bad_word(number)),
    }
}

/// Which records are to go.
pub fn removal_at(words: &[Text], number: usize) -> Result<Removal, LineRefusal>
    requires { 1 ≤ number }
    ensures exact { Answers result (known_at removal_of words.now number) }
    ensures within { IfOk result (λ removal. number ≤ length words.now) }
{
    match words.get(number - 1) {
        Some(word) => known(removal_of(word.as_str()), number),
        None => Err(bad_word(number)),
    }
}

/// What is to be disposed of.
pub fn sort_at(words: &[Text], number: usize) -> Result<Sort, LineRefusal>
    requires { 1 ≤ number }
    ensures exact { Answers result (known_at sort_of words.now number) }
    ensures within { IfOk result (λ sort. number ≤ length words.now) }
{
    match words.get(number - 1) {
        Some(word) => known(sort_of(word.as_str()), number),
        None => Err(bad_word(number)),
    }
}
