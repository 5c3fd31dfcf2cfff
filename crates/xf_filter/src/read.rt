//! Reading filters and items from the words of a line.
ghost use Rattle.std.specs.Prelude.{◌≡◌, ◌≤◌, ◌<◌, ◌+◌, ◌-◌, ◌^◌, ◌∷◌, [], length, ℕ, drop, Some, Ok, Err, IfOk};
ghost use Rattle.xf_filter.specs.declared.filter_syntax.Fault.TheVariants.{BadWord};
ghost use Rattle.xf_filter.specs.declared.filter_syntax.FilterSyntax.TheVariants as syntax;
ghost use Rattle.xf_filter.specs.declared.filter_syntax.ReadError.TheVariants as errors;
ghost use Rattle.xf_filter.specs.declared.raw_filter.RawPredicate.TheVariants as raw;
ghost use Rattle.xf_filter.specs.declared.raw_filter.RawFilterParts.{RawFilterParts};
ghost use Rattle.xf_filter.specs.declared.raw_filter.RawItemParts.{RawItemParts};
ghost use Rattle.xf_filter.specs.Spelling.{SpellsFilter, filter_depth, IsBadAfter};
ghost use Rattle.xf_filter.specs.Words.{item_words, filter_opener_of, item_opener_of, predicate_opener_of, divisor_of, remainder_of};
ghost use Rattle.xf_filter.specs.Reading.{Gives, Answers, with_number, known_at, word_at, is_end, item_behind, item_at, items_at, with_front};
ghost use Rattle.xf_filter.specs.Reading.{one_of_at, prefix_at, modulo_at, not_at, two_at, predicate_at, filter_behind, filter_at, alone, filter_of, item_of};

use crate::count::{divisor_of, remainder_of};
use crate::filter_syntax::{Fault, FilterSyntax, ReadError};
use crate::opener::{
    FilterOpener, ItemOpener, PredicateOpener, filter_opener_of, item_opener_of,
    predicate_opener_of,
};
use crate::raw_filter::{RawFilter, RawFilterParts, RawItem, RawItemParts, RawPredicate};
use sqlite_items::{Boxed, Items};
use std::alloc::Global;
use xf_base::Text;

/// The greatest depth of a predicate; one that is inside no other has depth 1.
const GREATEST_DEPTH: usize = 16;

/// Reads a filter: all words from number `first` on, counted from 1. The first fault from the left is answered.
pub fn read_filter(alloc: Global, words: &[Text], first: usize) -> Result<RawFilter, FilterSyntax>
    requires first { (1 ≤ first) × (first ≤ length words.now + 1) }
    // What is read is spelled by exactly these words.
    ensures found { IfOk result (λ filter. (filter_depth filter ≤ 16) × SpellsFilter filter (drop (first - 1) words.now)) }
    // What they spell is read, unless memory runs out.
    ensures only { (filter : RawFilterParts) → SpellsFilter filter (drop (first - 1) words.now) → filter_depth filter ≤ 16 → Answers result (Ok filter) }
    // The words before a bad word begin a filter, and with it no filter of any depth goes on.
    ensures bad { (number : ℕ) → result ≡ Err (syntax.Word number) → IsBadAfter (drop (first - 1) words.now) (number - first) }
    // Which fault it is.
    ensures exact { Answers result (with_number (length words.now) (filter_of (drop (first - 1) words.now))) }
{
    match filter_of(alloc, from_number(words, first)) {
        Ok(form) => Ok(RawFilter::of(form)),
        Err(ReadError::Fault(fault)) => Err(fault.numbered(words.len())),
        Err(ReadError::OutOfMemory) => Err(FilterSyntax::OutOfMemory),
    }
}

/// Reads an item: all words from number `first` on, counted from 1. The first fault from the left is answered.
pub fn read_item(alloc: Global, words: &[Text], first: usize) -> Result<RawItem, FilterSyntax>
    requires first { (1 ≤ first) × (first ≤ length words.now + 1) }
    // What is read is spelled by exactly these words.
    ensures found { IfOk result (λ item. drop (first - 1) words.now ≡ item_words item) }
    // What they spell is read, unless memory runs out.
    ensures only { (item : RawItemParts) → drop (first - 1) words.now ≡ item_words item → Answers result (Ok item) }
    // Which fault it is.
    ensures exact { Answers result (with_number (length words.now) (item_of (drop (first - 1) words.now))) }
{
    match item_of(alloc, from_number(words, first)) {
        Ok(form) => Ok(RawItem::of(form)),
        Err(ReadError::Fault(fault)) => Err(fault.numbered(words.len())),
        Err(ReadError::OutOfMemory) => Err(FilterSyntax::OutOfMemory),
    }
}

/// The words from a number on, counted from 1.
fn from_number(words: &[Text], first: usize) -> &[Text]
    requires first { (1 ≤ first) × (first ≤ length words.now + 1) }
    ensures { result.now ≡ drop (first - 1) words.now }
{
    &words[first - 1..]
}

/// The filter that all of the words spell.
fn filter_of(alloc: Global, words: &[Text]) -> Result<RawFilterParts, ReadError>
    ensures { Gives (λ form. form) result (filter_of words.now) }
{
    let (form, rest) = filter_at(alloc, words)?;
    match rest {
        [] => Ok(form),
        [_, ..] => Err(bad_word(rest)),
    }
}

/// The item that all of the words spell.
fn item_of(alloc: Global, words: &[Text]) -> Result<RawItemParts, ReadError>
    ensures { Gives (λ form. form) result (item_of words.now) }
{
    let (form, rest) = item_at(alloc, words)?;
    match rest {
        [] => Ok(form),
        [_, ..] => Err(bad_word(rest)),
    }
}

/// The filter in front, and the words after it.
#[tactic(auto, unfolding(crate::specs::Reading::filter_at))]
fn filter_at(alloc: Global, words: &[Text]) -> Result<(RawFilterParts, &[Text]), ReadError>
    ensures { Gives (λ x. (x.0, x.1.now)) result (filter_at words.now) }
{
    let (opener, rest) = filter_opened(words)?;
    filter_behind(alloc, opener, rest)
}

/// The filter behind its first word.
#[tactic(auto, unfolding(crate::specs::Reading::filter_behind))]
fn filter_behind(
    alloc: Global,
    opener: FilterOpener,
    words: &[Text],
) -> Result<(RawFilterParts, &[Text]), ReadError>
    ensures { Gives (λ x. (x.0, x.1.now)) result (filter_behind opener words.now) }
{
    match opener {
        FilterOpener::All => Ok((RawFilterParts::All, words)),
        FilterOpener::Exact => {
            let (key, rest) = word_at(alloc, words)?;
            Ok((RawFilterParts::Exact(key), rest))
        }
        FilterOpener::Range => {
            let (low, rest) = word_at(alloc, words)?;
            let (high, rest) = word_at(alloc, rest)?;
            Ok((RawFilterParts::Range(low, high), rest))
        }
        FilterOpener::Func => {
            let (predicate, rest) = predicate_at(alloc, GREATEST_DEPTH, words)?;
            Ok((RawFilterParts::Func(predicate), rest))
        }
    }
}

/// The predicate in front, at most so deep, and the words after it.
#[tactic(auto, unfolding(crate::specs::Reading::predicate_at, crate::specs::Reading::not_at, crate::specs::Reading::two_at))]
fn predicate_at(
    alloc: Global,
    depth: usize,
    words: &[Text],
) -> Result<(RawPredicate, &[Text]), ReadError>
    ensures { Gives (λ x. (x.0, x.1.now)) result (predicate_at depth words.now) }
{
    let (opener, rest) = opened(words)?;
    if depth == 0 {
        return Err(ReadError::Fault(Fault::TooDeep(words.len())));
    }
    match opener {
        PredicateOpener::OneOf => one_of_at(alloc, rest),
        PredicateOpener::Prefix => prefix_at(alloc, rest),
        PredicateOpener::Modulo => modulo_at(rest),
        PredicateOpener::Not => {
            let (inner, rest) = predicate_at(alloc, depth - 1, rest)?;
            Ok((RawPredicate::Not(Boxed::new(alloc, inner)?), rest))
        }
        PredicateOpener::And => {
            let (first, rest) = predicate_at(alloc, depth - 1, rest)?;
            let (second, rest) = predicate_at(alloc, depth - 1, rest)?;
            let first = Boxed::new(alloc, first)?;
            Ok((RawPredicate::And(first, Boxed::new(alloc, second)?), rest))
        }
        PredicateOpener::Or => {
            let (first, rest) = predicate_at(alloc, depth - 1, rest)?;
            let (second, rest) = predicate_at(alloc, depth - 1, rest)?;
            let first = Boxed::new(alloc, first)?;
            Ok((RawPredicate::Or(first, Boxed::new(alloc, second)?), rest))
        }
    }
}

/// The items up to `end`, of which there is one at least.
#[tactic(auto, unfolding(crate::specs::Reading::one_of_at))]
fn one_of_at(alloc: Global, words: &[Text]) -> Result<(RawPredicate, &[Text]), ReadError>
    ensures { Gives (λ x. (x.0, x.1.now)) result (one_of_at words.now) }
{
    let (first, rest) = item_at(alloc, words)?;
    let (items, rest) = items_after(alloc, first, rest)?;
    Ok((RawPredicate::OneOf(Items::from_vec(items)), rest))
}

/// An item, and those up to `end`.
fn items_after(
    alloc: Global,
    first: RawItemParts,
    words: &[Text],
) -> Result<(Vec<RawItemParts>, &[Text]), ReadError>
    ensures { Gives (λ x. (x.0.items, x.1.now)) result (with_front (first ∷ []) (items_at (length words.now) words.now)) }
{
    let mut items = Vec::new(alloc);
    items.push(first)?;
    let mut rest = words;
    while !is_end(rest) {
        let (item, after) = item_at(alloc, rest)?;
        items.push(item)?;
        rest = after;
    }
    Ok((items, behind_first(rest)))
}

/// The words behind the first.
fn behind_first(words: &[Text]) -> &[Text]
    ensures { result.now ≡ drop 1 words.now }
{
    match words {
        [] => words,
        [_, rest @ ..] => rest,
    }
}

fn is_end(words: &[Text]) -> bool
    ensures { result ≡ is_end words.now }
{
    match words {
        [] => false,
        [word, ..] => word.as_str() == "end",
    }
}

/// The item in front, and the words after it, which are fewer.
#[tactic(auto, unfolding(crate::specs::Reading::item_at))]
fn item_at(alloc: Global, words: &[Text]) -> Result<(RawItemParts, &[Text]), ReadError>
    ensures exact { Gives (λ x. (x.0, x.1.now)) result (item_at words.now) }
    ensures shorter { IfOk result (λ x. length x.1.now < length words.now) }
{
    let (opener, rest) = item_opened(words)?;
    item_behind(alloc, opener, rest)
}

/// The item behind its first word.
#[tactic(auto, unfolding(crate::specs::Reading::item_behind))]
fn item_behind(
    alloc: Global,
    opener: ItemOpener,
    words: &[Text],
) -> Result<(RawItemParts, &[Text]), ReadError>
    ensures exact { Gives (λ x. (x.0, x.1.now)) result (item_behind opener words.now) }
    ensures shorter { IfOk result (λ x. length x.1.now < length words.now) }
{
    match opener {
        ItemOpener::Exact => {
            let (key, rest) = word_at(alloc, words)?;
            Ok((RawItemParts::Exact(key), rest))
        }
        ItemOpener::Range => {
            let (low, rest) = word_at(alloc, words)?;
            let (high, rest) = word_at(alloc, rest)?;
            Ok((RawItemParts::Range(low, high), rest))
        }
    }
}

/// The text behind `prefix`.
#[tactic(auto, unfolding(crate::specs::Reading::prefix_at))]
fn prefix_at(alloc: Global, words: &[Text]) -> Result<(RawPredicate, &[Text]), ReadError>
    ensures { Gives (λ x. (x.0, x.1.now)) result (prefix_at words.now) }
{
    let (text, rest) = word_at(alloc, words)?;
    Ok((RawPredicate::Prefix(text), rest))
}

/// The divisor and the remainder behind `modulo`.
#[tactic(auto, unfolding(crate::specs::Reading::modulo_at))]
fn modulo_at(words: &[Text]) -> Result<(RawPredicate, &[Text]), ReadError>
    ensures { Gives (λ x. (x.0, x.1.now)) result (modulo_at words.now) }
{
    let (divisor, rest) = divisor_at(words)?;
    let (remainder, rest) = remainder_at(divisor, rest)?;
    Ok((RawPredicate::Modulo(divisor as i64, remainder as i64), rest))
}

fn divisor_at(words: &[Text]) -> Result<(u64, &[Text]), ReadError>
    ensures exact { Gives (λ x. (x.0, x.1.now)) result (known_at divisor_of words.now) }
    ensures small { IfOk result (λ x. x.0 < 10 ^ 15) }
{
    match words {
        [] => Err(bad_word(words)),
        [word, rest @ ..] => match divisor_of(word.as_str().as_bytes()) {
            Some(divisor) => Ok((divisor, rest)),
            None => Err(bad_word(words)),
        },
    }
}

fn remainder_at(divisor: u64, words: &[Text]) -> Result<(u64, &[Text]), ReadError>
    ensures exact { Gives (λ x. (x.0, x.1.now)) result (known_at (remainder_of divisor) words.now) }
    ensures small { IfOk result (λ x. x.0 < divisor) }
{
    match words {
        [] => Err(bad_word(words)),
        [word, rest @ ..] => match remainder_of(divisor, word.as_str().as_bytes()) {
            Some(remainder) => Ok((remainder, rest)),
            None => Err(bad_word(words)),
        },
    }
}

/// The first word as a text of its own.
fn word_at(alloc: Global, words: &[Text]) -> Result<(Text, &[Text]), ReadError>
    ensures exact { Gives (λ x. (x.0, x.1.now)) result (word_at words.now) }
    ensures shorter { IfOk result (λ x. length x.1.now < length words.now) }
{
    match words {
        [] => Err(bad_word(words)),
        [word, rest @ ..] => Ok((word.copy(alloc)?, rest)),
    }
}

fn filter_opened(words: &[Text]) -> Result<(FilterOpener, &[Text]), ReadError>
    ensures { Gives (λ x. (x.0, x.1.now)) result (known_at filter_opener_of words.now) }
{
    match words {
        [] => Err(bad_word(words)),
        [word, rest @ ..] => match filter_opener_of(word.as_str()) {
            Some(opener) => Ok((opener, rest)),
            None => Err(bad_word(words)),
        },
    }
}

fn item_opened(words: &[Text]) -> Result<(ItemOpener, &[Text]), ReadError>
    ensures exact { Gives (λ x. (x.0, x.1.now)) result (known_at item_opener_of words.now) }
    ensures shorter { IfOk result (λ x. length x.1.now < length words.now) }
{
    match words {
        [] => Err(bad_word(words)),
        [word, rest @ ..] => match item_opener_of(word.as_str()) {
            Some(opener) => Ok((opener, rest)),
            None => Err(bad_word(words)),
        },
    }
}

fn opened(words: &[Text]) -> Result<(PredicateOpener, &[Text]), ReadError>
    ensures { Gives (λ x. (x.0, x.1.now)) result (known_at predicate_opener_of words.now) }
{
    match words {
        [] => Err(bad_word(words)),
        [word, rest @ ..] => match predicate_opener_of(word.as_str()) {
            Some(opener) => Ok((opener, rest)),
            None => Err(bad_word(words)),
        },
    }
}

/// The first word is bad, or wanting.
fn bad_word(words: &[Text]) -> ReadError
    ensures { result ≡ errors.Fault (BadWord (length words.now)) }
{
    ReadError::Fault(Fault::BadWord(words.len()))
}
