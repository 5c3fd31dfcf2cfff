//! Writing filters and items as the words of a line.
ghost use Rattle.std.specs.Prelude.{◌≡◌, ◌∷◌, [], ◌++◌, take, vec_len, nat_abs, decimal, flat_map, Ok, OnOk, OnErr, IsUtf8};
ghost use Rattle.xf_filter.specs.Reading.{filter_of, item_of};
ghost use Rattle.xf_filter.specs.Words.{item_words, predicate_words, filter_words, line_of, Appends, Writes};

use crate::raw_filter::{RawFilter, RawFilterParts, RawItem, RawItemParts, RawPredicate};
use itoa::Buffer;
use xf_base::{OutOfMemory, put_word};

/// Appends the words of a filter, with one blank between each two.
#[tactic(auto, unfolding(crate::specs::Words::Writes))]
pub fn print_filter(out: &mut Vec<u8>, filter: &RawFilter) -> Result<(), OutOfMemory>
    ensures ok { OnOk result (out.new.items ≡ out.old.items ++ line_of (filter_words filter.now)) }
    ensures err { OnErr result (out.new.items ≡ out.old.items) }
    ensures utf8 { OnOk result (IsUtf8 (line_of (filter_words filter.now))) }
    // These words are read as the filter.
    ensures read { filter_of (filter_words filter.now) ≡ Ok filter.now }
{
    let start = out.len();
    let appended = append_filter(out, filter.parts());
    if appended.is_err() {
        out.truncate(start);
    }
    appended
}

/// Appends the words of an item, with one blank between each two.
#[tactic(auto, using(crate::proofs::Again::item_of_again), unfolding(crate::specs::Words::Writes))]
pub fn print_item(out: &mut Vec<u8>, item: &RawItem) -> Result<(), OutOfMemory>
    ensures ok { OnOk result (out.new.items ≡ out.old.items ++ line_of (item_words item.now)) }
    ensures err { OnErr result (out.new.items ≡ out.old.items) }
    ensures utf8 { OnOk result (IsUtf8 (line_of (item_words item.now))) }
    // These words are read as the item.
    ensures read { item_of (item_words item.now) ≡ Ok item.now }
{
    let start = out.len();
    let appended = append_item(out, item.parts());
    if appended.is_err() {
        out.truncate(start);
    }
    appended
}

/// Appends a filter, or only its front where memory is refused.
#[tactic(auto, using(crate::proofs::Printed::written))]
fn append_filter(out: &mut Vec<u8>, form: &RawFilterParts) -> Result<(), OutOfMemory>
    ensures ok { OnOk result (Writes out.old.items out.new.items (filter_words form.now)) }
    ensures err { OnErr result (take (vec_len out.old) out.new.items ≡ out.old.items) }
{
    match form {
        RawFilterParts::All => {
            append_first(out, "all")?;
            Ok(())
        }
        RawFilterParts::Exact(key) => {
            append_first(out, "exact")?;
            append_word(out, key.as_str())?;
            Ok(())
        }
        RawFilterParts::Range(low, high) => {
            append_first(out, "range")?;
            append_word(out, low.as_str())?;
            append_word(out, high.as_str())?;
            Ok(())
        }
        RawFilterParts::Func(predicate) => {
            append_first(out, "func")?;
            append_predicate(out, predicate)?;
            Ok(())
        }
    }
}

/// Appends an item, or only its front where memory is refused.
#[tactic(auto, using(crate::proofs::Printed::written))]
fn append_item(out: &mut Vec<u8>, form: &RawItemParts) -> Result<(), OutOfMemory>
    ensures ok { OnOk result (Writes out.old.items out.new.items (item_words form.now)) }
    ensures err { OnErr result (take (vec_len out.old) out.new.items ≡ out.old.items) }
{
    match form {
        RawItemParts::Exact(key) => {
            append_first(out, "exact")?;
            append_word(out, key.as_str())?;
            Ok(())
        }
        RawItemParts::Range(low, high) => {
            append_first(out, "range")?;
            append_word(out, low.as_str())?;
            append_word(out, high.as_str())?;
            Ok(())
        }
    }
}

/// Appends the words of a predicate, each behind a blank, or only their front where memory is refused.
#[tactic(auto, using(crate::proofs::Printed::appended))]
fn append_predicate(out: &mut Vec<u8>, predicate: &RawPredicate) -> Result<(), OutOfMemory>
    ensures ok { OnOk result (Appends out.old.items out.new.items (predicate_words predicate.now)) }
    ensures err { OnErr result (take (vec_len out.old) out.new.items ≡ out.old.items) }
{
    match predicate {
        RawPredicate::OneOf(items) => {
            append_word(out, "oneof")?;
            append_items(out, items.as_slice())?;
            append_word(out, "end")?;
            Ok(())
        }
        RawPredicate::Prefix(text) => {
            append_word(out, "prefix")?;
            append_word(out, text.as_str())?;
            Ok(())
        }
        RawPredicate::Modulo(divisor, remainder) => {
            append_word(out, "modulo")?;
            append_count(out, *divisor)?;
            append_count(out, *remainder)?;
            Ok(())
        }
        RawPredicate::Not(inner) => {
            append_word(out, "not")?;
            append_predicate(out, inner.get())?;
            Ok(())
        }
        RawPredicate::And(first, second) => {
            append_word(out, "and")?;
            append_predicate(out, first.get())?;
            append_predicate(out, second.get())?;
            Ok(())
        }
        RawPredicate::Or(first, second) => {
            append_word(out, "or")?;
            append_predicate(out, first.get())?;
            append_predicate(out, second.get())?;
            Ok(())
        }
    }
}

/// Appends the words of items, each behind a blank, or only their front where memory is refused.
#[tactic(auto, using(crate::proofs::Printed::appended))]
fn append_items(out: &mut Vec<u8>, items: &[RawItemParts]) -> Result<(), OutOfMemory>
    ensures ok { OnOk result (Appends out.old.items out.new.items (flat_map item_words items.now)) }
    ensures err { OnErr result (take (vec_len out.old) out.new.items ≡ out.old.items) }
{
    for item in items {
        append_listed(out, item)?;
    }
    Ok(())
}

/// Appends the words of an item of a list, each behind a blank, or only their front where memory is refused.
#[tactic(auto, using(crate::proofs::Printed::appended))]
fn append_listed(out: &mut Vec<u8>, item: &RawItemParts) -> Result<(), OutOfMemory>
    ensures ok { OnOk result (Appends out.old.items out.new.items (item_words item.now)) }
    ensures err { OnErr result (take (vec_len out.old) out.new.items ≡ out.old.items) }
{
    match item {
        RawItemParts::Exact(key) => {
            append_word(out, "exact")?;
            append_word(out, key.as_str())?;
            Ok(())
        }
        RawItemParts::Range(low, high) => {
            append_word(out, "range")?;
            append_word(out, low.as_str())?;
            append_word(out, high.as_str())?;
            Ok(())
        }
    }
}

/// Appends the digits of a count behind a blank, or only their front where memory is refused.
fn append_count(out: &mut Vec<u8>, count: i64) -> Result<(), OutOfMemory>
    ensures ok { OnOk result (Appends out.old.items out.new.items (decimal (nat_abs count) ∷ [])) }
    ensures err { OnErr result (take (vec_len out.old) out.new.items ≡ out.old.items) }
{
    let mut digits = Buffer::new();
    append_word(out, digits.format(count.unsigned_abs()))
}

/// Appends a word behind a blank, or only its front where memory is refused.
fn append_word(out: &mut Vec<u8>, word: &str) -> Result<(), OutOfMemory>
    ensures ok { OnOk result (Appends out.old.items out.new.items (word.now ∷ [])) }
    ensures err { OnErr result (take (vec_len out.old) out.new.items ≡ out.old.items) }
{
    out.push(b' ')?;
    put_word(out, word.as_bytes())?;
    Ok(())
}

/// Appends the first word of a line.
#[tactic(auto, unfolding(crate::specs::Words::Writes))]
fn append_first(out: &mut Vec<u8>, word: &str) -> Result<(), OutOfMemory>
    ensures ok { OnOk result (Writes out.old.items out.new.items (word.now ∷ [])) }
    ensures err { OnErr result (take (vec_len out.old) out.new.items ≡ out.old.items) }
{
    put_word(out, word.as_bytes())?;
    Ok(())
}
