//! Filters by their words: for which keys they hold, which kinds they do not fit, what toggling makes of them, and
//! which words are none.
mod holds;
mod toggles;
mod words;

use std::alloc::Global;
use std::test::Fail;
use xf_base::{KeyForm, OutOfMemory, Text};
use xf_filter::{
    Filter, Item, RawFilter, RawItem, StockPredicate, read_filter, read_item, resolve, resolve_item,
};

/// The words of a line, with one blank between each two.
fn words_of(alloc: Global, line: &str) -> Result<Vec<Text>, OutOfMemory> {
    let mut words = Vec::new(alloc);
    for word in line.split(' ') {
        words.push(Text::of(alloc, word)?)?;
    }
    Ok(words)
}

/// The filter that a line spells.
fn raw_filter(alloc: Global, line: &str) -> Result<RawFilter, Fail> {
    let words = words_of(alloc, line)?;
    Ok(read_filter(alloc, words.as_slice(), 1)?)
}

/// The item that a line spells.
fn raw_item(alloc: Global, line: &str) -> Result<RawItem, Fail> {
    let words = words_of(alloc, line)?;
    Ok(read_item(alloc, words.as_slice(), 1)?)
}

/// The filter that the words of a line name where keys have a form.
pub(crate) fn filter_of(
    alloc: Global,
    form: &KeyForm,
    line: &str,
) -> Result<Filter<StockPredicate>, Fail> {
    let raw = raw_filter(alloc, line)?;
    Ok(resolve(alloc, form, &raw)?)
}

/// The item that the words of a line name where keys have a form.
pub(crate) fn item_of(alloc: Global, form: &KeyForm, line: &str) -> Result<Item, Fail> {
    let raw = raw_item(alloc, line)?;
    Ok(resolve_item(alloc, form, &raw)?)
}
