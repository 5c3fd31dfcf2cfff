//! Filters and items whose words are read as keys of a form.
ghost use Rattle.std.specs.Prelude.{◌≡◌, IfOk, map};
ghost use Rattle.xf_filter.specs.Resolving.{resolved, resolved_item, resolved_predicate};

use crate::filter::Filter;
use crate::item::Item;
use crate::raw_filter::{RawFilter, RawFilterParts, RawItem, RawItemParts, RawPredicate};
use crate::stock_predicate::StockPredicate;
use sqlite_items::{Boxed, Items};
use std::alloc::Global;
use xf_base::{KeyForm, OutOfMemory, key_of_word};

/// The filter that a raw filter names where keys are written so. A prefix stays a text.
pub fn resolve(
    alloc: Global,
    form: &KeyForm,
    filter: &RawFilter,
) -> Result<Filter<StockPredicate>, OutOfMemory>
    ensures { IfOk result (λ r. r ≡ resolved form.now filter.now) }
{
    Ok(match filter.parts() {
        RawFilterParts::All => Filter::All,
        RawFilterParts::Exact(key) => Filter::Exact(key_of_word(alloc, form, key)?),
        RawFilterParts::Range(low, high) => Filter::Range(
            key_of_word(alloc, form, low)?,
            key_of_word(alloc, form, high)?,
        ),
        RawFilterParts::Func(predicate) => Filter::Func(predicate_of(alloc, form, predicate)?),
    })
}

/// The item that a raw item names where keys are written so.
pub fn resolve_item(alloc: Global, form: &KeyForm, item: &RawItem) -> Result<Item, OutOfMemory>
    ensures { IfOk result (λ r. r ≡ resolved_item form.now item.now) }
{
    item_of(alloc, form, item.parts())
}

fn item_of(alloc: Global, form: &KeyForm, item: &RawItemParts) -> Result<Item, OutOfMemory>
    ensures { IfOk result (λ r. r ≡ resolved_item form.now item.now) }
{
    Ok(match item {
        RawItemParts::Exact(key) => Item::Exact(key_of_word(alloc, form, key)?),
        RawItemParts::Range(low, high) => Item::Range(
            key_of_word(alloc, form, low)?,
            key_of_word(alloc, form, high)?,
        ),
    })
}

fn predicate_of(
    alloc: Global,
    form: &KeyForm,
    predicate: &RawPredicate,
) -> Result<StockPredicate, OutOfMemory>
    ensures { IfOk result (λ r. r ≡ resolved_predicate form.now predicate.now) }
{
    Ok(match predicate {
        RawPredicate::OneOf(items) => {
            StockPredicate::OneOf(items_of(alloc, form, items.as_slice())?)
        }
        RawPredicate::Prefix(text) => StockPredicate::Prefix(text.copy(alloc)?),
        RawPredicate::Modulo(divisor, remainder) => StockPredicate::Modulo(*divisor, *remainder),
        RawPredicate::Not(inner) => {
            StockPredicate::Not(Boxed::new(alloc, predicate_of(alloc, form, inner.get())?)?)
        }
        RawPredicate::And(first, second) => StockPredicate::And(
            Boxed::new(alloc, predicate_of(alloc, form, first.get())?)?,
            Boxed::new(alloc, predicate_of(alloc, form, second.get())?)?,
        ),
        RawPredicate::Or(first, second) => StockPredicate::Or(
            Boxed::new(alloc, predicate_of(alloc, form, first.get())?)?,
            Boxed::new(alloc, predicate_of(alloc, form, second.get())?)?,
        ),
    })
}

fn items_of(
    alloc: Global,
    form: &KeyForm,
    items: &[RawItemParts],
) -> Result<Items<Item>, OutOfMemory>
    ensures { IfOk result (λ r. r ≡ map (resolved_item form.now) items.now) }
{
    let mut resolved = Vec::with_capacity(alloc, items.len())?;
    for item in items {
        resolved.push(item_of(alloc, form, item)?)?;
    }
    Ok(Items::from_vec(resolved))
}
