//! Toggling, after dc.js: an item goes into the list of a filter, or out of it where it is there already.
ghost use Rattle.std.specs.Prelude.{◌≡◌, IfOk, OnOk};
ghost use Rattle.std.specs.List.{position};
ghost use Rattle.xf_filter.specs.Toggle.{filter_of_items, is_same_item, listed, toggled, toggled_items};

use crate::filter::Filter;
use crate::item::Item;
use crate::stock_predicate::{StockPredicate, copy_items};
use sqlite_items::Items;
use std::alloc::Global;
use xf_base::OutOfMemory;

/// The filter with an item toggled. The list of a filter has no item for "all", one for one key or a range, those of
/// "one of", and none for any other predicate. The first item of the list that is the same is taken out; where none
/// is, the item comes last. The new filter is "all" for no item, the key or the range for one, and else "one of" them.
pub fn toggled(
    alloc: Global,
    filter: &Filter<StockPredicate>,
    item: Item,
) -> Result<Filter<StockPredicate>, OutOfMemory>
    ensures { IfOk result (λ new. new ≡ toggled filter.now item) }
{
    let mut items = listed(alloc, filter)?;
    toggle(&mut items, item)?;
    Ok(filter_of_items(items))
}

/// The items that a filter lists, once more.
fn listed(alloc: Global, filter: &Filter<StockPredicate>) -> Result<Vec<Item>, OutOfMemory>
    ensures { IfOk result (λ items. items.items ≡ listed filter.now) }
{
    let mut items = Vec::new(alloc);
    match filter {
        Filter::Exact(value) => items.push(Item::Exact(value.copy(alloc)?))?,
        Filter::Range(low, high) => items.push(Item::Range(low.copy(alloc)?, high.copy(alloc)?))?,
        Filter::Func(StockPredicate::OneOf(own)) => items = copy_items(alloc, own.as_slice())?,
        Filter::All | Filter::Func(_) => {}
    }
    Ok(items)
}

/// Takes the first item that is the same out, or puts the item at the end where none is.
fn toggle(items: &mut Vec<Item>, item: Item) -> Result<(), OutOfMemory>
    ensures { OnOk result (items.new.items ≡ toggled_items item items.old.items) }
{
    match place_of(items.as_slice(), &item) {
        Some(place) => {
            items.remove(place);
        }
        None => items.push(item)?,
    }
    Ok(())
}

/// The place of the first item that is the same.
fn place_of(items: &[Item], item: &Item) -> Option<usize>
    ensures { result ≡ position (is_same_item item.now) items.now }
{
    items.iter().position(|own| item == own)
}

/// The filter of a list of items.
fn filter_of_items(mut items: Vec<Item>) -> Filter<StockPredicate>
    ensures { result ≡ filter_of_items items.items }
{
    if items.len() > 1 {
        return Filter::Func(StockPredicate::OneOf(Items::from_vec(items)));
    }
    match items.pop() {
        None => Filter::All,
        Some(Item::Exact(value)) => Filter::Exact(value),
        Some(Item::Range(low, high)) => Filter::Range(low, high),
    }
}
