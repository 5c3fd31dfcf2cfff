//! Items that are toggled, from each state of the list.
use crate::filter::{filter_of, item_of};
use crate::see::see;
use crate::told::WHOLE;
use std::alloc::Global;
use std::test::Fail;
use xf_base::Key;
use xf_filter::{Filter, Item, StockPredicate, toggled};

/// A filter, the items that are toggled in turn, and the list of the last filter.
static TOGGLES: [(&str, &[&str], &[Listed]); 12] = [
    ("all", &["exact 1"], &[Listed::Exact(1)]),
    (
        "all",
        &["exact 1", "exact 2"],
        &[Listed::Exact(1), Listed::Exact(2)],
    ),
    (
        "all",
        &["exact 1", "exact 2", "exact 01"],
        &[Listed::Exact(2)],
    ),
    ("all", &["exact 1", "exact 1"], &[]),
    (
        "exact 1",
        &["exact 2"],
        &[Listed::Exact(1), Listed::Exact(2)],
    ),
    (
        "exact 1",
        &["range 1 2"],
        &[Listed::Exact(1), Listed::Range(1, 2)],
    ),
    ("range 1 2", &["range 1 2"], &[]),
    (
        "range 1 2",
        &["range 1 3"],
        &[Listed::Range(1, 2), Listed::Range(1, 3)],
    ),
    (
        "func oneof exact 1 exact 2 exact 1 end",
        &["exact 1"],
        &[Listed::Exact(2), Listed::Exact(1)],
    ),
    ("func oneof exact 1 end", &["exact 1"], &[]),
    ("func prefix a", &["exact 1"], &[Listed::Exact(1)]),
    (
        "func not oneof exact 1 end",
        &["exact 1"],
        &[Listed::Exact(1)],
    ),
];

/// An item of whole numbers.
enum Listed {
    Exact(i64),
    Range(i64, i64),
}

fn is_item(item: &Item, listed: &Listed) -> bool {
    match (item, listed) {
        (Item::Exact(Key::Num(own)), Listed::Exact(value)) => own == value,
        (Item::Range(Key::Num(own), Key::Num(end)), Listed::Range(low, high)) => {
            own == low && end == high
        }
        _ => false,
    }
}

/// Whether a filter is that of a list.
fn is_list(filter: &Filter<StockPredicate>, list: &[Listed]) -> bool {
    match (filter, list) {
        (Filter::All, []) => true,
        (Filter::Exact(Key::Num(own)), [Listed::Exact(value)]) => own == value,
        (Filter::Range(Key::Num(own), Key::Num(end)), [Listed::Range(low, high)]) => {
            own == low && end == high
        }
        (Filter::Func(StockPredicate::OneOf(items)), [_, _, ..]) => {
            items.len() == list.len()
                && items
                    .as_slice()
                    .iter()
                    .zip(list)
                    .all(|(item, listed)| is_item(item, listed))
        }
        _ => false,
    }
}

/// The filter after the item of a line is toggled.
fn toggled_once(
    alloc: Global,
    filter: &Filter<StockPredicate>,
    line: &str,
) -> Result<Filter<StockPredicate>, Fail> {
    let item = item_of(alloc, &WHOLE, line)?;
    Ok(toggled(alloc, filter, item)?)
}

/// The filter of a line after items are toggled in turn.
fn toggled_by(alloc: Global, line: &str, items: &[&str]) -> Result<Filter<StockPredicate>, Fail> {
    let mut filter = filter_of(alloc, &WHOLE, line)?;
    for item in items {
        filter = toggled_once(alloc, &filter, item)?;
    }
    Ok(filter)
}

#[test]
fn each_toggle(rt: HostRuntime) -> Result<(), Fail> {
    for (line, items, list) in &TOGGLES {
        let filter = toggled_by(rt.alloc(), line, items)?;
        see(&rt, line, is_list(&filter, list));
    }
    Ok(())
}
