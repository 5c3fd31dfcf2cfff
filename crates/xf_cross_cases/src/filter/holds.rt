//! For which keys filters hold, and which kinds they do not fit.
use crate::filter::{filter_of, item_of};
use crate::see::see;
use crate::told::{TEXT, TEXT_AND_CENTS, Told, WHOLE, key_of};
use std::alloc::Global;
use std::process::Abort;
use std::test::Fail;
use xf_base::{AtomKind, Key, KeyForm, KeyKind, OutOfMemory};
use xf_filter::{Filter, Item, Predicate, StockPredicate};

const PAIR: KeyKind = KeyKind::Pair(AtomKind::Text, AtomKind::Num);

/// A form, the words of a filter, the kind of a dimension, the kind of the filter's first key that is of another, keys for
/// which it holds, and keys for which it does not.
type FilterCase = (
    KeyForm,
    &'static str,
    KeyKind,
    Option<KeyKind>,
    &'static [Told],
    &'static [Told],
);

static FILTERS: [FilterCase; 30] = [
    (
        WHOLE,
        "all",
        KeyKind::Num,
        None,
        &[Told::Num(3), Told::Text("x")],
        &[],
    ),
    (
        WHOLE,
        "exact 07",
        KeyKind::Num,
        None,
        &[Told::Num(7)],
        &[Told::Num(8), Told::Text("07")],
    ),
    (
        WHOLE,
        "range 0 7",
        KeyKind::Num,
        None,
        &[Told::Num(0), Told::Num(6)],
        &[Told::Num(-1), Told::Num(7), Told::Text("3")],
    ),
    (WHOLE, "range 7 7", KeyKind::Num, None, &[], &[Told::Num(7)]),
    (
        WHOLE,
        "range 8 0",
        KeyKind::Num,
        None,
        &[],
        &[Told::Num(0), Told::Num(4), Told::Num(8)],
    ),
    (
        TEXT,
        "exact ZZ",
        KeyKind::Text,
        None,
        &[Told::Text("ZZ")],
        &[Told::Text("Z"), Told::Num(1)],
    ),
    (
        TEXT,
        "range a c",
        KeyKind::Text,
        None,
        &[Told::Text("a"), Told::Text("bz")],
        &[Told::Text("c"), Told::Text("B")],
    ),
    (
        TEXT_AND_CENTS,
        "range b|2.00 b|3.00",
        PAIR,
        None,
        &[Told::Pair("b", 200), Told::Pair("b", 299)],
        &[Told::Pair("b", 300), Told::Pair("a", 250), Told::Text("b")],
    ),
    (
        WHOLE,
        "func oneof exact 1 range 5 7 end",
        KeyKind::Num,
        None,
        &[Told::Num(1), Told::Num(5), Told::Num(6)],
        &[Told::Num(2), Told::Num(7)],
    ),
    (
        TEXT,
        "func prefix ab",
        KeyKind::Text,
        None,
        &[Told::Text("ab"), Told::Text("abc")],
        &[
            Told::Text("a"),
            Told::Text("bab"),
            Told::Num(0),
            Told::Pair("ab", 0),
        ],
    ),
    (
        TEXT,
        "func not prefix ab",
        KeyKind::Text,
        None,
        &[Told::Text("a"), Told::Num(0), Told::Pair("ab", 0)],
        &[Told::Text("ab")],
    ),
    (
        WHOLE,
        "func modulo 7 6",
        KeyKind::Num,
        None,
        &[Told::Num(6), Told::Num(-1), Told::Num(-8)],
        &[Told::Num(0), Told::Num(-6), Told::Text("6")],
    ),
    (
        WHOLE,
        "func modulo 1 0",
        KeyKind::Num,
        None,
        &[Told::Num(0), Told::Num(-5)],
        &[Told::Text("")],
    ),
    (
        WHOLE,
        "func and modulo 2 0 not modulo 4 0",
        KeyKind::Num,
        None,
        &[Told::Num(2), Told::Num(-2)],
        &[Told::Num(4), Told::Num(3)],
    ),
    (
        TEXT,
        "func or prefix a prefix b",
        KeyKind::Text,
        None,
        &[Told::Text("a"), Told::Text("b")],
        &[Told::Text("c")],
    ),
    (
        TEXT_AND_CENTS,
        "func oneof exact a|1 end",
        PAIR,
        None,
        &[Told::Pair("a", 100)],
        &[Told::Pair("a", 1)],
    ),
    (WHOLE, "all", KeyKind::Text, None, &[], &[]),
    (WHOLE, "exact 7", KeyKind::Num, None, &[], &[]),
    (
        WHOLE,
        "exact AA",
        KeyKind::Num,
        Some(KeyKind::Text),
        &[],
        &[],
    ),
    (
        WHOLE,
        "range 0 x",
        KeyKind::Num,
        Some(KeyKind::Text),
        &[],
        &[],
    ),
    (
        WHOLE,
        "range x 0",
        KeyKind::Num,
        Some(KeyKind::Text),
        &[],
        &[],
    ),
    (TEXT, "range 0 1", KeyKind::Text, None, &[], &[]),
    (
        TEXT_AND_CENTS,
        "exact a|x",
        PAIR,
        Some(KeyKind::Pair(AtomKind::Text, AtomKind::Text)),
        &[],
        &[],
    ),
    (TEXT_AND_CENTS, "exact a|1", PAIR, None, &[], &[]),
    (
        TEXT_AND_CENTS,
        "range x a|1",
        KeyKind::Num,
        Some(KeyKind::Text),
        &[],
        &[],
    ),
    (
        TEXT_AND_CENTS,
        "range a|1 x",
        KeyKind::Num,
        Some(PAIR),
        &[],
        &[],
    ),
    (
        WHOLE,
        "func oneof exact 1 range 2 x end",
        KeyKind::Num,
        Some(KeyKind::Text),
        &[],
        &[],
    ),
    (WHOLE, "func prefix x", KeyKind::Num, None, &[], &[]),
    (WHOLE, "func not modulo 2 0", KeyKind::Text, None, &[], &[]),
    (
        WHOLE,
        "func and oneof exact 1 end or prefix x oneof exact y end",
        KeyKind::Num,
        Some(KeyKind::Text),
        &[],
        &[],
    ),
];

/// Sees that a filter holds for each of these keys, or for none.
fn see_keys(
    rt: &impl Abort,
    alloc: Global,
    line: &str,
    filter: &Filter<StockPredicate>,
    keys: &[Told],
    holds: bool,
) -> Result<(), Fail> {
    for told in keys {
        let key = key_of(alloc, told)?;
        see(rt, line, filter.holds(&key) == holds);
    }
    Ok(())
}

/// Sees what a case's filter is.
fn see_filter(
    rt: &impl Abort,
    alloc: Global,
    case: &FilterCase,
    filter: &Filter<StockPredicate>,
) -> Result<(), Fail> {
    let (_form, line, kind, given, held, left_out) = case;
    see(rt, line, filter.is_all() == (*line == "all"));
    see(rt, line, filter.misfit(kind) == *given);
    see_keys(rt, alloc, line, filter, held, true)?;
    see_keys(rt, alloc, line, filter, left_out, false)
}

/// A copy of a case's filter.
fn copied(alloc: Global, case: &FilterCase) -> Result<Filter<StockPredicate>, Fail> {
    let filter = filter_of(alloc, &case.0, case.1)?;
    Ok(filter.copy(alloc)?)
}

#[test]
fn each_filter(rt: HostRuntime) -> Result<(), Fail> {
    for case in &FILTERS {
        let filter = copied(rt.alloc(), case)?;
        see_filter(&rt, rt.alloc(), case, &filter)?;
    }
    Ok(())
}

/// The words of an item of whole numbers, a key that it names, one that it does not, and whether both its keys are numbers.
type ItemCase = (&'static str, i64, i64, bool);

static ITEMS: [ItemCase; 5] = [
    ("exact 7", 7, 8, true),
    ("range 0 7", 6, 7, true),
    ("range 0 7", 0, -1, true),
    ("range 0 x", 0, -1, false),
    ("range -5 x", 9, -6, false),
];

/// Whether an item names a number.
fn names(item: &Item, number: i64) -> bool {
    item.holds(&Key::Num(number))
}

/// Whether a remainder by this divisor is no number's.
fn says_no(divisor: i64, number: i64) -> bool {
    !StockPredicate::Modulo(divisor, 0).says(&Key::Num(number))
}

fn is_copied(alloc: Global, item: &Item) -> Result<bool, OutOfMemory> {
    Ok(item.copy(alloc)? == *item)
}

/// Sees what a case's item is.
fn see_item(rt: &impl Abort, case: &ItemCase, item: &Item) {
    let (line, named, other, numbers) = case;
    see(rt, line, names(item, *named) && !names(item, *other));
    see(rt, line, item.misfit(&KeyKind::Num).is_none() == *numbers);
}

static DIVISORS: [i64; 3] = [0, -7, i64::MIN];

/// No words give a divisor below 1, which says no to every key.
#[test]
fn each_item(rt: HostRuntime) -> Result<(), Fail> {
    for divisor in &DIVISORS {
        see(
            &rt,
            "no divisor",
            says_no(*divisor, 0) && says_no(*divisor, 7),
        );
    }
    for case in &ITEMS {
        let item = item_of(rt.alloc(), &WHOLE, case.0)?;
        see_item(&rt, case, &item);
        see(&rt, case.0, is_copied(rt.alloc(), &item)?);
    }
    Ok(())
}
