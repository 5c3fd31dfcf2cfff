//! The stock of roundings on numbers, texts and a pair.
use crate::told::{Told, key_of};
use std::alloc::Global;
use std::process::Abort;
use std::test::Fail;
use xf_access::{Rounding, StockRounding};
use xf_base::{Key, OutOfMemory};

/// A rounding, a key, and the rounded key. Day 19,782 is 2024-02-29, and day -1 is 1969-12-31.
static KEYS: [(StockRounding, Told, Told); 25] = [
    (StockRounding::Same, Told::Num(-7), Told::Num(-7)),
    (StockRounding::Floor(5), Told::Num(-7), Told::Num(-10)),
    (StockRounding::Floor(5), Told::Num(-5), Told::Num(-5)),
    (StockRounding::Floor(5), Told::Num(9), Told::Num(5)),
    (
        StockRounding::Floor(5),
        Told::Num(i64::MIN),
        Told::Num(i64::MIN),
    ),
    (
        StockRounding::Floor(1_000_000_000_000_000),
        Told::Num(-1),
        Told::Num(-1_000_000_000_000_000),
    ),
    (
        StockRounding::Floor(1_000_000_000_000_001),
        Told::Num(7),
        Told::Num(7),
    ),
    (StockRounding::Floor(0), Told::Num(7), Told::Num(7)),
    (StockRounding::MonthOf, Told::Num(19_782), Told::Num(19_754)),
    (StockRounding::MonthOf, Told::Num(-1), Told::Num(-31)),
    (StockRounding::YearOf, Told::Num(19_782), Told::Num(19_723)),
    (StockRounding::YearOf, Told::Num(-1), Told::Num(-365)),
    (
        StockRounding::YearOf,
        Told::Num(-719_529),
        Told::Num(-719_529),
    ),
    (
        StockRounding::YearOf,
        Told::Num(2_932_897),
        Told::Num(2_932_897),
    ),
    (
        StockRounding::MonthOf,
        Told::Num(2_932_896),
        Told::Num(2_932_866),
    ),
    (StockRounding::FirstLetters(1), Told::Num(77), Told::Num(77)),
    (
        StockRounding::FirstLetters(1),
        Told::Text("\u{e9}\u{2026}x"),
        Told::Text("\u{e9}"),
    ),
    (
        StockRounding::FirstLetters(2),
        Told::Text("\u{e9}\u{2026}x"),
        Told::Text("\u{e9}\u{2026}"),
    ),
    (
        StockRounding::FirstLetters(3),
        Told::Text("e\u{301}\u{1f600}b"),
        Told::Text("e\u{301}\u{1f600}"),
    ),
    (
        StockRounding::FirstLetters(64),
        Told::Text("ab"),
        Told::Text("ab"),
    ),
    (
        StockRounding::FirstLetters(1),
        Told::Text(""),
        Told::Text(""),
    ),
    (
        StockRounding::FirstLetters(0),
        Told::Text("ab"),
        Told::Text("ab"),
    ),
    (
        StockRounding::FirstLetters(65),
        Told::Text("ab"),
        Told::Text("ab"),
    ),
    (StockRounding::Floor(5), Told::Text("ab"), Told::Text("ab")),
    (
        StockRounding::Floor(5),
        Told::Pair("a", -7),
        Told::Pair("a", -7),
    ),
];

fn rounded(alloc: Global, rounding: &StockRounding, told: &Told) -> Result<Key, OutOfMemory> {
    let key = key_of(alloc, told)?;
    rounding.round(alloc, &key)
}

/// Whether a key rounds to another.
fn is_rounded(
    alloc: Global,
    rounding: &StockRounding,
    told: &Told,
    want: &Told,
) -> Result<bool, OutOfMemory> {
    let key = rounded(alloc, rounding, told)?;
    Ok(key == key_of(alloc, want)?)
}

fn see_place(rt: &impl Abort, place: usize, is_right: bool) {
    assert!(rt; is_right, "at {place}");
}

#[test]
fn rounds_keys(rt: HostRuntime) -> Result<(), Fail> {
    for (place, (rounding, told, want)) in KEYS.iter().enumerate() {
        see_place(&rt, place, is_rounded(rt.alloc(), rounding, told, want)?);
    }
    Ok(())
}
