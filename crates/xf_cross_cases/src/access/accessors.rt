//! The stock of accessors on one record, and on days.
ghost use Rattle.std.specs.Prelude.{IfOk};
ghost use Rattle.xf_base.specs.Schema.{IsColumn, IsSoundKind};

use crate::see::see;
use std::alloc::Global;
use std::test::Fail;
use xf_access::{Accessor, StockAccessor};
use xf_base::{
    AtomForm, AtomKind, Cell, Column, ColumnKind, KeyForm, KeyKind, OutOfMemory, Row, Schema, Text,
    TextList, put_key,
};

const WHOLE: KeyForm = KeyForm::One(AtomForm::Fixed(0));

const CENTS: KeyForm = KeyForm::One(AtomForm::Fixed(2));

const DATE: KeyForm = KeyForm::One(AtomForm::Date);

const TEXT: KeyForm = KeyForm::One(AtomForm::Text);

const TEXT_AND_CENTS: KeyForm = KeyForm::Pair(AtomForm::Text, AtomForm::Fixed(2));

fn kind_at(place: usize) -> ColumnKind
    ensures { IsSoundKind result }
{
    match place {
        0 => ColumnKind::Text,
        1 => ColumnKind::Int,
        2 => ColumnKind::Fixed(2),
        3 => ColumnKind::Date,
        _ => ColumnKind::Tags(b';'),
    }
}

/// A column of the kind of a place.
fn column_at(alloc: Global, place: usize) -> Result<Column, OutOfMemory>
    ensures { IfOk result IsColumn }
{
    Ok(Column {
        name: Text::of(alloc, "c")?,
        kind: kind_at(place),
        blank: None,
    })
}

/// Columns of each kind.
fn a_schema(alloc: Global) -> Result<Schema, OutOfMemory> {
    let mut schema = Schema::new(alloc);
    for place in 0..5_usize {
        schema.push(column_at(alloc, place)?)?;
    }
    Ok(schema)
}

static TAGS: [&str; 2] = ["new", "old"];

fn tags(alloc: Global) -> Result<TextList, OutOfMemory> {
    let mut tags = TextList::new(alloc);
    for tag in &TAGS {
        tags.push(Text::of(alloc, tag)?)?;
    }
    Ok(tags)
}

/// Of a name, three seats, a price of 1.50, a day, and two tags the one of a place.
fn cell_at(alloc: Global, place: usize, day: i64) -> Result<Cell, OutOfMemory> {
    Ok(match place {
        0 => Cell::Text(Text::of(alloc, "\u{fc}")?),
        1 => Cell::Num(3),
        2 => Cell::Num(150),
        3 => Cell::Num(day),
        _ => Cell::Tags(tags(alloc)?),
    })
}

fn a_row(alloc: Global, day: i64) -> Result<Row, OutOfMemory> {
    let mut row = Row::new(alloc);
    for place in 0..5_usize {
        row.push(cell_at(alloc, place, day)?)?;
    }
    Ok(row)
}

/// The keys of a row in the accessor's form, with `,` between them.
fn shown(alloc: Global, accessor: &StockAccessor, row: &Row) -> Result<Vec<u8>, Fail> {
    let mut out = Vec::new(alloc);
    for key in accessor.keys(alloc, row)?.as_slice() {
        if !out.is_empty() {
            out.push(b',')?;
        }
        put_key(&mut out, &accessor.form(), key)?;
    }
    Ok(out)
}

/// 2024-02-29.
const LEAP: i64 = 19_782;

type Case = (StockAccessor, i64, bool, &'static str);

/// An accessor, the day of the record, whether it fits the columns, and what it gives for the record; a number of no year has
/// no month.
static ACCESSORS: [Case; 32] = [
    (StockAccessor::Column(0, TEXT), LEAP, true, "\u{fc}"),
    (StockAccessor::Column(1, WHOLE), LEAP, true, "3"),
    (StockAccessor::Column(2, CENTS), LEAP, true, "1.50"),
    (StockAccessor::Column(3, DATE), LEAP, true, "2024-02-29"),
    (
        StockAccessor::PairOf(0, 2, TEXT_AND_CENTS),
        LEAP,
        true,
        "\u{fc}|1.50",
    ),
    (StockAccessor::Tags(4), LEAP, true, "new,old"),
    (StockAccessor::Weekday(3), LEAP, true, "4"),
    (StockAccessor::Month(3), LEAP, true, "2"),
    (StockAccessor::Column(1, CENTS), LEAP, false, "0.03"),
    (StockAccessor::Column(2, WHOLE), LEAP, false, "150"),
    (StockAccessor::Column(1, DATE), LEAP, false, "1970-01-04"),
    (
        StockAccessor::Column(0, TEXT_AND_CENTS),
        LEAP,
        false,
        "\u{fc}",
    ),
    (StockAccessor::Column(4, TEXT), LEAP, false, ""),
    (StockAccessor::Column(5, TEXT), LEAP, false, ""),
    (
        StockAccessor::PairOf(2, 0, TEXT_AND_CENTS),
        LEAP,
        false,
        "150|\u{fc}",
    ),
    (StockAccessor::PairOf(0, 4, TEXT_AND_CENTS), LEAP, false, ""),
    (StockAccessor::PairOf(0, 2, TEXT), LEAP, false, "\u{fc}|150"),
    (StockAccessor::Tags(0), LEAP, false, ""),
    (StockAccessor::Weekday(1), LEAP, false, "0"),
    (StockAccessor::Month(0), LEAP, false, ""),
    (StockAccessor::Weekday(3), 0, true, "4"),
    (StockAccessor::Month(3), 0, true, "1"),
    (StockAccessor::Weekday(3), -1, true, "3"),
    (StockAccessor::Month(3), -1, true, "12"),
    (StockAccessor::Weekday(3), -4, true, "0"),
    (StockAccessor::Month(3), -4, true, "12"),
    (StockAccessor::Weekday(3), -5, true, "6"),
    (StockAccessor::Month(3), -5, true, "12"),
    (StockAccessor::Weekday(3), 2_932_896, true, "5"),
    (StockAccessor::Month(3), 2_932_896, true, "12"),
    (StockAccessor::Weekday(3), 2_932_897, true, "6"),
    (StockAccessor::Month(3), 2_932_897, true, ""),
];

/// Whether a row's keys are those that a case wants.
fn is_shown(alloc: Global, case: &Case, row: &Row) -> Result<bool, Fail> {
    let keys = shown(alloc, &case.0, row)?;
    Ok(keys.as_slice() == case.3.as_bytes())
}

/// An accessor, whether it may give many keys, and their kind.
static KINDS: [(StockAccessor, bool, KeyKind); 3] = [
    (StockAccessor::Tags(4), true, KeyKind::Text),
    (StockAccessor::Month(3), false, KeyKind::Num),
    (
        StockAccessor::PairOf(0, 2, TEXT_AND_CENTS),
        false,
        KeyKind::Pair(AtomKind::Text, AtomKind::Num),
    ),
];

#[test]
fn fits_and_gives_keys(rt: HostRuntime) -> Result<(), Fail> {
    let schema = a_schema(rt.alloc())?;
    for case in &ACCESSORS {
        see(&rt, case.3, case.0.fits(&schema) == case.2);
        let row = a_row(rt.alloc(), case.1)?;
        see(&rt, case.3, is_shown(rt.alloc(), case, &row)?);
    }
    for (accessor, is_array, kind) in &KINDS {
        see(&rt, "an array", accessor.is_array() == *is_array);
        see(&rt, "a kind", accessor.kind() == *kind);
    }
    Ok(())
}
