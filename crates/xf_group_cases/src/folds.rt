//! Rows that are folded by any reducer.
ghost use Rattle.std.specs.Prelude.{◌≡◌, ◌<◌, ◌≤◌, true, IfOk, OnOk, length};
ghost use Rattle.std.specs.List.{AllByRecursion};
ghost use Rattle.xf_base.specs.Schema.{IsRowOf};
ghost use Rattle.xf_base.specs.declared.limits.TheConstants.Limits.{ROWS};
ghost use Rattle.xf_model.specs.Group.{fold_of};

use crate::see::see;
use std::alloc::Global;
use std::process::Abort;
use std::sync::ledger::Ledger;
use std::test::Fail;
use xf_base::{Cell, Column, ColumnKind, Limits, OutOfMemory, Row, RowList, Schema, Steps, Text};
use xf_reduce::Reducer;

/// A whole number and cents.
pub(crate) fn a_schema(alloc: Global) -> Result<Schema, Fail> {
    let mut schema = Schema::new(alloc);
    for kind in [ColumnKind::Int, ColumnKind::Fixed(2)] {
        schema.push(Column {
            name: Text::of(alloc, "c")?,
            kind,
            blank: None,
        })?;
    }
    Ok(schema)
}

pub(crate) fn row_of(alloc: Global, whole: i64, cents: i64) -> Result<Row, OutOfMemory> {
    let mut row = Row::new(alloc);
    row.push(Cell::Num(whole))?;
    row.push(Cell::Num(cents))?;
    Ok(row)
}

pub(crate) fn rows_of(alloc: Global, numbers: &[(i64, i64)]) -> Result<RowList, OutOfMemory> {
    let mut rows = RowList::new(alloc);
    for (whole, cents) in numbers {
        rows.push(row_of(alloc, *whole, *cents)?)?;
    }
    Ok(rows)
}

/// The value of rows, from nothing. They are of the schema.
fn folded<R: Reducer, L: Ledger>(
    rt: &impl Abort,
    alloc: Global,
    schema: &Schema,
    reducer: &R,
    rows: &[Row],
    steps: &mut Steps<L>,
) -> Result<R::Value, OutOfMemory>
    requires fit { R.fits_to reducer.now schema.now ≡ true }
    requires few { length rows.now ≤ ROWS }
    ensures of_schema { OnOk result (AllByRecursion (IsRowOf schema.now) rows.now) }
    ensures meaning { IfOk result (λ value. R.meaning_of value ≡ fold_of (R.folding reducer.now) rows.now) }
{
    let mut value = reducer.initial(alloc)?;
    for row in rows {
        assert!(rt; schema.misfit(row).is_none());
        reducer.prepare(&mut value, row)?;
        reducer.add(&mut value, row, steps);
    }
    Ok(value)
}

/// Compares the numbers in all fields of a value with those that a table has.
pub(crate) fn see_ranks<R: Reducer>(rt: &impl Abort, reducer: &R, value: &R::Value, want: &[i128]) {
    see(
        rt,
        "as many fields",
        usize::from(reducer.fields()) == want.len(),
    );
    for field in 0..reducer.fields() {
        let rank = reducer.rank(value, field);
        see(rt, "a field", want.get(usize::from(field)) == Some(&rank));
    }
}

/// The value of rows to which one more came and went.
fn taken_back<R: Reducer, L: Ledger>(
    rt: &impl Abort,
    alloc: Global,
    schema: &Schema,
    reducer: &R,
    before: &[Row],
    last: &Row,
    steps: &mut Steps<L>,
) -> Result<R::Value, OutOfMemory>
    requires fit { R.fits_to reducer.now schema.now ≡ true }
    requires few { length before.now < ROWS }
{
    let mut value = folded(rt, alloc, schema, reducer, before, steps)?;
    assert!(rt; schema.misfit(last).is_none());
    reducer.prepare(&mut value, last)?;
    reducer.add(&mut value, last, steps);
    reducer.remove(&mut value, last, steps);
    Ok(value)
}

/// Sees that a row which came and went leaves the fields of those before it.
fn see_taken_back<R: Reducer, L: Ledger>(
    rt: &impl Abort,
    alloc: Global,
    schema: &Schema,
    reducer: &R,
    before: &[Row],
    last: &Row,
    steps: &mut Steps<L>,
) -> Result<(), OutOfMemory>
    requires fit { R.fits_to reducer.now schema.now ≡ true }
    requires few { length before.now < ROWS }
{
    let fewer = folded(rt, alloc, schema, reducer, before, steps)?;
    let value = taken_back(rt, alloc, schema, reducer, before, last, steps)?;
    for field in 0..reducer.fields() {
        let is_same = reducer.rank(&value, field) == reducer.rank(&fewer, field);
        see(rt, "taken back", is_same);
    }
    Ok(())
}

/// Compares the fields of rows with those that a table has.
fn see_folded<R: Reducer, L: Ledger>(
    rt: &impl Abort,
    alloc: Global,
    schema: &Schema,
    reducer: &R,
    rows: &[Row],
    want: &[i128],
    steps: &mut Steps<L>,
) -> Result<(), OutOfMemory>
    requires fit { R.fits_to reducer.now schema.now ≡ true }
    requires few { length rows.now ≤ ROWS }
{
    let value = folded(rt, alloc, schema, reducer, rows, steps)?;
    see_ranks(rt, reducer, &value, want);
    Ok(())
}

/// Compares the fields of rows with those that a table has. Without the last row they are those of the rows before it.
pub(crate) fn see_fields<R: Reducer, L: Ledger>(
    rt: &impl Abort,
    alloc: Global,
    schema: &Schema,
    reducer: &R,
    numbers: &[(i64, i64)],
    want: &[i128],
    steps: &mut Steps<L>,
) -> Result<(), OutOfMemory> {
    let rows = rows_of(alloc, numbers)?;
    assert!(rt; reducer.fits(schema) && rows.len() as u64 <= Limits::ROWS);
    see_folded(rt, alloc, schema, reducer, rows.as_slice(), want, steps)?;
    match rows.as_slice().split_last() {
        Some((last, before)) => see_taken_back(rt, alloc, schema, reducer, before, last, steps),
        None => Ok(()),
    }
}
