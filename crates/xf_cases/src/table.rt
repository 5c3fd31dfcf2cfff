//! A table of names with numbers: what it holds, in order, how many bytes of text, what it refuses and what it keeps.
ghost use Rattle.std.specs.Prelude.{◌≡◌, ◌<◌};

use crate::base::gone::gone_of;
use std::alloc::Global;
use std::marker::Brand;
use std::process::Abort;
use std::sync::ledger::{Blank, Ledger};
use std::test::Fail;
use xf_base::{Cell, Column, ColumnKind, Limits, OutOfMemory, Row, RowList, Schema, Steps, Text};
use xf_table::{AppendRefusal, Table};

fn name_and_number(alloc: Global) -> Result<Schema, OutOfMemory> {
    let mut schema = Schema::new(alloc);
    schema.push(Column {
        name: Text::of(alloc, "name")?,
        kind: ColumnKind::Text,
        blank: None,
    })?;
    schema.push(Column {
        name: Text::of(alloc, "number")?,
        kind: ColumnKind::Int,
        blank: None,
    })?;
    Ok(schema)
}

fn rows_of(alloc: Global, records: &[(&str, i64)]) -> Result<RowList, OutOfMemory> {
    let mut rows = RowList::new(alloc);
    for (name, number) in records {
        let mut row = Row::new(alloc);
        row.push(Cell::Text(Text::of(alloc, name)?))?;
        row.push(Cell::Num(*number))?;
        rows.push(row)?;
    }
    Ok(rows)
}

/// What a table of at most four records and five bytes of text holds.
struct Held {
    records: usize,
    text: u64,
}

/// What an append shows, its records, why it is refused where it is, and what is held then.
static APPENDS: [(&str, &[(&str, i64)], Option<AppendRefusal>, Held); 5] = [
    (
        "records that are taken",
        &[("ab", 1), ("c", 2)],
        None,
        Held {
            records: 2,
            text: 3,
        },
    ),
    (
        "too many records",
        &[("d", 3), ("ef", 4), ("", 5)],
        Some(AppendRefusal::TooManyRecords {
            have: 2,
            more: 3,
            limit: 4,
        }),
        Held {
            records: 2,
            text: 3,
        },
    ),
    (
        "too much text before another kind",
        &[("def", TOO_GREAT)],
        Some(AppendRefusal::TooMuchText {
            have: 3,
            more: 3,
            limit: 5,
        }),
        Held {
            records: 2,
            text: 3,
        },
    ),
    (
        "a number that is too great",
        &[("d", 3), ("e", TOO_GREAT)],
        Some(AppendRefusal::KindMismatch {
            place: 1,
            column: 1,
        }),
        Held {
            records: 2,
            text: 3,
        },
    ),
    (
        "records that fill both limits",
        &[("d", 3), ("e", 4)],
        None,
        Held {
            records: 4,
            text: 5,
        },
    ),
];

const TOO_GREAT: i64 = 1_000_000_000_000_001;

/// Of two causes that hold, the first is told; what fills both limits is taken.
#[test]
fn refusals(rt: HostRuntime) -> Result<(), Fail> {
    let limits = Limits {
        rows: 4,
        text_bytes: 5,
        ..Limits::standard()
    };
    let mut table = Table::new(rt.alloc(), name_and_number(rt.alloc())?, limits);
    assert!(rt; table.limits().rows == 4);
    for (shows, records, refusal, held) in &APPENDS {
        let found = table.append(rows_of(rt.alloc(), records)?).err();
        assert!(rt; found == *refusal, "{shows}");
        assert!(rt;
            table.len() == held.records && table.text() == held.text,
            "{shows}"
        );
    }
    Ok(())
}

/// Which of three records are removed, then which of those that stay, the names of those that are left, and their bytes.
static KEPT: [(&[bool], &[bool], &[&str], u64); 5] = [
    (
        &[false, false, false],
        &[false, false, false],
        &["ab", "", "def"],
        5,
    ),
    (&[true, true, true], &[], &[], 0),
    (&[true, false, false], &[true, false], &["def"], 3),
    (&[false, false, true], &[false, true], &["ab"], 2),
    (&[false, true, false], &[false, false], &["ab", "def"], 5),
];

fn keep(rt: &impl Abort, alloc: Global, table: &mut Table, marks: &[bool]) -> Result<(), Fail> {
    let gone = gone_of(alloc, marks)?;
    assert!(rt; gone.len() == table.len());
    table.retain(&gone);
    Ok(())
}

/// Says whether a row has a name.
fn has_name(row: &Row, name: &str) -> bool {
    matches!(row.at(0), Some(Cell::Text(own)) if own.as_str() == name)
}

/// Sees that a table has rows of these names, all together and each by its place.
fn see_names<L: Ledger>(rt: &impl Abort, table: &Table, names: &[&str], steps: &mut Steps<L>) {
    assert!(rt; table.len() == names.len() && table.is_empty() == names.is_empty());
    assert!(rt; table.rows(steps).len() == names.len());
    for (place, name) in names.iter().enumerate() {
        assert!(rt; place < table.len());
        assert!(rt; has_name(table.row(place, steps), name), "{name}");
    }
}

fn see_kept<L: Ledger>(rt: &impl Abort, alloc: Global, blank: Blank) -> Result<(), Fail>
    requires name { blank.name ≡ L.name }
    requires parts { blank.parts ≡ L.parts }
    requires some { 0 < blank.parts }
{
    let mut steps = Steps::<L>::new(blank);
    for (first, second, names, bytes) in &KEPT {
        let mut table = Table::new(alloc, name_and_number(alloc)?, Limits::standard());
        table
            .append(rows_of(alloc, &[("ab", 1), ("", 2), ("def", 3)])?)
            .expect(rt, "three records");
        keep(rt, alloc, &mut table, first)?;
        keep(rt, alloc, &mut table, second)?;
        see_names(rt, &table, names, &mut steps);
        assert!(rt; table.text() == *bytes && table.schema().len() == 2);
    }
    Ok(())
}

#[test]
fn keeps_rows(rt: HostRuntime) -> Result<(), Fail> {
    see_kept::<Brand>(&rt, rt.alloc(), Blank::new(1))
}
