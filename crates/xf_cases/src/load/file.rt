//! Rows of whole files.
use super::shown;
use crate::see::see_text;
use std::alloc::Global;
use std::process::Abort;
use std::test::Fail;
use xf_base::{Column, ColumnKind, RowList, Schema, Text};
use xf_load::{Loaded, records_of, records_within};

/// The columns `delay` of whole numbers and `carrier` of texts.
fn flights(alloc: Global) -> Result<Schema, Fail> {
    let mut schema = Schema::new(alloc);
    schema.push(Column {
        name: Text::of(alloc, "delay")?,
        kind: ColumnKind::Int,
        blank: None,
    })?;
    schema.push(Column {
        name: Text::of(alloc, "carrier")?,
        kind: ColumnKind::Text,
        blank: None,
    })?;
    Ok(schema)
}

/// Each row with a semicolon after it, a blank between its cells.
pub fn rows_shown(alloc: Global, rows: &RowList) -> Result<String, Fail> {
    let mut text = String::new(alloc);
    for row in rows.as_slice() {
        for (place, cell) in row.as_slice().iter().enumerate() {
            if place > 0 {
                text.push(' ')?;
            }
            text.push_str(shown(alloc, cell)?.as_str())?;
        }
        text.push(';')?;
    }
    Ok(text)
}

/// A name, a file, and its rows under the two columns.
static FILES: [(&str, &[u8], &str); 36] = [
    ("rows", b"delay,carrier\n7,AA\n-5,DL\n", "7 |AA|;-5 |DL|;"),
    ("no last line feed", b"delay,carrier\n7,AA", "7 |AA|;"),
    ("no rows", b"delay,carrier\n", ""),
    ("header alone", b"delay,carrier", ""),
    ("empty file", b"", "no header"),
    ("empty lines alone", b"\n\r\n\r\n", "no header"),
    ("byte order mark alone", b"\xEF\xBB\xBF", "no header"),
    (
        "byte order mark",
        b"\xEF\xBB\xBFdelay,carrier\r\n+3,UA\r\n",
        "3 |UA|;",
    ),
    (
        "one mark is dropped",
        b"\xEF\xBB\xBF\xEF\xBB\xBFdelay,carrier\n",
        "missing column 0",
    ),
    (
        "a mark is dropped before a quote",
        b"\xEF\xBB\xBF\"delay\",carrier\n1,A\n",
        "1 |A|;",
    ),
    (
        "carriage returns",
        b"delay,carrier\r7,AA\r-5,DL\r",
        "7 |AA|;-5 |DL|;",
    ),
    (
        "quotes and an unused column",
        b"carrier,note,delay,distance\r\n\"A, A\",\"x, y\",1,2\r\nUA,,+3,4.0\r\n",
        "1 |A, A|;3 |UA|;",
    ),
    (
        "a quote and a line feed in quotes",
        b"delay,carrier\n1,\"a\"\"\nb\"\n",
        "1 |a\"\nb|;",
    ),
    (
        "columns in another order",
        b"carrier,delay\nAA,7\n",
        "7 |AA|;",
    ),
    (
        "of two columns the first counts",
        b"delay,carrier,delay,carrier\n1,a,x,\xFF\n",
        "1 |a|;",
    ),
    (
        "a name of bytes is another name",
        b"delay,\xFF,carrier\n1,\xFF,a\n",
        "1 |a|;",
    ),
    ("quoted names", b"\"delay\",\"carrier\"\n1,a\n", "1 |a|;"),
    (
        "names have their blanks",
        b" delay,carrier\n1,a\n",
        "missing column 0",
    ),
    (
        "names have their case",
        b"Delay,carrier\n",
        "missing column 0",
    ),
    ("the second is missing", b"delay\n1\n", "missing column 1"),
    ("both are missing", b"a,b\n1\n", "missing column 0"),
    (
        "a missing column before records",
        b"carrier\nx,y\n",
        "missing column 0",
    ),
    ("empty text", b"delay,carrier\n1,\n", "1 ||;"),
    (
        "blank number",
        b"delay,carrier\n ,A\n",
        "bad cell 1 0 empty",
    ),
    (
        "a decimal too many",
        b"delay,carrier\n1,A\n1.5,A\n",
        "bad cell 2 0 too many decimals",
    ),
    (
        "bytes in a text",
        b"delay,carrier\n1,A\n2,\xFF\n",
        "bad cell 2 1 not utf8",
    ),
    (
        "of two bad cells the first of the schema",
        b"carrier,delay\n\xFF,x\n",
        "bad cell 1 0 not a number",
    ),
    (
        "too few fields",
        b"delay,carrier\n1,A\n2\n",
        "uneven record 2",
    ),
    (
        "too many fields",
        b"delay,carrier\n1,A,\n",
        "uneven record 1",
    ),
    (
        "empty lines have no number",
        b"delay,carrier\n\n1,A\n\n\n2\n",
        "uneven record 2",
    ),
    (
        "unevenness before the cells of a record",
        b"delay,carrier\nx\n",
        "uneven record 1",
    ),
    (
        "a bad cell before a later uneven record",
        b"delay,carrier\n1,A\nx,A\n3\n",
        "bad cell 2 0 not a number",
    ),
    (
        "an uneven record before a later bad cell",
        b"delay,carrier\n1,A\n3\nx,A\n",
        "uneven record 2",
    ),
    (
        "the first of two bad records",
        b"delay,carrier\n1.5,A\nx,A\n",
        "bad cell 1 0 too many decimals",
    ),
    (
        "an unused column may hold anything",
        b"delay,x,carrier\n1,\xFF,a\n2,,b\n",
        "1 |a|;2 |b|;",
    ),
    (
        "an open quote takes the rest",
        b"delay,carrier\n1,\"a\n2,b\n",
        "1 |a\n2,b\n|;",
    ),
];

/// The same of a schema without columns.
static NO_COLUMNS: [(&str, &[u8], &str); 2] = [
    ("records", b"a,b\n1,2\n3,4\n", ";;"),
    ("a short record", b"a,b\n1\n", "uneven record 1"),
];

fn see_files(
    rt: &impl Abort,
    alloc: Global,
    schema: &Schema,
    cases: &'static [(&'static str, &'static [u8], &'static str)],
) -> Result<(), Fail> {
    for (name, bytes, want) in cases {
        let text = match records_of(alloc, schema, bytes) {
            Ok(rows) => rows_shown(alloc, &rows)?,
            Err(refusal) => format!(in alloc; "{refusal}")?,
        };
        see_text(rt, name, text.as_bytes(), want)?;
    }
    Ok(())
}

#[test]
fn reads_files(rt: HostRuntime) -> Result<(), Fail> {
    see_files(&rt, rt.alloc(), &flights(rt.alloc())?, &FILES)?;
    see_files(&rt, rt.alloc(), &Schema::new(rt.alloc()), &NO_COLUMNS)
}

/// A name, a limit, a file, how many records it has, and the rows that are kept.
static LIMITS: [(&str, u64, &[u8], u64, &str); 6] = [
    ("no row kept", 0, THREE, 3, ""),
    ("one kept", 1, THREE, 3, "1 |a|;"),
    ("all but one kept", 2, THREE, 3, "1 |a|;2 |b|;"),
    ("as many as there are", 3, THREE, 3, "1 |a|;2 |b|;3 |c|;"),
    ("more than there are", 4, THREE, 3, "1 |a|;2 |b|;3 |c|;"),
    (
        "a bad cell past the limit",
        1,
        b"delay,carrier\n1,a\n2,b\nx,c\n",
        0,
        "bad cell 3 0 not a number",
    ),
];

const THREE: &[u8] = b"delay,carrier\n1,a\n2,b\n3,c\n";

/// How many records a file has, and its rows within a limit; 0 and the cause where it is refused.
fn within(alloc: Global, schema: &Schema, bytes: &[u8], limit: u64) -> Result<(u64, String), Fail> {
    match records_within(alloc, schema, bytes, limit) {
        Ok(Loaded { rows, count }) => Ok((count, rows_shown(alloc, &rows)?)),
        Err(refusal) => Ok((0, format!(in alloc; "{refusal}")?)),
    }
}

#[test]
fn keeps_rows_within_a_limit(rt: HostRuntime) -> Result<(), Fail> {
    let schema = flights(rt.alloc())?;
    for (name, limit, bytes, count, want) in &LIMITS {
        let (found, text) = within(rt.alloc(), &schema, bytes, *limit)?;
        see_text(&rt, name, text.as_bytes(), want)?;
        assert!(rt; found == *count, "{name}");
    }
    Ok(())
}
