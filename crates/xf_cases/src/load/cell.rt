//! Cells of fields.
use super::{one_tag, shown};
use crate::see::see_text;
use std::alloc::Global;
use std::process::Abort;
use std::test::Fail;
use xf_base::{Cell, Column, ColumnKind, Text};
use xf_load::{CellRefusal, ReadCellFault, read_cell};

fn column(alloc: Global, kind: ColumnKind, blank: Option<Cell>) -> Result<Column, Fail> {
    Ok(Column {
        name: Text::of(alloc, "c")?,
        kind,
        blank,
    })
}

/// The cell of a field. No case has a separator that is not ASCII, which `read_cell` does not take.
fn read(alloc: Global, column: &Column, field: &[u8]) -> Result<Cell, ReadCellFault> {
    match column.kind {
        ColumnKind::Tags(128..) => Err(ReadCellFault::OutOfMemory),
        _ => read_cell(alloc, column, field),
    }
}

/// What a field gives, as the table has it.
fn answer(alloc: Global, column: &Column, field: &[u8]) -> Result<String, Fail> {
    match read(alloc, column, field) {
        Ok(cell) => shown(alloc, &cell),
        Err(ReadCellFault::Bad(why)) => Ok(format!(in alloc; "{why}")?),
        Err(ReadCellFault::OutOfMemory) => Ok(format!(in alloc; "out of memory")?),
    }
}

const TAGS: ColumnKind = ColumnKind::Tags(b';');

/// A name, a kind of column, a field, and its cell.
static FIELDS: [(&str, ColumnKind, &[u8], &str); 44] = [
    ("whole", ColumnKind::Int, b"-7", "-7"),
    ("zero decimals", ColumnKind::Int, b" +7.0 ", "7"),
    (
        "a decimal too many",
        ColumnKind::Int,
        b"1.5",
        "too many decimals",
    ),
    ("empty number", ColumnKind::Int, b"", "empty"),
    ("blank number", ColumnKind::Int, b"   ", "empty"),
    ("a word", ColumnKind::Int, b"x", "not a number"),
    ("a tab is no blank", ColumnKind::Int, b"\t1", "not a number"),
    (
        "greatest",
        ColumnKind::Int,
        b"1000000000000000",
        "1000000000000000",
    ),
    (
        "above the greatest",
        ColumnKind::Int,
        b"1000000000000001",
        "out of range",
    ),
    ("bytes come first", ColumnKind::Int, b"1\xFF", "not utf8"),
    ("decimals", ColumnKind::Fixed(2), b"1.5", "150"),
    ("below zero", ColumnKind::Fixed(2), b"-.05", "-5"),
    (
        "a third decimal",
        ColumnKind::Fixed(2),
        b"1.005",
        "too many decimals",
    ),
    ("a third zero", ColumnKind::Fixed(2), b"1.000", "100"),
    ("empty fixed", ColumnKind::Fixed(9), b" ", "empty"),
    ("first day", ColumnKind::Date, b"1970-01-01", "0"),
    ("leap day", ColumnKind::Date, b" 2000-02-29 ", "11016"),
    ("before 1970", ColumnKind::Date, b"1969-12-31", "-1"),
    (
        "no leap day",
        ColumnKind::Date,
        b"2001-02-29",
        "no such day",
    ),
    ("one digit", ColumnKind::Date, b"2001-2-03", "not a date"),
    ("empty date", ColumnKind::Date, b"", "empty"),
    ("blank date", ColumnKind::Date, b"  ", "empty"),
    (
        "date of bytes",
        ColumnKind::Date,
        b"2001-01-0\xFF",
        "not utf8",
    ),
    ("text", ColumnKind::Text, b"a b", "|a b|"),
    ("empty text", ColumnKind::Text, b"", "||"),
    ("blanks stay", ColumnKind::Text, b"  ", "|  |"),
    ("blanks at the ends stay", ColumnKind::Text, b" a ", "| a |"),
    (
        "text beyond ascii",
        ColumnKind::Text,
        b"\xC3\xA9",
        "|\u{e9}|",
    ),
    ("text of bytes", ColumnKind::Text, b"a\xC3", "not utf8"),
    ("tags in order", TAGS, b"b;a", "tags|a||b|"),
    ("a tag twice", TAGS, b"a;b;a", "tags|a||b|"),
    ("one tag", TAGS, b"a", "tags|a|"),
    ("no tags", TAGS, b"", "tags"),
    ("empty pieces", TAGS, b";;a;;", "tags|a|"),
    ("separators alone", TAGS, b";;", "tags"),
    ("blanks are a tag", TAGS, b"  ", "tags|  |"),
    ("blanks are part of a tag", TAGS, b"a; a", "tags| a||a|"),
    (
        "a front before the whole",
        TAGS,
        b"ab;a;b",
        "tags|a||ab||b|",
    ),
    (
        "ordered by bytes",
        TAGS,
        b"a;\xC3\xA9;Z;z",
        "tags|Z||a||z||\u{e9}|",
    ),
    ("tags of bytes", TAGS, b"a;\xC3;\xA9", "not utf8"),
    (
        "other separator",
        ColumnKind::Tags(b','),
        b"a;b,c",
        "tags|a;b||c|",
    ),
    (
        "blank separates",
        ColumnKind::Tags(b' '),
        b"b a",
        "tags|a||b|",
    ),
    (
        "blanks that separate",
        ColumnKind::Tags(b' '),
        b"  ",
        "tags",
    ),
    ("NUL separates", ColumnKind::Tags(0), b"b\0a", "tags|a||b|"),
];

/// The blank cell of a column of a kind.
fn blank(alloc: Global, kind: ColumnKind) -> Result<Cell, Fail> {
    match kind {
        ColumnKind::Text => Ok(Cell::Text(Text::of(alloc, "none")?)),
        ColumnKind::Tags(_) => one_tag(alloc, "none"),
        ColumnKind::Date => Ok(Cell::Num(0)),
        ColumnKind::Int | ColumnKind::Fixed(_) => Ok(Cell::Num(-1)),
    }
}

/// A name, a kind of column that has a blank cell, a field, and its cell.
static BLANKS: [(&str, ColumnKind, &[u8], &str); 12] = [
    ("empty number", ColumnKind::Int, b"", "-1"),
    ("blank number", ColumnKind::Int, b"  ", "-1"),
    ("number", ColumnKind::Int, b" 3 ", "3"),
    ("no number", ColumnKind::Int, b"\t", "not a number"),
    ("bytes", ColumnKind::Int, b" \xFF", "not utf8"),
    ("blank date", ColumnKind::Date, b" ", "0"),
    ("no date", ColumnKind::Date, b"x", "not a date"),
    ("empty text", ColumnKind::Text, b"", "|none|"),
    ("blank text", ColumnKind::Text, b" ", "|none|"),
    ("text", ColumnKind::Text, b" x", "| x|"),
    ("blank tags", TAGS, b" ", "tags|none|"),
    ("empty pieces alone", TAGS, b";", "tags"),
];

/// Reads each field into a column of its kind, with a blank cell or without one.
fn see_fields(
    rt: &impl Abort,
    alloc: Global,
    has_blank: bool,
    cases: &'static [(&'static str, ColumnKind, &'static [u8], &'static str)],
) -> Result<(), Fail> {
    for (name, kind, field, want) in cases {
        let column = if has_blank {
            column(alloc, *kind, Some(blank(alloc, *kind)?))?
        } else {
            column(alloc, *kind, None)?
        };
        let text = answer(alloc, &column, field)?;
        see_text(rt, name, text.as_bytes(), want)?;
    }
    Ok(())
}

#[test]
fn reads_fields(rt: HostRuntime) -> Result<(), Fail> {
    see_fields(&rt, rt.alloc(), false, &FIELDS)?;
    see_fields(&rt, rt.alloc(), true, &BLANKS)
}

/// Tags `0` to `count - 1`, each with a separator after it, so many times, and then so many blanks.
fn many_tags(alloc: Global, count: usize, times: usize, blanks: usize) -> Result<Vec<u8>, Fail> {
    let mut field = Vec::new(alloc);
    for _ in 0..times {
        for number in 0..count {
            field.extend_from_slice(format!(in alloc; "{number};")?.as_bytes())?;
        }
    }
    for _ in 0..blanks {
        field.push(b' ')?;
    }
    Ok(field)
}

/// A name, a kind of column, how many tags its field has and how often, how many blanks come after them, and why it is
/// refused. The tags 0 to 63 take 182 bytes with their separators, 0 to 64 take 185.
static LONG: [(&str, ColumnKind, usize, usize, usize, Option<CellRefusal>); 10] = [
    ("longest text", ColumnKind::Text, 0, 1, 4_096, None),
    (
        "text too long",
        ColumnKind::Text,
        0,
        1,
        4_097,
        Some(CellRefusal::TextTooLong),
    ),
    ("most tags", TAGS, 64, 1, 0, None),
    ("64 tags twice", TAGS, 64, 2, 0, None),
    (
        "too many tags",
        TAGS,
        65,
        1,
        0,
        Some(CellRefusal::TooManyTags),
    ),
    (
        "blanks are one more",
        TAGS,
        64,
        1,
        1,
        Some(CellRefusal::TooManyTags),
    ),
    ("longest tags", TAGS, 63, 1, 3_917, None),
    (
        "tags too long",
        TAGS,
        63,
        1,
        3_918,
        Some(CellRefusal::TextTooLong),
    ),
    (
        "longest and too many",
        TAGS,
        65,
        1,
        3_911,
        Some(CellRefusal::TooManyTags),
    ),
    (
        "length comes first",
        TAGS,
        65,
        1,
        3_912,
        Some(CellRefusal::TextTooLong),
    ),
];

#[test]
fn long_cells_are_refused(rt: HostRuntime) -> Result<(), Fail> {
    for (name, kind, count, times, blanks, want) in &LONG {
        let column = column(rt.alloc(), *kind, None)?;
        let field = many_tags(rt.alloc(), *count, *times, *blanks)?;
        let found = read(rt.alloc(), &column, field.as_slice()).err();
        assert!(rt; found == want.map(ReadCellFault::Bad), "{name}");
    }
    Ok(())
}
