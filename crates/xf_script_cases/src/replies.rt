//! What is written for replies, refusals and the lines of answers.
use crate::see::see;
use crate::worked::{hundredths, refused_step};
use std::alloc::Global;
use std::test::Fail;
use xf_base::{
    Atom, AtomForm, Cell, Column, ColumnKind, Key, KeyForm, OutOfMemory, Row, Text, TextList,
};
use xf_load::CellRefusal;
use xf_reply::{
    Bytes, Change, Field, Refusal, Reply, put_entry, put_events, put_fields, put_none,
    put_number_line, put_record, put_refusal, put_step,
};

/// A reply as a table has it.
enum Said {
    Skipped,
    Changed(Change),
    /// An answer without lines.
    Empty,
    /// A line of each kind that is no record and no entry.
    Lines,
    BadCell(CellRefusal),
    NoWhole(&'static str),
    NoField(u64),
    TooMuchText(u64, u64, u64),
}

/// A reply, and what is written for it as step 7.
static REPLIES: [(Said, &str); 19] = [
    (Said::Skipped, ""),
    (Said::Changed(Change::Plain), "step 7 ok\n"),
    (Said::Changed(Change::Added(4)), "step 7 ok added 4\n"),
    (Said::Changed(Change::Removed(0)), "step 7 ok removed 0\n"),
    (
        Said::Changed(Change::Moved(18446744073709551615)),
        "step 7 ok moved 18446744073709551615\n",
    ),
    (Said::Empty, "step 7 ok\n"),
    (
        Said::Lines,
        "step 7 ok\n  12\n  none\n  added 1 removed 2 filtered 3\n",
    ),
    (
        Said::BadCell(CellRefusal::NotUtf8),
        "step 7 refused 20 bad cell 5 \"the day\" not utf8\n",
    ),
    (
        Said::BadCell(CellRefusal::Empty),
        "step 7 refused 20 bad cell 5 \"the day\" empty\n",
    ),
    (
        Said::BadCell(CellRefusal::NotNumber),
        "step 7 refused 20 bad cell 5 \"the day\" not a number\n",
    ),
    (
        Said::BadCell(CellRefusal::TooManyDecimals),
        "step 7 refused 20 bad cell 5 \"the day\" too many decimals\n",
    ),
    (
        Said::BadCell(CellRefusal::OutOfRange),
        "step 7 refused 20 bad cell 5 \"the day\" out of range\n",
    ),
    (
        Said::BadCell(CellRefusal::Form),
        "step 7 refused 20 bad cell 5 \"the day\" not a date\n",
    ),
    (
        Said::BadCell(CellRefusal::NoSuchDay),
        "step 7 refused 20 bad cell 5 \"the day\" no such day\n",
    ),
    (
        Said::BadCell(CellRefusal::TextTooLong),
        "step 7 refused 20 bad cell 5 \"the day\" text too long\n",
    ),
    (
        Said::BadCell(CellRefusal::TooManyTags),
        "step 7 refused 20 bad cell 5 \"the day\" too many tags\n",
    ),
    (Said::NoWhole("w w"), "step 7 refused 8 no whole \"w w\"\n"),
    (Said::NoField(9), "step 7 refused 14 no field 9\n"),
    (
        Said::TooMuchText(1, 2, 3),
        "step 7 refused 23 too much text 1 2 3\n",
    ),
];

fn lines(alloc: Global) -> Result<Bytes, OutOfMemory> {
    let mut lines = Vec::new(alloc);
    put_number_line(&mut lines, 12)?;
    put_none(&mut lines)?;
    put_events(&mut lines, 1, 2, 3)?;
    Ok(Bytes::from_vec(lines))
}

fn reply_of(alloc: Global, said: &Said) -> Result<Reply, OutOfMemory> {
    Ok(match said {
        Said::Skipped => Reply::Skipped,
        Said::Changed(change) => Reply::Changed(*change),
        Said::Empty => Reply::Answer(Bytes::new(alloc)),
        Said::Lines => Reply::Answer(lines(alloc)?),
        Said::BadCell(why) => Reply::Refused(Refusal::BadCell {
            number: 5,
            column: Text::of(alloc, "the day")?,
            why: *why,
        }),
        Said::NoWhole(name) => Reply::Refused(Refusal::NoWhole {
            name: Text::of(alloc, name)?,
        }),
        Said::NoField(number) => Reply::Refused(Refusal::NoField { number: *number }),
        Said::TooMuchText(have, more, limit) => Reply::Refused(Refusal::TooMuchText {
            have: *have,
            more: *more,
            limit: *limit,
        }),
    })
}

#[test]
fn steps(rt: HostRuntime) -> Result<(), Fail> {
    for (said, want) in &REPLIES {
        let mut out = Vec::new(rt.alloc());
        put_step(&mut out, 7, &reply_of(rt.alloc(), said)?)?;
        see(&rt, out.as_slice(), want)?;
    }
    let mut out = Vec::new(rt.alloc());
    put_refusal(&mut out, &Refusal::NoHeader)?;
    see(&rt, out.as_slice(), "no header")
}

/// A number of a key, alone or as the second of a pair behind the text `a b`.
enum Told {
    Num(i64),
    Pair(i64),
}

fn key_of(alloc: Global, told: &Told) -> Result<Key, OutOfMemory> {
    Ok(match told {
        Told::Num(number) => Key::Num(*number),
        Told::Pair(number) => Key::Pair(Atom::Text(Text::of(alloc, "a b")?), Atom::Num(*number)),
    })
}

/// A form, a key, the fields of an entry, how these are written, and how the entry is.
static ENTRIES: [(KeyForm, Told, &[Field], &str, &str); 4] = [
    (
        KeyForm::One(AtomForm::Fixed(2)),
        Told::Num(-5),
        &[],
        "",
        "  -0.05\n",
    ),
    (
        KeyForm::One(AtomForm::Date),
        Told::Num(1),
        &[
            Field {
                number: -1205,
                decimals: 2,
            },
            Field {
                number: 4,
                decimals: 0,
            },
        ],
        " -12.05 4",
        "  1970-01-02 -12.05 4\n",
    ),
    (
        KeyForm::Pair(AtomForm::Text, AtomForm::Fixed(0)),
        Told::Pair(7),
        &[
            Field {
                number: -5,
                decimals: 2,
            },
            Field {
                number: 0,
                decimals: 1,
            },
            Field {
                number: 7,
                decimals: 0,
            },
        ],
        " -0.05 0.0 7",
        "  \"a b|7\" -0.05 0.0 7\n",
    ),
    (
        KeyForm::One(AtomForm::Fixed(0)),
        Told::Num(0),
        &[
            Field {
                number: i128::MAX,
                decimals: 2,
            },
            Field {
                number: i128::MIN,
                decimals: 0,
            },
        ],
        " 1701411834604692317316873037158841057.27 -170141183460469231731687303715884105728",
        "  0 1701411834604692317316873037158841057.27 -170141183460469231731687303715884105728\n",
    ),
];

#[test]
fn entries(rt: HostRuntime) -> Result<(), Fail> {
    for (form, told, fields, words, line) in &ENTRIES {
        let key = key_of(rt.alloc(), told)?;
        let mut out = Vec::new(rt.alloc());
        put_fields(&mut out, fields)?;
        see(&rt, out.as_slice(), words)?;
        let mut scratch = Vec::new(rt.alloc());
        out.clear();
        put_entry(&mut out, &mut scratch, form, &key, fields)?;
        see(&rt, out.as_slice(), line)?;
    }
    Ok(())
}

/// A column of each kind.
fn columns(alloc: Global) -> Result<Vec<Column>, OutOfMemory> {
    let mut columns = Vec::new(alloc);
    for kind in [
        ColumnKind::Int,
        ColumnKind::Fixed(1),
        ColumnKind::Date,
        ColumnKind::Text,
        ColumnKind::Tags(b'+'),
    ] {
        columns.push(Column {
            name: Text::of(alloc, "x")?,
            kind,
            blank: None,
        })?;
    }
    Ok(columns)
}

fn a_row(alloc: Global) -> Result<Row, OutOfMemory> {
    let mut tags = TextList::new(alloc);
    tags.push(Text::of(alloc, "a")?)?;
    tags.push(Text::of(alloc, "b")?)?;
    let mut row = Row::new(alloc);
    for number in [-7, 25, 11336] {
        row.push(Cell::Num(number))?;
    }
    row.push(Cell::Text(Text::of(alloc, "")?))?;
    row.push(Cell::Tags(tags))?;
    Ok(row)
}

#[test]
fn records(rt: HostRuntime) -> Result<(), Fail> {
    let columns = columns(rt.alloc())?;
    let row = a_row(rt.alloc())?;
    let mut out = Vec::new(rt.alloc());
    let mut scratch = Vec::new(rt.alloc());
    put_record(&mut out, &mut scratch, columns.as_slice(), 4, &row)?;
    see(
        &rt,
        out.as_slice(),
        "  record 4 -7 2.5 2001-01-14 \"\" a+b\n",
    )
}

#[test]
fn worked(rt: HostRuntime) -> Result<(), Fail> {
    let mut out = Vec::new(rt.alloc());
    refused_step(&mut out)?;
    hundredths(&mut out)?;
    see(&rt, out.as_slice(), "step 7 refused 4 bad word 3\n -0.05")
}
