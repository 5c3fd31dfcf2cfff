//! Files as boards of their own, within limits.
use super::file::rows_shown;
use crate::see::see_text;
use std::alloc::Global;
use std::test::Fail;
use xf_base::Limits;
use xf_sheet::{Sheet, read_sheet};

/// The name of each column with a colon after it, and then the rows.
fn sheet_shown(alloc: Global, sheet: &Sheet) -> Result<String, Fail> {
    let mut text = String::new(alloc);
    for column in sheet.schema.as_slice() {
        text.push_str(column.name.as_str())?;
        text.push(':')?;
    }
    text.push_str(rows_shown(alloc, &sheet.rows)?.as_str())?;
    Ok(text)
}

/// A name, a file, and its columns and rows where at most 3 rows and 4 entries are taken.
static SHEETS: [(&str, &[u8], &str); 10] = [
    (
        "columns of numbers, which fill the entries",
        b"delay,carrier,day\n7,AA,1\n-5,2,+3\n",
        "delay:day:7 1;-5 3;",
    ),
    ("no rows", b"delay,carrier\n", "delay:carrier:"),
    (
        "no column of numbers, and the rows are filled",
        b"delay\nx\ny\nz\n",
        ";;;",
    ),
    ("the first of two of one name", b"a,a\n1,2\n", "a:1;"),
    (
        "a field that is no number counts as no entry",
        b"a,b,c\n1,2,x\n3,4,5\n",
        "a:b:1 2;3 4;",
    ),
    ("empty file", b"", "no header"),
    (
        "a short record before too many",
        b"a\n1\n2\n3\n4,5\n",
        "uneven record 4",
    ),
    (
        "one row too many",
        b"a\n1\n2\n3\n4\n",
        "too many records: 4, of at most 3",
    ),
    (
        "one entry too many",
        b"a,b,c,d,e\n1,2,3,4,5\n",
        "too many entries: 5, of at most 4",
    ),
    (
        "rows before entries",
        b"a,b\n1,2\n3,4\n5,6\n7,8\n",
        "too many records: 4, of at most 3",
    ),
];

#[test]
fn reads_sheets(rt: HostRuntime) -> Result<(), Fail> {
    let limits = Limits {
        rows: 3,
        entries: 4,
        ..Limits::standard()
    };
    for (name, bytes, want) in &SHEETS {
        let text = match read_sheet(rt.alloc(), bytes, &limits) {
            Ok(sheet) => sheet_shown(rt.alloc(), &sheet)?,
            Err(refusal) => format!(in rt.alloc(); "{refusal}")?,
        };
        see_text(&rt, name, text.as_bytes(), want)?;
    }
    Ok(())
}
