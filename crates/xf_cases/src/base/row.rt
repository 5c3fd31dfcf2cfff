//! Rows, schemas and limits.
use std::alloc::Global;
use std::process::Abort;
use std::test::Fail;
use xf_base::{
    Cell, Column, ColumnKind, FIRST_DAY, LAST_DAY, Limits, OutOfMemory, Row, RowList, Schema, Text,
    TextList,
};

/// A schema with a column of each kind.
fn a_schema(alloc: Global) -> Result<Schema, OutOfMemory> {
    let column = |kind| {
        Ok::<Column, OutOfMemory>(Column {
            name: Text::of(alloc, "c")?,
            kind,
            blank: None,
        })
    };
    let mut schema = Schema::new(alloc);
    schema.push(column(ColumnKind::Int)?)?;
    schema.push(column(ColumnKind::Fixed(2))?)?;
    schema.push(column(ColumnKind::Date)?)?;
    schema.push(column(ColumnKind::Text)?)?;
    schema.push(column(ColumnKind::Tags(b';'))?)?;
    Ok(schema)
}

fn tags(alloc: Global, first: &str, second: &str) -> Result<Cell, OutOfMemory> {
    let mut tags = TextList::new(alloc);
    tags.push(Text::of(alloc, first)?)?;
    tags.push(Text::of(alloc, second)?)?;
    Ok(Cell::Tags(tags))
}

/// The cell of a letter in the table below.
fn cell_of(alloc: Global, letter: u8) -> Result<Cell, OutOfMemory> {
    Ok(match letter {
        b'n' => Cell::Num(1_000_000_000_000_000),
        b'N' => Cell::Num(1_000_000_000_000_001),
        b'm' => Cell::Num(-1_000_000_000_000_000),
        b'd' => Cell::Num(FIRST_DAY),
        b'D' => Cell::Num(LAST_DAY + 1),
        b'x' => Cell::Text(Text::of(alloc, "x")?),
        b't' => tags(alloc, "a", "b")?,
        b'T' => tags(alloc, "b", "a")?,
        _ => tags(alloc, "a", "a")?,
    })
}

fn row_of(alloc: Global, letters: &str) -> Result<Row, OutOfMemory> {
    let mut row = Row::new(alloc);
    for letter in letters.bytes() {
        row.push(cell_of(alloc, letter)?)?;
    }
    Ok(row)
}

/// The letters of a row, how many bytes its texts have, and the first column that is missing or differs.
static ROWS: [(&str, u64, Option<usize>); 15] = [
    ("nmdxt", 3, None),
    ("Nmdxt", 3, Some(0)),
    ("xmdxt", 4, Some(0)),
    ("nNdxt", 3, Some(1)),
    ("nmDxt", 3, Some(2)),
    ("nmnxt", 3, Some(2)),
    ("nmdnt", 2, Some(3)),
    ("nmdxx", 2, Some(4)),
    ("nmdxT", 3, Some(4)),
    ("nmdx2", 3, Some(4)),
    ("Nmdx", 1, Some(0)),
    ("nmdx", 1, Some(4)),
    ("nmdxtn", 3, Some(5)),
    ("nmDxtn", 3, Some(2)),
    ("", 0, Some(0)),
];

/// Says whether this is the cell of a letter of few.
fn is_of(letter: u8, cell: &Cell) -> bool {
    match (letter, cell) {
        (b'n', Cell::Num(number)) => *number == 1_000_000_000_000_000,
        (b'x', Cell::Text(text)) => text.as_str() == "x",
        (b't', Cell::Tags(tags)) => tags.len() == 2,
        _ => !matches!(letter, b'n' | b'x' | b't'),
    }
}

/// Sees that a row has the cells of letters.
fn see_cells(rt: &impl Abort, letters: &str, row: &Row) {
    assert!(rt; row.len() == letters.len() && row.is_empty() == letters.is_empty());
    for (place, letter) in letters.bytes().enumerate() {
        let is_right = row.at(place).is_some_and(|cell| is_of(letter, cell));
        assert!(rt; is_right, "{letters} at {place}");
    }
}

/// A list of a row, and of a row with the same cells twice.
fn once_and_twice(alloc: Global, row: &Row) -> Result<RowList, OutOfMemory> {
    let mut twice = row.copy(alloc)?;
    twice.append(row.copy(alloc)?)?;
    let mut rows = RowList::new(alloc);
    rows.push(row.copy(alloc)?)?;
    rows.push(twice)?;
    Ok(rows)
}

#[test]
fn rows_of_a_schema(rt: HostRuntime) -> Result<(), Fail> {
    let schema = a_schema(rt.alloc())?;
    for (letters, bytes, misfit) in &ROWS {
        let row = row_of(rt.alloc(), letters)?;
        assert_eq!(rt; schema.misfit(&row), *misfit, "at {letters}");
        see_cells(&rt, letters, &row.copy(rt.alloc())?);
        let rows = once_and_twice(rt.alloc(), &row)?;
        let is_right = row.text_bytes() == *bytes && rows.text_bytes() == bytes.saturating_mul(3);
        assert!(rt; is_right && rows.into_vec().len() == 2, "{letters}");
    }
    assert!(rt; schema.len() == 5 && schema.as_slice()[1].kind == ColumnKind::Fixed(2));
    assert!(rt; schema.place_of(b"c") == Some(0) && schema.place_of(b"C").is_none());
    assert!(rt; Limits::standard().rows == 1_000_000 && Limits::standard().is_sound());
    Ok(())
}
