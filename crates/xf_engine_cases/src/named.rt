//! Filters by their words, and a schema of each kind of column.
ghost use Rattle.std.specs.Prelude.{IfOk};
ghost use Rattle.xf_base.specs.Schema.{IsColumn, IsSoundKind};

use std::alloc::Global;
use std::test::Fail;
use xf_base::{Column, ColumnKind, KeyForm, OutOfMemory, Schema, Text};
use xf_filter::{Filter, RawFilter, StockPredicate, read_filter, resolve};

fn kind_at(place: usize) -> ColumnKind
    ensures { IsSoundKind result }
{
    match place {
        0 => ColumnKind::Text,
        1 => ColumnKind::Int,
        2 => ColumnKind::Fixed(2),
        3 => ColumnKind::Date,
        _ => ColumnKind::Tags(b';'),
    }
}

/// A column of the kind of a place.
fn column_at(alloc: Global, place: usize) -> Result<Column, OutOfMemory>
    ensures { IfOk result IsColumn }
{
    Ok(Column {
        name: Text::of(alloc, "c")?,
        kind: kind_at(place),
        blank: None,
    })
}

/// A text, a whole number, cents, a day and tags.
pub(crate) fn a_schema(alloc: Global) -> Result<Schema, OutOfMemory> {
    let mut schema = Schema::new(alloc);
    for place in 0..5_usize {
        schema.push(column_at(alloc, place)?)?;
    }
    Ok(schema)
}

/// The words of a line, with one blank between each two.
fn words_of(alloc: Global, line: &str) -> Result<Vec<Text>, OutOfMemory> {
    let mut words = Vec::new(alloc);
    for word in line.split(' ') {
        words.push(Text::of(alloc, word)?)?;
    }
    Ok(words)
}

/// The filter that a line spells.
fn raw_filter(alloc: Global, line: &str) -> Result<RawFilter, Fail> {
    let words = words_of(alloc, line)?;
    Ok(read_filter(alloc, words.as_slice(), 1)?)
}

/// The filter that the words of a line name where keys have a form.
pub(crate) fn filter_of(
    alloc: Global,
    form: &KeyForm,
    line: &str,
) -> Result<Filter<StockPredicate>, Fail> {
    let raw = raw_filter(alloc, line)?;
    Ok(resolve(alloc, form, &raw)?)
}
