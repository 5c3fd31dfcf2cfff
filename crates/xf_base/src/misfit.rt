//! Where a row is not of a schema.
ghost use Rattle.std.specs.Prelude.{◌≡◌};
ghost use Rattle.xf_base.specs.Schema.{are_tags, is_ascending, is_below_first, is_cell_number, is_cell_of, misfit_of};

use crate::cell::{Cell, TextList};
use crate::column::{Column, ColumnKind};
use crate::date::{FIRST_DAY, LAST_DAY};
use crate::fixed::GREATEST_NUMBER;
use crate::limits::Limits;
use crate::text::Text;

/// The first column for which there is no cell or one of another kind; the number of columns where there are more cells.
pub fn first_misfit(columns: &[Column], cells: &[Cell]) -> Option<usize>
    ensures { result ≡ misfit_of columns.now cells.now }
{
    for (place, column) in columns.iter().enumerate() {
        match cells.get(place) {
            Some(cell) if is_cell_of(column.kind, cell) => {}
            _ => return Some(place),
        }
    }
    (cells.len() > columns.len()).then_some(columns.len())
}

/// Whether a cell is one of a column of this kind.
fn is_cell_of(kind: ColumnKind, cell: &Cell) -> bool
    ensures { result ≡ is_cell_of kind cell.now }
{
    match (kind, cell) {
        (ColumnKind::Int | ColumnKind::Fixed(_), Cell::Num(number)) => is_cell_number(*number),
        (ColumnKind::Date, Cell::Num(day)) => FIRST_DAY <= *day && *day <= LAST_DAY,
        (ColumnKind::Text, Cell::Text(text)) => text.as_str().len() as u64 <= Limits::CELL_BYTES,
        (ColumnKind::Tags(_), Cell::Tags(tags)) => are_tags(tags),
        _ => false,
    }
}

fn is_cell_number(number: i64) -> bool
    ensures { result ≡ is_cell_number number }
{
    number.unsigned_abs() <= GREATEST_NUMBER
}

/// Whether texts are the tags of a cell.
fn are_tags(tags: &TextList) -> bool
    ensures { result ≡ are_tags tags.now }
{
    let separators = tags.len().saturating_sub(1) as u64;
    tags.len() as u64 <= Limits::CELL_VALUES
        && tags.total_bytes().saturating_add(separators) <= Limits::CELL_BYTES
        && is_ascending(tags.as_slice())
}

/// Whether each text is below the next.
fn is_ascending(texts: &[Text]) -> bool
    ensures { result ≡ is_ascending texts.now }
{
    let mut rest = texts;
    while let Some((text, later)) = rest.split_first() {
        if !is_below_first(text, later) {
            return false;
        }
        rest = later;
    }
    true
}

/// Whether a text is below the first of others, where there is one.
fn is_below_first(text: &Text, later: &[Text]) -> bool
    ensures { result ≡ is_below_first text.now later.now }
{
    match later {
        [next, ..] => text < next,
        [] => true,
    }
}
