//! Cells of a file: what a field means under its column.
ghost use Rattle.std.specs.Prelude.{◌≡◌, ◌⊎◌, ◌<◌, Err, IfOk, IfSome};
ghost use Rattle.std.specs.List.{list_all};
ghost use Rattle.xf_base.specs.Fixed.{is_blank};
ghost use Rattle.xf_base.specs.Schema.{IsCellOf, IsColumn};
ghost use Rattle.xf_load.specs.Fallible.{map_err};
ghost use Rattle.xf_load.specs.Cell.{HasAsciiSeparator, cell_of, cell_of_kind, date_refusal, day_cell, number_cell, number_refusal, text_cell};

use crate::tags::read_tags;
use std::alloc::Global;
use thiserror::Error;
use xf_base::{
    Cell, Column, ColumnKind, DateRefusal, Limits, NumberRefusal, OutOfMemory, Text, read_date,
    read_fixed,
};

/// Why a field is no cell of its column. The first that holds, in this order: `NotUtf8` of every kind of column, `Empty` of
/// numbers and dates, the next three of numbers, the next two of dates, `TextTooLong` of texts and tags, `TooManyTags` of
/// tags.
#[derive(Clone, Copy, Debug, PartialEq, Eq, Error)]
pub enum CellRefusal {
    /// The field is not UTF-8.
    #[error("not utf8")]
    NotUtf8,
    /// Nothing but blanks, in a column of numbers or dates that has no blank cell.
    #[error("empty")]
    Empty,
    /// Not an optional sign and digits with at most one point.
    #[error("not a number")]
    NotNumber,
    /// A digit other than 0 after the last decimal of the column.
    #[error("too many decimals")]
    TooManyDecimals,
    /// Below -10^15 or above 10^15 units.
    #[error("out of range")]
    OutOfRange,
    /// Not four digits, `-`, two digits, `-`, two digits.
    #[error("not a date")]
    Form,
    /// A date of a day that does not exist.
    #[error("no such day")]
    NoSuchDay,
    /// More than 4,096 bytes.
    #[error("text too long")]
    TextTooLong,
    /// More than 64 distinct tags.
    #[error("too many tags")]
    TooManyTags,
}

/// Why `read_cell` gave no cell.
#[derive(Clone, Copy, Debug, PartialEq, Eq, Error)]
pub enum ReadCellFault {
    #[error("{0}")]
    Bad(CellRefusal),
    /// Memory was refused.
    #[error("out of memory")]
    OutOfMemory,
}

impl From<OutOfMemory> for ReadCellFault {
    ghost use Rattle.std.specs.Prelude.{◌≡◌};
    ghost use Rattle.xf_load.specs.declared.cell.ReadCellFault.TheVariants.{OutOfMemory};

    ghost from_gives = { λ _ fault. fault ≡ OutOfMemory };

    fn from(_error: OutOfMemory) -> ReadCellFault {
        ReadCellFault::OutOfMemory
    }
}

/// The cell of a field: a number, a date, a text or tags, as its column says. A field of nothing but blanks gives the
/// column's blank cell where it has one.
pub fn read_cell(alloc: Global, column: &Column, field: &[u8]) -> Result<Cell, ReadCellFault>
    requires { HasAsciiSeparator column.now.kind }
    ensures cell { (result ≡ Err ReadCellFault.OutOfMemory)
        ⊎ (result ≡ map_err ReadCellFault.Bad (cell_of column.now field.now)) }
    ensures of_column { IsColumn column.now → IfOk result (IsCellOf column.now.kind) }
{
    if let Some(number) = plain_number(column, field) {
        return Ok(Cell::Num(number));
    }
    let Ok(text) = str::from_utf8(field) else {
        return Err(ReadCellFault::Bad(CellRefusal::NotUtf8));
    };
    if let Some(blank) = &column.blank
        && is_all_blanks(field)
    {
        return Ok(blank.copy(alloc)?);
    }
    read_kind(alloc, column.kind, text)
}

/// The number of a field in a column of numbers, if it is one. A number is UTF-8 and not blank, so that most fields are
/// looked at once.
fn plain_number(column: &Column, field: &[u8]) -> Option<i64>
    ensures cell { IfSome result (λ number. cell_of column.now field.now ≡ Ok (Cell.Num number)) }
    ensures of_kind { IfSome result (λ number. IsCellOf column.now.kind (Cell.Num number)) }
{
    match column.kind {
        ColumnKind::Int => read_fixed(field, 0).ok(),
        ColumnKind::Fixed(decimals) => read_fixed(field, decimals).ok(),
        _ => None,
    }
}

/// Whether a field is nothing but blanks.
fn is_all_blanks(field: &[u8]) -> bool
    ensures { result ≡ list_all is_blank field.now }
{
    field.iter().all(|byte| *byte == b' ')
}

/// The cell of a field by the kind of its column.
fn read_kind(alloc: Global, kind: ColumnKind, text: &str) -> Result<Cell, ReadCellFault>
    requires { HasAsciiSeparator kind }
    ensures of_kind { IfOk result (IsCellOf kind) }
    ensures cell { (result ≡ Err ReadCellFault.OutOfMemory)
        ⊎ (result ≡ map_err ReadCellFault.Bad (cell_of_kind kind text.now)) }
{
    match kind {
        ColumnKind::Int => read_number(text, 0),
        ColumnKind::Fixed(decimals) => read_number(text, decimals),
        ColumnKind::Date => read_day(text),
        ColumnKind::Text => read_text(alloc, text),
        ColumnKind::Tags(separator) => read_tags(alloc, separator, text),
    }
}

fn read_number(text: &str, decimals: u8) -> Result<Cell, ReadCellFault>
    ensures { result ≡ map_err ReadCellFault.Bad (number_cell text.now decimals) }
{
    match read_fixed(text.as_bytes(), decimals) {
        Ok(number) => Ok(Cell::Num(number)),
        Err(refusal) => Err(ReadCellFault::Bad(number_refusal(refusal))),
    }
}

fn number_refusal(refusal: NumberRefusal) -> CellRefusal
    ensures { result ≡ number_refusal refusal }
{
    match refusal {
        NumberRefusal::Empty => CellRefusal::Empty,
        NumberRefusal::NotNumber => CellRefusal::NotNumber,
        NumberRefusal::TooManyDecimals => CellRefusal::TooManyDecimals,
        NumberRefusal::OutOfRange => CellRefusal::OutOfRange,
    }
}

fn read_day(text: &str) -> Result<Cell, ReadCellFault>
    ensures cell { result ≡ map_err ReadCellFault.Bad (day_cell text.now) }
    ensures of_kind { IfOk result (IsCellOf ColumnKind.Date) }
{
    if is_all_blanks(text.as_bytes()) {
        return Err(ReadCellFault::Bad(CellRefusal::Empty));
    }
    match read_date(text.as_bytes()) {
        Ok(day) => Ok(Cell::Num(day)),
        Err(refusal) => Err(ReadCellFault::Bad(date_refusal(refusal))),
    }
}

fn date_refusal(refusal: DateRefusal) -> CellRefusal
    ensures { result ≡ date_refusal refusal }
{
    match refusal {
        DateRefusal::Form => CellRefusal::Form,
        DateRefusal::NoSuchDay => CellRefusal::NoSuchDay,
    }
}

fn read_text(alloc: Global, text: &str) -> Result<Cell, ReadCellFault>
    ensures { (result ≡ Err ReadCellFault.OutOfMemory)
        ⊎ (result ≡ map_err ReadCellFault.Bad (text_cell text.now)) }
{
    if text.len() as u64 > Limits::CELL_BYTES {
        return Err(ReadCellFault::Bad(CellRefusal::TextTooLong));
    }
    Ok(Cell::Text(Text::of(alloc, text)?))
}
