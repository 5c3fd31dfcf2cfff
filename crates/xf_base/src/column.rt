//! Columns: how their fields are read and their cells are written.
use crate::cell::Cell;
use crate::text::Text;

/// How a column's fields are read and its cells are written.
#[derive(Clone, Copy, Debug, PartialEq, Eq)]
pub enum ColumnKind {
    /// Whole numbers; read as `Fixed(0)`.
    Int,
    /// Numbers with 0 to 9 decimals.
    Fixed(u8),
    /// Civil dates, as days from 1970-01-01 on.
    Date,
    Text,
    /// Tags, with the ASCII byte that stands between them.
    Tags(u8),
}

/// A column of a schema.
#[derive(Debug, Drop)]
pub struct Column {
    pub name: Text,
    pub kind: ColumnKind,
    /// The cell that a field of nothing but blanks gives, where there is one.
    pub blank: Option<Cell>,
}
