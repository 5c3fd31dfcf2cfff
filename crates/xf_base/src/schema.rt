//! The schema: the columns of a table.
ghost use Rattle.std.specs.Prelude.{◌≡◌, ◌<◌, [], ◌∷◌, ◌++◌, ◌↔◌, length, IfSome, IsNone, OnOk, OnErr};

use crate::column::Column;
use crate::misfit::first_misfit;
use crate::out_of_memory::OutOfMemory;
use crate::row::Row;
use std::alloc::Global;
use std::marker::Model;

/// The columns of a table, in order. Decimals are from 0 to 9, separators are ASCII bytes, and a blank is a cell of
/// its column.
#[derive(Debug, Drop)]
pub struct Schema {
    columns: Vec<Column>,
}

impl Model for Schema {
    ghost use Rattle.std.specs.Prelude.{List};
    ghost use Rattle.std.specs.List.{AllByRecursion};
    ghost use Rattle.xf_base.specs.declared.column.Column.{Column};
    ghost use Rattle.xf_base.specs.Schema.{IsColumn};

    ghost Value = { List Column };

    ghost view = { λ schema. schema.columns.items };

    ghost invariant = { λ schema. AllByRecursion IsColumn schema.columns.items };
}

impl Schema {
    ghost use Rattle.std.specs.List.{AllByRecursion};
    ghost use Rattle.xf_base.specs.Schema.{IsColumn, IsRowOf, misfit_of, place_of};

    /// A schema without columns.
    pub fn new(alloc: Global) -> Schema
        ensures { result ≡ [] }
    {
        Schema {
            columns: Vec::new(alloc),
        }
    }

    /// Puts a column at the end.
    pub fn push(&mut self, column: Column) -> Result<(), OutOfMemory>
        requires { IsColumn column }
        ensures ok { OnOk result (self.new ≡ self.old ++ column ∷ []) }
        ensures err { OnErr result (self.new ≡ self.old) }
    {
        self.columns.push(column)?;
        Ok(())
    }

    /// The number of columns.
    pub fn len(&self) -> usize
        ensures { result ≡ length self.now }
    {
        self.columns.len()
    }

    /// The columns in order.
    pub fn as_slice(&self) -> &[Column]
        ensures value { result.now ≡ self.now }
        ensures sound { AllByRecursion IsColumn self.now }
    {
        self.columns.as_slice()
    }

    /// The place, from 0 on, of the first column of a name; None where no column has it.
    pub fn place_of(&self, name: &[u8]) -> Option<usize>
        ensures place { result ≡ place_of self.now name.now }
        ensures within { IfSome result (λ place. place < length self.now) }
    {
        self.columns
            .iter()
            .position(|column| column.name.as_str().as_bytes() == name)
    }

    /// Where a row is not of the schema: the first column, from 0 on, for which it has no cell or one of another kind, or
    /// the number of columns where it has more cells. None where it has one cell for each column, each of the column's
    /// kind: numbers from -10^15 to 10^15, dates of the years 0000 to 9999, texts and joined tags of at most 4,096
    /// bytes, and at most 64 tags that stand ascending and distinct. It takes no memory.
    pub fn misfit(&self, row: &Row) -> Option<usize>
        ensures place { result ≡ misfit_of self.now row.now }
        ensures none { IsNone result ↔ IsRowOf self.now row.now }
    {
        first_misfit(self.as_slice(), row.as_slice())
    }
}
