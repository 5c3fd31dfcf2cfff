//! The table: what it keeps, and what it tells of it.
ghost use Rattle.std.specs.Prelude.{◌≡◌, ◌⊎◌, ◌==◌, ◌+◌, ◌^◌, ◌<◌, ◌≤◌, [], length, sum_by, IfErr, OnOk, OnErr, slice_get, Some, None};
ghost use Rattle.std.specs.List.{enumerate_from};
ghost use Rattle.xf_base.specs.Cell.{row_bytes};
ghost use Rattle.xf_base.specs.Gone.{kept};
ghost use Rattle.xf_table.specs.Append.{mismatch_of, refusal_of};

use crate::append_refusal::AppendRefusal;
use std::alloc::Global;
use std::marker::Model;
use std::sync::ledger::Ledger;
use xf_base::{Gone, Limits, OutOfMemory, Row, RowList, Schema, Steps};

/// The records that are present. Rows are added at the end, and those that are kept stay in order.
#[derive(Drop)]
pub struct Table {
    schema: Schema,
    limits: Limits,
    rows: RowList,
    text: u64,
}

impl Model for Table {
    ghost use Rattle.xf_table.specs.Table.{Contents, IsTable};

    ghost Value = { Contents };

    ghost view = { λ table. record { columns = table.schema; limits = table.limits; rows = table.rows } };

    ghost invariant = { λ table. IsTable table.schema table.limits table.rows table.text };
}

impl Table {
    ghost use Rattle.xf_table.specs.Table.{kept_rows, with_rows, text_of_rows};

    /// A table without rows, which takes no memory yet.
    pub fn new(alloc: Global, schema: Schema, limits: Limits) -> Table
        ensures columns { result.columns ≡ schema }
        ensures limits { result.limits ≡ limits }
        ensures rows { result.rows ≡ [] }
    {
        Table {
            schema,
            limits,
            rows: RowList::new(alloc),
            text: 0,
        }
    }

    /// Puts rows at the end, in one move, or refuses all of them.
    pub fn append(&mut self, rows: RowList) -> Result<(), AppendRefusal>
        ensures ok { OnOk result (self.new ≡ with_rows self.old rows) }
        ensures accepted { OnOk result (refusal_of self.old rows ≡ None) }
        ensures refused { IfErr result (λ cause. (cause ≡ AppendRefusal.OutOfMemory) ⊎ (refusal_of self.old rows ≡ Some cause)) }
        ensures err { OnErr result (self.new ≡ self.old) }
    {
        match self.refusal_of(&rows) {
            Some(cause) => Err(cause),
            None => Ok(self.push(rows)?),
        }
    }

    /// Why rows are not appended, want of memory apart: the first cause that holds.
    pub fn refusal_of(&self, rows: &RowList) -> Option<AppendRefusal>
        ensures { result ≡ refusal_of self.now rows.now }
    {
        let (have, more) = (self.rows.len() as u64, rows.len() as u64);
        let limit = self.limits.rows;
        if more > limit - have {
            return Some(AppendRefusal::TooManyRecords { have, more, limit });
        }
        let (have, more) = (self.text, rows.text_bytes());
        let limit = self.limits.text_bytes;
        if more > limit - have {
            return Some(AppendRefusal::TooMuchText { have, more, limit });
        }
        first_mismatch(&self.schema, rows.as_slice())
    }

    /// Puts rows at the end that are not refused, in one move. Without memory for them they are dropped.
    pub fn push(&mut self, rows: RowList) -> Result<(), OutOfMemory>
        requires { refusal_of self.old rows ≡ None }
        ensures ok { OnOk result (self.new ≡ with_rows self.old rows) }
        ensures err { OnErr result (self.new ≡ self.old) }
    {
        let text = self.text + rows.text_bytes();
        self.rows.append(rows)?;
        self.text = text;
        Ok(())
    }

    /// Keeps the rows whose places are not removed, in order. It takes no memory and no step.
    pub fn retain(&mut self, gone: &Gone)
        requires { length gone.now ≡ length self.old.rows }
        ensures { self.new ≡ kept_rows gone.now self.old }
    {
        self.text -= removed_text(self.rows.as_slice(), gone);
        self.rows.retain(gone);
    }

    /// The row at a place from 0 on.
    pub fn row<L: Ledger>(&self, place: usize, steps: &mut Steps<L>) -> &Row
        requires { place < length self.now.rows }
        ensures row { Some result.now ≡ slice_get self.now.rows place }
        ensures cost { steps.new ≡ steps.old + 1 }
    {
        steps.tick();
        let rows = self.rows.as_slice();
        &rows[place]
    }

    /// All rows, at the cost of one step for each.
    pub fn rows<L: Ledger>(&self, steps: &mut Steps<L>) -> &RowList
        ensures rows { result.now ≡ self.now.rows }
        ensures cost { steps.new ≡ steps.old + length self.now.rows }
    {
        steps.tick_by(self.rows.len() as u64);
        &self.rows
    }

    /// The number of rows.
    pub fn len(&self) -> usize
        ensures { result ≡ length self.now.rows }
    {
        self.rows.len()
    }

    /// Whether there is no row.
    pub fn is_empty(&self) -> bool
        ensures { result ≡ (length self.now.rows == 0) }
    {
        self.rows.is_empty()
    }

    /// The bytes of text of all rows, or `u64::MAX` where there are more.
    pub fn text(&self) -> u64
        ensures total { result ≡ text_of_rows self.now.rows }
        ensures few { result ≤ self.now.limits.text_bytes }
    {
        self.text
    }

    /// How much the table may hold.
    pub fn limits(&self) -> &Limits
        ensures { result.now ≡ self.now.limits }
    {
        &self.limits
    }

    pub fn schema(&self) -> &Schema
        ensures { result.now ≡ self.now.columns }
    {
        &self.schema
    }
}

/// The first row that is not of the schema.
fn first_mismatch(schema: &Schema, rows: &[Row]) -> Option<AppendRefusal>
    ensures { result ≡ mismatch_of schema.now (enumerate_from 0 rows.now) }
{
    for (place, row) in rows.iter().enumerate() {
        if let Some(column) = schema.misfit(row) {
            return Some(AppendRefusal::KindMismatch {
                place: place as u64,
                column: column as u64,
            });
        }
    }
    None
}

/// The bytes of text of the rows whose places are removed.
fn removed_text(rows: &[Row], gone: &Gone) -> u64
    requires places { length gone.now ≡ length rows.now }
    requires few { sum_by row_bytes rows.now < 2 ^ 64 }
    ensures { result + sum_by row_bytes (kept gone.now rows.now) ≡ sum_by row_bytes rows.now }
{
    let mut removed: u64 = 0;
    for (place, row) in rows.iter().enumerate() {
        if gone.is_gone(place) {
            removed += row.text_bytes();
        }
    }
    removed
}
