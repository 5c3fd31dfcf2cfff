//! Rows: the cells of a record, one for each column.
ghost use Rattle.std.specs.Prelude.{◌≡◌, ◌-◌, ◌^◌, min, sum_by, IfOk};
ghost use Rattle.xf_base.specs.Cell.{row_bytes};

use crate::cell::Cell;
use crate::list_of::ListOf;
use crate::out_of_memory::OutOfMemory;
use std::alloc::Global;

/// A record: one cell for each column.
pub type Row = ListOf<Cell>;

/// Records in order.
pub type RowList = ListOf<Row>;

impl ListOf<Cell> {
    /// The same cells once more, with memory of their own.
    pub fn copy(&self, alloc: Global) -> Result<Row, OutOfMemory>
        ensures { IfOk result (λ copy. copy ≡ self.now) }
    {
        let mut cells = Vec::with_capacity(alloc, self.len())?;
        for cell in self.as_slice() {
            cells.push(cell.copy(alloc)?)?;
        }
        Ok(Row::from_vec(cells))
    }

    /// The bytes of all its texts and tags, or `u64::MAX` where they are more.
    pub fn text_bytes(&self) -> u64
        ensures { result ≡ min (row_bytes self.now) (2 ^ 64 - 1) }
    {
        let mut total: u64 = 0;
        for cell in self.as_slice() {
            total = total.saturating_add(cell.text_bytes());
        }
        total
    }
}

impl ListOf<Row> {
    /// The bytes of all texts and tags of all its rows, or `u64::MAX` where they are more.
    pub fn text_bytes(&self) -> u64
        ensures { result ≡ min (sum_by row_bytes self.now) (2 ^ 64 - 1) }
    {
        let mut total: u64 = 0;
        for row in self.as_slice() {
            total = total.saturating_add(row.text_bytes());
        }
        total
    }
}
