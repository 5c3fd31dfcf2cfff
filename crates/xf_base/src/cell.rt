//! Cells: what a record holds in one column.
ghost use Rattle.std.specs.Prelude.{◌≡◌, ◌-◌, ◌^◌, min, length, sum_by, IfOk};
ghost use Rattle.xf_base.specs.Cell.{cell_bytes};

use crate::list_of::ListOf;
use crate::out_of_memory::OutOfMemory;
use crate::text::Text;
use std::alloc::Global;

/// What a record holds in one column.
#[derive(Debug, Drop)]
pub enum Cell {
    /// A whole number, a fixed-point number in units of its last decimal, or a day from 1970-01-01 on.
    Num(i64),
    Text(Text),
    /// Distinct tags, ascending by their bytes.
    Tags(TextList),
}

/// Texts in order.
pub type TextList = ListOf<Text>;

impl Cell {
    /// The same cell once more, with memory of its own.
    pub fn copy(&self, alloc: Global) -> Result<Cell, OutOfMemory>
        ensures { IfOk result (λ copy. copy ≡ self.now) }
    {
        Ok(match self {
            Cell::Num(number) => Cell::Num(*number),
            Cell::Text(text) => Cell::Text(text.copy(alloc)?),
            Cell::Tags(tags) => Cell::Tags(tags.copy(alloc)?),
        })
    }

    /// The bytes of its text or tags, or `u64::MAX` where they are more.
    pub(crate) fn text_bytes(&self) -> u64
        ensures { result ≡ min (cell_bytes self.now) (2 ^ 64 - 1) }
    {
        match self {
            Cell::Num(_) => 0,
            Cell::Text(text) => text.as_str().len() as u64,
            Cell::Tags(tags) => tags.total_bytes(),
        }
    }
}

impl ListOf<Text> {
    /// The same texts once more, with memory of their own.
    pub fn copy(&self, alloc: Global) -> Result<TextList, OutOfMemory>
        ensures { IfOk result (λ copy. copy ≡ self.now) }
    {
        let mut texts = Vec::with_capacity(alloc, self.len())?;
        for text in self.as_slice() {
            texts.push(text.copy(alloc)?)?;
        }
        Ok(TextList::from_vec(texts))
    }

    /// The bytes of all its texts, or `u64::MAX` where they are more.
    pub(crate) fn total_bytes(&self) -> u64
        ensures { result ≡ min (sum_by length self.now) (2 ^ 64 - 1) }
    {
        let mut total: u64 = 0;
        for text in self.as_slice() {
            total = total.saturating_add(text.as_str().len() as u64);
        }
        total
    }
}
