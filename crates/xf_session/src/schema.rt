//! A schema once more.
ghost use Rattle.std.specs.Prelude.{◌≡◌, IfOk, option_copied};

use std::alloc::Global;
use xf_base::{Cell, Column, OutOfMemory, Schema};

/// The same schema once more, with memory of its own.
pub fn copy_schema(alloc: Global, schema: &Schema) -> Result<Schema, OutOfMemory>
    ensures { IfOk result (λ copy. copy ≡ schema.now) }
{
    let mut copy = Schema::new(alloc);
    for column in schema.as_slice() {
        copy.push(copy_column(alloc, column)?)?;
    }
    Ok(copy)
}

/// The same column once more.
fn copy_column(alloc: Global, column: &Column) -> Result<Column, OutOfMemory>
    ensures { IfOk result (λ copy. copy ≡ column.now) }
{
    Ok(Column {
        name: column.name.copy(alloc)?,
        kind: column.kind,
        blank: copy_blank(alloc, column.blank.as_ref())?,
    })
}

/// The same blank once more, where there is one.
fn copy_blank(alloc: Global, blank: Option<&Cell>) -> Result<Option<Cell>, OutOfMemory>
    ensures { IfOk result (λ copy. copy ≡ option_copied blank.entry) }
{
    match blank {
        Some(cell) => Ok(Some(cell.copy(alloc)?)),
        None => Ok(None),
    }
}
