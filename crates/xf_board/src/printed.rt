//! Parts of a board that are printed as one JSON value each, and lists of them.
ghost use Rattle.std.specs.Prelude.{◌≡◌, List, map, IfOk};
ghost use Rattle.std.specs.List.{AllByRecursion};
ghost use Rattle.serde_json.specs.Data.{Data};
ghost use Rattle.serde_json.specs.View.{view};
ghost use Rattle.xf_base.specs.declared.column.Column.{Column};
ghost use Rattle.xf_board.specs.Print.{elements_of};

use serde_json::Value;
use std::alloc::Global;
use xf_base::{OutOfMemory, Schema, Text};

/// A part that is printed as one JSON value, with the names of columns.
pub trait Printed {
    /// Its value.
    ghost printed: { List Column → Self → Data };

    /// What its type keeps, as a proof is told.
    ghost known: { Self → Type 0 };

    /// Its value.
    fn value(&self, alloc: Global, schema: &Schema) -> Result<Value, OutOfMemory>
        ensures exact { IfOk result (λ value. view value ≡ printed schema.now self.now) }
        ensures known { IfOk result (λ value. known self.now) };
}

/// An array of the values of parts.
pub fn elements_of<T: Printed>(
    alloc: Global,
    schema: &Schema,
    parts: &[T],
) -> Result<Value, OutOfMemory>
    ensures exact { IfOk result (λ value. view value ≡ elements_of (map (T.Printed.printed schema.now) parts.now)) }
    ensures known { IfOk result (λ value. AllByRecursion T.Printed.known parts.now) }
{
    let mut values = Vec::new(alloc);
    for part in parts {
        values.push(part.value(alloc, schema)?)?;
    }
    Ok(Value::Array(values))
}

impl Printed for Text {
    ghost use Rattle.std.specs.Prelude.{⊤};
    ghost use Rattle.serde_json.specs.Data.{string};

    ghost printed = { λ columns text. string text };

    ghost known = { λ text. ⊤ };

    fn value(&self, alloc: Global, _schema: &Schema) -> Result<Value, OutOfMemory> {
        Ok(Value::try_from_str(alloc, self.as_str())?)
    }
}
