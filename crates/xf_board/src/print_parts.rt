//! Dimensions, groups and wholes as JSON.
ghost use Rattle.std.specs.Prelude.{◌≡◌, IfOk};
ghost use Rattle.serde_json.specs.View.{view};
ghost use Rattle.xf_board.specs.Print.{group_with};

use crate::parts::{DimensionSpec, GroupSpec, WholeSpec};
use crate::print_words::{accessor_value, reducer_value, rounding_value};
use crate::printed::Printed;
use serde_json::{Map, Value, json, put};
use std::alloc::Global;
use xf_base::{OutOfMemory, Schema};

impl Printed for DimensionSpec {
    ghost use Rattle.std.specs.Prelude.{⊤};
    ghost use Rattle.xf_board.specs.Print.{dimension_value};

    ghost printed = { dimension_value };

    ghost known = { λ dimension. ⊤ };

    fn value(&self, alloc: Global, schema: &Schema) -> Result<Value, OutOfMemory> {
        let from = accessor_value(alloc, schema, self.from)?;
        Ok(json!(in alloc; {"from": from, "name": self.name.as_str()})?)
    }
}

impl Printed for GroupSpec {
    ghost use Rattle.std.specs.Prelude.{⊤};
    ghost use Rattle.xf_board.specs.Print.{group_value};

    ghost printed = { group_value };

    ghost known = { λ group. ⊤ };

    fn value(&self, alloc: Global, schema: &Schema) -> Result<Value, OutOfMemory> {
        let reduce = reducer_value(alloc, schema, self.reduce)?;
        let round = rounding_value(alloc, self.round)?;
        group_value(alloc, self, reduce, round)
    }
}

/// A group whose reducer and rounding are values already.
fn group_value(
    alloc: Global,
    group: &GroupSpec,
    reduce: Value,
    round: Value,
) -> Result<Value, OutOfMemory>
    ensures { IfOk result (λ value. view value ≡ group_with group.now (view reduce) (view round)) }
{
    let name = Value::try_from_str(alloc, group.name.as_str())?;
    let of = Value::try_from_str(alloc, group.of.as_str())?;
    let mut members = Map::new(alloc);
    put(&mut members, alloc, "name", name)?;
    put(&mut members, alloc, "of", of)?;
    put(&mut members, alloc, "order", Value::from(group.order))?;
    put(&mut members, alloc, "reduce", reduce)?;
    put(&mut members, alloc, "round", round)?;
    Ok(Value::Object(members))
}

impl Printed for WholeSpec {
    ghost use Rattle.std.specs.Prelude.{⊤};
    ghost use Rattle.xf_board.specs.Print.{whole_value};

    ghost printed = { whole_value };

    ghost known = { λ whole. ⊤ };

    fn value(&self, alloc: Global, schema: &Schema) -> Result<Value, OutOfMemory> {
        let reduce = reducer_value(alloc, schema, self.reduce)?;
        Ok(json!(in alloc; {"name": self.name.as_str(), "reduce": reduce})?)
    }
}
