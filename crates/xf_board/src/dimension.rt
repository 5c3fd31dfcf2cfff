//! The dimensions of a board.
ghost use Rattle.std.specs.Prelude.{◌≡◌, true, find, option_copied, IfOk, codes};
ghost use Rattle.serde_json.specs.View.{view};
ghost use Rattle.xf_access.specs.Stock.{fits_columns};
ghost use Rattle.xf_board.specs.Board.{IsNewDimension, dimension_named};
ghost use Rattle.xf_members.specs.Reading.{Answers, needed};
ghost use Rattle.xf_board.specs.Walk.{accessor_at, dimension_of};
ghost use Rattle.xf_members.specs.Words.{accessor_rule};

use crate::parts::DimensionSpec;
use serde_json::Value;
use std::alloc::Global;
use xf_access::StockAccessor;
use xf_base::Schema;
use xf_columns::{AccessorWords, accessor_of};
use xf_members::{
    BoardRefusal, ElementRule, ObjectSort, accessor_rule, object_at, only_members, text_at,
    unless_taken, wrong_column, wrong_field,
};

/// How the dimensions of a board are read, over its columns.
#[derive(Clone, Copy)]
pub struct DimensionRule<'a> {
    pub schema: &'a Schema,
}

impl<'a> ElementRule for DimensionRule<'a> {
    type Item = DimensionSpec;

    ghost walk = { λ rule. dimension_of rule.schema.now };

    ghost Keeps = { λ rule. IsNewDimension rule.schema.now };

    fn read(
        &self,
        alloc: Global,
        before: &[DimensionSpec],
        path: &str,
        value: &Value,
    ) -> Result<DimensionSpec, BoardRefusal> {
        object_at(alloc, path, value)?;
        only_members(alloc, ObjectSort::Dimension, path, value)?;
        let name = text_at(alloc, path, "name", value)?;
        let taken = dimension_named(before, name.as_str()).is_some();
        unless_taken(alloc, taken, path, name.as_str())?;
        let from = accessor_at(alloc, self.schema, path, value)?;
        Ok(DimensionSpec { name, from })
    }
}

/// The dimension of a name.
pub fn dimension_named<'a>(dimensions: &'a [DimensionSpec], name: &str) -> Option<&'a DimensionSpec>
    ensures { option_copied result ≡ dimension_named dimensions.now name.now }
{
    dimensions
        .iter()
        .find(|dimension| dimension.name.as_str() == name)
}

/// The accessor of a dimension.
fn accessor_at(
    alloc: Global,
    schema: &Schema,
    path: &str,
    value: &Value,
) -> Result<StockAccessor, BoardRefusal>
    ensures exact { Answers result (accessor_at schema.now path.now (view value.now)) }
    ensures fits { IfOk result (λ accessor. fits_columns accessor schema.now ≡ true) }
{
    let words = accessor_words_at(alloc, path, value)?;
    match accessor_of(schema, words) {
        Ok(accessor) => Ok(accessor),
        Err(cause) => wrong_column(alloc, path, "from", cause),
    }
}

/// The words of an accessor.
fn accessor_words_at(
    alloc: Global,
    path: &str,
    value: &Value,
) -> Result<AccessorWords, BoardRefusal>
    ensures { Answers result (needed accessor_rule path.now (codes "from") (view value.now)) }
{
    let words = match value.get("from") {
        Some(words) => accessor_rule(alloc, words)?,
        None => None,
    };
    match words {
        Some(words) => Ok(words),
        None => wrong_field(alloc, path, "from"),
    }
}
