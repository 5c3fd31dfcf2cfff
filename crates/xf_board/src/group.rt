//! The groups of a board.
ghost use Rattle.std.specs.Prelude.{◌≡◌, ◌<◌, true, find, option_copied, IfOk, codes, Some};
ghost use Rattle.serde_json.specs.View.{view};
ghost use Rattle.xf_access.specs.Stock.{form_of};
ghost use Rattle.xf_access.specs.declared.stock_rounding.StockRounding.TheVariants as rounding;
ghost use Rattle.xf_board.specs.Board.{IsNewGroup, dimension_named, group_named};
ghost use Rattle.xf_members.specs.Reading.{Answers, Gives, declared, member, needed, number_below, optional};
ghost use Rattle.xf_board.specs.Walk.{group_of, reducer_at, rounding_at};
ghost use Rattle.xf_members.specs.Words.{is_sound_rounding, reducer_rule, rounding_rule};
ghost use Rattle.xf_columns.specs.Columns.{applies};
ghost use Rattle.xf_reduce.specs.StockReducer.{stock_field_count, stock_fits};

use crate::dimension::dimension_named;
use crate::parts::{DimensionSpec, GroupSpec};
use serde_json::Value;
use std::alloc::Global;
use xf_access::StockRounding;
use xf_base::{KeyForm, Schema};
use xf_columns::{ReducerWords, applies, reducer_of};
use xf_members::{
    BoardRefusal, ElementRule, ObjectSort, ensured, field_or, object_at, only_members,
    reducer_rule, rounding_rule, text_at, unless_taken, wrong_column, wrong_field, wrong_name,
};
use xf_reduce::{Reducer, StockReducer};

/// How the groups of a board are read, over its columns and of its dimensions.
#[derive(Clone, Copy)]
pub struct GroupRule<'a> {
    pub schema: &'a Schema,
    pub dimensions: &'a [DimensionSpec],
}

impl<'a> ElementRule for GroupRule<'a> {
    type Item = GroupSpec;

    ghost walk = { λ rule. group_of rule.schema.now rule.dimensions.now };

    ghost Keeps = { λ rule. IsNewGroup rule.schema.now rule.dimensions.now };

    fn read(
        &self,
        alloc: Global,
        before: &[GroupSpec],
        path: &str,
        value: &Value,
    ) -> Result<GroupSpec, BoardRefusal> {
        object_at(alloc, path, value)?;
        only_members(alloc, ObjectSort::Group, path, value)?;
        let name = text_at(alloc, path, "name", value)?;
        let taken = group_named(before, name.as_str()).is_some();
        unless_taken(alloc, taken, path, name.as_str())?;
        let of = text_at(alloc, path, "of", value)?;
        let dimension = dimension_at(alloc, self.dimensions, path, "of", of.as_str())?;
        let round = rounding_at(alloc, dimension.from.form(), path, value)?;
        let reduce = reducer_at(alloc, self.schema, path, value)?;
        let order = field_at(alloc, &reduce, path, "order", value)?;
        Ok(GroupSpec {
            name,
            of,
            round,
            reduce,
            order,
        })
    }
}

/// The group of a name.
pub fn group_named<'a>(groups: &'a [GroupSpec], name: &str) -> Option<&'a GroupSpec>
    ensures { option_copied result ≡ group_named groups.now name.now }
{
    groups.iter().find(|group| group.name.as_str() == name)
}

/// The dimension of a name that a member says.
pub fn dimension_at<'a>(
    alloc: Global,
    dimensions: &'a [DimensionSpec],
    path: &str,
    name: &str,
    given: &str,
) -> Result<&'a DimensionSpec, BoardRefusal>
    ensures exact { Gives (λ dimension. dimension.now) result (declared (member path.now name.now) given.now (dimension_named dimensions.now given.now)) }
    ensures found { IfOk result (λ dimension. dimension_named dimensions.now given.now ≡ Some dimension.now) }
{
    match dimension_named(dimensions, given) {
        Some(dimension) => Ok(dimension),
        None => wrong_name(alloc, path, name, given),
    }
}

/// The rounding of a group, which applies to the keys of a form.
fn rounding_at(
    alloc: Global,
    form: KeyForm,
    path: &str,
    value: &Value,
) -> Result<StockRounding, BoardRefusal>
    ensures exact { Answers result (rounding_at form path.now (view value.now)) }
    ensures applies { IfOk result (λ rounding. applies rounding form ≡ true) }
    ensures sound { IfOk result (λ rounding. is_sound_rounding rounding ≡ true) }
{
    let rounding = rounding_or_same(alloc, path, value)?;
    ensured(alloc, applies(rounding, form), path, "round")?;
    Ok(rounding)
}

/// The words of a rounding; `same` where they are left out.
fn rounding_or_same(alloc: Global, path: &str, value: &Value) -> Result<StockRounding, BoardRefusal>
    ensures exact { Answers result (optional rounding.Same rounding_rule path.now (codes "round") (view value.now)) }
    ensures sound { IfOk result (λ rounding. is_sound_rounding rounding ≡ true) }
{
    let read = match value.get("round") {
        Some(words) => rounding_rule(words),
        None => Some(StockRounding::Same),
    };
    match read {
        Some(rounding) => Ok(rounding),
        None => wrong_field(alloc, path, "round"),
    }
}

/// The reducer of a group or a whole.
pub fn reducer_at(
    alloc: Global,
    schema: &Schema,
    path: &str,
    value: &Value,
) -> Result<StockReducer, BoardRefusal>
    ensures exact { Answers result (reducer_at schema.now path.now (view value.now)) }
    ensures fits { IfOk result (λ reducer. stock_fits reducer schema.now ≡ true) }
{
    let words = reducer_words_at(alloc, path, value)?;
    match reducer_of(schema, words) {
        Ok(reducer) => Ok(reducer),
        Err(cause) => wrong_column(alloc, path, "reduce", cause),
    }
}

/// The words of a reducer.
fn reducer_words_at(alloc: Global, path: &str, value: &Value) -> Result<ReducerWords, BoardRefusal>
    ensures { Answers result (needed reducer_rule path.now (codes "reduce") (view value.now)) }
{
    let words = match value.get("reduce") {
        Some(words) => reducer_rule(alloc, words)?,
        None => None,
    };
    match words {
        Some(words) => Ok(words),
        None => wrong_field(alloc, path, "reduce"),
    }
}

/// The number of a field of a reducer; 0 where it is left out.
pub fn field_at(
    alloc: Global,
    reduce: &StockReducer,
    path: &str,
    name: &str,
    value: &Value,
) -> Result<u8, BoardRefusal>
    ensures exact { Answers result (optional 0 (number_below (stock_field_count reduce.now)) path.now name.now (view value.now)) }
    ensures within { IfOk result (λ field. field < stock_field_count reduce.now) }
{
    field_or(alloc, reduce.fields(), path, name, value)
}
