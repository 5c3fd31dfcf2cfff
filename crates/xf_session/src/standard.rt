//! The board of columns alone.
ghost use Rattle.std.specs.Prelude.{◌≡◌, ◌≤◌, [], ◌∷◌, IfOk, length, map};
ghost use Rattle.std.specs.List.{AllByRecursion, enumerate_from};
ghost use Rattle.xf_session.specs.Start.{all_whole, column_dimension, column_group, standard_board};
ghost use Rattle.xf_sheet.specs.SheetParts.{AreDistinctNames, IsInt, column_names};

use std::alloc::Global;
use xf_access::{StockAccessor, StockRounding};
use xf_base::{AtomForm, KeyForm, ListOf, OutOfMemory, Schema, Text};
use xf_board::{
    Board, DimensionList, DimensionSpec, GroupList, GroupSpec, WholeList, WholeSpec, usual_colours,
};
use xf_reduce::{Simple, StockReducer};

/// The board of few columns of whole numbers with names that differ: a dimension of each and a group of that dimension, which
/// counts, both under the column's name, and the whole `all`, which counts too.
pub fn standard_board(alloc: Global, schema: Schema) -> Result<Board, OutOfMemory>
    requires few { length schema ≤ 32 }
    requires ints { AllByRecursion IsInt schema }
    requires distinct { AreDistinctNames (column_names schema) }
    ensures { IfOk result (λ board. board ≡ standard_board schema) }
{
    let title = Text::of(alloc, "")?;
    let dimensions = column_dimensions(alloc, &schema)?;
    let groups = column_groups(alloc, &schema)?;
    let wholes = all_whole(alloc)?;
    let charts = ListOf::new(alloc);
    let colours = usual_colours(alloc)?;
    Ok(Board::new(title, schema, dimensions, groups, wholes, charts, colours))
}

/// A dimension of each column, under its name.
fn column_dimensions(alloc: Global, schema: &Schema) -> Result<DimensionList, OutOfMemory>
    ensures { IfOk result (λ dimensions. dimensions ≡ map column_dimension (enumerate_from 0 schema.now)) }
{
    let mut dimensions = ListOf::new(alloc);
    for place in 0..schema.len() {
        let name = schema.as_slice()[place].name.copy(alloc)?;
        let from = StockAccessor::Column(place, KeyForm::One(AtomForm::Fixed(0)));
        dimensions.push(DimensionSpec { name, from })?;
    }
    Ok(dimensions)
}

/// A group of each column's dimension, under the same name.
fn column_groups(alloc: Global, schema: &Schema) -> Result<GroupList, OutOfMemory>
    ensures { IfOk result (λ groups. groups ≡ map column_group schema.now) }
{
    let mut groups = ListOf::new(alloc);
    for column in schema.as_slice() {
        groups.push(GroupSpec {
            name: column.name.copy(alloc)?,
            of: column.name.copy(alloc)?,
            round: StockRounding::Same,
            reduce: StockReducer::One(Simple::Count),
            order: 0,
        })?;
    }
    Ok(groups)
}

/// The whole that counts all records that pass.
fn all_whole(alloc: Global) -> Result<WholeList, OutOfMemory>
    ensures { IfOk result (λ wholes. wholes ≡ all_whole ∷ []) }
{
    let mut wholes = ListOf::new(alloc);
    wholes.push(WholeSpec {
        name: Text::of(alloc, "all")?,
        reduce: StockReducer::One(Simple::Count),
    })?;
    Ok(wholes)
}
