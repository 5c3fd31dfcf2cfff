//! Reading a board.
ghost use Rattle.std.specs.Prelude.{◌≡◌, ◌<◌, ◌≤◌, nat_lt, length, Err, Some, None, Ok, IfOk, IfErr, ◌⊎◌, [], ◌+◌, List};
ghost use Rattle.std.specs.List.{AllByRecursion};
ghost use Rattle.serde_json.specs.View.{view};
ghost use Rattle.xf_board.specs.Board.{AllAfter, IsNewColumn, IsNewDimension, IsNewGroup, IsNewWhole, IsChart, IsColour};
ghost use Rattle.xf_members.specs.Count.{openers};
ghost use Rattle.xf_board.specs.Ranges.{most_colours, most_openers};
ghost use Rattle.xf_members.specs.Reading.{Answers};
ghost use Rattle.xf_board.specs.Walk.{board_in, board_of, charts_at, colours_at, columns_at, dimensions_at, given_colours, groups_at, json_of, version_at, wholes_at, without_mark};
ghost use Rattle.xf_members.specs.declared.board_refusal.BoardRefusal.TheVariants as refusal;
ghost use Rattle.xf_members.specs.declared.count.TextState.TheVariants.{Outside};
ghost use Rattle.xf_board.specs.declared.parts.GroupSpec.{GroupSpec};

use crate::board::Board;
use crate::chart::ChartRule;
use crate::colour::{ColourRule, usual_colours};
use crate::column::{ColumnRule, schema_of};
use crate::dimension::DimensionRule;
use crate::group::GroupRule;
use crate::parts::{
    ChartList, DimensionList, DimensionSpec, GroupList, GroupSpec, MOST_COLOURS, WholeList,
    WholeSpec,
};
use crate::whole::WholeRule;
use serde_json::Value;
use std::alloc::Global;
use xf_base::{Limits, Schema, TextList};
use xf_members::{
    BoardRefusal, ObjectSort, array_at, array_or_none, elements_of, few, filled_array_at,
    has_more_openers, only_members, text_or, whole_number, wrong_field,
};

/// The most commas and beginnings of arrays and objects, outside of its texts, that a board is read with. A JSON text has one
/// value more at most. A board that names each member once has fewer than 4,000 values.
pub const MOST_OPENERS: u64 = 100_000;

/// The board that a text says, or the first rule that it breaks. One byte order mark in front is skipped. A text of more than
/// `MOST_OPENERS` values is not read at all, and answered as if memory was refused.
pub fn read_board(alloc: Global, bytes: &[u8]) -> Result<Board, BoardRefusal>
    ensures exact { Answers result (board_in bytes.now) }
    ensures many { most_openers < openers Outside (without_mark bytes.now) → result ≡ Err refusal.OutOfMemory }
{
    let bytes = without_mark(bytes);
    if has_too_many(bytes) {
        return Err(BoardRefusal::OutOfMemory);
    }
    let value = json_of(alloc, bytes)?;
    if !value.is_object() {
        return Err(BoardRefusal::Syntax);
    }
    board_of(alloc, &value)
}

/// A text without one byte order mark in front.
fn without_mark(bytes: &[u8]) -> &[u8]
    ensures { result.now ≡ without_mark bytes.now }
{
    match bytes {
        [0xef, 0xbb, 0xbf, text @ ..] => text,
        _ => bytes,
    }
}

/// Whether a text has more values than a board is read with.
fn has_too_many(bytes: &[u8]) -> bool
    ensures { result ≡ nat_lt most_openers (openers Outside bytes.now) }
{
    has_more_openers(bytes, MOST_OPENERS)
}

/// The value of a text, or `Syntax`.
fn json_of(alloc: Global, bytes: &[u8]) -> Result<Value, BoardRefusal>
    requires { openers Outside bytes.now ≤ most_openers }
    ensures ok { IfOk result (λ value. json_of bytes.now ≡ Some (view value)) }
    ensures err { IfErr result (λ cause. (cause ≡ refusal.OutOfMemory) ⊎ ((cause ≡ refusal.Syntax) × (json_of bytes.now ≡ None))) }
{
    match Value::from_slice(alloc, bytes) {
        Ok(value) => Ok(value),
        Err(error) if error.is_memory() => Err(BoardRefusal::OutOfMemory),
        Err(_) => Err(BoardRefusal::Syntax),
    }
}

/// The board that an object says.
fn board_of(alloc: Global, value: &Value) -> Result<Board, BoardRefusal>
    ensures { Answers result (board_of (view value.now)) }
{
    version_at(alloc, value)?;
    only_members(alloc, ObjectSort::Board, "", value)?;
    let title = text_or(alloc, "", "", "title", value)?;
    let schema = columns_at(alloc, value)?;
    let dimensions = dimensions_at(alloc, &schema, value)?;
    let groups = groups_at(alloc, &schema, dimensions.as_slice(), value)?;
    let wholes = wholes_at(alloc, &schema, groups.len(), value)?;
    let charts = charts_at(
        alloc,
        &schema,
        dimensions.as_slice(),
        groups.as_slice(),
        wholes.as_slice(),
        value,
    )?;
    let colours = colours_at(alloc, value)?;
    Ok(Board::new(title, schema, dimensions, groups, wholes, charts, colours))
}

/// The version, which is 1.
fn version_at(alloc: Global, value: &Value) -> Result<(), BoardRefusal>
    ensures { Answers result (version_at (view value.now)) }
{
    let version = match value.get("version") {
        Some(version) => whole_number(version),
        None => None,
    };
    match version {
        Some(1) => Ok(()),
        Some(found) => Err(BoardRefusal::Version { found }),
        None => wrong_field(alloc, "", "version"),
    }
}

/// The columns.
fn columns_at(alloc: Global, value: &Value) -> Result<Schema, BoardRefusal>
    ensures exact { Answers result (columns_at (view value.now)) }
    ensures sound { IfOk result (λ columns. (length columns ≤ Limits.COLUMNS) × AllAfter IsNewColumn [] columns) }
{
    let elements = array_at(alloc, "", "columns", value)?;
    few(alloc, "/columns", Limits::COLUMNS, elements.len())?;
    let columns = elements_of(alloc, &ColumnRule, "/columns", elements)?;
    Ok(schema_of(alloc, columns)?)
}

/// The dimensions.
fn dimensions_at(
    alloc: Global,
    schema: &Schema,
    value: &Value,
) -> Result<DimensionList, BoardRefusal>
    ensures exact { Answers result (dimensions_at schema.now (view value.now)) }
    ensures sound { IfOk result (λ dimensions. (length dimensions ≤ Limits.DIMENSIONS) × AllAfter (IsNewDimension schema.now) [] dimensions) }
{
    let elements = array_at(alloc, "", "dimensions", value)?;
    few(alloc, "/dimensions", Limits::DIMENSIONS, elements.len())?;
    elements_of(alloc, &DimensionRule { schema }, "/dimensions", elements)
}

/// The groups.
fn groups_at(
    alloc: Global,
    schema: &Schema,
    dimensions: &[DimensionSpec],
    value: &Value,
) -> Result<GroupList, BoardRefusal>
    ensures exact { Answers result (groups_at schema.now dimensions.now (view value.now)) }
    ensures sound { IfOk result (λ groups. (length groups ≤ Limits.GROUPS) × AllAfter (IsNewGroup schema.now dimensions.now) [] groups) }
{
    let elements = array_or_none(alloc, "", "groups", value)?;
    few(alloc, "/groups", Limits::GROUPS, elements.len())?;
    elements_of(
        alloc,
        &GroupRule { schema, dimensions },
        "/groups",
        elements,
    )
}

/// The wholes, which are counted with the groups.
fn wholes_at(
    alloc: Global,
    schema: &Schema,
    groups: usize,
    value: &Value,
) -> Result<WholeList, BoardRefusal>
    requires { groups ≤ Limits.GROUPS }
    ensures exact { (before : List GroupSpec) → length before ≡ groups → Answers result (wholes_at schema.now before (view value.now)) }
    ensures sound { IfOk result (λ wholes. (groups + length wholes ≤ Limits.GROUPS) × AllAfter (IsNewWhole schema.now) [] wholes) }
{
    let elements = array_or_none(alloc, "", "wholes", value)?;
    few(alloc, "/wholes", Limits::GROUPS, groups + elements.len())?;
    elements_of(alloc, &WholeRule { schema }, "/wholes", elements)
}

/// The charts.
fn charts_at(
    alloc: Global,
    schema: &Schema,
    dimensions: &[DimensionSpec],
    groups: &[GroupSpec],
    wholes: &[WholeSpec],
    value: &Value,
) -> Result<ChartList, BoardRefusal>
    ensures exact { Answers result (charts_at schema.now dimensions.now groups.now wholes.now (view value.now)) }
    ensures sound { IfOk result (λ charts. (length charts ≤ Limits.CHARTS) × AllByRecursion (IsChart schema.now dimensions.now groups.now wholes.now) charts) }
{
    let elements = array_or_none(alloc, "", "charts", value)?;
    few(alloc, "/charts", Limits::CHARTS, elements.len())?;
    let rule = ChartRule {
        schema,
        dimensions,
        groups,
        wholes,
    };
    elements_of(alloc, &rule, "/charts", elements)
}

/// The colours.
fn colours_at(alloc: Global, value: &Value) -> Result<TextList, BoardRefusal>
    ensures exact { Answers result (colours_at (view value.now)) }
    ensures sound { IfOk result (λ colours. (0 < length colours) × (length colours ≤ most_colours) × AllByRecursion IsColour colours) }
{
    if value.get("colours").is_none() {
        return Ok(usual_colours(alloc)?);
    }
    given_colours(alloc, value)
}

fn given_colours(alloc: Global, value: &Value) -> Result<TextList, BoardRefusal>
    ensures exact { Answers result (given_colours (view value.now)) }
    ensures sound { IfOk result (λ colours. (0 < length colours) × (length colours ≤ most_colours) × AllByRecursion IsColour colours) }
{
    let elements = filled_array_at(alloc, "", "colours", value)?;
    few(alloc, "/colours", MOST_COLOURS, elements.len())?;
    elements_of(alloc, &ColourRule, "/colours", elements)
}
