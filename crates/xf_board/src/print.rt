//! Printing a board.
ghost use Rattle.std.specs.Prelude.{◌≡◌, ◌≤◌, IfOk, Ok};
ghost use Rattle.std.specs.List.{AllByRecursion};
ghost use Rattle.serde_json.specs.View.{view};
ghost use Rattle.xf_base.specs.Schema.{IsColumn};
ghost use Rattle.xf_board.specs.Print.{HasTextBlank, board_text, board_value, board_with};
ghost use Rattle.xf_members.specs.Count.{openers};
ghost use Rattle.xf_board.specs.Walk.{board_in, without_mark};
ghost use Rattle.xf_members.specs.declared.count.TextState.TheVariants.{Outside};

use crate::board::Board;
use crate::printed::elements_of;
use crate::read::MOST_OPENERS;
use serde_json::{Map, Value, put};
use std::alloc::Global;
use xf_base::OutOfMemory;

/// The compact text of a board as JSON: all members, defaults too, but those that say that there is no blank or no cap, and
/// decimals and separators where a column has none; in each object in the order of the bytes of names. It is read as the board.
pub fn print_board(alloc: Global, board: &Board) -> Result<Vec<u8>, OutOfMemory>
    ensures exact { IfOk result (λ text. text.items ≡ board_text board.now) }
    ensures again { IfOk result (λ text. board_in text.items ≡ Ok board.now) }
    ensures few { IfOk result (λ text. openers Outside (without_mark text.items) ≤ MOST_OPENERS) }
{
    let _sound = board.is_sound();
    let value = board_value(alloc, board)?;
    Ok(value.to_string(alloc)?.into_bytes())
}

/// The value of a board.
fn board_value(alloc: Global, board: &Board) -> Result<Value, OutOfMemory>
    ensures exact { IfOk result (λ value. view value ≡ board_value board.now) }
    ensures sound { IfOk result (λ value. AllByRecursion IsColumn board.now.columns) }
    ensures texts { IfOk result (λ value. AllByRecursion HasTextBlank board.now.columns) }
{
    let schema = board.schema();
    let charts = elements_of(alloc, schema, board.charts())?;
    let colours = elements_of(alloc, schema, board.colours())?;
    let columns = elements_of(alloc, schema, schema.as_slice())?;
    let dimensions = elements_of(alloc, schema, board.dimensions())?;
    let groups = elements_of(alloc, schema, board.groups())?;
    let wholes = elements_of(alloc, schema, board.wholes())?;
    let title = board.title();
    board_with(
        alloc, title, charts, colours, columns, dimensions, groups, wholes,
    )
}

/// A board whose lists are values already.
fn board_with(
    alloc: Global,
    title: &str,
    charts: Value,
    colours: Value,
    columns: Value,
    dimensions: Value,
    groups: Value,
    wholes: Value,
) -> Result<Value, OutOfMemory>
    ensures { IfOk result (λ value. view value ≡ board_with title.now (view charts) (view colours) (view columns) (view dimensions) (view groups) (view wholes)) }
{
    let title = Value::try_from_str(alloc, title)?;
    let mut members = Map::new(alloc);
    put(&mut members, alloc, "charts", charts)?;
    put(&mut members, alloc, "colours", colours)?;
    put(&mut members, alloc, "columns", columns)?;
    put(&mut members, alloc, "dimensions", dimensions)?;
    put(&mut members, alloc, "groups", groups)?;
    put(&mut members, alloc, "title", title)?;
    put(&mut members, alloc, "version", Value::from(1_u64))?;
    put(&mut members, alloc, "wholes", wholes)?;
    Ok(Value::Object(members))
}
