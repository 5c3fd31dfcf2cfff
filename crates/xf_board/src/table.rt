//! Tables of records.
ghost use Rattle.std.specs.Prelude.{◌≡◌, ◌<◌, ◌≤◌, [], map, codes, true, false, is_some, length, IfOk, List, ℕ};
ghost use Rattle.std.specs.List.{AllByRecursion};
ghost use Rattle.serde_json.specs.View.{view};
ghost use Rattle.xf_base.specs.Schema.{place_of};
ghost use Rattle.xf_board.specs.Board.{IsBody, IsColumnName};
ghost use Rattle.xf_members.specs.Reading.{Answers, each, optional, word};
ghost use Rattle.xf_board.specs.Walk.{descending_of, table_at, table_column};
ghost use Rattle.xf_board.specs.declared.parts.GroupSpec.{GroupSpec};
ghost use Rattle.xf_board.specs.declared.parts.WholeSpec.{WholeSpec};

use crate::group::dimension_at;
use crate::parts::{ChartBody, DimensionSpec, GREATEST_TABLE, MOST_TABLE_COLUMNS, USUAL_TABLE};
use serde_json::Value;
use std::alloc::Global;
use xf_base::{Schema, Text};
use xf_members::{
    BoardRefusal, ElementRule, elements_of, few, filled_array_at, member, number_or, text_at,
    wrong_element, wrong_element_name, wrong_field,
};

/// What a table draws.
pub fn table_at(
    alloc: Global,
    schema: &Schema,
    dimensions: &[DimensionSpec],
    path: &str,
    value: &Value,
) -> Result<ChartBody, BoardRefusal>
    ensures exact { Answers result (table_at schema.now dimensions.now path.now (view value.now)) }
    ensures sound { IfOk result (λ body. (groups : List GroupSpec) (wholes : List WholeSpec) → IsBody schema.now dimensions.now groups wholes body) }
{
    let dimension = text_at(alloc, path, "dimension", value)?;
    let _declared = dimension_at(alloc, dimensions, path, "dimension", dimension.as_str())?;
    let elements = filled_array_at(alloc, path, "columns", value)?;
    let columns_path = member(alloc, path, "columns")?;
    few(
        alloc,
        columns_path.as_str(),
        MOST_TABLE_COLUMNS,
        elements.len(),
    )?;
    let columns = elements_of(
        alloc,
        &TableColumnRule { schema },
        columns_path.as_str(),
        elements,
    )?;
    let size = number_or(alloc, USUAL_TABLE, (1, GREATEST_TABLE), path, "size", value)?;
    let descending = descending_at(alloc, path, value)?;
    Ok(ChartBody::Table {
        dimension,
        columns,
        size: size as u32,
        descending,
    })
}

/// How the names of a table's columns are read, over the columns of the board.
#[derive(Clone, Copy)]
struct TableColumnRule<'a> {
    schema: &'a Schema,
}

impl<'a> ElementRule for TableColumnRule<'a> {
    type Item = Text;

    ghost walk = { λ rule. table_column rule.schema.now };

    ghost Keeps = { λ rule before. IsColumnName rule.schema.now };

    fn read(
        &self,
        alloc: Global,
        _before: &[Text],
        path: &str,
        value: &Value,
    ) -> Result<Text, BoardRefusal> {
        let Some(name) = value.as_str() else {
            return wrong_element(alloc, path);
        };
        if self.schema.place_of(name.as_bytes()).is_none() {
            return wrong_element_name(alloc, path, name);
        }
        Ok(Text::of(alloc, name)?)
    }
}

/// Whether a table begins with the last records; with the first where it does not say.
fn descending_at(alloc: Global, path: &str, value: &Value) -> Result<bool, BoardRefusal>
    ensures { Answers result (optional false (word descending_of) path.now (codes "order") (view value.now)) }
{
    let Some(order) = value.get("order") else {
        return Ok(false);
    };
    match order.as_str() {
        Some("ascending") => Ok(false),
        Some("descending") => Ok(true),
        _ => wrong_field(alloc, path, "order"),
    }
}
