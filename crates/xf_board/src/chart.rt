//! The charts of a board.
ghost use Rattle.std.specs.Prelude.{◌≡◌, ◌<◌, ◌≤◌, codes, true, None, IfOk, IfSome, List, Some};
ghost use Rattle.serde_json.specs.View.{view};
ghost use Rattle.xf_access.specs.Stock.{form_of};
ghost use Rattle.xf_base.specs.declared.column.Column.{Column};
ghost use Rattle.xf_board.specs.Board.{IsBody, IsChart, dimension_named, form_named, form_of_group, group_named, is_heat_form, is_line_form};
ghost use Rattle.xf_members.specs.Members.{chart_kind_of};
ghost use Rattle.xf_board.specs.Ranges.{greatest_cap};
ghost use Rattle.xf_members.specs.Reading.{Answers, Gives, colour, declared, is_colour, member, needed, optional, word};
ghost use Rattle.xf_board.specs.Walk.{bar_at, body_at, cap_rule, chart_of, fill_at, group_at, heat_at, line_at, number_at, row_at};
ghost use Rattle.xf_board.specs.declared.parts.ChartSpec.{ChartSpec};
ghost use Rattle.xf_board.specs.declared.parts.DimensionSpec.{DimensionSpec};
ghost use Rattle.xf_board.specs.declared.parts.GroupSpec.{GroupSpec};
ghost use Rattle.xf_board.specs.declared.parts.WholeSpec.{WholeSpec};

use crate::dimension::dimension_named;
use crate::group::{field_at, group_named};
use crate::parts::{
    ChartBody, ChartSpec, DimensionSpec, GREATEST_CAP, GREATEST_SIDE, GroupSpec, LEAST_HEIGHT,
    LEAST_WIDTH, USUAL_HEIGHT, USUAL_WIDTH, WholeSpec,
};
use crate::table::table_at;
use crate::whole::whole_named;
use serde_json::Value;
use std::alloc::Global;
use xf_base::{AtomForm, KeyForm, Schema, Text};
use xf_members::{
    BoardRefusal, ChartKind, ElementRule, ObjectSort, chart_kind_of, colour_of, ensured, number,
    number_or, object_at, only_members, text_at, text_of, text_or, wrong_field, wrong_name,
};

/// How the charts of a board are read, over its columns, dimensions, groups and wholes.
#[derive(Clone, Copy)]
pub struct ChartRule<'a> {
    pub schema: &'a Schema,
    pub dimensions: &'a [DimensionSpec],
    pub groups: &'a [GroupSpec],
    pub wholes: &'a [WholeSpec],
}

impl<'a> ElementRule for ChartRule<'a> {
    type Item = ChartSpec;

    ghost walk = { λ rule. chart_of rule.schema.now rule.dimensions.now rule.groups.now rule.wholes.now };

    ghost Keeps = { λ rule before. IsChart rule.schema.now rule.dimensions.now rule.groups.now rule.wholes.now };

    fn read(
        &self,
        alloc: Global,
        _before: &[ChartSpec],
        path: &str,
        value: &Value,
    ) -> Result<ChartSpec, BoardRefusal> {
        object_at(alloc, path, value)?;
        let kind = chart_kind_at(alloc, path, value)?;
        only_members(alloc, ObjectSort::Chart(kind), path, value)?;
        let title = text_or(alloc, "", path, "title", value)?;
        let width = number_or(
            alloc,
            USUAL_WIDTH,
            (LEAST_WIDTH, GREATEST_SIDE),
            path,
            "width",
            value,
        )?;
        let height = number_or(
            alloc,
            USUAL_HEIGHT,
            (LEAST_HEIGHT, GREATEST_SIDE),
            path,
            "height",
            value,
        )?;
        let body = body_at(
            alloc,
            kind,
            self.schema,
            self.dimensions,
            self.groups,
            self.wholes,
            path,
            value,
        )?;
        Ok(ChartSpec {
            title,
            width: width as u32,
            height: height as u32,
            body,
        })
    }
}

/// The kind of a chart.
fn chart_kind_at(alloc: Global, path: &str, value: &Value) -> Result<ChartKind, BoardRefusal>
    ensures { Answers result (needed (word chart_kind_of) path.now (codes "kind") (view value.now)) }
{
    match text_of(value.get("kind")) {
        Some(text) => match chart_kind_of(text) {
            Some(kind) => Ok(kind),
            None => wrong_field(alloc, path, "kind"),
        },
        None => wrong_field(alloc, path, "kind"),
    }
}

/// What a chart of a kind draws.
fn body_at(
    alloc: Global,
    kind: ChartKind,
    schema: &Schema,
    dimensions: &[DimensionSpec],
    groups: &[GroupSpec],
    wholes: &[WholeSpec],
    path: &str,
    value: &Value,
) -> Result<ChartBody, BoardRefusal>
    ensures exact { Answers result (body_at kind schema.now dimensions.now groups.now wholes.now path.now (view value.now)) }
    ensures sound { IfOk result (IsBody schema.now dimensions.now groups.now wholes.now) }
{
    match kind {
        ChartKind::Bar => bar_at(alloc, groups, path, value),
        ChartKind::Line => line_at(alloc, dimensions, groups, path, value),
        ChartKind::Row => row_at(alloc, groups, path, value),
        ChartKind::Heat => heat_at(alloc, dimensions, groups, path, value),
        ChartKind::Count => Ok(ChartBody::Count),
        ChartKind::Number => number_at(alloc, wholes, path, value),
        ChartKind::Table => table_at(alloc, schema, dimensions, path, value),
    }
}

// ---- charts of a group

/// The group of a name that a chart says.
fn group_at<'a>(
    alloc: Global,
    groups: &'a [GroupSpec],
    path: &str,
    given: &str,
) -> Result<&'a GroupSpec, BoardRefusal>
    ensures exact { Gives (λ group. group.now) result (group_at groups.now path.now given.now) }
    ensures found { IfOk result (λ group. group_named groups.now given.now ≡ Some group.now) }
{
    match group_named(groups, given) {
        Some(group) => Ok(group),
        None => wrong_name(alloc, path, "group", given),
    }
}

/// The colour of a chart.
fn fill_at(alloc: Global, path: &str, value: &Value) -> Result<Text, BoardRefusal>
    ensures exact { Answers result (fill_at path.now (view value.now)) }
    ensures sound { IfOk result (λ fill. is_colour fill ≡ true) }
{
    let fill = match value.get("fill") {
        Some(fill) => colour_of(fill),
        None => Some("#336699"),
    };
    match fill {
        Some(fill) => Ok(Text::of(alloc, fill)?),
        None => wrong_field(alloc, path, "fill"),
    }
}

fn bar_at(
    alloc: Global,
    groups: &[GroupSpec],
    path: &str,
    value: &Value,
) -> Result<ChartBody, BoardRefusal>
    ensures exact { Answers result (bar_at groups.now path.now (view value.now)) }
    ensures sound { IfOk result (λ body. (columns : List Column) (dimensions : List DimensionSpec) (wholes : List WholeSpec) → IsBody columns dimensions groups.now wholes body) }
{
    let group = text_at(alloc, path, "group", value)?;
    let named = group_at(alloc, groups, path, group.as_str())?;
    let field = field_at(alloc, &named.reduce, path, "field", value)?;
    let fill = fill_at(alloc, path, value)?;
    Ok(ChartBody::Bar { group, field, fill })
}

fn line_at(
    alloc: Global,
    dimensions: &[DimensionSpec],
    groups: &[GroupSpec],
    path: &str,
    value: &Value,
) -> Result<ChartBody, BoardRefusal>
    ensures exact { Answers result (line_at dimensions.now groups.now path.now (view value.now)) }
    ensures sound { IfOk result (λ body. (columns : List Column) (wholes : List WholeSpec) → IsBody columns dimensions.now groups.now wholes body) }
{
    let group = text_at(alloc, path, "group", value)?;
    let named = group_at(alloc, groups, path, group.as_str())?;
    let fits = is_line_form(form_of_group(dimensions, named));
    ensured(alloc, fits, path, "group")?;
    let field = field_at(alloc, &named.reduce, path, "field", value)?;
    let fill = fill_at(alloc, path, value)?;
    Ok(ChartBody::Line { group, field, fill })
}

fn row_at(
    alloc: Global,
    groups: &[GroupSpec],
    path: &str,
    value: &Value,
) -> Result<ChartBody, BoardRefusal>
    ensures exact { Answers result (row_at groups.now path.now (view value.now)) }
    ensures sound { IfOk result (λ body. (columns : List Column) (dimensions : List DimensionSpec) (wholes : List WholeSpec) → IsBody columns dimensions groups.now wholes body) }
{
    let group = text_at(alloc, path, "group", value)?;
    let named = group_at(alloc, groups, path, group.as_str())?;
    let field = field_at(alloc, &named.reduce, path, "field", value)?;
    let fill = fill_at(alloc, path, value)?;
    let cap = cap_at(alloc, path, value)?;
    let others = text_or(alloc, "Others", path, "others", value)?;
    Ok(ChartBody::Row {
        group,
        field,
        fill,
        cap,
        others,
    })
}

/// The number of rows of a chart of rows; None where it is left out.
fn cap_at(alloc: Global, path: &str, value: &Value) -> Result<Option<u32>, BoardRefusal>
    ensures exact { Answers result (optional None cap_rule path.now (codes "cap") (view value.now)) }
    ensures within { IfOk result (λ cap. IfSome cap (λ most. (1 ≤ most) × (most ≤ greatest_cap))) }
{
    let Some(cap) = value.get("cap") else {
        return Ok(None);
    };
    match number(1, GREATEST_CAP, cap) {
        Some(most) => Ok(Some(most as u32)),
        None => wrong_field(alloc, path, "cap"),
    }
}

fn heat_at(
    alloc: Global,
    dimensions: &[DimensionSpec],
    groups: &[GroupSpec],
    path: &str,
    value: &Value,
) -> Result<ChartBody, BoardRefusal>
    ensures exact { Answers result (heat_at dimensions.now groups.now path.now (view value.now)) }
    ensures sound { IfOk result (λ body. (columns : List Column) (wholes : List WholeSpec) → IsBody columns dimensions.now groups.now wholes body) }
{
    let group = text_at(alloc, path, "group", value)?;
    let named = group_at(alloc, groups, path, group.as_str())?;
    let fits = is_heat_form(form_of_group(dimensions, named));
    ensured(alloc, fits, path, "group")?;
    let field = field_at(alloc, &named.reduce, path, "field", value)?;
    Ok(ChartBody::Heat { group, field })
}

/// The form of a group's keys, which is that of its dimension's keys.
fn form_of_group(dimensions: &[DimensionSpec], group: &GroupSpec) -> Option<KeyForm>
    ensures { result ≡ form_of_group dimensions.now group.now }
{
    match dimension_named(dimensions, group.of.as_str()) {
        Some(dimension) => Some(dimension.from.form()),
        None => None,
    }
}

/// Whether a line is drawn over keys of a form: numbers and dates.
fn is_line_form(form: Option<KeyForm>) -> bool
    ensures { result ≡ is_line_form form }
{
    matches!(
        form,
        Some(KeyForm::One(AtomForm::Fixed(_) | AtomForm::Date))
    )
}

/// Whether a heat map is drawn over keys of a form: pairs.
fn is_heat_form(form: Option<KeyForm>) -> bool
    ensures { result ≡ is_heat_form form }
{
    matches!(form, Some(KeyForm::Pair(_, _)))
}

// ---- charts of a whole

fn number_at(
    alloc: Global,
    wholes: &[WholeSpec],
    path: &str,
    value: &Value,
) -> Result<ChartBody, BoardRefusal>
    ensures exact { Answers result (number_at wholes.now path.now (view value.now)) }
    ensures sound { IfOk result (λ body. (columns : List Column) (dimensions : List DimensionSpec) (groups : List GroupSpec) → IsBody columns dimensions groups wholes.now body) }
{
    let whole = text_at(alloc, path, "whole", value)?;
    let Some(named) = whole_named(wholes, whole.as_str()) else {
        return wrong_name(alloc, path, "whole", whole.as_str());
    };
    let field = field_at(alloc, &named.reduce, path, "field", value)?;
    Ok(ChartBody::Number { whole, field })
}
