//! Charts as JSON.
ghost use Rattle.std.specs.Prelude.{◌≡◌, IfOk, None, Some};
ghost use Rattle.serde_json.specs.View.{view};
ghost use Rattle.xf_board.specs.Print.{count_value, fill_value, heat_value, number_value, order_word, row_value, table_value};

use crate::parts::{ChartBody, ChartSpec};
use crate::printed::{Printed, elements_of};
use serde_json::{Value, json};
use std::alloc::Global;
use xf_base::{OutOfMemory, Schema, Text, TextList};

impl Printed for ChartSpec {
    ghost use Rattle.std.specs.Prelude.{⊤};
    ghost use Rattle.xf_board.specs.Print.{chart_value};

    ghost printed = { λ columns chart. chart_value chart };

    ghost known = { λ chart. ⊤ };

    fn value(&self, alloc: Global, schema: &Schema) -> Result<Value, OutOfMemory> {
        match &self.body {
            ChartBody::Bar { group, field, fill } => {
                fill_value(alloc, self, "bar", group, *field, fill)
            }
            ChartBody::Line { group, field, fill } => {
                fill_value(alloc, self, "line", group, *field, fill)
            }
            ChartBody::Row {
                group,
                field,
                fill,
                cap,
                others,
            } => row_value(alloc, self, group, *field, fill, *cap, others),
            ChartBody::Heat { group, field } => heat_value(alloc, self, group, *field),
            ChartBody::Count => count_value(alloc, self),
            ChartBody::Number { whole, field } => number_value(alloc, self, whole, *field),
            ChartBody::Table {
                dimension,
                columns,
                size,
                descending,
            } => table_value(alloc, schema, self, dimension, columns, *size, *descending),
        }
    }
}

/// A chart of bars or a line.
fn fill_value(
    alloc: Global,
    chart: &ChartSpec,
    kind: &str,
    group: &Text,
    field: u8,
    fill: &Text,
) -> Result<Value, OutOfMemory>
    ensures { IfOk result (λ value. view value ≡ fill_value chart.now kind.now group.now field fill.now) }
{
    Ok(json!(in alloc; {
        "field": field,
        "fill": fill.as_str(),
        "group": group.as_str(),
        "height": chart.height,
        "kind": kind,
        "title": chart.title.as_str(),
        "width": chart.width
    })?)
}

/// A chart of rows.
fn row_value(
    alloc: Global,
    chart: &ChartSpec,
    group: &Text,
    field: u8,
    fill: &Text,
    cap: Option<u32>,
    others: &Text,
) -> Result<Value, OutOfMemory>
    ensures { IfOk result (λ value. view value ≡ row_value chart.now group.now field fill.now cap others.now) }
{
    match cap {
        Some(cap) => capped_value(alloc, chart, group, field, fill, cap, others),
        None => uncapped_value(alloc, chart, group, field, fill, others),
    }
}

/// A chart of rows up to a cap.
fn capped_value(
    alloc: Global,
    chart: &ChartSpec,
    group: &Text,
    field: u8,
    fill: &Text,
    cap: u32,
    others: &Text,
) -> Result<Value, OutOfMemory>
    ensures { IfOk result (λ value. view value ≡ row_value chart.now group.now field fill.now (Some cap) others.now) }
{
    Ok(json!(in alloc; {
        "cap": cap,
        "field": field,
        "fill": fill.as_str(),
        "group": group.as_str(),
        "height": chart.height,
        "kind": "row",
        "others": others.as_str(),
        "title": chart.title.as_str(),
        "width": chart.width
    })?)
}

/// A chart of all rows.
fn uncapped_value(
    alloc: Global,
    chart: &ChartSpec,
    group: &Text,
    field: u8,
    fill: &Text,
    others: &Text,
) -> Result<Value, OutOfMemory>
    ensures { IfOk result (λ value. view value ≡ row_value chart.now group.now field fill.now None others.now) }
{
    Ok(json!(in alloc; {
        "field": field,
        "fill": fill.as_str(),
        "group": group.as_str(),
        "height": chart.height,
        "kind": "row",
        "others": others.as_str(),
        "title": chart.title.as_str(),
        "width": chart.width
    })?)
}

/// A heat map.
fn heat_value(
    alloc: Global,
    chart: &ChartSpec,
    group: &Text,
    field: u8,
) -> Result<Value, OutOfMemory>
    ensures { IfOk result (λ value. view value ≡ heat_value chart.now group.now field) }
{
    Ok(json!(in alloc; {
        "field": field,
        "group": group.as_str(),
        "height": chart.height,
        "kind": "heat",
        "title": chart.title.as_str(),
        "width": chart.width
    })?)
}

/// How many records are selected.
fn count_value(alloc: Global, chart: &ChartSpec) -> Result<Value, OutOfMemory>
    ensures { IfOk result (λ value. view value ≡ count_value chart.now) }
{
    Ok(json!(in alloc; {
        "height": chart.height,
        "kind": "count",
        "title": chart.title.as_str(),
        "width": chart.width
    })?)
}

/// A field of a whole.
fn number_value(
    alloc: Global,
    chart: &ChartSpec,
    whole: &Text,
    field: u8,
) -> Result<Value, OutOfMemory>
    ensures { IfOk result (λ value. view value ≡ number_value chart.now whole.now field) }
{
    Ok(json!(in alloc; {
        "field": field,
        "height": chart.height,
        "kind": "number",
        "title": chart.title.as_str(),
        "whole": whole.as_str(),
        "width": chart.width
    })?)
}

/// A table.
fn table_value(
    alloc: Global,
    schema: &Schema,
    chart: &ChartSpec,
    dimension: &Text,
    columns: &TextList,
    size: u32,
    descending: bool,
) -> Result<Value, OutOfMemory>
    ensures { IfOk result (λ value. view value ≡ table_value chart.now dimension.now columns.now size descending) }
{
    let columns = elements_of(alloc, schema, columns.as_slice())?;
    Ok(json!(in alloc; {
        "columns": columns,
        "dimension": dimension.as_str(),
        "height": chart.height,
        "kind": "table",
        "order": order_word(descending),
        "size": size,
        "title": chart.title.as_str(),
        "width": chart.width
    })?)
}

fn order_word(descending: bool) -> &'static str
    ensures { result.now ≡ order_word descending }
{
    if descending {
        "descending"
    } else {
        "ascending"
    }
}
