//! Columns as JSON.
ghost use Rattle.std.specs.Prelude.{◌≡◌, ◌++◌, IfOk, IfSome, IsUtf8, OnOk, option_map};
ghost use Rattle.serde_json.specs.Data.{string};
ghost use Rattle.serde_json.specs.View.{members_view, view};
ghost use Rattle.xf_board.specs.Print.{blank_of, blank_text, decimals_of, kind_word, number_text, separator_of};
ghost use Rattle.xf_board.specs.PrintSteps.{with_some};

use crate::printed::Printed;
use serde_json::{Map, Value, put};
use std::alloc::Global;
use xf_base::{Cell, Column, ColumnKind, OutOfMemory, Schema, put_date, put_fixed};

impl Printed for Column {
    ghost use Rattle.xf_board.specs.Print.{HasTextBlank, column_value};

    ghost printed = { λ columns column. column_value column };

    ghost known = { HasTextBlank };

    /// Of decimals, separator and blank it has those that its kind has.
    fn value(&self, alloc: Global, _schema: &Schema) -> Result<Value, OutOfMemory> {
        let blank = blank_of(alloc, self.kind, &self.blank)?;
        let separator = separator_of(alloc, self.kind)?;
        let kind = Value::try_from_str(alloc, kind_word(self.kind))?;
        let name = Value::try_from_str(alloc, self.name.as_str())?;
        let mut members = Map::new(alloc);
        put_some(&mut members, alloc, "blank", blank)?;
        put_some(&mut members, alloc, "decimals", decimals_of(self.kind))?;
        put(&mut members, alloc, "kind", kind)?;
        put(&mut members, alloc, "name", name)?;
        put_some(&mut members, alloc, "separator", separator)?;
        Ok(Value::Object(members))
    }
}

/// Puts a member where it has a value.
fn put_some(
    members: &mut Map<String, Value>,
    alloc: Global,
    name: &str,
    value: Option<Value>,
) -> Result<(), OutOfMemory>
    ensures { OnOk result (members_view members.new.entries ≡ with_some name.now (option_map view value) (members_view members.old.entries)) }
{
    if let Some(value) = value {
        put(members, alloc, name, value)?;
    }
    Ok(())
}

/// The word for a kind.
fn kind_word(kind: ColumnKind) -> &'static str
    ensures { result.now ≡ kind_word kind }
{
    match kind {
        ColumnKind::Int => "int",
        ColumnKind::Fixed(_) => "fixed",
        ColumnKind::Date => "date",
        ColumnKind::Text => "text",
        ColumnKind::Tags(_) => "tags",
    }
}

/// Decimals, where a kind has them.
fn decimals_of(kind: ColumnKind) -> Option<Value>
    ensures { option_map view result ≡ decimals_of kind }
{
    match kind {
        ColumnKind::Fixed(decimals) => Some(Value::from(decimals)),
        _ => None,
    }
}

/// A separator as a text, where a kind has one.
fn separator_of(alloc: Global, kind: ColumnKind) -> Result<Option<Value>, OutOfMemory>
    ensures { IfOk result (λ value. option_map view value ≡ separator_of kind) }
{
    match kind {
        ColumnKind::Tags(separator) => {
            let mut text = String::new(alloc);
            text.push(char::from(separator))?;
            Ok(Some(Value::String(text)))
        }
        _ => Ok(None),
    }
}

/// A blank as a field of a kind, where there is one.
fn blank_of(
    alloc: Global,
    kind: ColumnKind,
    blank: &Option<Cell>,
) -> Result<Option<Value>, OutOfMemory>
    ensures exact { IfOk result (λ value. option_map view value ≡ blank_of kind blank.now) }
    ensures text { IfOk result (λ value. IfSome blank.now (λ cell. IsUtf8 (blank_text kind cell))) }
{
    match blank {
        Some(blank) => Ok(Some(blank_value(alloc, kind, blank)?)),
        None => Ok(None),
    }
}

/// A blank as a field of a kind.
fn blank_value(alloc: Global, kind: ColumnKind, blank: &Cell) -> Result<Value, OutOfMemory>
    ensures exact { IfOk result (λ value. view value ≡ string (blank_text kind blank.now)) }
    ensures text { IfOk result (λ value. IsUtf8 (blank_text kind blank.now)) }
{
    match blank {
        Cell::Num(number) => number_value(alloc, kind, *number),
        Cell::Text(text) => Ok(Value::try_from_str(alloc, text.as_str())?),
        Cell::Tags(_) => Ok(Value::try_from_str(alloc, "")?),
    }
}

/// A number as a field of its column.
fn number_value(alloc: Global, kind: ColumnKind, number: i64) -> Result<Value, OutOfMemory>
    ensures exact { IfOk result (λ value. view value ≡ string (number_text kind number)) }
    ensures text { IsUtf8 (number_text kind number) }
{
    let mut digits = Vec::new(alloc);
    put_number_of(&mut digits, kind, number)?;
    let text = str::from_utf8(digits.as_slice()).unwrap();
    Ok(Value::try_from_str(alloc, text)?)
}

/// Appends a number as a field of its column.
fn put_number_of(out: &mut Vec<u8>, kind: ColumnKind, number: i64) -> Result<(), OutOfMemory>
    ensures ok { OnOk result (out.new.items ≡ out.old.items ++ number_text kind number) }
    ensures utf8 { IsUtf8 (number_text kind number) }
{
    match kind {
        ColumnKind::Fixed(decimals) => put_fixed(out, i128::from(number), decimals),
        ColumnKind::Date => put_date(out, number),
        ColumnKind::Int | ColumnKind::Text | ColumnKind::Tags(_) => {
            put_fixed(out, i128::from(number), 0)
        }
    }
}
