//! The columns of a board.
ghost use Rattle.std.specs.Prelude.{◌≡◌, ◌<◌, ◌≤◌, None, IfOk, IfSome, codes};
ghost use Rattle.std.specs.List.{AllByRecursion};
ghost use Rattle.serde_json.specs.View.{view};
ghost use Rattle.xf_base.specs.Schema.{IsCellOf, IsColumn, IsSoundKind, place_of};
ghost use Rattle.xf_board.specs.Board.{IsPlainTags, IsSoundNewColumn};
ghost use Rattle.xf_members.specs.Members.{column_word_of};
ghost use Rattle.xf_members.specs.Reading.{Answers, needed, word};
ghost use Rattle.xf_board.specs.Walk.{blank_at, blank_rule, column_of, decimals_at, kind_of, separator_at, separator_of};

use serde_json::Value;
use std::alloc::Global;
use xf_base::{Cell, Column, ColumnKind, ListOf, OutOfMemory, Schema};
use xf_load::{ReadCellFault, read_cell};
use xf_members::{
    BoardRefusal, ColumnWord, ElementRule, ObjectSort, absent, column_word_of, number, object_at,
    only_members, text_at, text_of, unless_taken, wrong_field,
};

/// How the columns of a board are read.
#[derive(Clone, Copy)]
pub struct ColumnRule;

impl ElementRule for ColumnRule {
    type Item = Column;

    ghost walk = { λ rule. column_of };

    ghost Keeps = { λ rule. IsSoundNewColumn };

    fn read(
        &self,
        alloc: Global,
        before: &[Column],
        path: &str,
        value: &Value,
    ) -> Result<Column, BoardRefusal> {
        object_at(alloc, path, value)?;
        only_members(alloc, ObjectSort::Column, path, value)?;
        let name = text_at(alloc, path, "name", value)?;
        let taken = place_of(before, name.as_str()).is_some();
        unless_taken(alloc, taken, path, name.as_str())?;
        let word = column_word_at(alloc, path, value)?;
        let decimals = decimals_at(alloc, word, path, value)?;
        let separator = separator_at(alloc, word, path, value)?;
        let column = Column {
            name,
            kind: kind_of(word, decimals, separator),
            blank: None,
        };
        let blank = blank_at(alloc, word, &column, path, value)?;
        Ok(Column { blank, ..column })
    }
}

/// The place of the first column of a name.
fn place_of(columns: &[Column], name: &str) -> Option<usize>
    ensures { result ≡ place_of columns.now name.now }
{
    columns
        .iter()
        .position(|column| column.name.as_str() == name)
}

/// Columns as a schema.
pub fn schema_of(alloc: Global, columns: ListOf<Column>) -> Result<Schema, OutOfMemory>
    requires { AllByRecursion IsColumn columns }
    ensures { IfOk result (λ schema. schema ≡ columns) }
{
    let mut schema = Schema::new(alloc);
    for column in columns.into_vec() {
        schema.push(column)?;
    }
    Ok(schema)
}

/// The word for the kind of a column.
fn column_word_at(alloc: Global, path: &str, value: &Value) -> Result<ColumnWord, BoardRefusal>
    ensures { Answers result (needed (word column_word_of) path.now (codes "kind") (view value.now)) }
{
    match text_of(value.get("kind")) {
        Some(text) => match column_word_of(text) {
            Some(word) => Ok(word),
            None => wrong_field(alloc, path, "kind"),
        },
        None => wrong_field(alloc, path, "kind"),
    }
}

/// The decimals of a column of decimals. No other has them.
fn decimals_at(
    alloc: Global,
    word: ColumnWord,
    path: &str,
    value: &Value,
) -> Result<u8, BoardRefusal>
    ensures exact { Answers result (decimals_at word path.now (view value.now)) }
    ensures few { IfOk result (λ decimals. decimals ≤ 9) }
{
    if word != ColumnWord::Fixed {
        absent(alloc, path, "decimals", value)?;
        return Ok(0);
    }
    match value.get("decimals") {
        Some(decimals) => match number(0, 9, decimals) {
            Some(decimals) => Ok(decimals as u8),
            None => wrong_field(alloc, path, "decimals"),
        },
        None => wrong_field(alloc, path, "decimals"),
    }
}

/// The separator of a column of tags. No other has one.
fn separator_at(
    alloc: Global,
    word: ColumnWord,
    path: &str,
    value: &Value,
) -> Result<u8, BoardRefusal>
    ensures exact { Answers result (separator_at word path.now (view value.now)) }
    ensures printable { IfOk result (λ separator. (32 ≤ separator) × (separator ≤ 126)) }
{
    if word != ColumnWord::Tags {
        absent(alloc, path, "separator", value)?;
        return Ok(b';');
    }
    let separator = match value.get("separator") {
        Some(separator) => separator_of(separator),
        None => Some(b';'),
    };
    match separator {
        Some(separator) => Ok(separator),
        None => wrong_field(alloc, path, "separator"),
    }
}

/// One printable character of ASCII.
fn separator_of(value: &Value) -> Option<u8>
    ensures exact { result ≡ word separator_of (view value.now) }
    ensures printable { IfSome result (λ separator. (32 ≤ separator) × (separator ≤ 126)) }
{
    match value.as_str() {
        Some(text) => match text.as_bytes() {
            [byte] if 32 <= *byte && *byte <= 126 => Some(*byte),
            _ => None,
        },
        None => None,
    }
}

fn kind_of(word: ColumnWord, decimals: u8, separator: u8) -> ColumnKind
    ensures { result ≡ kind_of word decimals separator }
{
    match word {
        ColumnWord::Int => ColumnKind::Int,
        ColumnWord::Fixed => ColumnKind::Fixed(decimals),
        ColumnWord::Date => ColumnKind::Date,
        ColumnWord::Text => ColumnKind::Text,
        ColumnWord::Tags => ColumnKind::Tags(separator),
    }
}

/// The cell of a field of nothing but blanks, where a column has one. Tags have none.
fn blank_at(
    alloc: Global,
    word: ColumnWord,
    column: &Column,
    path: &str,
    value: &Value,
) -> Result<Option<Cell>, BoardRefusal>
    requires { IsColumn column.now }
    ensures exact { Answers result (blank_at word column.now path.now (view value.now)) }
    ensures sound { IfOk result (λ blank. IfSome blank (IsCellOf column.now.kind)) }
{
    if word == ColumnWord::Tags {
        absent(alloc, path, "blank", value)?;
        return Ok(None);
    }
    let blank = match value.get("blank") {
        Some(blank) => blank_rule(alloc, column, blank)?,
        None => Some(None),
    };
    match blank {
        Some(blank) => Ok(blank),
        None => wrong_field(alloc, path, "blank"),
    }
}

/// A text as a field of a column.
fn blank_rule(
    alloc: Global,
    column: &Column,
    value: &Value,
) -> Result<Option<Option<Cell>>, BoardRefusal>
    requires { IsColumn column.now }
    ensures exact { Answers result (Ok (blank_rule column.now (view value.now))) }
    ensures sound { IfOk result (λ blank. IfSome blank (λ cell. IfSome cell (IsCellOf column.now.kind))) }
{
    match value.as_str() {
        Some(text) => match read_cell(alloc, column, text.as_bytes()) {
            Ok(cell) => Ok(Some(Some(cell))),
            Err(ReadCellFault::Bad(_)) => Ok(None),
            Err(ReadCellFault::OutOfMemory) => Err(BoardRefusal::OutOfMemory),
        },
        None => Ok(None),
    }
}
