//! The lines of an answer, each with two blanks in front and a line feed behind it.
ghost use Rattle.std.specs.Prelude.{◌≡◌, ◌<◌, ◌∷◌, ◌++◌, OnOk, IsUtf8, flat_map};
ghost use Rattle.std.specs.List.{AllByRecursion, zip};
ghost use Rattle.xf_base.specs.Fixed.{fixed_text};
ghost use Rattle.xf_base.specs.Form.{key_text, number_text};
ghost use Rattle.xf_base.specs.Schema.{IsColumn, IsSoundKind};
ghost use Rattle.xf_base.specs.Word.{word_text};
ghost use Rattle.xf_reply.specs.Answer.{behind, cell_text, cell_words, entry_line, events_line, field_word, field_words, form_of_kind, joined, none_line, number_line, record_line, separator_of};
ghost use Rattle.xf_reply.specs.Put.{Puts, PutsIf};

use crate::put::{put_count, put_counted, put_name, put_text};
use xf_base::{
    AtomForm, Cell, Column, ColumnKind, Key, KeyForm, OutOfMemory, Row, Text, put_date, put_fixed,
    put_key, put_word,
};

/// Appends the line of a record: its place, and the cells of all columns in order, each as a word. Numbers are written
/// with the decimals of their column, days as dates, tags with their separator between them. `scratch` is room for a
/// cell. Where memory is refused a part of the line may stand in `out`.
pub fn put_record(
    out: &mut Vec<u8>,
    scratch: &mut Vec<u8>,
    columns: &[Column],
    place: u64,
    row: &Row,
) -> Result<(), OutOfMemory>
    ensures ok { OnOk result (out.new.items ≡ out.old.items ++ record_line columns.now place row.now) }
    ensures utf8 { OnOk result (AllByRecursion IsColumn columns.now → IsUtf8 (record_line columns.now place row.now)) }
{
    put_counted(out, "  record ", place)?;
    put_cells(out, scratch, columns, row.as_slice())?;
    put_text(out, "\n")?;
    Ok(())
}

/// Appends the cells of columns, each as a word behind a blank.
fn put_cells(
    out: &mut Vec<u8>,
    scratch: &mut Vec<u8>,
    columns: &[Column],
    cells: &[Cell],
) -> Result<(), OutOfMemory>
    ensures { OnOk result (PutsIf (AllByRecursion IsColumn columns.now) out.old.items out.new.items
        (flat_map cell_words (zip columns.now cells.now))) }
{
    for (column, cell) in columns.iter().zip(cells) {
        put_next_cell(out, scratch, column, cell)?;
    }
    Ok(())
}

/// Appends a blank and a cell of a column as a word.
fn put_next_cell(
    out: &mut Vec<u8>,
    scratch: &mut Vec<u8>,
    column: &Column,
    cell: &Cell,
) -> Result<(), OutOfMemory>
    ensures { OnOk result (PutsIf (IsSoundKind column.now.kind) out.old.items out.new.items (cell_words (column.now, cell.now))) }
{
    put_text(out, " ")?;
    put_cell(out, scratch, column.kind, cell)?;
    Ok(())
}

/// Appends a cell as a word.
fn put_cell(
    out: &mut Vec<u8>,
    scratch: &mut Vec<u8>,
    kind: ColumnKind,
    cell: &Cell,
) -> Result<(), OutOfMemory>
    ensures { OnOk result (PutsIf (IsSoundKind kind) out.old.items out.new.items (word_text (cell_text kind cell.now))) }
{
    match cell {
        Cell::Num(number) => put_number_word(out, form_of_kind(kind), *number)?,
        Cell::Text(text) => put_name(out, text)?,
        Cell::Tags(tags) => {
            scratch.clear();
            put_tags(scratch, separator_of(kind), tags.as_slice())?;
            put_word(out, scratch.as_slice())?;
        }
    }
    Ok(())
}

/// How the numbers of a column are written.
fn form_of_kind(kind: ColumnKind) -> AtomForm
    ensures { result ≡ form_of_kind kind }
{
    match kind {
        ColumnKind::Int => AtomForm::Fixed(0),
        ColumnKind::Fixed(decimals) => AtomForm::Fixed(decimals),
        ColumnKind::Date => AtomForm::Date,
        ColumnKind::Text | ColumnKind::Tags(_) => AtomForm::Text,
    }
}

/// What stands between the tags of a column.
fn separator_of(kind: ColumnKind) -> u8
    ensures value { result ≡ separator_of kind }
    ensures ascii { IsSoundKind kind → result < 128 }
{
    match kind {
        ColumnKind::Tags(separator) => separator,
        _ => b';',
    }
}

/// Appends tags with a separator between each two.
fn put_tags(out: &mut Vec<u8>, separator: u8, tags: &[Text]) -> Result<(), OutOfMemory>
    ensures { OnOk result (PutsIf (separator < 128) out.old.items out.new.items (joined separator tags.now)) }
{
    let [first, rest @ ..] = tags else {
        return Ok(());
    };
    put_text(out, first.as_str())?;
    put_next_tags(out, separator, rest)?;
    Ok(())
}

/// Appends tags, each behind a separator.
fn put_next_tags(out: &mut Vec<u8>, separator: u8, tags: &[Text]) -> Result<(), OutOfMemory>
    ensures { OnOk result (PutsIf (separator < 128) out.old.items out.new.items (behind separator tags.now)) }
{
    for tag in tags {
        put_next_tag(out, separator, tag)?;
    }
    Ok(())
}

/// Appends a separator and a tag.
fn put_next_tag(out: &mut Vec<u8>, separator: u8, tag: &Text) -> Result<(), OutOfMemory>
    ensures { OnOk result (PutsIf (separator < 128) out.old.items out.new.items (separator ∷ tag.now)) }
{
    out.push(separator)?;
    put_text(out, tag.as_str())?;
    Ok(())
}

/// Appends a number as a word, which it is by itself.
fn put_number_word(out: &mut Vec<u8>, form: AtomForm, number: i64) -> Result<(), OutOfMemory>
    ensures { OnOk result (Puts out.old.items out.new.items (word_text (number_text form number))) }
{
    put_number(out, form, number)?;
    Ok(())
}

/// Appends a number as its form says.
fn put_number(out: &mut Vec<u8>, form: AtomForm, number: i64) -> Result<(), OutOfMemory>
    ensures { OnOk result (Puts out.old.items out.new.items (number_text form number)) }
{
    match form {
        AtomForm::Fixed(decimals) => put_fixed(out, i128::from(number), decimals),
        AtomForm::Date => put_date(out, number),
        AtomForm::Text => put_fixed(out, i128::from(number), 0),
    }
}

/// A field of an entry or of a whole: its number, in units of the last of its decimals.
#[derive(Clone, Copy, Debug, PartialEq, Eq)]
pub struct Field {
    pub number: i128,
    pub decimals: u8,
}

/// Appends fields, each behind a blank. Where memory is refused some may stand in `out`.
pub fn put_fields(out: &mut Vec<u8>, fields: &[Field]) -> Result<(), OutOfMemory>
    ensures ok { OnOk result (out.new.items ≡ out.old.items ++ field_words fields.now) }
    ensures utf8 { OnOk result (IsUtf8 (field_words fields.now)) }
{
    for field in fields {
        put_field(out, *field)?;
    }
    Ok(())
}

/// Appends a blank and a field.
fn put_field(out: &mut Vec<u8>, field: Field) -> Result<(), OutOfMemory>
    ensures { OnOk result (Puts out.old.items out.new.items (field_word field)) }
{
    put_text(out, " ")?;
    put_fixed(out, field.number, field.decimals)?;
    Ok(())
}

/// Appends the line of an entry of a group: its key as a word, as the form says, and its fields. `scratch` is room for a
/// key. Where memory is refused a part of the line may stand in `out`.
pub fn put_entry(
    out: &mut Vec<u8>,
    scratch: &mut Vec<u8>,
    form: &KeyForm,
    key: &Key,
    fields: &[Field],
) -> Result<(), OutOfMemory>
    ensures ok { OnOk result (out.new.items ≡ out.old.items ++ entry_line form.now key.now fields.now) }
    ensures utf8 { OnOk result (IsUtf8 (entry_line form.now key.now fields.now)) }
{
    put_text(out, "  ")?;
    put_key_word(out, scratch, form, key)?;
    put_fields(out, fields)?;
    put_text(out, "\n")?;
    Ok(())
}

/// Appends a key as a word. A number or a text needs no room besides.
fn put_key_word(
    out: &mut Vec<u8>,
    scratch: &mut Vec<u8>,
    form: &KeyForm,
    key: &Key,
) -> Result<(), OutOfMemory>
    ensures { OnOk result (Puts out.old.items out.new.items (word_text (key_text form.now key.now))) }
{
    match (form, key) {
        (KeyForm::One(form), Key::Num(number)) => put_number_word(out, *form, *number),
        (_, Key::Text(text)) => put_name(out, text),
        _ => put_key_by(out, scratch, form, key),
    }
}

/// Appends a key as a word, by way of `scratch`.
fn put_key_by(
    out: &mut Vec<u8>,
    scratch: &mut Vec<u8>,
    form: &KeyForm,
    key: &Key,
) -> Result<(), OutOfMemory>
    ensures { OnOk result (Puts out.old.items out.new.items (word_text (key_text form.now key.now))) }
{
    prove!(key.is_plain());
    scratch.clear();
    put_key(scratch, form, key)?;
    put_word(out, scratch.as_slice())?;
    Ok(())
}

/// Appends the line for a key that has no entry.
pub fn put_none(out: &mut Vec<u8>) -> Result<(), OutOfMemory>
    ensures ok { OnOk result (out.new.items ≡ out.old.items ++ none_line) }
    ensures utf8 { OnOk result (IsUtf8 none_line) }
{
    put_text(out, "  none\n")?;
    Ok(())
}

/// Appends the line of a number.
pub fn put_number_line(out: &mut Vec<u8>, number: u64) -> Result<(), OutOfMemory>
    ensures ok { OnOk result (out.new.items ≡ out.old.items ++ number_line number) }
    ensures utf8 { OnOk result (IsUtf8 (number_line number)) }
{
    put_counted(out, "  ", number)?;
    put_text(out, "\n")?;
    Ok(())
}

/// Appends the line of events: how often records were added, records were removed, and filters were set.
pub fn put_events(
    out: &mut Vec<u8>,
    added: u64,
    removed: u64,
    filtered: u64,
) -> Result<(), OutOfMemory>
    ensures ok { OnOk result (out.new.items ≡ out.old.items ++ events_line added removed filtered) }
    ensures utf8 { OnOk result (IsUtf8 (events_line added removed filtered)) }
{
    put_counted(out, "  added ", added)?;
    put_counted(out, " removed ", removed)?;
    put_counted(out, " filtered ", filtered)?;
    put_text(out, "\n")?;
    Ok(())
}
