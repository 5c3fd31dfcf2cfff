//! Why a line is refused.
ghost use Rattle.std.specs.Prelude.{◌≡◌, ◌∷◌, ◌++◌, OnOk, IsUtf8, codes, decimal};
ghost use Rattle.xf_base.specs.Word.{word_text};
ghost use Rattle.xf_reply.specs.Put.{Puts};
ghost use Rattle.xf_reply.specs.Refused.{atom_kind_text, cell_refusal_text, counts_text, kind_text, refusal_number, refusal_words};

use crate::put::{put_count, put_counted, put_name, put_next_count, put_next_name, put_text};
use xf_base::{AtomKind, KeyKind, OutOfMemory, Text};
use xf_load::CellRefusal;

/// Why a line is refused. A refused line changes nothing. The variants stand in the order of their numbers, from 1.
#[derive(Debug, Drop)]
pub enum Refusal {
    /// The line has so many bytes, more than a line may have.
    LineTooLong {
        length: u64,
    },
    /// The line is no UTF-8; its longest front that is UTF-8 has so many bytes.
    NotText {
        place: u64,
    },
    /// The first word is no verb.
    UnknownVerb,
    /// The first word that does not fit, numbered from 1; one past the last where words are wanting.
    BadWord {
        number: u64,
    },
    /// The first word that begins a predicate inside 16 others.
    TooDeep {
        number: u64,
    },
    /// No live dimension has the name.
    NoDimension {
        name: Text,
    },
    /// No live group has the name.
    NoGroup {
        name: Text,
    },
    /// No live whole has the name.
    NoWhole {
        name: Text,
    },
    /// A key is of another kind than those of the dimension: the kind of the first such key.
    WrongKind {
        wanted: KeyKind,
        given: KeyKind,
    },
    /// A live thing of that sort has the name.
    NameTaken {
        name: Text,
    },
    /// The schema has no such column.
    NoColumn {
        name: Text,
    },
    /// The column does not fit the accessor or the reducer.
    WrongColumn {
        name: Text,
    },
    /// The rounding does not apply to the form of the dimension's keys.
    WrongRounding,
    /// The group's reducer has not so many fields; numbers from 0.
    NoField {
        number: u64,
    },
    /// There is no such file.
    Absent {
        name: Text,
    },
    /// The file has more bytes than a file may have.
    TooLong {
        name: Text,
        limit: u64,
    },
    /// The file has no record, so no header.
    NoHeader,
    /// The header does not have a column of the schema.
    MissingColumn {
        name: Text,
    },
    /// A record, numbered from 1, has another number of fields than the header.
    UnevenRecord {
        number: u64,
    },
    /// A field is no cell of its column. Records are numbered from 1; that of `add` is 1.
    BadCell {
        number: u64,
        column: Text,
        why: CellRefusal,
    },
    /// `add` has another number of words than there are columns.
    WrongCells {
        wanted: u64,
        given: u64,
    },
    /// There would be more records than the limit.
    TooManyRecords {
        have: u64,
        more: u64,
        limit: u64,
    },
    /// The records would have more bytes of text than the limit.
    TooMuchText {
        have: u64,
        more: u64,
        limit: u64,
    },
    /// The dimensions would have more entries than the limit.
    TooManyEntries {
        have: u64,
        more: u64,
        limit: u64,
    },
    /// So many dimensions are live, as many as there may be.
    TooManyDimensions {
        limit: u64,
    },
    /// So many groups and wholes are live, as many as there may be.
    TooManyGroups {
        limit: u64,
    },
}

impl Refusal {
    /// Its number in what is written.
    pub fn number(&self) -> u64
        ensures { result ≡ refusal_number self.now }
    {
        match self {
            Refusal::LineTooLong { .. } => 1,
            Refusal::NotText { .. } => 2,
            Refusal::UnknownVerb => 3,
            Refusal::BadWord { .. } => 4,
            Refusal::TooDeep { .. } => 5,
            Refusal::NoDimension { .. } => 6,
            Refusal::NoGroup { .. } => 7,
            Refusal::NoWhole { .. } => 8,
            Refusal::WrongKind { .. } => 9,
            Refusal::NameTaken { .. } => 10,
            Refusal::NoColumn { .. } => 11,
            Refusal::WrongColumn { .. } => 12,
            Refusal::WrongRounding => 13,
            Refusal::NoField { .. } => 14,
            Refusal::Absent { .. } => 15,
            Refusal::TooLong { .. } => 16,
            Refusal::NoHeader => 17,
            Refusal::MissingColumn { .. } => 18,
            Refusal::UnevenRecord { .. } => 19,
            Refusal::BadCell { .. } => 20,
            Refusal::WrongCells { .. } => 21,
            Refusal::TooManyRecords { .. } => 22,
            Refusal::TooMuchText { .. } => 23,
            Refusal::TooManyEntries { .. } => 24,
            Refusal::TooManyDimensions { .. } => 25,
            Refusal::TooManyGroups { .. } => 26,
        }
    }
}

/// Appends the words of a refusal, without its number. Where memory is refused a part of them may stand in `out`.
pub fn put_refusal(out: &mut Vec<u8>, refusal: &Refusal) -> Result<(), OutOfMemory>
    ensures ok { OnOk result (out.new.items ≡ out.old.items ++ refusal_words refusal.now) }
    ensures utf8 { OnOk result (IsUtf8 (refusal_words refusal.now)) }
{
    put_words(out, refusal)?;
    Ok(())
}

/// Appends the same, said as one fact.
pub(crate) fn put_words(out: &mut Vec<u8>, refusal: &Refusal) -> Result<(), OutOfMemory>
    ensures { OnOk result (Puts out.old.items out.new.items (refusal_words refusal.now)) }
{
    match refusal {
        Refusal::LineTooLong { length } => put_counted(out, "line too long ", *length),
        Refusal::NotText { place } => put_counted(out, "not text ", *place),
        Refusal::UnknownVerb => put_text(out, "unknown verb"),
        Refusal::BadWord { number } => put_counted(out, "bad word ", *number),
        Refusal::TooDeep { number } => put_counted(out, "nested too deep ", *number),
        Refusal::NoDimension { name } => put_named(out, "no dimension ", name),
        Refusal::NoGroup { name } => put_named(out, "no group ", name),
        Refusal::NoWhole { name } => put_named(out, "no whole ", name),
        Refusal::WrongKind { wanted, given } => put_wrong_kind(out, *wanted, *given),
        Refusal::NameTaken { name } => put_named(out, "name taken ", name),
        Refusal::NoColumn { name } => put_named(out, "no column ", name),
        Refusal::WrongColumn { name } => put_named(out, "wrong column ", name),
        Refusal::WrongRounding => put_text(out, "wrong rounding"),
        Refusal::NoField { number } => put_counted(out, "no field ", *number),
        Refusal::Absent { name } => put_named(out, "absent ", name),
        Refusal::TooLong { name, limit } => put_too_long(out, name, *limit),
        Refusal::NoHeader => put_text(out, "no header"),
        Refusal::MissingColumn { name } => put_named(out, "missing column ", name),
        Refusal::UnevenRecord { number } => put_counted(out, "uneven record ", *number),
        Refusal::BadCell {
            number,
            column,
            why,
        } => put_bad_cell(out, *number, column, *why),
        Refusal::WrongCells { wanted, given } => put_wrong_cells(out, *wanted, *given),
        Refusal::TooManyRecords { have, more, limit } => {
            put_counts(out, "too many records ", *have, *more, *limit)
        }
        Refusal::TooMuchText { have, more, limit } => {
            put_counts(out, "too much text ", *have, *more, *limit)
        }
        Refusal::TooManyEntries { have, more, limit } => {
            put_counts(out, "too many entries ", *have, *more, *limit)
        }
        Refusal::TooManyDimensions { limit } => put_counted(out, "too many dimensions ", *limit),
        Refusal::TooManyGroups { limit } => put_counted(out, "too many groups ", *limit),
    }
}

/// Appends words and a name.
fn put_named(out: &mut Vec<u8>, words: &str, name: &Text) -> Result<(), OutOfMemory>
    ensures { OnOk result (Puts out.old.items out.new.items (words.now ++ word_text name.now)) }
{
    put_text(out, words)?;
    put_name(out, name)?;
    Ok(())
}

/// Appends words, and how much there is, how much more comes and how much there may be.
fn put_counts(
    out: &mut Vec<u8>,
    words: &str,
    have: u64,
    more: u64,
    limit: u64,
) -> Result<(), OutOfMemory>
    ensures { OnOk result (Puts out.old.items out.new.items (words.now ++ counts_text have more limit)) }
{
    put_text(out, words)?;
    put_count(out, have)?;
    put_next_count(out, more)?;
    put_next_count(out, limit)?;
    Ok(())
}

/// Appends that cells are too many or too few.
fn put_wrong_cells(out: &mut Vec<u8>, wanted: u64, given: u64) -> Result<(), OutOfMemory>
    ensures { OnOk result (Puts out.old.items out.new.items (codes "wrong cells " ++ decimal wanted ++ 32 ∷ decimal given)) }
{
    put_text(out, "wrong cells ")?;
    put_count(out, wanted)?;
    put_next_count(out, given)?;
    Ok(())
}

/// Appends that a file is too long.
fn put_too_long(out: &mut Vec<u8>, name: &Text, limit: u64) -> Result<(), OutOfMemory>
    ensures { OnOk result (Puts out.old.items out.new.items (codes "too long " ++ word_text name.now ++ 32 ∷ decimal limit)) }
{
    put_text(out, "too long ")?;
    put_name(out, name)?;
    put_next_count(out, limit)?;
    Ok(())
}

/// Appends that a field is no cell, and why.
fn put_bad_cell(
    out: &mut Vec<u8>,
    number: u64,
    column: &Text,
    why: CellRefusal,
) -> Result<(), OutOfMemory>
    ensures { OnOk result (Puts out.old.items out.new.items
        (codes "bad cell " ++ decimal number ++ 32 ∷ word_text column.now ++ 32 ∷ cell_refusal_text why)) }
{
    put_text(out, "bad cell ")?;
    put_count(out, number)?;
    put_next_name(out, column)?;
    put_text(out, " ")?;
    put_cell_refusal(out, why)?;
    Ok(())
}

/// Appends why a field is no cell of its column.
fn put_cell_refusal(out: &mut Vec<u8>, why: CellRefusal) -> Result<(), OutOfMemory>
    ensures { OnOk result (Puts out.old.items out.new.items (cell_refusal_text why)) }
{
    match why {
        CellRefusal::NotUtf8 => put_text(out, "not utf8"),
        CellRefusal::Empty => put_text(out, "empty"),
        CellRefusal::NotNumber => put_text(out, "not a number"),
        CellRefusal::TooManyDecimals => put_text(out, "too many decimals"),
        CellRefusal::OutOfRange => put_text(out, "out of range"),
        CellRefusal::Form => put_text(out, "not a date"),
        CellRefusal::NoSuchDay => put_text(out, "no such day"),
        CellRefusal::TextTooLong => put_text(out, "text too long"),
        CellRefusal::TooManyTags => put_text(out, "too many tags"),
    }
}

/// Appends that a key is of another kind than those of its dimension.
fn put_wrong_kind(out: &mut Vec<u8>, wanted: KeyKind, given: KeyKind) -> Result<(), OutOfMemory>
    ensures { OnOk result (Puts out.old.items out.new.items (codes "wrong kind " ++ kind_text wanted ++ 32 ∷ kind_text given)) }
{
    put_text(out, "wrong kind ")?;
    put_kind(out, wanted)?;
    put_text(out, " ")?;
    put_kind(out, given)?;
    Ok(())
}

fn put_kind(out: &mut Vec<u8>, kind: KeyKind) -> Result<(), OutOfMemory>
    ensures { OnOk result (Puts out.old.items out.new.items (kind_text kind)) }
{
    match kind {
        KeyKind::Num => put_text(out, "number"),
        KeyKind::Text => put_text(out, "text"),
        KeyKind::Pair(first, second) => put_pair_kind(out, first, second),
    }
}

fn put_pair_kind(out: &mut Vec<u8>, first: AtomKind, second: AtomKind) -> Result<(), OutOfMemory>
    ensures { OnOk result (Puts out.old.items out.new.items (kind_text (KeyKind.Pair first second))) }
{
    put_text(out, "pair(")?;
    put_atom_kind(out, first)?;
    put_text(out, ",")?;
    put_atom_kind(out, second)?;
    put_text(out, ")")?;
    Ok(())
}

fn put_atom_kind(out: &mut Vec<u8>, kind: AtomKind) -> Result<(), OutOfMemory>
    ensures { OnOk result (Puts out.old.items out.new.items (atom_kind_text kind)) }
{
    match kind {
        AtomKind::Num => put_text(out, "number"),
        AtomKind::Text => put_text(out, "text"),
    }
}
