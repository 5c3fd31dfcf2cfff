//! The stock of accessors: what a board and a session may name.
ghost use Rattle.std.specs.Prelude.{◌≡◌, map, option_map, option_to_list, slice_get, IfOk};
ghost use Rattle.xf_base.specs.Form.{key_of_atom};
ghost use Rattle.xf_base.specs.declared.key.Key.TheVariants as key;
ghost use Rattle.xf_access.specs.Stock.{kind_at, is_form_of, is_of_dates, is_of_tags, is_form_of_one, is_form_of_pair, atom_of_cell, number_of_cell, pair_of, weekday_of, month_key, tag_keys};

use crate::accessor::Accessor;
use std::alloc::Global;
use xf_base::{
    Atom, AtomForm, Cell, Column, ColumnKind, Key, KeyForm, KeyKind, KeyList, OutOfMemory, Row,
    Schema, TextList, month_of,
};

/// An accessor of the stock. Places of columns count from 0, and a form is how the keys are written.
#[derive(Clone, Copy, Debug, PartialEq, Eq)]
pub enum StockAccessor {
    /// The cell of a column of whole numbers, decimals, dates or texts, whose form it holds.
    Column(usize, KeyForm),
    /// The pair of the cells of two such columns, with the pair of their forms.
    PairOf(usize, usize, KeyForm),
    /// Each tag of a column of tags. It is an array accessor.
    Tags(usize),
    /// The day of the week of a column of dates: 0 for Sunday to 6.
    Weekday(usize),
    /// The month of a column of dates: 1 to 12.
    Month(usize),
}

impl StockAccessor {
    ghost use Rattle.xf_access.specs.Stock.{form_of};

    /// How its keys are written: tags as texts, days of the week and months as whole numbers.
    pub fn form(&self) -> KeyForm
        ensures { result ≡ form_of self.now }
    {
        match self {
            StockAccessor::Column(_, form) | StockAccessor::PairOf(_, _, form) => *form,
            StockAccessor::Tags(_) => KeyForm::One(AtomForm::Text),
            StockAccessor::Weekday(_) | StockAccessor::Month(_) => {
                KeyForm::One(AtomForm::Fixed(0))
            }
        }
    }
}

impl Accessor for StockAccessor {
    ghost use Rattle.xf_base.specs.Kind.{kind_of_key_form};
    ghost use Rattle.xf_access.specs.Stock.{form_of, fits_columns, may_give_many, keys_of_row};
    ghost use Rattle.xf_access.specs.StockLaws.{are_keys_of_row};

    ghost keys_of = { keys_of_row };

    ghost fits_to = { fits_columns };

    ghost kind_of = { λ accessor. kind_of_key_form (form_of accessor) };

    ghost gives_many = { may_give_many };

    ghost lawful = { are_keys_of_row };

    fn fits(&self, schema: &Schema) -> bool {
        let columns = schema.as_slice();
        match self {
            StockAccessor::Column(place, form) => is_form_of_one(*form, kind_at(columns, *place)),
            StockAccessor::PairOf(first, second, form) => {
                is_form_of_pair(*form, kind_at(columns, *first), kind_at(columns, *second))
            }
            StockAccessor::Tags(place) => is_of_tags(kind_at(columns, *place)),
            StockAccessor::Weekday(place) | StockAccessor::Month(place) => {
                is_of_dates(kind_at(columns, *place))
            }
        }
    }

    fn kind(&self) -> KeyKind {
        self.form().kind()
    }

    fn is_array(&self) -> bool {
        matches!(self, StockAccessor::Tags(_))
    }

    fn keys(&self, alloc: Global, row: &Row) -> Result<KeyList, OutOfMemory> {
        match self {
            StockAccessor::Column(place, _) => listed(alloc, column_key(alloc, row, *place)?),
            StockAccessor::PairOf(first, second, _) => {
                listed(alloc, pair_key(alloc, row, *first, *second)?)
            }
            StockAccessor::Tags(place) => tag_keys(alloc, row, *place),
            StockAccessor::Weekday(place) => listed(alloc, weekday_key(row, *place)),
            StockAccessor::Month(place) => listed(alloc, month_key(row, *place)),
        }
    }
}

/// The kind of the column at a place, where there is one.
fn kind_at(columns: &[Column], place: usize) -> Option<ColumnKind>
    ensures { result ≡ kind_at columns.now place }
{
    let column = columns.get(place)?;
    Some(column.kind)
}

/// Whether keys of a column are written so.
fn is_form_of(form: AtomForm, column: Option<ColumnKind>) -> bool
    ensures { result ≡ is_form_of form column }
{
    match (form, column) {
        (AtomForm::Fixed(decimals), Some(ColumnKind::Int)) => decimals == 0,
        (AtomForm::Fixed(decimals), Some(ColumnKind::Fixed(own))) => decimals == own,
        (AtomForm::Date, Some(ColumnKind::Date)) => true,
        (AtomForm::Text, Some(ColumnKind::Text)) => true,
        _ => false,
    }
}

fn is_form_of_one(form: KeyForm, column: Option<ColumnKind>) -> bool
    ensures { result ≡ is_form_of_one form column }
{
    match form {
        KeyForm::One(form) => is_form_of(form, column),
        KeyForm::Pair(_, _) => false,
    }
}

fn is_form_of_pair(form: KeyForm, first: Option<ColumnKind>, second: Option<ColumnKind>) -> bool
    ensures { result ≡ is_form_of_pair form first second }
{
    match form {
        KeyForm::One(_) => false,
        KeyForm::Pair(front, back) => is_form_of(front, first) && is_form_of(back, second),
    }
}

fn is_of_dates(column: Option<ColumnKind>) -> bool
    ensures { result ≡ is_of_dates column }
{
    matches!(column, Some(ColumnKind::Date))
}

fn is_of_tags(column: Option<ColumnKind>) -> bool
    ensures { result ≡ is_of_tags column }
{
    matches!(column, Some(ColumnKind::Tags(_)))
}

/// The cell of a row as a part of a key, where it is a number or a text.
fn atom_at(alloc: Global, row: &Row, place: usize) -> Result<Option<Atom>, OutOfMemory>
    ensures { IfOk result (λ atom. atom ≡ atom_of_cell (slice_get row.now place)) }
{
    Ok(match row.at(place) {
        Some(Cell::Num(number)) => Some(Atom::Num(*number)),
        Some(Cell::Text(text)) => Some(Atom::Text(text.copy(alloc)?)),
        _ => None,
    })
}

fn column_key(alloc: Global, row: &Row, place: usize) -> Result<Option<Key>, OutOfMemory>
    ensures { IfOk result (λ own. own ≡ option_map key_of_atom (atom_of_cell (slice_get row.now place))) }
{
    Ok(match atom_at(alloc, row, place)? {
        Some(Atom::Num(number)) => Some(Key::Num(number)),
        Some(Atom::Text(text)) => Some(Key::Text(text)),
        None => None,
    })
}

fn pair_key(
    alloc: Global,
    row: &Row,
    first: usize,
    second: usize,
) -> Result<Option<Key>, OutOfMemory>
    ensures { IfOk result (λ own. own ≡ pair_of (atom_of_cell (slice_get row.now first)) (atom_of_cell (slice_get row.now second))) }
{
    let first = atom_at(alloc, row, first)?;
    let second = atom_at(alloc, row, second)?;
    Ok(match (first, second) {
        (Some(first), Some(second)) => Some(Key::Pair(first, second)),
        _ => None,
    })
}

/// The cell of a row as a number, where it is one.
fn number_at(row: &Row, place: usize) -> Option<i64>
    ensures { result ≡ number_of_cell (slice_get row.now place) }
{
    match row.at(place) {
        Some(Cell::Num(number)) => Some(*number),
        _ => None,
    }
}

fn weekday_key(row: &Row, place: usize) -> Option<Key>
    ensures { result ≡ option_map (λ day. key.Num (weekday_of day)) (number_of_cell (slice_get row.now place)) }
{
    let day = number_at(row, place)?;
    Some(Key::Num(weekday_of(day)))
}

/// The day of the week: 0 for Sunday, and day 0 was a Thursday.
fn weekday_of(day: i64) -> i64
    ensures { result ≡ weekday_of day }
{
    (day.rem_euclid(7) + 4) % 7
}

fn month_key(row: &Row, place: usize) -> Option<Key>
    ensures { result ≡ month_key (number_of_cell (slice_get row.now place)) }
{
    let day = number_at(row, place)?;
    let month = month_of(day)?;
    Some(Key::Num(i64::from(month)))
}

/// Each tag of a row's cell as a key.
fn tag_keys(alloc: Global, row: &Row, place: usize) -> Result<KeyList, OutOfMemory>
    ensures { IfOk result (λ keys. keys ≡ tag_keys (slice_get row.now place)) }
{
    match row.at(place) {
        Some(Cell::Tags(tags)) => text_keys(alloc, tags),
        _ => Ok(KeyList::new(alloc)),
    }
}

fn text_keys(alloc: Global, texts: &TextList) -> Result<KeyList, OutOfMemory>
    ensures { IfOk result (λ keys. keys ≡ map key.Text texts.now) }
{
    let mut keys = Vec::with_capacity(alloc, texts.len())?;
    for text in texts.as_slice() {
        keys.push(Key::Text(text.copy(alloc)?))?;
    }
    Ok(KeyList::from_vec(keys))
}

/// The list of one key or of none, in memory for no more.
fn listed(alloc: Global, key: Option<Key>) -> Result<KeyList, OutOfMemory>
    ensures { IfOk result (λ keys. keys ≡ option_to_list key) }
{
    let mut keys = Vec::new(alloc);
    if let Some(key) = key {
        keys.reserve_exact(1)?;
        keys.push(key)?;
    }
    Ok(KeyList::from_vec(keys))
}
