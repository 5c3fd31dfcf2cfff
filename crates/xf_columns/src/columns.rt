//! What the words for accessors, roundings and reducers name.
ghost use Rattle.std.specs.Prelude.{◌≡◌, None, Some, IfErr, IfOk, OnOk, true};
ghost use Rattle.xf_access.specs.Stock.{fits_columns, is_of_dates, is_of_tags, kind_at};
ghost use Rattle.xf_columns.specs.Columns.{IsWidth, accessor_of, accessor_refusal, applies, column_at, column_refusal, form_of_column, is_of_numbers, is_plain, kind_named, reducer_of, reducer_refusal, rounding_of, simple_of, simple_refusal};
ghost use Rattle.xf_reduce.specs.Number.{fits_at};
ghost use Rattle.xf_reduce.specs.Simple.{simple_fits};
ghost use Rattle.xf_reduce.specs.StockReducer.{stock_fits};

use crate::column_refusal::ColumnRefusal;
use crate::words::{AccessorWords, ReducerWords, RoundingWords, SimpleWords};
use xf_access::{StockAccessor, StockRounding};
use xf_base::{AtomForm, ColumnKind, KeyForm, Schema, Text};
use xf_reduce::{Simple, StockReducer};

/// The accessor that words name, or why a column does not fit: the columns are tried from left to right, each for its
/// name and then for its kind.
pub fn accessor_of(schema: &Schema, words: AccessorWords) -> Result<StockAccessor, ColumnRefusal>
    ensures accessor { IfOk result (λ accessor. (accessor ≡ accessor_of schema.now words)
        × (accessor_refusal schema.now words ≡ None) × (fits_columns accessor schema.now ≡ true)) }
    ensures refused { IfErr result (λ cause. accessor_refusal schema.now words ≡ Some cause) }
{
    match words {
        AccessorWords::Column(name) => {
            let (place, form) = plain_column(schema, name)?;
            Ok(StockAccessor::Column(place, KeyForm::One(form)))
        }
        AccessorWords::Pair(first, second) => {
            let (first, first_form) = plain_column(schema, first)?;
            let (second, second_form) = plain_column(schema, second)?;
            Ok(StockAccessor::PairOf(first, second, KeyForm::Pair(first_form, second_form)))
        }
        AccessorWords::Tags(name) => Ok(StockAccessor::Tags(tags_column(schema, name)?)),
        AccessorWords::Weekday(name) => Ok(StockAccessor::Weekday(date_column(schema, name)?)),
        AccessorWords::Month(name) => Ok(StockAccessor::Month(date_column(schema, name)?)),
    }
}

/// The place of a column whose cells are keys, and how they are written.
fn plain_column(schema: &Schema, name: Text) -> Result<(usize, AtomForm), ColumnRefusal>
    ensures found { IfOk result (λ at. (at.0 ≡ column_at schema.now name) × (form_of_column (kind_named schema.now name) ≡ Some at.1)) }
    ensures accepted { OnOk result (column_refusal is_plain schema.now name ≡ None) }
    ensures refused { IfErr result (λ cause. column_refusal is_plain schema.now name ≡ Some cause) }
{
    let Some(place) = schema.place_of(name.as_str().as_bytes()) else {
        return Err(ColumnRefusal::NoColumn { name });
    };
    match form_of_column(schema.as_slice()[place].kind) {
        Some(form) => Ok((place, form)),
        None => Err(ColumnRefusal::WrongColumn { name }),
    }
}

/// The place of a column of tags.
fn tags_column(schema: &Schema, name: Text) -> Result<usize, ColumnRefusal>
    ensures found { IfOk result (λ place. (place ≡ column_at schema.now name) × (is_of_tags (kind_at schema.now place) ≡ true)) }
    ensures accepted { OnOk result (column_refusal is_of_tags schema.now name ≡ None) }
    ensures refused { IfErr result (λ cause. column_refusal is_of_tags schema.now name ≡ Some cause) }
{
    let Some(place) = schema.place_of(name.as_str().as_bytes()) else {
        return Err(ColumnRefusal::NoColumn { name });
    };
    match schema.as_slice()[place].kind {
        ColumnKind::Tags(_) => Ok(place),
        _ => Err(ColumnRefusal::WrongColumn { name }),
    }
}

/// The place of a column of dates.
fn date_column(schema: &Schema, name: Text) -> Result<usize, ColumnRefusal>
    ensures found { IfOk result (λ place. (place ≡ column_at schema.now name) × (is_of_dates (kind_at schema.now place) ≡ true)) }
    ensures accepted { OnOk result (column_refusal is_of_dates schema.now name ≡ None) }
    ensures refused { IfErr result (λ cause. column_refusal is_of_dates schema.now name ≡ Some cause) }
{
    let Some(place) = schema.place_of(name.as_str().as_bytes()) else {
        return Err(ColumnRefusal::NoColumn { name });
    };
    match schema.as_slice()[place].kind {
        ColumnKind::Date => Ok(place),
        _ => Err(ColumnRefusal::WrongColumn { name }),
    }
}

/// How the cells of a column are written as keys; tags are many.
fn form_of_column(kind: ColumnKind) -> Option<AtomForm>
    ensures { result ≡ form_of_column (Some kind) }
{
    match kind {
        ColumnKind::Int => Some(AtomForm::Fixed(0)),
        ColumnKind::Fixed(decimals) => Some(AtomForm::Fixed(decimals)),
        ColumnKind::Date => Some(AtomForm::Date),
        ColumnKind::Text => Some(AtomForm::Text),
        ColumnKind::Tags(_) => None,
    }
}

/// The rounding that words name.
pub fn rounding_of(words: RoundingWords) -> StockRounding
    requires { IsWidth words }
    ensures { result ≡ rounding_of words }
{
    match words {
        RoundingWords::Same => StockRounding::Same,
        RoundingWords::Floor(width) => StockRounding::Floor(width as i64),
        RoundingWords::Month => StockRounding::MonthOf,
        RoundingWords::Year => StockRounding::YearOf,
        RoundingWords::Letters(count) => StockRounding::FirstLetters(count),
    }
}

/// Whether a rounding applies to keys of a form: a floor to numbers, a month and a year to dates, letters to texts.
pub fn applies(rounding: StockRounding, form: KeyForm) -> bool
    ensures { result ≡ applies rounding form }
{
    match rounding {
        StockRounding::Same => true,
        StockRounding::Floor(_) => matches!(form, KeyForm::One(AtomForm::Fixed(_))),
        StockRounding::MonthOf | StockRounding::YearOf => form == KeyForm::One(AtomForm::Date),
        StockRounding::FirstLetters(_) => form == KeyForm::One(AtomForm::Text),
    }
}

/// The reducer that words name, or why a column does not fit: the columns are tried from left to right, each for its name
/// and then for its kind.
pub fn reducer_of(schema: &Schema, words: ReducerWords) -> Result<StockReducer, ColumnRefusal>
    ensures reducer { IfOk result (λ reducer. (reducer ≡ reducer_of schema.now words)
        × (reducer_refusal schema.now words ≡ None) × (stock_fits reducer schema.now ≡ true)) }
    ensures refused { IfErr result (λ cause. reducer_refusal schema.now words ≡ Some cause) }
{
    match words {
        ReducerWords::One(first) => Ok(StockReducer::One(part_of(schema, first)?)),
        ReducerWords::Both(first, second) => {
            let first = part_of(schema, first)?;
            Ok(StockReducer::Two(first, part_of(schema, second)?))
        }
    }
}

/// The part of a reducer that words name.
fn part_of(schema: &Schema, words: SimpleWords) -> Result<Simple, ColumnRefusal>
    ensures part { IfOk result (λ part. (part ≡ simple_of schema.now words)
        × (simple_refusal schema.now words ≡ None) × (simple_fits part schema.now ≡ true)) }
    ensures refused { IfErr result (λ cause. simple_refusal schema.now words ≡ Some cause) }
{
    match words {
        SimpleWords::Count => Ok(Simple::Count),
        SimpleWords::Sum(name) => Ok(Simple::Sum(number_column(schema, name)?)),
        SimpleWords::SumCount(name) => Ok(Simple::SumCount(number_column(schema, name)?)),
        SimpleWords::SumSquares(name) => Ok(Simple::SumSquares(number_column(schema, name)?)),
        SimpleWords::Spread(name) => Ok(Simple::Spread(number_column(schema, name)?)),
    }
}

/// The place of a column of whole numbers or decimals.
fn number_column(schema: &Schema, name: Text) -> Result<usize, ColumnRefusal>
    ensures found { IfOk result (λ place. (place ≡ column_at schema.now name) × (fits_at place schema.now ≡ true)) }
    ensures accepted { OnOk result (column_refusal is_of_numbers schema.now name ≡ None) }
    ensures refused { IfErr result (λ cause. column_refusal is_of_numbers schema.now name ≡ Some cause) }
{
    let Some(place) = schema.place_of(name.as_str().as_bytes()) else {
        return Err(ColumnRefusal::NoColumn { name });
    };
    match schema.as_slice()[place].kind {
        ColumnKind::Int | ColumnKind::Fixed(_) => Ok(place),
        _ => Err(ColumnRefusal::WrongColumn { name }),
    }
}
