//! An accessor, a rounding, a predicate and a reducer of one's own: what types prove so that a crossfilter takes them.
ghost use Rattle.std.specs.Prelude.{◌≡◌};

use std::alloc::Global;
use std::sync::ledger::Ledger;
use xf_access::{Accessor, Rounding};
use xf_base::{
    Cell, Column, ColumnKind, Key, KeyKind, KeyList, Limits, OutOfMemory, Row, Schema, Steps,
};
use xf_filter::Predicate;
use xf_reduce::Reducer;

/// How many bytes the text of a column has, up to 4,096.
#[derive(Clone, Copy)]
pub struct TextLength {
    pub column: usize,
}

impl Accessor for TextLength {
    ghost use Rattle.std.specs.Prelude.{false, slice_get};
    ghost use Rattle.xf_base.specs.declared.kind.KeyKind.TheVariants.{Num};
    ghost use Rattle.xf_engine_cases.specs.Own.{text_length, has_text, text_length-lawful};

    ghost keys_of = { λ own row. text_length (slice_get row own.column) };

    ghost fits_to = { λ own columns. has_text columns own.column };

    ghost kind_of = { λ own. Num };

    ghost gives_many = { λ own. false };

    ghost lawful = { λ own. text_length-lawful own.column };

    fn fits(&self, schema: &Schema) -> bool {
        matches!(
            schema.as_slice().get(self.column),
            Some(Column {
                kind: ColumnKind::Text,
                ..
            })
        )
    }

    fn kind(&self) -> KeyKind {
        KeyKind::Num
    }

    fn is_array(&self) -> bool {
        false
    }

    fn keys(&self, alloc: Global, row: &Row) -> Result<KeyList, OutOfMemory> {
        let mut keys = KeyList::new(alloc);
        if let Some(Cell::Text(text)) = row.at(self.column) {
            let length = (text.as_str().len() as u64).min(Limits::CELL_BYTES);
            keys.push(Key::Num(length as i64))?;
        }
        Ok(keys)
    }
}

/// Half of a number, rounded down.
#[derive(Clone, Copy)]
pub struct Halves;

impl Rounding for Halves {
    ghost use Rattle.xf_engine_cases.specs.Own.{halved, halved-keeps_order};

    ghost rounded = { λ own. halved };

    ghost keeps_order = { λ own a b plain_a plain_b same. halved-keeps_order a b };

    fn round(&self, alloc: Global, key: &Key) -> Result<Key, OutOfMemory> {
        match key {
            Key::Num(number) => Ok(Key::Num(number.div_euclid(2))),
            _ => key.copy(alloc),
        }
    }
}

/// Yes for even numbers.
#[derive(Clone, Copy)]
pub struct Even;

impl Predicate for Even {
    ghost use Rattle.std.specs.Prelude.{[], pos};
    ghost use Rattle.xf_filter.specs.Stock.{is_remainder};

    ghost says_to = { λ own. is_remainder (pos 2) (pos 0) };

    ghost keys_in = { λ own. [] };

    fn says(&self, key: &Key) -> bool {
        match key {
            Key::Num(number) => number.rem_euclid(2) == 0,
            Key::Text(_) | Key::Pair(_, _) => false,
        }
    }

    fn misfit(&self, _kind: &KeyKind) -> Option<KeyKind> {
        None
    }

    fn copy(&self, _alloc: Global) -> Result<Even, OutOfMemory> {
        Ok(Even)
    }
}

/// How many rows have an even number in the second column: one field.
#[derive(Clone, Copy)]
pub struct Evens;

impl Evens {
    ghost use Rattle.xf_engine_cases.specs.Evens.{even_second};

    /// 1 for a row that counts, and 0 for another.
    fn count_of(row: &Row) -> u64
        ensures { result ≡ even_second row.now }
    {
        match row.at(1) {
            Some(Cell::Num(number)) => u64::from(number.rem_euclid(2) == 0),
            _ => 0,
        }
    }
}

impl Reducer for Evens {
    ghost use Rattle.std.specs.Prelude.{None, pos, ⊤};
    ghost use Rattle.xf_reduce.specs.Number.{fits_at};
    ghost use Rattle.xf_engine_cases.specs.Evens.{evens, evens_few, evens_less, evens_swap, evens_take_back, evens_within};

    type Value = u64;

    type Meaning = u64;

    ghost meaning_of = { λ value. value };

    ghost folding = { λ _. evens };

    ghost undo = { λ _. evens_less };

    ghost rank_of = { λ _ meaning field. pos meaning };

    ghost field_count = { λ _. 1 };

    ghost fits_to = { λ _. fits_at 1 };

    ghost IsReady = { λ _ value row. ⊤ };

    ghost calls = { None };

    ghost few_fields = { λ _. evens_few };

    ghost swaps = { λ _. evens_swap };

    ghost takes_back = { λ _. evens_take_back };

    ghost ranks_within = { λ _. evens_within };

    fn copy(&self, _alloc: Global) -> Result<Evens, OutOfMemory> {
        Ok(Evens)
    }

    fn fits(&self, schema: &Schema) -> bool {
        match schema.as_slice().get(1) {
            Some(column) => matches!(column.kind, ColumnKind::Int | ColumnKind::Fixed(_)),
            None => false,
        }
    }

    fn fields(&self) -> u8 {
        1
    }

    fn initial(&self, _alloc: Global) -> Result<u64, OutOfMemory> {
        Ok(0)
    }

    fn prepare(&self, _value: &mut u64, _row: &Row) -> Result<(), OutOfMemory> {
        Ok(())
    }

    fn add<L: Ledger>(&self, value: &mut u64, row: &Row, steps: &mut Steps<L>) {
        steps.tick();
        *value += Evens::count_of(row);
    }

    fn remove<L: Ledger>(&self, value: &mut u64, row: &Row, steps: &mut Steps<L>) {
        steps.tick();
        *value -= Evens::count_of(row);
    }

    fn rank(&self, value: &u64, _field: u8) -> i128 {
        i128::from(*value)
    }
}
