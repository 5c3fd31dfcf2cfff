//! The stock of predicates: what a session may name.
ghost use Rattle.std.specs.Prelude.{◌≡◌, IfOk, flat_map};
ghost use Rattle.std.specs.List.{list_any};
ghost use Rattle.xf_filter.specs.Filter.{first_other, item_holds, item_keys};
ghost use Rattle.xf_filter.specs.Stock.{begins_with, is_remainder};

use crate::item::Item;
use crate::predicate::Predicate;
use sqlite_items::{Boxed, Items};
use std::alloc::Global;
use xf_base::{Key, KeyKind, OutOfMemory, Text};

/// A predicate of the stock.
#[derive(Debug, Drop)]
pub enum StockPredicate {
    /// Yes where some item names the key.
    OneOf(Items<Item>),
    /// Yes for a text that begins with this one, and no for any other key.
    Prefix(Text),
    /// Yes for a number whose remainder by the first, from 0 on, is the second, and no for any other key. A first number
    /// below 1 says no to every key.
    Modulo(i64, i64),
    /// Yes where the other says no.
    Not(Boxed<StockPredicate>),
    /// Yes where both say yes.
    And(Boxed<StockPredicate>, Boxed<StockPredicate>),
    /// Yes where at least one of the two says yes.
    Or(Boxed<StockPredicate>, Boxed<StockPredicate>),
}

impl Predicate for StockPredicate {
    ghost use Rattle.xf_filter.specs.Stock.{stock_says, stock_keys};

    ghost says_to = { stock_says };

    ghost keys_in = { stock_keys };

    fn says(&self, key: &Key) -> bool {
        match self {
            StockPredicate::OneOf(items) => names(items.as_slice(), key),
            StockPredicate::Prefix(text) => begins_with(text, key),
            StockPredicate::Modulo(divisor, remainder) => is_remainder(*divisor, *remainder, key),
            StockPredicate::Not(inner) => !inner.get().says(key),
            StockPredicate::And(first, second) => first.get().says(key) && second.get().says(key),
            StockPredicate::Or(first, second) => first.get().says(key) || second.get().says(key),
        }
    }

    #[tactic(auto, using(crate::proofs::Misfits::first_other_append))]
    fn misfit(&self, kind: &KeyKind) -> Option<KeyKind> {
        match self {
            StockPredicate::OneOf(items) => first_misfit(items.as_slice(), kind),
            StockPredicate::Prefix(_) | StockPredicate::Modulo(_, _) => None,
            StockPredicate::Not(inner) => inner.get().misfit(kind),
            StockPredicate::And(first, second) => {
                first.get().misfit(kind).or(second.get().misfit(kind))
            }
            StockPredicate::Or(first, second) => {
                first.get().misfit(kind).or(second.get().misfit(kind))
            }
        }
    }

    fn copy(&self, alloc: Global) -> Result<StockPredicate, OutOfMemory> {
        Ok(match self {
            StockPredicate::OneOf(items) => {
                StockPredicate::OneOf(Items::from_vec(copy_items(alloc, items.as_slice())?))
            }
            StockPredicate::Prefix(text) => StockPredicate::Prefix(text.copy(alloc)?),
            StockPredicate::Modulo(divisor, remainder) => {
                StockPredicate::Modulo(*divisor, *remainder)
            }
            StockPredicate::Not(inner) => {
                StockPredicate::Not(Boxed::new(alloc, inner.get().copy(alloc)?)?)
            }
            StockPredicate::And(first, second) => StockPredicate::And(
                Boxed::new(alloc, first.get().copy(alloc)?)?,
                Boxed::new(alloc, second.get().copy(alloc)?)?,
            ),
            StockPredicate::Or(first, second) => StockPredicate::Or(
                Boxed::new(alloc, first.get().copy(alloc)?)?,
                Boxed::new(alloc, second.get().copy(alloc)?)?,
            ),
        })
    }
}

/// Whether one of some items names a key.
fn names(items: &[Item], key: &Key) -> bool
    ensures { result ≡ list_any (λ item. item_holds item key.now) items.now }
{
    items.iter().any(|item| item.holds(key))
}

/// Whether a key is a text that begins with another.
fn begins_with(text: &Text, key: &Key) -> bool
    ensures { result ≡ begins_with text.now key.now }
{
    match key {
        Key::Text(own) => own
            .as_str()
            .as_bytes()
            .starts_with(text.as_str().as_bytes()),
        Key::Num(_) | Key::Pair(_, _) => false,
    }
}

/// Whether a key is a number with a remainder by a divisor.
fn is_remainder(divisor: i64, remainder: i64, key: &Key) -> bool
    ensures { result ≡ is_remainder divisor remainder key.now }
{
    match key {
        Key::Num(number) => divisor >= 1 && number.rem_euclid(divisor) == remainder,
        Key::Text(_) | Key::Pair(_, _) => false,
    }
}

/// The kind of the first key of some items that is of another kind.
fn first_misfit(items: &[Item], kind: &KeyKind) -> Option<KeyKind>
    ensures { result ≡ first_other kind.now (flat_map item_keys items.now) }
{
    for item in items {
        if let Some(given) = item.misfit(kind) {
            return Some(given);
        }
    }
    None
}

/// The same items once more.
pub fn copy_items(alloc: Global, items: &[Item]) -> Result<Vec<Item>, OutOfMemory>
    ensures { IfOk result (λ copy. copy.items ≡ items.now) }
{
    let mut copies = Vec::with_capacity(alloc, items.len())?;
    for item in items {
        copies.push(item.copy(alloc)?)?;
    }
    Ok(copies)
}
