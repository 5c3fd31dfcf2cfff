//! A list that contracts see as the list of its items.
ghost use Rattle.xf_base.specs.Gone.{kept};
ghost use Rattle.std.specs.Prelude.{◌≡◌, ◌==◌, ◌≤◌, ◌↔◌, [], ◌∷◌, ◌++◌, length, IsNone, OnOk, OnErr, option_copied, slice_get};

use crate::gone::{Gone, compact};
use crate::out_of_memory::OutOfMemory;
use std::alloc::Global;
use std::marker::Model;

/// A growing list, seen by contracts as the list of its items. The lists of the product are aliases of it.
#[derive(Debug, Drop)]
pub struct ListOf<T> {
    items: Vec<T>,
}

impl<T> Model for ListOf<T> {
    ghost use Rattle.std.specs.Prelude.{List};

    ghost Value = { List T };

    ghost view = { λ list. list.items.items };
}

impl<T> ListOf<T> {
    /// An empty list, which takes no memory yet.
    pub fn new(alloc: Global) -> Self
        ensures { result ≡ [] }
    {
        ListOf {
            items: Vec::new(alloc),
        }
    }

    /// A vector's items as a list, without a copy.
    pub fn from_vec(items: Vec<T>) -> Self
        ensures { result ≡ items.items }
    {
        ListOf { items }
    }

    /// The items as a vector, without a copy.
    pub fn into_vec(self) -> Vec<T>
        ensures { result.items ≡ self }
    {
        let ListOf { items } = self;
        items
    }

    /// The number of items.
    pub fn len(&self) -> usize
        ensures { result ≡ length self.now }
    {
        self.items.len()
    }

    /// Whether there are no items.
    pub fn is_empty(&self) -> bool
        ensures { result ≡ (length self.now == 0) }
    {
        self.items.is_empty()
    }

    /// The item at a place from 0 on, or None past the last.
    pub fn at(&self, i: usize) -> Option<&T>
        ensures item { option_copied result ≡ slice_get self.now i }
        ensures none { IsNone result ↔ (length self.now ≤ i) }
    {
        self.items.get(i)
    }

    /// All items, to go over them without a look-up each.
    pub fn as_slice(&self) -> &[T]
        ensures { result.now ≡ self.now }
    {
        self.items.as_slice()
    }

    /// Puts the items of another list at the end, in one move.
    pub fn append(&mut self, other: ListOf<T>) -> Result<(), OutOfMemory>
    where
        T: Drop,
        ensures ok { OnOk result (self.new ≡ self.old ++ other) }
        ensures err { OnErr result (self.new ≡ self.old) }
    {
        let ListOf { mut items } = other;
        self.items.append(&mut items)?;
        Ok(())
    }
}

impl<T: Drop> ListOf<T> {
    /// Puts an item at the end. Without memory for it the item is dropped.
    pub fn push(&mut self, item: T) -> Result<(), OutOfMemory>
        ensures ok { OnOk result (self.new ≡ self.old ++ item ∷ []) }
        ensures err { OnErr result (self.new ≡ self.old) }
    {
        self.items.push(item)?;
        Ok(())
    }

    /// Keeps the items whose places are not removed, in order. It takes no memory.
    pub fn retain(&mut self, gone: &Gone)
        requires { length gone.now ≡ length self.old }
        ensures { self.new ≡ kept gone.now self.old }
    {
        let count = compact(self.items.as_mut_slice(), gone);
        self.items.truncate(count);
    }
}
