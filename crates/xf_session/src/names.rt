//! Names in order of creation.
ghost use Rattle.std.specs.Prelude.{◌≡◌, ◌<◌, ◌∷◌, [], ◌++◌, List, None, OnErr, OnOk, length, option_copied, option_map, remove, slice_get, true};
ghost use Rattle.xf_session.specs.Command.{without_name};
ghost use Rattle.xf_session.specs.State.{AreDistinctNames, Name, named, names_in};

use indexmap::IndexMap;
use std::alloc::Global;
use std::marker::Model;
use xf_base::{OutOfMemory, Text};

/// Names of one sort, each with what it stands for, in order of creation. No name stands twice.
#[derive(Drop)]
pub struct Names<T> {
    by_name: IndexMap<String, T>,
}

impl<T> Model for Names<T> {
    ghost use Rattle.std.specs.Prelude.{List, ℕ, map, string_bytes};
    ghost use Rattle.std.specs.List.{IsDistinct};
    ghost use Rattle.std.specs.Map.{keys_of};
    ghost use Rattle.std.specs.String.{string_eq};

    ghost Value = { List (List ℕ × T) };

    ghost view = { λ names. map (λ entry. (string_bytes entry.0, entry.1)) names.by_name.entries };

    ghost invariant = { λ names. IsDistinct string_eq (keys_of names.by_name.entries) };
}

impl<T: Drop> Names<T> {
    /// No names, which take no memory yet.
    pub fn new(alloc: Global) -> Names<T>
        ensures { result ≡ [] }
    {
        Names {
            by_name: IndexMap::new(alloc),
        }
    }

    /// How many names there are.
    pub fn len(&self) -> usize
        ensures { result ≡ length self.now }
    {
        self.by_name.len()
    }

    /// What a name stands for.
    pub fn get(&self, name: &str) -> Option<&T>
        ensures { option_copied result ≡ named self.now name.now }
    {
        self.by_name.get(name)
    }

    /// The name at a place, from 0 on, and what it stands for.
    pub fn at(&self, place: usize) -> Option<(&str, &T)>
        ensures { option_map (λ entry. (entry.0.now, entry.1.now)) result ≡ slice_get self.now place }
    {
        match self.by_name.get_index(place) {
            Some((name, value)) => Some((name.as_str(), value)),
            None => None,
        }
    }

    /// Puts a new name last.
    pub fn push(&mut self, alloc: Global, name: &Text, value: T) -> Result<(), OutOfMemory>
        requires { named self.old name.now ≡ None }
        ensures ok { OnOk result (self.new ≡ self.old ++ (name.now, value) ∷ []) }
        ensures err { OnErr result (self.new ≡ self.old) }
    {
        let name = String::from_str(alloc, name.as_str())?;
        self.by_name.insert(name, value)?;
        Ok(())
    }

    /// Lets the last name stand for another value. Takes no memory.
    pub fn set_last(&mut self, value: T)
        ensures { (names : List (Name × T)) → (name : Name) → (old : T) → self.old ≡ names ++ (name, old) ∷ [] → self.new ≡ names ++ (name, value) ∷ [] }
    {
        let place = self.by_name.len().saturating_sub(1);
        if let Some(last) = self.by_name.get_index_mut(place) {
            *last = value;
        }
    }

    /// Takes a name away.
    pub fn remove(&mut self, name: &str)
        ensures { self.new ≡ without_name name.now self.old }
    {
        self.by_name.shift_remove(name);
    }

    /// Takes the name at a place away.
    pub fn remove_at(&mut self, place: usize)
        requires { place < length self.old }
        ensures { self.new ≡ remove self.old place }
    {
        self.by_name.shift_remove_index(place);
    }

    /// True of all names: the clause tells a proof that no name stands twice.
    pub fn are_distinct(&self) -> bool
        ensures answer { result ≡ true }
        ensures distinct { AreDistinctNames (names_in self.now) }
    {
        let _ = &self.by_name;
        true
    }
}
