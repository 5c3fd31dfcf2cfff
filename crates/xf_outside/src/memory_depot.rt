//! A depot in memory.
ghost use Rattle.std.specs.Prelude.{◌≡◌, ℕ, ◌+◌, ◌<◌, ◌≤◌, ◌↔◌, [], List, length, Option, Some, option_copied, Contains, IfOk, IfSome, IsSomeAnd, IsErrOf, IsOkUnless, IfErr};
ghost use Rattle.std.specs.FinMap as map;
ghost use Rattle.xf_outside.specs.Count.{FaultsAfterFetch, MissesAfterFetch, Rose, count_after};
ghost use Rattle.xf_outside.specs.Shelf.{entries_of, file_map};

use crate::depot::{Depot, FetchFault};
use std::alloc::Global;
use std::marker::Model;
use xf_base::Text;

/// A depot whose files are in memory, and which fails at the calls that it was told to fail at.
#[derive(Debug, Drop)]
pub struct MemoryDepot {
    files: Vec<(Text, Vec<u8>)>,
    failing: Vec<u64>,
    calls: u64,
    faults: u64,
    misses: u64,
    taken: u64,
}

impl Model for MemoryDepot {
    ghost use Rattle.xf_outside.specs.Shelf.{Shelf, entries_of};

    ghost Value = { Shelf };

    ghost view = { λ depot. record {
      files = entries_of depot.files.items;
      failing = depot.failing.items;
      calls = depot.calls;
      faults = depot.faults;
      misses = depot.misses;
      taken = depot.taken;
    } };
}

impl MemoryDepot {
    /// A depot of these files. Where a name stands twice the first file counts. The fetch calls whose numbers, from 1
    /// on, are among `failing` fail.
    pub fn new(files: Vec<(Text, Vec<u8>)>, failing: Vec<u64>) -> MemoryDepot
        ensures { result ≡ record {
          files = entries_of files.items;
          failing = failing.items;
          calls = 0;
          faults = 0;
          misses = 0;
          taken = 0;
        } }
    {
        MemoryDepot {
            files,
            failing,
            calls: 0,
            faults: 0,
            misses: 0,
            taken: 0,
        }
    }
}

impl Depot for MemoryDepot {
    ghost use Rattle.xf_outside.specs.Shelf.{after_fault, shelf_account};

    ghost account = { shelf_account };

    fn fetch(&mut self, alloc: Global, name: &str, limit: u64) -> Result<Vec<u8>, FetchFault>
        ensures tells { self.new.files ≡ self.old.files }
        ensures taken_stay { self.old.taken ≤ self.new.taken }
        ensures faults { FaultsAfterFetch result self.old.faults self.new.faults }
        ensures misses { MissesAfterFetch result self.old.misses self.new.misses }

        ensures fetched { IfOk result (λ bytes. (length bytes.items ≤ limit)
            × (map.get (file_map self.old.files) name.now ≡ Some bytes.items)) }
        ensures absent { IsErrOf result FetchFault.Absent → Rose self.old.misses self.new.misses 1
            × (map.get (file_map self.old.files) name.now ≡ None) }
        ensures too_long { IsErrOf result FetchFault.TooLong → Rose self.old.taken self.new.taken (limit + 1)
            × IsSomeAnd (map.get (file_map self.old.files) name.now) (λ bytes. limit < length bytes) }

        // The calls fail that were told to, and no others.
        ensures failing { IsErrOf result FetchFault.Failed ↔ Contains self.old.failing (count_after self.old.calls 1) }
        ensures never_fails { self.old.failing ≡ [] → self.new.faults ≡ self.old.faults }
        ensures found { IsSomeAnd (map.get (file_map self.old.files) name.now) (λ bytes. length bytes ≤ limit)
            → ¬ (Contains self.old.failing (count_after self.old.calls 1)) → IsOkUnless result FetchFault.OutOfMemory }

        // What each outcome changes.
        ensures ok { IfOk result (λ bytes. self.new ≡ record self.old {
          calls = count_after self.old.calls 1;
          taken = count_after self.old.taken (length bytes.items);
        }) }
        ensures err { IfErr result (λ fault. self.new ≡ after_fault self.old limit fault) }
    {
        self.calls = self.calls.saturating_add(1);
        if self.failing.contains(&self.calls) {
            self.faults = self.faults.saturating_add(1);
            return Err(FetchFault::Failed);
        }
        let Some(bytes) = find_file(self.files.as_slice(), name) else {
            self.misses = self.misses.saturating_add(1);
            return Err(FetchFault::Absent);
        };
        let length = bytes.len() as u64;
        if length > limit {
            self.taken = self.taken.saturating_add(limit.saturating_add(1));
            return Err(FetchFault::TooLong);
        }
        let copy = Vec::from_slice(alloc, bytes)?;
        self.taken = self.taken.saturating_add(length);
        Ok(copy)
    }
}

/// The bytes of the first file of this name.
fn find_file<'a>(files: &'a [(Text, Vec<u8>)], name: &str) -> Option<&'a [u8]>
    ensures { option_copied result ≡ map.get (file_map (entries_of files.now)) name.now }
{
    for (own, bytes) in files {
        if own.as_str() == name {
            return Some(bytes.as_slice());
        }
    }
    None
}
