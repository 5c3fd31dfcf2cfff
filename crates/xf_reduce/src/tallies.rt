//! Numbers with how often each is there: what a spread keeps.
ghost use Rattle.std.specs.Prelude.{◌≡◌, ◌<◌, ◌^◌, [], pos, length, OnOk, Some};
ghost use Rattle.std.specs.BTreeMap.{insert_entry};
ghost use Rattle.std.specs.Map.{lookup};
ghost use Rattle.std.specs.Ordering.{int_cmp, is_eq};
ghost use Rattle.xf_reduce.specs.Stock.{number_in_place, numbers_field, with_number, without_number};
ghost use Rattle.xf_reduce.specs.Tallies.{HasTally, StaysEntered, numbers_in};

use std::alloc::Global;
use std::collections::BTreeMap;
use std::marker::Model;
use xf_base::OutOfMemory;

/// Numbers with how often each is there, seen by contracts as a list of both, ascending by number. A number that is
/// entered stays in the list, also where it is there 0 times, so that it comes and goes without memory.
#[derive(Drop)]
pub struct Tallies {
    /// How often each number that is entered is there, which may be 0 times.
    counts: BTreeMap<i64, u64>,
    /// How many numbers are there at least once.
    distinct: u64,
    /// How many numbers are there, each as often as it is.
    total: u64,
}

impl Model for Tallies {
    ghost use Rattle.std.specs.Prelude.{List, ℕ, ℤ};
    ghost use Rattle.xf_reduce.specs.Tallies.{AreTallies};

    ghost Value = { List (ℤ × ℕ) };

    ghost view = { λ tallies. tallies.counts.entries };

    ghost invariant = { λ tallies. AreTallies tallies.counts.entries tallies.distinct tallies.total };
}

impl Tallies {
    /// No numbers. It takes no memory yet.
    pub fn new(alloc: Global) -> Tallies
        ensures { result ≡ [] }
    {
        Tallies {
            counts: BTreeMap::new(alloc),
            distinct: 0,
            total: 0,
        }
    }

    /// Enters a number, 0 times where it is new.
    pub fn enter(&mut self, number: i64) -> Result<(), OutOfMemory>
        ensures entered { OnOk result (HasTally self.new number) }
        ensures numbers { numbers_in self.new ≡ numbers_in self.old }
        ensures kept { StaysEntered self.old self.new }
    {
        if !self.counts.contains_key(&number) {
            self.counts.insert(number, 0)?;
        }
        Ok(())
    }

    /// One more of a number that is entered, in logarithmic time. It takes no memory.
    pub fn add(&mut self, number: i64)
        requires entered { HasTally self.old number }
        requires few { length (numbers_in self.old) < 2 ^ 63 }
        ensures numbers { numbers_in self.new ≡ with_number number (numbers_in self.old) }
        ensures kept { StaysEntered self.old self.new }
    {
        let count = count_of(&self.counts, number);
        self.total += 1;
        recount(&mut self.counts, number, count + 1);
        if count == 0 {
            self.distinct += 1;
        }
    }

    /// One less of a number that is entered, and nothing where it is there 0 times, in logarithmic time. It takes no memory.
    pub fn remove(&mut self, number: i64)
        requires entered { HasTally self.old number }
        ensures numbers { numbers_in self.new ≡ without_number number (numbers_in self.old) }
        ensures kept { StaysEntered self.old self.new }
    {
        let count = count_of(&self.counts, number);
        if count == 0 {
            return;
        }
        self.total -= 1;
        recount(&mut self.counts, number, count - 1);
        if count == 1 {
            self.distinct -= 1;
        }
    }

    /// How many numbers differ.
    pub fn distinct(&self) -> u64
        ensures { pos result ≡ numbers_field (numbers_in self.now) 0 }
    {
        self.distinct
    }

    /// The least number, and 0 where there is none.
    pub fn least(&self) -> i64
        ensures { result ≡ numbers_field (numbers_in self.now) 1 }
    {
        self.at(0)
    }

    /// The greatest number, and 0 where there is none.
    pub fn greatest(&self) -> i64
        ensures { result ≡ numbers_field (numbers_in self.now) 2 }
    {
        self.at(self.total.saturating_sub(1))
    }

    /// The median, and 0 where there is no number. Of two in the middle it is the lower.
    pub fn median(&self) -> i64
        ensures { result ≡ numbers_field (numbers_in self.now) 3 }
    {
        self.at(self.total.saturating_sub(1) / 2)
    }

    /// The number at a place of the ascending list, and 0 where it ends before. It walks over the numbers that are
    /// entered before it.
    fn at(&self, place: u64) -> i64
        ensures { result ≡ number_in_place (numbers_in self.now) place }
    {
        let mut left = place;
        for (number, count) in &self.counts {
            if left < *count {
                return *number;
            }
            left -= *count;
        }
        0
    }
}

/// How often a number that is entered is there.
fn count_of(counts: &BTreeMap<i64, u64>, number: i64) -> u64
    requires { HasTally counts.now.entries number }
    ensures { lookup (λ own. is_eq (int_cmp number own)) counts.now.entries ≡ Some result }
{
    counts.get(&number).copied().unwrap_or(0)
}

/// Changes how often a number that is entered is there. It takes no memory.
fn recount(counts: &mut BTreeMap<i64, u64>, number: i64, count: u64)
    requires { HasTally counts.old.entries number }
    ensures entries { counts.new.entries ≡ insert_entry int_cmp counts.old.entries number count }
    ensures kept { StaysEntered counts.old.entries counts.new.entries }
{
    // The number is there, so its count is replaced and nothing grows.
    let _old = counts.insert(number, count);
}
