//! Groups that come and go, and their entries.
ghost use Rattle.std.specs.Prelude.{◌≡◌, ◌⊎◌, ◌<◌, ◌≤◌, true, IfErr, IfOk, IfSome, OnErr, OnOk, Some, None, flat_map, is_some, length, option_and_then, option_map, slice_get};
ghost use Rattle.std.specs.List.{AllByRecursion};
ghost use Rattle.std.specs.Option.{option_to_list};
ghost use Rattle.xf_engine.specs.Folding.{entry_numbers};

use crate::cross::Cross;
use crate::fold::Rows;
use crate::folding::{Counting, fold_group};
use crate::group_refusal::{GroupListRefusal, GroupRefusal};
use crate::grouping::{Grouping, free_group_id};
use crate::ids::{DimensionId, GroupId, NoGroup};
use crate::key_number::KeyNumber;
use std::alloc::Global;
use std::sync::ledger::Ledger;
use xf_access::{Accessor, Rounding};
use xf_base::{Key, OutOfMemory, RowList, Steps};
use xf_filter::Predicate;
use xf_group::{Group, GroupEntry, GroupOrder};
use xf_reduce::Reducer;

impl<A: Accessor, G: Rounding, P: Predicate, R: Reducer> Cross<A, G, P, R> {
    ghost use Rattle.xf_engine.specs.Answers.{all_of, entries_of, group_top_of, meaning_of_key};
    ghost use Rattle.xf_engine.specs.Changes.{with_group, with_order, without_group};
    ghost use Rattle.xf_engine.specs.Refusals.{dimension_id, group_refusal_of, no_group, unless_none};
    ghost use Rattle.xf_engine.specs.State.{IsFreeId, group_ids, group_named};
    ghost use Rattle.xf_group.specs.Group.{meanings};
    ghost use Rattle.xf_group.specs.Order.{order_field};

    /// Adds a group that keeps, by the rounded keys of a dimension, what a reducer keeps of the records. Its id is the least
    /// that no live group has, and its order the natural one.
    pub fn add_group<L: Ledger>(
        &mut self,
        dimension: DimensionId,
        rounding: G,
        reducer: R,
        steps: &mut Steps<L>,
    ) -> Result<GroupId, GroupRefusal>
        requires { R.fits_to reducer self.old.columns ≡ true }
        ensures ok { IfOk result (λ id. self.new ≡ with_group self.old id.0 dimension.0 rounding reducer) }
        ensures id { IfOk result (λ id. IsFreeId (group_ids self.old.groups) id.0) }
        ensures accepted { OnOk result (group_refusal_of self.old dimension.0 ≡ None) }
        ensures refused { IfErr result (λ cause. (cause ≡ GroupRefusal.OutOfMemory) ⊎ (group_refusal_of self.old dimension.0 ≡ Some cause)) }
        ensures err { OnErr result (self.new ≡ self.old) }
    {
        let Some(own) = self.place_of(dimension) else {
            return Err(GroupRefusal::NoDimension { id: dimension.0 });
        };
        let limit = self.table.limits().groups;
        if (self.groups.len() + self.wholes.len()) as u64 >= limit {
            return Err(GroupRefusal::TooManyGroups { limit });
        }
        let id = free_group_id(self.groups.as_slice());
        let none = RowList::new(self.alloc);
        let rows = Rows {
            held: &none,
            added: self.table.rows(steps),
        };
        let empty = Group::new(self.alloc, reducer);
        let group = fold_group(
            self.alloc,
            self.dimensions.as_slice(),
            own,
            &rounding,
            empty,
            &rows,
            &Counting::Passing,
            steps,
        )?;
        self.groups.push(Grouping {
            id,
            dimension,
            rounding,
            order: GroupOrder::Natural,
            group,
        })?;
        Ok(id)
    }

    /// Ranks the top of a group by another field.
    pub fn order_group(&mut self, id: GroupId, order: GroupOrder) -> Result<(), NoGroup>
        requires { IfSome (group_named self.old id.0) (λ group. order_field order < R.field_count group.reducer) }
        ensures answer { result ≡ unless_none (no_group id.0) (option_map (λ _. tt) (group_named self.old id.0)) }
        ensures state { self.new ≡ with_order self.old id.0 (order_field order) }
    {
        let Some(place) = self.group_place_of(id) else {
            return Err(NoGroup { id: id.0 });
        };
        self.groups[place].order = order;
        Ok(())
    }

    /// Takes a group away.
    pub fn dispose_group(&mut self, id: GroupId) -> Result<(), NoGroup>
        ensures answer { result ≡ unless_none (no_group id.0) (option_map (λ _. tt) (group_named self.old id.0)) }
        ensures state { self.new ≡ without_group self.old id.0 }
    {
        let Some(place) = self.group_place_of(id) else {
            return Err(NoGroup { id: id.0 });
        };
        self.groups.remove(place);
        Ok(())
    }

    /// The dimension of a group.
    pub fn group_dimension(&self, id: GroupId) -> Result<DimensionId, NoGroup>
        ensures { result ≡ unless_none (no_group id.0) (option_map dimension_id (group_named self.now id.0)) }
    {
        match self.group_place_of(id) {
            Some(place) => Ok(self.groups[place].dimension),
            None => Err(NoGroup { id: id.0 }),
        }
    }

    /// The reducer of a group.
    pub fn reducer(&self, id: GroupId) -> Result<&R, NoGroup>
        ensures reducer { IfOk result (λ own. option_map (λ group. group.reducer) (group_named self.now id.0) ≡ Some own.now) }
        ensures refused { IfErr result (λ cause. (cause ≡ no_group id.0) × (group_named self.now id.0 ≡ None)) }
    {
        Ok(self.group_of(id)?.reducer())
    }

    /// The number of entries of a group.
    pub fn group_size(&self, id: GroupId) -> Result<usize, NoGroup>
        ensures { result ≡ unless_none (no_group id.0) (option_map (λ group. length (entries_of A.keys_of P.says_to G.rounded R.folding self.now group)) (group_named self.now id.0)) }
    {
        Ok(self.group_of(id)?.size())
    }

    /// The entry at a position from 0 on, keys ascending.
    pub fn group_at<L: Ledger>(
        &self,
        id: GroupId,
        i: usize,
        steps: &mut Steps<L>,
    ) -> Result<GroupEntry<'_, R::Value>, NoGroup>
        requires { IfSome (group_named self.now id.0) (λ group. i < length (entries_of A.keys_of P.says_to G.rounded R.folding self.now group)) }
        ensures entry { IfOk result (λ entry. option_and_then (λ group. slice_get (entries_of A.keys_of P.says_to G.rounded R.folding self.now group) i) (group_named self.now id.0) ≡ Some (entry.key.now, R.meaning_of entry.value.now)) }
        ensures refused { IfErr result (λ cause. (cause ≡ no_group id.0) × (group_named self.now id.0 ≡ None)) }
    {
        Ok(self.group_of(id)?.at(i, steps))
    }

    /// The value of a key of a group, or None where the group does not have it.
    pub fn group_value<L: Ledger>(
        &self,
        id: GroupId,
        key: &Key,
        steps: &mut Steps<L>,
    ) -> Result<Option<&R::Value>, NoGroup>
        ensures value { IfOk result (λ found. option_map (λ value. R.meaning_of value.now) found ≡ option_and_then (λ group. meaning_of_key (entries_of A.keys_of P.says_to G.rounded R.folding self.now group) key.now) (group_named self.now id.0)) }
        ensures live { OnOk result (is_some (group_named self.now id.0) ≡ true) }
        ensures refused { IfErr result (λ cause. (cause ≡ no_group id.0) × (group_named self.now id.0 ≡ None)) }
    {
        Ok(self.group_of(id)?.value(key, steps))
    }

    /// All entries of a group, keys ascending, each with the number of a field.
    pub fn group_all<L: Ledger>(
        &self,
        id: GroupId,
        field: u8,
        steps: &mut Steps<L>,
    ) -> Result<Vec<KeyNumber>, GroupListRefusal>
        requires { IfSome (group_named self.now id.0) (λ group. field < R.field_count group.reducer) }
        ensures entries { IfOk result (λ v. all_of A.keys_of P.says_to G.rounded R.folding R.rank_of self.now id.0 field ≡ Some v.items) }
        ensures refused { IfErr result (λ cause. (cause ≡ GroupListRefusal.OutOfMemory)
            ⊎ ((cause ≡ GroupListRefusal.NoGroup id.0) × (group_named self.now id.0 ≡ None))) }
    {
        let Ok(group) = self.group_of(id) else {
            return Err(GroupListRefusal::NoGroup { id: id.0 });
        };
        Ok(all_numbers(self.alloc, group, field, steps)?)
    }

    /// The first entries of a group by its order, each with the number of a field: by the rank of the order's field, the
    /// greatest first, and where ranks are equal by ascending key.
    pub fn group_top<L: Ledger>(
        &self,
        id: GroupId,
        k: usize,
        field: u8,
        steps: &mut Steps<L>,
    ) -> Result<Vec<KeyNumber>, GroupListRefusal>
        requires { IfSome (group_named self.now id.0) (λ group. field < R.field_count group.reducer) }
        ensures entries { IfOk result (λ v. group_top_of A.keys_of P.says_to G.rounded R.folding R.rank_of self.now id.0 k field ≡ Some v.items) }
        ensures refused { IfErr result (λ cause. (cause ≡ GroupListRefusal.OutOfMemory)
            ⊎ ((cause ≡ GroupListRefusal.NoGroup id.0) × (group_named self.now id.0 ≡ None))) }
    {
        let Some(place) = self.group_place_of(id) else {
            return Err(GroupListRefusal::NoGroup { id: id.0 });
        };
        let Grouping { order, group, .. } = &self.groups[place];
        let positions = group.top(k, order.field(), steps)?;
        Ok(numbers_at(self.alloc, group, positions.as_slice(), field, steps)?)
    }

    /// The values of the group of an id.
    fn group_of(&self, id: GroupId) -> Result<&Group<R>, NoGroup>
        ensures reducer { IfOk result (λ group. option_map (λ own. own.reducer) (group_named self.now id.0) ≡ Some group.now.reducer) }
        ensures meanings { IfOk result (λ group. option_map (λ own. entries_of A.keys_of P.says_to G.rounded R.folding self.now own) (group_named self.now id.0) ≡ Some (meanings R.meaning_of group.now.entries)) }
        ensures refused { IfErr result (λ cause. (cause ≡ no_group id.0) × (group_named self.now id.0 ≡ None)) }
    {
        match self.group_place_of(id) {
            Some(place) => Ok(&self.groups[place].group),
            None => Err(NoGroup { id: id.0 }),
        }
    }
}

/// The keys of a group, each with the number of a field.
fn all_numbers<R: Reducer, L: Ledger>(
    alloc: Global,
    group: &Group<R>,
    field: u8,
    steps: &mut Steps<L>,
) -> Result<Vec<KeyNumber>, OutOfMemory>
    requires { field < R.field_count group.now.reducer }
    ensures { IfOk result (λ v. v.items ≡ entry_numbers (λ value. R.rank_of group.now.reducer (R.meaning_of value) field) group.now.entries) }
{
    let mut numbers = Vec::with_capacity(alloc, group.size())?;
    for position in 0..group.size() {
        numbers.push(number_at(alloc, group, position, field, steps)?)?;
    }
    Ok(numbers)
}

/// The keys at some positions of a group, each with the number of a field.
fn numbers_at<R: Reducer, L: Ledger>(
    alloc: Global,
    group: &Group<R>,
    positions: &[usize],
    field: u8,
    steps: &mut Steps<L>,
) -> Result<Vec<KeyNumber>, OutOfMemory>
    requires field { field < R.field_count group.now.reducer }
    requires positions { AllByRecursion (λ position. position < length group.now.entries) positions.now }
    ensures { IfOk result (λ v. v.items ≡ entry_numbers (λ value. R.rank_of group.now.reducer (R.meaning_of value) field) (flat_map (λ position. option_to_list (slice_get group.now.entries position)) positions.now)) }
{
    let mut numbers = Vec::with_capacity(alloc, positions.len())?;
    for position in positions {
        numbers.push(number_at(alloc, group, *position, field, steps)?)?;
    }
    Ok(numbers)
}

/// The key at a position of a group, with the number of a field.
fn number_at<R: Reducer, L: Ledger>(
    alloc: Global,
    group: &Group<R>,
    position: usize,
    field: u8,
    steps: &mut Steps<L>,
) -> Result<KeyNumber, OutOfMemory>
    requires field { field < R.field_count group.now.reducer }
    requires position { position < length group.now.entries }
    ensures { IfOk result (λ own. slice_get (entry_numbers (λ value. R.rank_of group.now.reducer (R.meaning_of value) field) group.now.entries) position ≡ Some own) }
{
    let entry = group.at(position, steps);
    Ok(KeyNumber {
        key: entry.key.copy(alloc)?,
        number: group.reducer().rank(entry.value, field),
    })
}
