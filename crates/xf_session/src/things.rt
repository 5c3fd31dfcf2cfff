//! The commands that make dimensions, groups and wholes, order groups, and dispose of them.
ghost use Rattle.std.specs.Prelude.{◌≡◌, ◌⊎◌, ◌+◌, ◌<◌, None, Some, IfErr, IfOk, OnErr, OnOk, length, slice_get, true, unwrap_or};
ghost use Rattle.xf_access.specs.Stock.{fits_columns, keys_of_row};
ghost use Rattle.xf_columns.specs.Columns.{IsWidth};
ghost use Rattle.xf_engine.specs.Refusals.{dimension_refusal_of, group_refusal_of, whole_refusal_of};
ghost use Rattle.xf_engine.specs.State.{group_ids, is_taken};
ghost use Rattle.xf_engine.specs.declared.ids.GroupId.{GroupId};
ghost use Rattle.xf_group.specs.Order.{order_field};
ghost use Rattle.xf_model.specs.Replay.{state_after};
ghost use Rattle.xf_reduce.specs.StockReducer.{stock_fits};
ghost use Rattle.xf_script.specs.declared.command.CommandForm.TheVariants.{Dimension, DisposeDimension, DisposeGroup, DisposeWhole, Group, Order, Whole};
ghost use Rattle.xf_session.specs.Command.{group_field_count, live_groups, with_dimension, with_group, with_whole};
ghost use Rattle.xf_session.specs.Does.{Does, outcome_within};
ghost use Rattle.xf_session.specs.Outcome.{reply_of};
ghost use Rattle.xf_session.specs.Refused.{cause_of_dimension};
ghost use Rattle.xf_session.specs.State.{Name, named};

use crate::columns::{find_accessor, find_reducer};
use crate::names::Names;
use crate::naming::Naming;
use crate::session::{Session, StockCross};
use std::sync::ledger::Ledger;
use xf_access::{StockAccessor, StockRounding};
use xf_base::{OutOfMemory, Steps, Text};
use xf_columns::{AccessorWords, ReducerWords, RoundingWords, applies, rounding_of};
use xf_engine::{
    DimensionId, DimensionRefusal, DisposeRefusal, GroupId, GroupRefusal, WholeRefusal,
};
use xf_group::GroupOrder;
use xf_reduce::{Reducer, StockReducer};
use xf_reply::{Change, Refusal, Reply};

impl Session {
    /// `dimension D ACCESSOR`.
    pub(crate) fn add_dimension<L: Ledger>(
        &mut self,
        name: Text,
        words: AccessorWords,
        steps: &mut Steps<L>,
    ) -> Result<Reply, OutOfMemory>
        ensures { Does (outcome_within self.old (Dimension name words)) self.old self.new result }
    {
        if self.dimension(name.as_str()).is_some() {
            return Ok(Reply::Refused(Refusal::NameTaken { name }));
        }
        let accessor = match find_accessor(self.cross.schema(), words) {
            Ok(accessor) => accessor,
            Err(cause) => return Ok(Reply::Refused(cause)),
        };
        match self.push_dimension(&name, accessor, steps) {
            Ok(()) => Ok(Reply::Changed(Change::Plain)),
            Err(refusal) => refused_dimension(refusal),
        }
    }

    /// Adds a dimension with its name, or nothing where it is refused.
    pub(crate) fn push_dimension<L: Ledger>(
        &mut self,
        name: &Text,
        accessor: StockAccessor,
        steps: &mut Steps<L>,
    ) -> Result<(), DimensionRefusal>
        requires fits { fits_columns accessor self.old.cross.columns ≡ true }
        requires absent { named self.old.dimensions name.now ≡ None }
        ensures ok { OnOk result (self.new ≡ with_dimension self.old name.now accessor) }
        ensures accepted { OnOk result (dimension_refusal_of keys_of_row self.old.cross accessor ≡ None) }
        ensures refused { IfErr result (λ cause. (cause ≡ DimensionRefusal.OutOfMemory) ⊎ (dimension_refusal_of keys_of_row self.old.cross accessor ≡ Some cause)) }
        ensures err { OnErr result (self.new ≡ self.old) }
    {
        let form = accessor.form();
        // The name takes its memory first: to take a dimension away again takes memory too, and may fail.
        let unknown = Naming {
            id: DimensionId(0),
            form,
        };
        self.dimensions.push(self.alloc, name, unknown)?;
        match self.cross.add_dimension(accessor, steps) {
            Ok(id) => {
                self.dimensions.set_last(Naming { id, form });
                Ok(())
            }
            Err(refusal) => {
                self.dimensions.remove(name.as_str());
                Err(refusal)
            }
        }
    }

    /// `group G of D ROUNDING REDUCER`.
    pub(crate) fn add_group<L: Ledger>(
        &mut self,
        name: Text,
        dimension: Text,
        words: RoundingWords,
        reducer: ReducerWords,
        steps: &mut Steps<L>,
    ) -> Result<Reply, OutOfMemory>
        requires { IsWidth words }
        ensures { Does (outcome_within self.old (Group name dimension words reducer)) self.old self.new result }
    {
        if self.group(name.as_str()).is_some() {
            return Ok(Reply::Refused(Refusal::NameTaken { name }));
        }
        let Some(naming) = self.naming(&dimension) else {
            return Ok(Reply::Refused(Refusal::NoDimension { name: dimension }));
        };
        let rounding = rounding_of(words);
        if !applies(rounding, naming.form) {
            return Ok(Reply::Refused(Refusal::WrongRounding));
        }
        let reducer = match find_reducer(self.cross.schema(), reducer) {
            Ok(reducer) => reducer,
            Err(cause) => return Ok(Reply::Refused(cause)),
        };
        let _sound = self.is_sound();
        match self.push_group(&name, &dimension, naming, rounding, reducer, steps) {
            Ok(()) => Ok(Reply::Changed(Change::Plain)),
            Err(GroupRefusal::TooManyGroups { limit }) => {
                Ok(Reply::Refused(Refusal::TooManyGroups { limit }))
            }
            Err(GroupRefusal::OutOfMemory) => Err(OutOfMemory),
            // The dimension of a name is there.
            Err(GroupRefusal::NoDimension { .. }) => unreachable!(),
        }
    }

    /// Adds a group of a dimension, with its name, or nothing where it is refused. The name of the dimension is for the
    /// clauses alone.
    pub(crate) fn push_group<L: Ledger>(
        &mut self,
        name: &Text,
        dimension: &Text,
        naming: Naming,
        rounding: StockRounding,
        reducer: StockReducer,
        steps: &mut Steps<L>,
    ) -> Result<(), GroupRefusal>
        requires found { named self.old.dimensions dimension.now ≡ Some naming }
        requires absent { named self.old.groups name.now ≡ None }
        requires fits { stock_fits reducer self.old.cross.columns ≡ true }
        ensures ok { OnOk result (self.new ≡ with_group self.old name.now dimension.now rounding reducer) }
        ensures accepted { OnOk result (group_refusal_of self.old.cross naming.id.0 ≡ None) }
        ensures refused { IfErr result (λ cause. (cause ≡ GroupRefusal.OutOfMemory) ⊎ (group_refusal_of self.old.cross naming.id.0 ≡ Some cause)) }
        ensures err { OnErr result (self.new ≡ self.old) }
    {
        let _sound = self.cross.is_sound();
        let id = self.cross.add_group(naming.id, rounding, reducer, steps)?;
        if self.groups.push(self.alloc, name, id).is_err() {
            let _gone = self.cross.dispose_group(id);
            return Err(GroupRefusal::OutOfMemory);
        }
        Ok(())
    }

    /// `whole W REDUCER`.
    pub(crate) fn add_whole<L: Ledger>(
        &mut self,
        name: Text,
        reducer: ReducerWords,
        steps: &mut Steps<L>,
    ) -> Result<Reply, OutOfMemory>
        ensures { Does (outcome_within self.old (Whole name reducer)) self.old self.new result }
    {
        if self.whole(name.as_str()).is_some() {
            return Ok(Reply::Refused(Refusal::NameTaken { name }));
        }
        let reducer = match find_reducer(self.cross.schema(), reducer) {
            Ok(reducer) => reducer,
            Err(cause) => return Ok(Reply::Refused(cause)),
        };
        let _sound = self.is_sound();
        match self.push_whole(&name, reducer, steps) {
            Ok(()) => Ok(Reply::Changed(Change::Plain)),
            Err(WholeRefusal::TooManyGroups { limit }) => {
                Ok(Reply::Refused(Refusal::TooManyGroups { limit }))
            }
            Err(WholeRefusal::OutOfMemory) => Err(OutOfMemory),
        }
    }

    /// Adds a whole with its name, or nothing where it is refused.
    pub(crate) fn push_whole<L: Ledger>(
        &mut self,
        name: &Text,
        reducer: StockReducer,
        steps: &mut Steps<L>,
    ) -> Result<(), WholeRefusal>
        requires absent { named self.old.wholes name.now ≡ None }
        requires fits { stock_fits reducer self.old.cross.columns ≡ true }
        ensures ok { OnOk result (self.new ≡ with_whole self.old name.now reducer) }
        ensures accepted { OnOk result (whole_refusal_of self.old.cross ≡ None) }
        ensures refused { IfErr result (λ cause. (cause ≡ WholeRefusal.OutOfMemory) ⊎ (whole_refusal_of self.old.cross ≡ Some cause)) }
        ensures err { OnErr result (self.new ≡ self.old) }
    {
        let _sound = self.cross.is_sound();
        let id = self.cross.add_whole(reducer, steps)?;
        if self.wholes.push(self.alloc, name, id).is_err() {
            let _gone = self.cross.dispose_whole(id);
            return Err(WholeRefusal::OutOfMemory);
        }
        Ok(())
    }

    /// `order G natural` and `order G FIELD`.
    pub(crate) fn order(&mut self, name: Text, field: Option<u8>) -> Reply
        ensures reply { result ≡ reply_of (outcome_within self.old (Order name field)) }
        ensures state { self.new ≡ state_after self.old (outcome_within self.old (Order name field)) }
    {
        let Some(id) = self.group(name.as_str()) else {
            return Reply::Refused(Refusal::NoGroup { name });
        };
        let order = order_of(field);
        if order.field() >= self.field_count(id) {
            let number = u64::from(order.field());
            return Reply::Refused(Refusal::NoField { number });
        }
        let _found = self.cross.order_group(id, order);
        Reply::Changed(Change::Plain)
    }

    /// How many fields the reducer of a group has; none where no group has the id.
    fn field_count(&self, id: GroupId) -> u8
        ensures { result ≡ group_field_count self.now id.0 }
    {
        match self.cross.reducer(id) {
            Ok(reducer) => reducer.fields(),
            Err(_) => 0,
        }
    }

    /// `dispose dimension D`: its groups go too, with their names.
    pub(crate) fn dispose_dimension<L: Ledger>(
        &mut self,
        name: Text,
        steps: &mut Steps<L>,
    ) -> Result<Reply, OutOfMemory>
        ensures { Does (outcome_within self.old (DisposeDimension name)) self.old self.new result }
    {
        let Some(naming) = self.naming(&name) else {
            return Ok(Reply::Refused(Refusal::NoDimension { name }));
        };
        let _sound = self.cross.is_sound();
        let moved = match self.cross.dispose_dimension(naming.id, steps) {
            Ok(moved) => moved,
            Err(DisposeRefusal::OutOfMemory) => return Err(OutOfMemory),
            // The dimension of a name is there.
            Err(DisposeRefusal::NoDimension { .. }) => unreachable!(),
        };
        self.dimensions.remove(name.as_str());
        drop_names(&mut self.groups, &self.cross);
        Ok(Reply::Changed(Change::Moved(moved)))
    }

    /// `dispose group G`.
    pub(crate) fn dispose_group(&mut self, name: Text) -> Reply
        ensures reply { result ≡ reply_of (outcome_within self.old (DisposeGroup name)) }
        ensures state { self.new ≡ state_after self.old (outcome_within self.old (DisposeGroup name)) }
    {
        let Some(id) = self.group(name.as_str()) else {
            return Reply::Refused(Refusal::NoGroup { name });
        };
        let _sound = self.cross.is_sound();
        let _gone = self.cross.dispose_group(id);
        self.groups.remove(name.as_str());
        Reply::Changed(Change::Plain)
    }

    /// `dispose whole W`.
    pub(crate) fn dispose_whole(&mut self, name: Text) -> Reply
        ensures reply { result ≡ reply_of (outcome_within self.old (DisposeWhole name)) }
        ensures state { self.new ≡ state_after self.old (outcome_within self.old (DisposeWhole name)) }
    {
        let Some(id) = self.whole(name.as_str()) else {
            return Reply::Refused(Refusal::NoWhole { name });
        };
        let _sound = self.cross.is_sound();
        let _gone = self.cross.dispose_whole(id);
        self.wholes.remove(name.as_str());
        Reply::Changed(Change::Plain)
    }
}

/// The order by a field, or the natural one.
fn order_of(field: Option<u8>) -> GroupOrder
    ensures { order_field result ≡ unwrap_or field 0 }
{
    match field {
        Some(field) => GroupOrder::By(field),
        None => GroupOrder::Natural,
    }
}

/// Why a dimension was not added; want of memory is no refusal.
fn refused_dimension(refusal: DimensionRefusal) -> Result<Reply, OutOfMemory>
    ensures refused { IfOk result (λ reply. reply ≡ Reply.Refused (cause_of_dimension refusal)) }
    ensures memory { OnOk result (refusal ≡ DimensionRefusal.OutOfMemory → ⊥) }
{
    match refusal {
        DimensionRefusal::TooManyDimensions { limit } => {
            Ok(Reply::Refused(Refusal::TooManyDimensions { limit }))
        }
        DimensionRefusal::TooManyEntries { have, more, limit } => {
            Ok(Reply::Refused(Refusal::TooManyEntries { have, more, limit }))
        }
        DimensionRefusal::OutOfMemory => Err(OutOfMemory),
    }
}

/// Takes away the names of groups that are not live any more.
fn drop_names(groups: &mut Names<GroupId>, cross: &StockCross)
    ensures { groups.new ≡ live_groups cross.now groups.old }
{
    let mut place = 0;
    while place < groups.len() {
        if is_live_at(groups, place, cross) {
            place += 1;
        } else {
            groups.remove_at(place);
        }
    }
}

/// Whether the group that the name at a place stands for is live.
fn is_live_at(groups: &Names<GroupId>, place: usize, cross: &StockCross) -> bool
    ensures { (entry : Name × GroupId) → slice_get groups.now place ≡ Some entry → result ≡ is_taken (group_ids cross.now.groups) entry.1.0 }
{
    match groups.at(place) {
        Some((_, id)) => cross.group_dimension(*id).is_ok(),
        None => false,
    }
}
