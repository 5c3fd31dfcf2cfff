//! The entries of groups and the values of wholes, field by field.
ghost use Rattle.std.specs.Prelude.{◌≡◌, ◌++◌, IfSome, OnOk, length, option_and_then, option_map, true};
ghost use Rattle.xf_access.specs.Round.{rounded_key};
ghost use Rattle.xf_access.specs.Stock.{keys_of_row};
ghost use Rattle.xf_engine.specs.Answers.{entries_of, meaning_of_key};
ghost use Rattle.xf_engine.specs.State.{group_named, whole_named};
ghost use Rattle.xf_filter.specs.Stock.{stock_says};
ghost use Rattle.xf_reduce.specs.StockReducer.{stock_fits, stock_meaning, stock_of};
ghost use Rattle.xf_reply.specs.Answer.{field_words};
ghost use Rattle.xf_reply.specs.Put.{Puts};
ghost use Rattle.xf_session.specs.Command.{fields_of, group_entries, group_tops, whole_fields};
ghost use Rattle.xf_session.specs.Outcome.{entry_lines};

use crate::session::Session;
use std::sync::ledger::Ledger;
use xf_base::{Key, KeyForm, OutOfMemory, Schema, Steps};
use xf_engine::{GroupId, GroupListRefusal, WholeId};
use xf_reduce::{Reducer, SimpleValue, StockReducer};
use xf_reply::{Field, put_entry, put_fields};

impl Session {
    /// How many keys a group has; none where no group has the id.
    pub fn group_size(&self, id: GroupId) -> usize
        ensures { result ≡ length (group_entries self.now id.0) }
    {
        self.cross.group_size(id).unwrap_or(0)
    }

    /// The reducer of a group, which fits the columns; none where no group has the id.
    pub(crate) fn group_reducer(&self, id: GroupId) -> Option<&StockReducer>
        ensures reducer { option_map (λ own. own.now) result ≡ option_map (λ group. group.reducer) (group_named self.now.cross id.0) }
        ensures fits { IfSome result (λ own. stock_fits own.now self.now.cross.columns ≡ true) }
    {
        let _sound = self.cross.is_sound();
        match self.cross.reducer(id) {
            Ok(reducer) => Some(reducer),
            Err(_) => None,
        }
    }

    /// The value of a key of a group; none where the group does not have the key, or no group has the id.
    pub(crate) fn group_value<L: Ledger>(
        &self,
        id: GroupId,
        key: &Key,
        steps: &mut Steps<L>,
    ) -> Option<&(SimpleValue, SimpleValue)>
        ensures { option_map (λ value. stock_meaning value.now) result
            ≡ option_and_then (λ group. meaning_of_key (entries_of keys_of_row stock_says rounded_key stock_of self.now.cross group) key.now) (group_named self.now.cross id.0) }
    {
        match self.cross.group_value(id, key, steps) {
            Ok(found) => found,
            Err(_) => None,
        }
    }

    /// Appends the entries of a group, keys ascending: a line for each, with its key in this form and all fields of its
    /// reducer. Where memory is refused a part of them may stand in `out`.
    pub fn put_entries<L: Ledger>(
        &self,
        out: &mut Vec<u8>,
        id: GroupId,
        form: &KeyForm,
        steps: &mut Steps<L>,
    ) -> Result<(), OutOfMemory>
        ensures { OnOk result (Puts out.old.items out.new.items (entry_lines form.now (group_entries self.now id.0))) }
    {
        let Some(reducer) = self.group_reducer(id) else {
            return Ok(());
        };
        let (mut scratch, mut fields) = (Vec::new(self.alloc), Vec::new(self.alloc));
        for position in 0..self.group_size(id) {
            let Ok(entry) = self.cross.group_at(id, position, steps) else {
                // The group is live: its reducer was found.
                return Ok(());
            };
            tell_fields(&mut fields, reducer, self.cross.schema(), entry.value)?;
            put_entry(out, &mut scratch, form, entry.key, fields.as_slice())?;
        }
        Ok(())
    }

    /// Appends the first entries of a group by its order, in the same way.
    pub(crate) fn put_tops<L: Ledger>(
        &self,
        out: &mut Vec<u8>,
        id: GroupId,
        count: usize,
        form: &KeyForm,
        steps: &mut Steps<L>,
    ) -> Result<(), OutOfMemory>
        ensures { OnOk result (Puts out.old.items out.new.items (entry_lines form.now (group_tops self.now id.0 count))) }
    {
        let Some(reducer) = self.group_reducer(id) else {
            return Ok(());
        };
        let tops = match self.cross.group_top(id, count, 0, steps) {
            Ok(tops) => tops,
            Err(GroupListRefusal::OutOfMemory) => return Err(OutOfMemory),
            Err(GroupListRefusal::NoGroup { .. }) => return Ok(()),
        };
        let (mut scratch, mut fields) = (Vec::new(self.alloc), Vec::new(self.alloc));
        for top in tops.as_slice() {
            let Some(value) = self.group_value(id, &top.key, steps) else {
                // A key of the top is one of the group.
                return Ok(());
            };
            tell_fields(&mut fields, reducer, self.cross.schema(), value)?;
            put_entry(out, &mut scratch, form, &top.key, fields.as_slice())?;
        }
        Ok(())
    }

    /// The reducer of a whole, which fits the columns; none where no whole has the id.
    fn whole_reducer(&self, id: WholeId) -> Option<&StockReducer>
        ensures reducer { option_map (λ own. own.now) result ≡ option_map (λ whole. whole.reducer) (whole_named self.now.cross id.0) }
        ensures fits { IfSome result (λ own. stock_fits own.now self.now.cross.columns ≡ true) }
    {
        let _sound = self.cross.is_sound();
        match self.cross.whole_reducer(id) {
            Ok(reducer) => Some(reducer),
            Err(_) => None,
        }
    }

    /// Appends the fields of a whole, each behind a blank; none where no whole has the id.
    pub fn put_whole(&self, out: &mut Vec<u8>, id: WholeId) -> Result<(), OutOfMemory>
        ensures { OnOk result (out.new.items ≡ out.old.items ++ field_words (whole_fields self.now id.0)) }
    {
        let Some(reducer) = self.whole_reducer(id) else {
            return Ok(());
        };
        let Ok(value) = self.cross.whole(id) else {
            return Ok(());
        };
        let mut fields = Vec::new(self.alloc);
        tell_fields(&mut fields, reducer, self.cross.schema(), value)?;
        put_fields(out, fields.as_slice())
    }
}

/// Puts the fields of a value, each with its decimals, in place of those that stand in `fields`.
pub(crate) fn tell_fields(
    fields: &mut Vec<Field>,
    reducer: &StockReducer,
    schema: &Schema,
    value: &(SimpleValue, SimpleValue),
) -> Result<(), OutOfMemory>
    requires { stock_fits reducer.now schema.now ≡ true }
    ensures { OnOk result (fields.new.items ≡ fields_of schema.now reducer.now (stock_meaning value.now)) }
{
    fields.clear();
    for field in 0..reducer.fields() {
        fields.push(Field {
            number: reducer.rank(value, field),
            decimals: reducer.decimals(schema, field),
        })?;
    }
    Ok(())
}
