//! The commands that ask: lists of records, entries of groups, and counts.
ghost use Rattle.std.specs.Prelude.{◌≡◌, ◌<◌, IfOk, OnOk, find, length};
ghost use Rattle.std.specs.List.{AllByRecursion};
ghost use Rattle.std.specs.Ordering.{is_eq};
ghost use Rattle.xf_base.specs.Key.{key_cmp};
ghost use Rattle.xf_model.specs.Replay.{accepted};
ghost use Rattle.xf_reply.specs.Put.{Puts};
ghost use Rattle.xf_reply.specs.Step.{HasText};
ghost use Rattle.xf_script.specs.declared.command.CommandForm.TheVariants.{Bottom, Events, GroupTop, Groups, Passing, Records, Size, Top, Value};
ghost use Rattle.xf_session.specs.Command.{group_entries, placed_at, records_at};
ghost use Rattle.xf_session.specs.Does.{Tells, outcome_within};
ghost use Rattle.xf_session.specs.Outcome.{KeyFields, Number, found_line, record_lines};

use crate::entries::tell_fields;
use crate::session::Session;
use std::sync::ledger::Ledger;
use xf_base::{Key, KeyForm, OutOfMemory, Steps, Text, TextList, key_of_word};
use xf_engine::{GroupId, ListRefusal};
use xf_reply::{
    Bytes, Refusal, Reply, put_entry, put_events, put_none, put_number_line, put_record,
};

impl Session {
    /// `top D K` and `top D K OFFSET`.
    pub(crate) fn top<L: Ledger>(
        &self,
        name: Text,
        count: u64,
        offset: Option<u64>,
        steps: &mut Steps<L>,
    ) -> Result<Reply, OutOfMemory>
        ensures answer { Tells (outcome_within self.now (Top name count offset)) result }
        ensures utf8 { IfOk result HasText }
    {
        let Some(id) = self.dimension(name.as_str()) else {
            return Ok(Reply::Refused(Refusal::NoDimension { name }));
        };
        match self
            .cross
            .top(id, count as usize, offset.unwrap_or(0) as usize, steps)
        {
            Ok(places) => self.listed(places.as_slice(), steps),
            Err(_) => Err(OutOfMemory),
        }
    }

    /// `bottom D K` and `bottom D K OFFSET`.
    pub(crate) fn bottom<L: Ledger>(
        &self,
        name: Text,
        count: u64,
        offset: Option<u64>,
        steps: &mut Steps<L>,
    ) -> Result<Reply, OutOfMemory>
        ensures answer { Tells (outcome_within self.now (Bottom name count offset)) result }
        ensures utf8 { IfOk result HasText }
    {
        let Some(id) = self.dimension(name.as_str()) else {
            return Ok(Reply::Refused(Refusal::NoDimension { name }));
        };
        match self
            .cross
            .bottom(id, count as usize, offset.unwrap_or(0) as usize, steps)
        {
            Ok(places) => self.listed(places.as_slice(), steps),
            Err(_) => Err(OutOfMemory),
        }
    }

    /// `records D*`.
    pub(crate) fn records<L: Ledger>(
        &self,
        names: TextList,
        steps: &mut Steps<L>,
    ) -> Result<Reply, OutOfMemory>
        ensures answer { Tells (outcome_within self.now (Records names)) result }
        ensures utf8 { IfOk result HasText }
    {
        let mut ids = Vec::new(self.alloc);
        for name in names.as_slice() {
            match self.dimension(name.as_str()) {
                Some(id) => ids.push(id)?,
                None => {
                    let name = name.copy(self.alloc)?;
                    return Ok(Reply::Refused(Refusal::NoDimension { name }));
                }
            }
        }
        match self.cross.all_filtered(ids.as_slice(), steps) {
            Ok(places) => self.listed(places.as_slice(), steps),
            Err(_) => Err(OutOfMemory),
        }
    }

    /// The records at places, as an answer.
    fn listed<L: Ledger>(
        &self,
        places: &[usize],
        steps: &mut Steps<L>,
    ) -> Result<Reply, OutOfMemory>
        requires { AllByRecursion (λ place. place < length self.now.cross.rows) places.now }
        ensures answer { Tells (accepted self.now (records_at self.now places.now)) result }
        ensures utf8 { IfOk result HasText }
    {
        let mut out = Vec::new(self.alloc);
        self.put_records(&mut out, places, steps)?;
        Ok(Reply::Answer(Bytes::from_vec(out)))
    }

    /// Appends the lines of the records at places. Where memory is refused a part of them may stand in `out`.
    fn put_records<L: Ledger>(
        &self,
        out: &mut Vec<u8>,
        places: &[usize],
        steps: &mut Steps<L>,
    ) -> Result<(), OutOfMemory>
        requires { AllByRecursion (λ place. place < length self.now.cross.rows) places.now }
        ensures { OnOk result (Puts out.old.items out.new.items (record_lines self.now.cross.columns (placed_at self.now.cross.rows places.now))) }
    {
        let columns = self.cross.schema().as_slice();
        let mut scratch = Vec::new(self.alloc);
        for place in places {
            let row = self.cross.row(*place, steps);
            put_record(out, &mut scratch, columns, *place as u64, row)?;
        }
        Ok(())
    }

    /// `groups G`.
    pub(crate) fn groups<L: Ledger>(
        &self,
        name: Text,
        steps: &mut Steps<L>,
    ) -> Result<Reply, OutOfMemory>
        ensures answer { Tells (outcome_within self.now (Groups name)) result }
        ensures utf8 { IfOk result HasText }
    {
        let Some(id) = self.group(name.as_str()) else {
            return Ok(Reply::Refused(Refusal::NoGroup { name }));
        };
        let form = self.group_form(id);
        let mut out = Vec::new(self.alloc);
        self.put_entries(&mut out, id, &form, steps)?;
        Ok(Reply::Answer(Bytes::from_vec(out)))
    }

    /// `grouptop G K`.
    pub(crate) fn group_top<L: Ledger>(
        &self,
        name: Text,
        count: u64,
        steps: &mut Steps<L>,
    ) -> Result<Reply, OutOfMemory>
        ensures answer { Tells (outcome_within self.now (GroupTop name count)) result }
        ensures utf8 { IfOk result HasText }
    {
        let Some(id) = self.group(name.as_str()) else {
            return Ok(Reply::Refused(Refusal::NoGroup { name }));
        };
        let form = self.group_form(id);
        let mut out = Vec::new(self.alloc);
        self.put_tops(&mut out, id, count as usize, &form, steps)?;
        Ok(Reply::Answer(Bytes::from_vec(out)))
    }

    /// `value G KEY`.
    pub(crate) fn value<L: Ledger>(
        &self,
        name: Text,
        word: &Text,
        steps: &mut Steps<L>,
    ) -> Result<Reply, OutOfMemory>
        ensures answer { Tells (outcome_within self.now (Value name word.now)) result }
        ensures utf8 { IfOk result HasText }
    {
        let Some(id) = self.group(name.as_str()) else {
            return Ok(Reply::Refused(Refusal::NoGroup { name }));
        };
        let form = self.group_form(id);
        let key = key_of_word(self.alloc, &form, word)?;
        let mut out = Vec::new(self.alloc);
        self.put_entry_of(&mut out, id, &form, &key, steps)?;
        Ok(Reply::Answer(Bytes::from_vec(out)))
    }

    /// Appends the line of the entry of a key, or that of none.
    fn put_entry_of<L: Ledger>(
        &self,
        out: &mut Vec<u8>,
        id: GroupId,
        form: &KeyForm,
        key: &Key,
        steps: &mut Steps<L>,
    ) -> Result<(), OutOfMemory>
        ensures { OnOk result (Puts out.old.items out.new.items (found_line form.now (find (λ (entry : KeyFields). is_eq (key_cmp entry.0 key.now)) (group_entries self.now id.0)))) }
    {
        let Some(reducer) = self.group_reducer(id) else {
            return put_none(out);
        };
        let Some(value) = self.group_value(id, key, steps) else {
            return put_none(out);
        };
        let mut fields = Vec::new(self.alloc);
        tell_fields(&mut fields, reducer, self.cross.schema(), value)?;
        put_entry(out, &mut Vec::new(self.alloc), form, key, fields.as_slice())
    }

    /// `size`.
    pub(crate) fn size(&self) -> Result<Reply, OutOfMemory>
        ensures answer { Tells (outcome_within self.now Size) result }
        ensures utf8 { IfOk result HasText }
    {
        self.number(self.cross.size())
    }

    /// `passing`.
    pub(crate) fn passing<L: Ledger>(&self, steps: &mut Steps<L>) -> Result<Reply, OutOfMemory>
        ensures answer { Tells (outcome_within self.now Passing) result }
        ensures utf8 { IfOk result HasText }
    {
        self.number(self.cross.passing_count(steps))
    }

    /// `events`.
    pub(crate) fn events(&self) -> Result<Reply, OutOfMemory>
        ensures answer { Tells (outcome_within self.now Events) result }
        ensures utf8 { IfOk result HasText }
    {
        let counts = self.cross.events();
        let mut out = Vec::new(self.alloc);
        put_events(&mut out, counts.added, counts.removed, counts.filtered)?;
        Ok(Reply::Answer(Bytes::from_vec(out)))
    }

    /// A number as an answer.
    fn number(&self, number: u64) -> Result<Reply, OutOfMemory>
        ensures answer { Tells (accepted self.now (Number number)) result }
        ensures utf8 { IfOk result HasText }
    {
        let mut out = Vec::new(self.alloc);
        put_number_line(&mut out, number)?;
        Ok(Reply::Answer(Bytes::from_vec(out)))
    }
}
