//! The commands that set filters, and that remove records by them.
ghost use Rattle.std.specs.Prelude.{◌≡◌, IfSome, None, Some, option_map};
ghost use Rattle.xf_base.specs.Kind.{kind_of_key_form};
ghost use Rattle.xf_filter.specs.Filter.{filter_keys, first_other};
ghost use Rattle.xf_filter.specs.Stock.{stock_keys};
ghost use Rattle.xf_script.specs.declared.command.CommandForm.TheVariants.{Clear, ClearAll, Filter, RemovePassing, RemoveWhere, Toggle};
ghost use Rattle.xf_session.specs.Command.{filter_on};
ghost use Rattle.xf_session.specs.Does.{Does, outcome_within};
ghost use Rattle.xf_session.specs.Filtering.{removing, setting};
ghost use Rattle.xf_session.specs.State.{named};

use crate::naming::Naming;
use crate::session::{Session, StockFilter};
use std::sync::ledger::Ledger;
use xf_base::{OutOfMemory, Steps, Text};
use xf_engine::{FilterRefusal, RemoveRefusal};
use xf_filter::{RawFilter, RawItem, resolve, resolve_item, toggled};
use xf_reply::{Change, Refusal, Reply};

impl Session {
    /// `filter D FILTER`.
    pub(crate) fn filter<L: Ledger>(
        &mut self,
        name: Text,
        words: &RawFilter,
        steps: &mut Steps<L>,
    ) -> Result<Reply, OutOfMemory>
        ensures { Does (outcome_within self.old (Filter name words.now)) self.old self.new result }
    {
        let Some(naming) = self.naming(&name) else {
            return Ok(Reply::Refused(Refusal::NoDimension { name }));
        };
        let filter = resolve(self.alloc, &naming.form, words)?;
        self.set_filter(&name, naming, filter, steps)
    }

    /// `toggle D ITEM`. The filter that is set is of the dimension's kind, so that the toggled one is where the item is.
    pub(crate) fn toggle<L: Ledger>(
        &mut self,
        name: Text,
        words: &RawItem,
        steps: &mut Steps<L>,
    ) -> Result<Reply, OutOfMemory>
        ensures { Does (outcome_within self.old (Toggle name words.now)) self.old self.new result }
    {
        let Some((naming, old)) = self.filtered(&name) else {
            return Ok(Reply::Refused(Refusal::NoDimension { name }));
        };
        let item = resolve_item(self.alloc, &naming.form, words)?;
        let filter = toggled(self.alloc, old, item)?;
        self.set_filter(&name, naming, filter, steps)
    }

    /// `clear D`.
    pub(crate) fn clear<L: Ledger>(
        &mut self,
        name: Text,
        steps: &mut Steps<L>,
    ) -> Result<Reply, OutOfMemory>
        ensures { Does (outcome_within self.old (Clear name)) self.old self.new result }
    {
        let Some(naming) = self.naming(&name) else {
            return Ok(Reply::Refused(Refusal::NoDimension { name }));
        };
        self.set_filter(&name, naming, StockFilter::All, steps)
    }

    /// `clearall`.
    pub(crate) fn clear_all<L: Ledger>(
        &mut self,
        steps: &mut Steps<L>,
    ) -> Result<Reply, OutOfMemory>
        ensures { Does (outcome_within self.old ClearAll) self.old self.new result }
    {
        let moved = self.cross.clear_all(steps)?;
        Ok(Reply::Changed(Change::Moved(moved)))
    }

    /// Sets a filter on the dimension of a name, or refuses it where a key of it is of another kind.
    fn set_filter<L: Ledger>(
        &mut self,
        name: &Text,
        naming: Naming,
        filter: StockFilter,
        steps: &mut Steps<L>,
    ) -> Result<Reply, OutOfMemory>
        requires { named self.old.dimensions name.now ≡ Some naming }
        ensures { Does (setting self.old name.now filter) self.old self.new result }
    {
        let _sound = self.cross.is_sound();
        match self.cross.set_filter(naming.id, filter, steps) {
            Ok(moved) => Ok(Reply::Changed(Change::Moved(moved))),
            Err(FilterRefusal::WrongKind { wanted, given }) => {
                Ok(Reply::Refused(Refusal::WrongKind { wanted, given }))
            }
            Err(FilterRefusal::OutOfMemory) => Err(OutOfMemory),
            // The dimension of a name is there.
            Err(FilterRefusal::NoDimension { .. }) => unreachable!(),
        }
    }

    /// `remove passing`.
    pub(crate) fn remove_passing<L: Ledger>(
        &mut self,
        steps: &mut Steps<L>,
    ) -> Result<Reply, OutOfMemory>
        ensures { Does (outcome_within self.old RemovePassing) self.old self.new result }
    {
        let removed = self.cross.remove_passing(steps)?;
        Ok(Reply::Changed(Change::Removed(removed)))
    }

    /// `remove where D FILTER`.
    pub(crate) fn remove_where<L: Ledger>(
        &mut self,
        name: Text,
        words: &RawFilter,
        steps: &mut Steps<L>,
    ) -> Result<Reply, OutOfMemory>
        ensures { Does (outcome_within self.old (RemoveWhere name words.now)) self.old self.new result }
    {
        let Some(naming) = self.naming(&name) else {
            return Ok(Reply::Refused(Refusal::NoDimension { name }));
        };
        let filter = resolve(self.alloc, &naming.form, words)?;
        self.remove_under(&name, naming, &filter, steps)
    }

    /// Removes the records that pass the dimension of a name under a filter, or refuses that where a key of the filter is
    /// of another kind.
    fn remove_under<L: Ledger>(
        &mut self,
        name: &Text,
        naming: Naming,
        filter: &StockFilter,
        steps: &mut Steps<L>,
    ) -> Result<Reply, OutOfMemory>
        requires { named self.old.dimensions name.now ≡ Some naming }
        ensures { Does (removing self.old name.now filter.now) self.old self.new result }
    {
        let _sound = self.cross.is_sound();
        match self.cross.remove_where(naming.id, filter, steps) {
            Ok(removed) => Ok(Reply::Changed(Change::Removed(removed))),
            Err(RemoveRefusal::WrongKind { wanted, given }) => {
                Ok(Reply::Refused(Refusal::WrongKind { wanted, given }))
            }
            Err(RemoveRefusal::OutOfMemory) => Err(OutOfMemory),
            // The dimension of a name is there.
            Err(RemoveRefusal::NoDimension { .. }) => unreachable!(),
        }
    }

    /// What the name of a dimension stands for, and the filter that is set on it, whose keys are of the dimension's kind.
    fn filtered(&self, name: &Text) -> Option<(Naming, &StockFilter)>
        ensures naming { option_map (λ at. at.0) result ≡ named self.now.dimensions name.now }
        ensures filter { IfSome result (λ at. at.1.now ≡ filter_on self.now name.now) }
        ensures kind { IfSome result (λ at. first_other (kind_of_key_form at.0.form) (filter_keys stock_keys at.1.now) ≡ None) }
    {
        let naming = self.naming(name)?;
        let _sound = self.cross.is_sound();
        match self.cross.filter(naming.id) {
            Ok(filter) => Some((naming, filter)),
            // The dimension of a name is there.
            Err(_) => unreachable!(),
        }
    }

    /// What the name of a dimension stands for.
    pub(crate) fn naming(&self, name: &Text) -> Option<Naming>
        ensures { result ≡ named self.now.dimensions name.now }
    {
        self.dimensions.get(name.as_str()).copied()
    }
}
