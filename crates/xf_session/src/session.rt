//! A session: a crossfilter whose dimensions, groups and wholes have names.
ghost use Rattle.std.specs.Prelude.{◌≡◌, None, length, option_map, slice_get, true};
ghost use Rattle.xf_access.specs.Stock.{fits_columns, keys_of_row};
ghost use Rattle.xf_engine.specs.State.{IsState};
ghost use Rattle.xf_engine.specs.declared.ids.DimensionId.{DimensionId};
ghost use Rattle.xf_filter.specs.Stock.{stock_keys};
ghost use Rattle.xf_reduce.specs.StockReducer.{stock_field_count, stock_fits};
ghost use Rattle.xf_session.specs.State.{IsSession, Name, kind_of, named};
ghost use Rattle.xf_session.specs.Command.{form_named, group_form};

use crate::names::Names;
use crate::naming::Naming;
use std::alloc::Global;
use std::marker::Model;
use xf_access::{StockAccessor, StockRounding};
use xf_base::{AtomForm, KeyForm};
use xf_board::Board;
use xf_engine::{Cross, DimensionId, GroupId, WholeId};
use xf_filter::{Filter, StockPredicate};
use xf_reduce::StockReducer;

/// A crossfilter over the stock of accessors, roundings, predicates and reducers.
pub type StockCross = Cross<StockAccessor, StockRounding, StockPredicate, StockReducer>;

/// A filter whose predicates are those of the stock.
pub type StockFilter = Filter<StockPredicate>;

/// A crossfilter, the names of its dimensions, groups and wholes, and the board that it began with.
#[derive(Drop)]
pub struct Session {
    pub(crate) alloc: Global,
    pub(crate) board: Board,
    pub(crate) cross: StockCross,
    pub(crate) dimensions: Names<Naming>,
    pub(crate) groups: Names<GroupId>,
    pub(crate) wholes: Names<WholeId>,
}

impl Model for Session {
    ghost use Rattle.std.specs.Coded.{codes};
    ghost use Rattle.xf_filter.specs.contracts.stock_predicate.StockPredicate as e;
    ghost use Rattle.xf_session.specs.State.{IsSession, Session as State, names_in, session_of};

    ghost Value = { State };

    ghost coded = { Prim.hlevel (codes, e.the_row.coded) };

    ghost view = { λ session. session_of session.board session.cross session.dimensions session.groups session.wholes };

    ghost invariant = { λ session. IsSession (session_of session.board session.cross session.dimensions session.groups session.wholes) };
}

impl Session {
    /// Lends the board that it began with. No line changes it.
    pub fn board(&self) -> &Board
        ensures { result.now ≡ self.now.board }
    {
        &self.board
    }

    /// Lends the crossfilter.
    pub fn cross(&self) -> &StockCross
        ensures { result.now ≡ self.now.cross }
    {
        &self.cross
    }

    /// The id of the dimension of a name.
    pub fn dimension(&self, name: &str) -> Option<DimensionId>
        ensures { result ≡ option_map (λ naming. naming.id) (named self.now.dimensions name.now) }
    {
        match self.dimensions.get(name) {
            Some(naming) => Some(naming.id),
            None => None,
        }
    }

    /// The id of the group of a name.
    pub fn group(&self, name: &str) -> Option<GroupId>
        ensures { result ≡ named self.now.groups name.now }
    {
        self.groups.get(name).copied()
    }

    /// The id of the whole of a name.
    pub fn whole(&self, name: &str) -> Option<WholeId>
        ensures { result ≡ named self.now.wholes name.now }
    {
        self.wholes.get(name).copied()
    }

    /// The dimension at a place in order of creation, from 0 on: its name and its id.
    pub fn dimension_at(&self, place: usize) -> Option<(&str, DimensionId)>
        ensures { option_map {U = Name × DimensionId} (λ at. (at.0.now, at.1)) result
            ≡ option_map (λ entry. (entry.0, entry.1.id)) (slice_get self.now.dimensions place) }
    {
        match self.dimensions.at(place) {
            Some((name, naming)) => Some((name, naming.id)),
            None => None,
        }
    }

    /// The group at a place in order of creation, from 0 on: its name and its id.
    pub fn group_at(&self, place: usize) -> Option<(&str, GroupId)>
        ensures { option_map (λ at. (at.0.now, at.1)) result ≡ slice_get self.now.groups place }
    {
        match self.groups.at(place) {
            Some((name, id)) => Some((name, *id)),
            None => None,
        }
    }

    /// The whole at a place in order of creation, from 0 on: its name and its id.
    pub fn whole_at(&self, place: usize) -> Option<(&str, WholeId)>
        ensures { option_map (λ at. (at.0.now, at.1)) result ≡ slice_get self.now.wholes place }
    {
        match self.wholes.at(place) {
            Some((name, id)) => Some((name, *id)),
            None => None,
        }
    }

    /// How many groups there are.
    pub fn group_count(&self) -> usize
        ensures { result ≡ length self.now.groups }
    {
        self.groups.len()
    }

    /// How many wholes there are.
    pub fn whole_count(&self) -> usize
        ensures { result ≡ length self.now.wholes }
    {
        self.wholes.len()
    }

    /// How the keys of a dimension are written.
    pub fn form(&self, id: DimensionId) -> Option<KeyForm>
        ensures { result ≡ form_named self.now id.0 }
    {
        for place in 0..self.dimensions.len() {
            let (_, naming) = self.dimensions.at(place)?;
            if naming.id == id {
                return Some(naming.form);
            }
        }
        None
    }

    /// How the keys of a group are written: as those of its dimension. As texts where no group has the id.
    pub fn group_form(&self, id: GroupId) -> KeyForm
        ensures { result ≡ group_form self.now id.0 }
    {
        match self.cross.group_dimension(id) {
            Ok(dimension) => self.form(dimension).unwrap_or(KeyForm::One(AtomForm::Text)),
            Err(_) => KeyForm::One(AtomForm::Text),
        }
    }

    /// True of every session: the clause tells a proof what each of them meets.
    pub fn is_sound(&self) -> bool
        ensures answer { result ≡ true }
        ensures names { IsSession self.now }
        ensures cross { IsState keys_of_row fits_columns kind_of stock_keys stock_fits stock_field_count self.now.cross }
    {
        self.cross.is_sound()
    }
}
