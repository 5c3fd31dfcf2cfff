//! The crossfilter. What is kept: the records, in the table, the keys of each record in each dimension, the filter that
//! is set on each dimension, the values of groups and wholes, and how often records and filters were changed. After each
//! change of records or filters all values are folded anew, and put in place when all are made. What is computed each time
//! that it is asked for: which records pass, what a new filter moves, and the records with the least and the greatest keys.
ghost use Rattle.std.specs.Prelude.{◌≡◌, ◌<◌, ◌≤◌, [], Some, length, slice_get, true};
ghost use Rattle.xf_table.specs.Table.{text_of_rows};

mod dimensions;
mod filters;
mod groups;
mod lists;
mod records;
mod removals;
mod wholes;

use crate::dimension::{Dimension, dimension_place};
use crate::events::Events;
use crate::grouping::{Grouping, group_place};
use crate::ids::{DimensionId, GroupId, WholeId};
use crate::whole::{Whole, whole_place};
use std::alloc::Global;
use std::marker::Model;
use std::sync::ledger::Ledger;
use xf_access::{Accessor, Rounding};
use xf_base::{Limits, Row, Schema, Steps};
use xf_filter::Predicate;
use xf_group::Group;
use xf_reduce::Reducer;
use xf_table::Table;

/// The records that are present, the live dimensions with their filters, the live groups and wholes with their values, and
/// how often records and filters were changed.
#[derive(Drop)]
pub struct Cross<A: Accessor, G: Rounding, P: Predicate, R: Reducer> {
    alloc: Global,
    table: Table,
    dimensions: Vec<Dimension<A, P>>,
    groups: Vec<Grouping<G, Group<R>>>,
    wholes: Vec<Whole<R, R::Value>>,
    events: Events,
}

impl<A: Accessor, G: Rounding, P: Predicate, R: Reducer> Model for Cross<A, G, P, R> {
    ghost use Rattle.xf_engine.specs.State.{State};

    ghost Value = { State A G P R };

    ghost use Rattle.xf_engine.specs.Held.{IsCross, state_of};

    ghost view = { λ cross. state_of cross.table cross.dimensions.items cross.groups.items cross.wholes.items cross.events };

    ghost invariant = { λ cross. IsCross A.keys_of A.fits_to A.kind_of P.says_to P.keys_in G.rounded R.fits_to R.field_count R.meaning_of R.folding cross.table cross.dimensions.items cross.groups.items cross.wholes.items cross.events };
}

impl<A: Accessor, G: Rounding, P: Predicate, R: Reducer> Cross<A, G, P, R> {
    ghost use Rattle.xf_engine.specs.State.{IsState, dimension_place, group_place, no_events, whole_place};

    /// A crossfilter without records, dimensions, groups and wholes. It takes no memory yet.
    pub fn new(alloc: Global, schema: Schema, limits: Limits) -> Cross<A, G, P, R>
        ensures columns { result.columns ≡ schema }
        ensures limits { result.limits ≡ limits }
        ensures rows { result.rows ≡ [] }
        ensures dimensions { result.dimensions ≡ [] }
        ensures groups { result.groups ≡ [] }
        ensures wholes { result.wholes ≡ [] }
        ensures events { result.events ≡ no_events }
    {
        let _sound = limits.is_sound();
        Cross {
            alloc,
            table: Table::new(alloc, schema, limits),
            dimensions: Vec::new(alloc),
            groups: Vec::new(alloc),
            wholes: Vec::new(alloc),
            events: Events {
                added: 0,
                removed: 0,
                filtered: 0,
            },
        }
    }

    /// The columns of the records.
    pub fn schema(&self) -> &Schema
        ensures { result.now ≡ self.now.columns }
    {
        self.table.schema()
    }

    /// How much may be held.
    pub fn limits(&self) -> &Limits
        ensures { result.now ≡ self.now.limits }
    {
        self.table.limits()
    }

    /// The number of records.
    pub fn size(&self) -> u64
        ensures { result ≡ length self.now.rows }
    {
        self.table.len() as u64
    }

    /// The record at a place from 0 on.
    pub fn row<L: Ledger>(&self, place: usize, steps: &mut Steps<L>) -> &Row
        requires { place < length self.now.rows }
        ensures { Some result.now ≡ slice_get self.now.rows place }
    {
        self.table.row(place, steps)
    }

    /// How often records and filters were changed.
    pub fn events(&self) -> Events
        ensures { result ≡ self.now.events }
    {
        self.events
    }

    /// The place of the dimension of an id, among those that are live.
    fn place_of(&self, id: DimensionId) -> Option<usize>
        ensures { result ≡ dimension_place self.now id.0 }
    {
        dimension_place(self.dimensions.as_slice(), id)
    }

    /// The place of the group of an id, among those that are live.
    fn group_place_of(&self, id: GroupId) -> Option<usize>
        ensures { result ≡ group_place self.now id.0 }
    {
        group_place(self.groups.as_slice(), id)
    }

    /// The place of the whole of an id, among those that are live.
    fn whole_place_of(&self, id: WholeId) -> Option<usize>
        ensures { result ≡ whole_place self.now id.0 }
    {
        whole_place(self.wholes.as_slice(), id)
    }

    /// True of every crossfilter: the clause tells a proof what each of them meets.
    pub fn is_sound(&self) -> bool
        ensures answer { result ≡ true }
        ensures sound { IsState A.keys_of A.fits_to A.kind_of P.keys_in R.fits_to R.field_count self.now }
        ensures text { text_of_rows self.now.rows ≤ self.now.limits.text_bytes }
    {
        self.table.text() <= u64::MAX
    }
}
