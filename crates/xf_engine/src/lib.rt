//! The crossfilter: records, dimensions that order and filter them by keys, and groups and wholes that keep values of them.
//!
//! It stands on the table, on accessors, roundings, filters, reducers and groups, and on the definitions of what a
//! crossfilter means. Its one promise: the rows that pass, what a new filter moves, what a removal leaves, the entries and
//! the top of every group, the value of every whole, and the rows with the least and the greatest keys are at all times
//! exactly those of the definitions, whatever lawful accessors, roundings, predicates and reducers are used.
//!
//! ```text
//! let mut cross = Cross::new(alloc, schema, Limits::standard());
//! let minutes = cross.add_dimension(StockAccessor::Column(0, whole), &mut steps)?;
//! let counts = StockReducer::One(Simple::Count);
//! let hours = cross.add_group(minutes, StockRounding::Floor(60), counts, &mut steps)?;
//! cross.add_records(rows, &mut steps)?;
//! let moved = cross.set_filter(minutes, Filter::Range(Key::Num(2), Key::Num(3)), &mut steps)?;
//! let passing = cross.passing_count(&mut steps);        // how many records pass the filters of all dimensions
//! let entries = cross.group_all(hours, 0, &mut steps)?; // field 0, under the filters of all dimensions but its own
//! let longest = cross.top(minutes, 10, 0, &mut steps)?; // the places of the ten records with the greatest keys
//! let removed = cross.remove_passing(&mut steps)?;      // how many records were removed, with their keys
//! ```
#![tactic(auto)]

mod add_refusal;
mod counts;
mod cross;
mod dimension;
mod dimension_refusal;
mod dispose_refusal;
mod entries;
mod events;
mod filter_refusal;
mod filtered;
mod fold;
mod folding;
mod group_refusal;
mod grouping;
mod ids;
mod key_number;
mod list_refusal;
mod listing;
mod marks;
mod refilter;
mod remove_refusal;
mod rounded;
mod whole;
mod whole_refusal;

pub use add_refusal::AddRefusal;
pub use cross::Cross;
pub use dimension_refusal::DimensionRefusal;
pub use dispose_refusal::DisposeRefusal;
pub use events::Events;
pub use filter_refusal::FilterRefusal;
pub use group_refusal::{GroupListRefusal, GroupRefusal};
pub use ids::{DimensionId, GroupId, NoDimension, NoGroup, NoWhole, WholeId};
pub use key_number::KeyNumber;
pub use list_refusal::ListRefusal;
pub use remove_refusal::RemoveRefusal;
pub use whole_refusal::WholeRefusal;
