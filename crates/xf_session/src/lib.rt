//! A session: a crossfilter whose dimensions, groups and wholes have names, how it begins on a board, and what each line does to it.
//!
//! It stands on boards, and on sheets, which are CSV files as boards; on the lines of the script; on the crossfilter over the stock
//! of accessors, roundings, predicates and reducers; and on depots, from which it fetches the files that a line loads. Its one
//! promise: each line does exactly what its command is defined to do in the state that it finds, and a refused line, for its
//! stated cause, changes nothing.
#![tactic(auto)]

mod answers;
mod apply;
mod columns;
mod entries;
mod filters;
mod names;
mod naming;
mod records;
mod schema;
mod session;
mod standard;
mod start;
mod things;

pub use apply::SessionFault;
pub use session::{Session, StockCross, StockFilter};
pub use start::CsvStart;
