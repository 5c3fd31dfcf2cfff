//! The table: the records that are present, held once, in the order in which they came.
//!
//! It stands on the cells, schemas and limits of the base. Its one promise: it holds exactly the rows that were
//! appended and not removed since, each of them of its schema, no more of them than its limits allow, and it knows how
//! many bytes of text they hold.
#![tactic(auto)]

mod append_refusal;
mod table;

pub use append_refusal::AppendRefusal;
pub use table::Table;
