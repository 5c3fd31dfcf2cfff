//! What the words for accessors, roundings and reducers name, over the columns of a schema.
//!
//! Lines of a session and boards say by words which columns a dimension, a group or a whole is of. This layer looks the
//! names up and tries the kinds, for both of them. It stands on schemas, and on the stock of accessors, roundings and
//! reducers. Its one promise: words name exactly what the definitions say, and are refused for the first column, from
//! left to right, that is not there or is of a kind that is not taken.
#![tactic(auto)]

mod column_refusal;
mod columns;
mod words;

pub use column_refusal::ColumnRefusal;
pub use columns::{accessor_of, applies, reducer_of, rounding_of};
pub use words::{AccessorWords, ReducerWords, RoundingWords, SimpleWords};
