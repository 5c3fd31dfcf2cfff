//! The members of a board's objects, and the elements of its arrays.
//!
//! A board is a JSON document whose objects are walked member by member, in an order that the format says. This layer knows
//! which members each sort of object has, what a member may be, by which path a place is named, and how words in arrays
//! say accessors, roundings and reducers; the board above knows the order. It stands on texts, on the stock and its words,
//! and on `serde_json`. Its one promise: each rule gives exactly what a member or an element says, or the refusal of its place.
#![tactic(auto)]

mod board_refusal;
mod colour;
mod count;
mod elements;
mod object_sort;
mod path;
mod put_refusal;
mod rule;
mod value;
mod words;

pub use board_refusal::BoardRefusal;
pub use colour::colour_of;
pub use count::{TextState, has_more_openers};
pub use elements::{ElementRule, elements_of};
pub use object_sort::{ChartKind, ColumnWord, ObjectSort, chart_kind_of, column_word_of};
pub use path::member;
pub use put_refusal::put_board_refusal;
pub use rule::{
    absent, array_at, array_or_none, ensured, few, field_or, filled_array_at, number, number_below,
    number_or, object_at, only_members, text_at, text_of, text_or, unless_taken, wrong_column,
    wrong_element, wrong_element_name, wrong_field, wrong_name,
};
pub use value::whole_number;
pub use words::{accessor_rule, reducer_rule, rounding_rule};
