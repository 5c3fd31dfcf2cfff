//! Keys, cells, rows, schemas, limits, counted steps, and the texts of numbers, dates and words.
//!
//! The lowest layer: plain values that every crate above passes on, each seen by contracts as the list, number or
//! record that it holds. It stands on std, and on jiff for the calendar. Its one promise: keys have one order, and a
//! number, a date or a word is read and written exactly as `specs/` says.
#![tactic(auto)]

mod blank;
mod cell;
mod column;
mod date;
mod fixed;
mod form;
mod gone;
mod key;
mod kind;
mod laws;
mod limits;
mod list_of;
mod misfit;
mod number;
mod out_of_memory;
mod row;
mod schema;
mod steps;
mod text;
mod word;

pub use cell::{Cell, TextList};
pub use column::{Column, ColumnKind};
pub use date::{
    DateRefusal, FIRST_DAY, LAST_DAY, month_of, month_start, put_date, read_date, year_start,
};
pub use fixed::{GREATEST_NUMBER, NumberRefusal, put_fixed, read_fixed};
pub use form::{AtomForm, KeyForm, key_of_word, put_key};
pub use gone::Gone;
pub use key::{Atom, Key, KeyList};
pub use kind::{AtomKind, KeyKind};
pub use laws::{kept_items, texts_read_back};
pub use limits::Limits;
pub use list_of::ListOf;
pub use number::put_number;
pub use out_of_memory::OutOfMemory;
pub use row::{Row, RowList};
pub use schema::Schema;
pub use steps::Steps;
pub use text::Text;
pub use word::put_word;
