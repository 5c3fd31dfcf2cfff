//! Filters of keys: every key, one key, a range of keys, or what a predicate says.
//!
//! A trait for predicates, the stock of them that sessions name, and the words in which filters are written. It stands
//! on keys and forms, and on the definitions of what a filter means. Its one promise: a filter holds for exactly the keys
//! for which it is defined to hold, and its words are read exactly where they are of the grammar and at most 16 deep.
#![tactic(auto)]

mod count;
mod filter;
mod filter_syntax;
mod item;
mod misfit;
mod opener;
mod predicate;
mod print;
mod raw_filter;
mod read;
mod resolving;
mod stock_predicate;
mod toggle;

pub use count::count_of;
pub use filter::Filter;
pub use filter_syntax::FilterSyntax;
pub use item::Item;
pub use predicate::Predicate;
pub use print::{print_filter, print_item};
pub use raw_filter::{RawFilter, RawItem};
pub use read::{read_filter, read_item};
pub use resolving::{resolve, resolve_item};
pub use stock_predicate::StockPredicate;
pub use toggle::toggled;
