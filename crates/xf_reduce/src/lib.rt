//! Reducers: what a group keeps of its rows, and how one row more or less changes that.
//!
//! Two traits whose laws every implementation proves: a `Reducer` is what a group or a whole has, and a `Part` is what
//! a reducer is made of. The stock of both is what boards and sessions name. It stands on the rows and schemas of the
//! base, and on the folds of the definitions. Its one promise: the laws by which a value means the fold of its rows from
//! nothing, whatever rows came and went before, and in whatever order.
#![tactic(auto)]

mod alone;
mod both;
mod count;
mod number;
mod part;
mod reducer;
mod simple;
mod spread;
mod stock_reducer;
mod sum;
mod sum_count;
mod sum_squares;
mod tallies;

pub use alone::Alone;
pub use both::Both;
pub use count::Count;
pub use part::Part;
pub use reducer::Reducer;
pub use simple::{Simple, SimpleMeaning, SimpleValue};
pub use spread::Spread;
pub use stock_reducer::StockReducer;
pub use sum::Sum;
pub use sum_count::{SumCount, Totals};
pub use sum_squares::{SquareTotals, SumSquares};
pub use tallies::Tallies;
