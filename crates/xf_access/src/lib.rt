//! Accessors and roundings: which keys a record has, and how a key is grouped.
//!
//! Two traits whose laws every implementation proves, and the stock of both that boards and sessions name. It stands
//! on the keys, cells and schemas of the base, and on jiff for the calendar. Its one promise: the keys of a row of a
//! schema that an accessor fits are ascending, distinct and of its kind, and a rounding keeps their order.
#![tactic(auto)]

mod accessor;
mod rounding;
mod stock_accessor;
mod stock_rounding;

pub use accessor::Accessor;
pub use rounding::Rounding;
pub use stock_accessor::StockAccessor;
pub use stock_rounding::StockRounding;
