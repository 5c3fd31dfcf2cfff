//! Accessors, roundings and reducers as words say them, with names of columns that are not looked up yet.

use xf_base::Text;

/// An accessor by the names of its columns.
#[derive(Debug, Drop)]
pub enum AccessorWords {
    Column(Text),
    Pair(Text, Text),
    Tags(Text),
    Weekday(Text),
    Month(Text),
}

/// A rounding. The width of `Floor` is from 1 to 10^15 - 1, and `Letters` keeps from 1 to 64 characters.
#[derive(Clone, Copy, Debug, PartialEq, Eq)]
pub enum RoundingWords {
    Same,
    Floor(u64),
    Month,
    Year,
    Letters(u8),
}

/// A reducer by the name of its column.
#[derive(Debug, Drop)]
pub enum SimpleWords {
    Count,
    Sum(Text),
    SumCount(Text),
    SumSquares(Text),
    Spread(Text),
}

/// A reducer, or two side by side.
#[derive(Debug, Drop)]
pub enum ReducerWords {
    One(SimpleWords),
    Both(SimpleWords, SimpleWords),
}
