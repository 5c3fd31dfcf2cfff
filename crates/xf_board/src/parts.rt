//! The parts of a board.

use xf_access::{StockAccessor, StockRounding};
use xf_base::{ListOf, Text, TextList};
use xf_reduce::StockReducer;

/// The least width of a chart.
pub const LEAST_WIDTH: u64 = 100;

/// The least height of a chart.
pub const LEAST_HEIGHT: u64 = 60;

/// The greatest width and height of a chart.
pub const GREATEST_SIDE: u64 = 4_000;

/// The width of a chart that has none.
pub const USUAL_WIDTH: u64 = 300;

/// The height of a chart that has none.
pub const USUAL_HEIGHT: u64 = 200;

/// The greatest number of rows that a chart of rows is capped at.
pub const GREATEST_CAP: u64 = 9_999;

/// The greatest number of records of a table.
pub const GREATEST_TABLE: u64 = 10_000;

/// The number of records of a table that says none.
pub const USUAL_TABLE: u64 = 25;

/// The most columns of a table.
pub const MOST_TABLE_COLUMNS: u64 = 64;

/// The most colours of a board.
pub const MOST_COLOURS: u64 = 64;

/// A dimension: its name, and where its keys come from.
#[derive(Debug, Drop)]
pub struct DimensionSpec {
    pub name: Text,
    pub from: StockAccessor,
}

/// A group of a dimension. Its order is the number of a field of its reducer.
#[derive(Debug, Drop)]
pub struct GroupSpec {
    pub name: Text,
    pub of: Text,
    pub round: StockRounding,
    pub reduce: StockReducer,
    pub order: u8,
}

/// A reduction of all selected records.
#[derive(Debug, Drop)]
pub struct WholeSpec {
    pub name: Text,
    pub reduce: StockReducer,
}

/// A chart. Its width and height are numbers of pixels.
#[derive(Debug, Drop)]
pub struct ChartSpec {
    pub title: Text,
    pub width: u32,
    pub height: u32,
    pub body: ChartBody,
}

/// What a chart draws. A field is a field of the group's or whole's reducer, from 0.
#[derive(Debug, Drop)]
pub enum ChartBody {
    /// A bar for each key.
    Bar {
        group: Text,
        field: u8,
        fill: Text,
    },
    /// A line over numbers or dates.
    Line {
        group: Text,
        field: u8,
        fill: Text,
    },
    /// A row for each of the first keys, and with a cap one for all others.
    Row {
        group: Text,
        field: u8,
        fill: Text,
        cap: Option<u32>,
        others: Text,
    },
    /// A map of pairs.
    Heat {
        group: Text,
        field: u8,
    },
    /// How many records are selected, of how many.
    Count,
    /// A field of a whole.
    Number {
        whole: Text,
        field: u8,
    },
    /// The first or last records by a dimension.
    Table {
        dimension: Text,
        columns: TextList,
        size: u32,
        descending: bool,
    },
}

/// Dimensions in order.
pub type DimensionList = ListOf<DimensionSpec>;

/// Groups in order.
pub type GroupList = ListOf<GroupSpec>;

/// Wholes in order.
pub type WholeList = ListOf<WholeSpec>;

/// Charts in order.
pub type ChartList = ListOf<ChartSpec>;
