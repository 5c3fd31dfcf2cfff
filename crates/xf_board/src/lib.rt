//! Boards: a dashboard as one JSON document.
//!
//! A board declares columns, dimensions, groups and wholes by name, and charts that draw them. It stands on the rules for
//! members and elements, on schemas and limits, on the fields of files for a column's blank, and on the stock. Its one
//! promise: a text is read exactly where it is of the format, as the board that the format says, and else refused for the
//! first rule that it breaks, with the path of the place.
#![tactic(auto)]

mod board;
mod chart;
mod colour;
mod column;
mod dimension;
mod group;
mod parts;
mod print;
mod print_chart;
mod print_column;
mod print_parts;
mod print_words;
mod printed;
mod read;
mod table;
mod whole;

pub use board::Board;
pub use colour::usual_colours;
pub use parts::{
    ChartBody, ChartList, ChartSpec, DimensionList, DimensionSpec, GREATEST_CAP, GREATEST_SIDE,
    GREATEST_TABLE, GroupList, GroupSpec, LEAST_HEIGHT, LEAST_WIDTH, MOST_COLOURS,
    MOST_TABLE_COLUMNS, USUAL_HEIGHT, USUAL_TABLE, USUAL_WIDTH, WholeList, WholeSpec,
};
pub use print::print_board;
pub use read::{MOST_OPENERS, read_board};
pub use xf_members::{BoardRefusal, put_board_refusal};
