//! The board.
ghost use Rattle.std.specs.Prelude.{◌≡◌, true};
ghost use Rattle.xf_board.specs.Board.{BoardParts, IsBoard, is_within};

use crate::parts::{
    ChartList, ChartSpec, DimensionList, DimensionSpec, GroupList, GroupSpec, WholeList, WholeSpec,
};
use std::marker::Model;
use xf_base::{Limits, Schema, Text, TextList};

/// A dashboard: columns, dimensions, groups and wholes with names, and the charts that draw them. What its parts name is
/// declared in it, each name once in its sort, and all numbers are of their ranges.
#[derive(Debug, Drop)]
pub struct Board {
    title: Text,
    schema: Schema,
    dimensions: DimensionList,
    groups: GroupList,
    wholes: WholeList,
    charts: ChartList,
    colours: TextList,
}

impl Model for Board {
    ghost use Rattle.xf_board.specs.Board.{BoardParts, IsBoard};

    ghost Value = { BoardParts };

    ghost view = { λ board. record {
      title = board.title;
      columns = board.schema;
      dimensions = board.dimensions;
      groups = board.groups;
      wholes = board.wholes;
      charts = board.charts;
      colours = board.colours;
    } };

    ghost invariant = { λ board. IsBoard (record {
      title = board.title;
      columns = board.schema;
      dimensions = board.dimensions;
      groups = board.groups;
      wholes = board.wholes;
      charts = board.charts;
      colours = board.colours;
    }) };
}

impl Board {
    /// A board of parts that fit each other.
    pub fn new(
        title: Text,
        schema: Schema,
        dimensions: DimensionList,
        groups: GroupList,
        wholes: WholeList,
        charts: ChartList,
        colours: TextList,
    ) -> Board
        requires { IsBoard (record { title = title; columns = schema; dimensions = dimensions; groups = groups; wholes = wholes; charts = charts; colours = colours }) }
        ensures { result ≡ record { title = title; columns = schema; dimensions = dimensions; groups = groups; wholes = wholes; charts = charts; colours = colours } }
    {
        Board {
            title,
            schema,
            dimensions,
            groups,
            wholes,
            charts,
            colours,
        }
    }

    /// The title of the page.
    pub fn title(&self) -> &str
        ensures { result.now ≡ self.now.title }
    {
        self.title.as_str()
    }

    /// The columns of its records.
    pub fn schema(&self) -> &Schema
        ensures { result.now ≡ self.now.columns }
    {
        &self.schema
    }

    /// The dimensions in order.
    pub fn dimensions(&self) -> &[DimensionSpec]
        ensures { result.now ≡ self.now.dimensions }
    {
        self.dimensions.as_slice()
    }

    /// The groups in order.
    pub fn groups(&self) -> &[GroupSpec]
        ensures { result.now ≡ self.now.groups }
    {
        self.groups.as_slice()
    }

    /// The wholes in order.
    pub fn wholes(&self) -> &[WholeSpec]
        ensures { result.now ≡ self.now.wholes }
    {
        self.wholes.as_slice()
    }

    /// The charts in the order in which they are drawn.
    pub fn charts(&self) -> &[ChartSpec]
        ensures { result.now ≡ self.now.charts }
    {
        self.charts.as_slice()
    }

    /// The colours of shades, from the lowest on.
    pub fn colours(&self) -> &[Text]
        ensures { result.now ≡ self.now.colours }
    {
        self.colours.as_slice()
    }

    /// Whether a session within limits has room for the dimensions, and for the groups and wholes together.
    pub fn within(&self, limits: &Limits) -> bool
        ensures { result ≡ is_within self.now limits.now }
    {
        let dimensions = self.dimensions.len() as u64;
        let groups = (self.groups.len() + self.wholes.len()) as u64;
        dimensions <= limits.dimensions && groups <= limits.groups
    }

    /// True of all boards: the clause tells a proof what they keep.
    pub fn is_sound(&self) -> bool
        ensures answer { result ≡ true }
        ensures sound { IsBoard self.now }
    {
        !self.colours.is_empty()
    }
}
