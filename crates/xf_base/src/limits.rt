//! How much a table, an engine and a session may hold.
ghost use Rattle.std.specs.Prelude.{◌≡◌, true};
ghost use Rattle.xf_base.specs.Bounds.{AreLimits, standard};

use std::marker::Model;

/// The greatest numbers that are taken. None is above its standard, which is the constant of its name; dimensions,
/// groups, rows, entries, bytes of text and bytes of a file may be lower, and no others.
#[derive(Clone, Copy)]
pub struct Limits {
    /// Dimensions at a time.
    pub dimensions: u64,
    /// Groups and wholes together, at a time.
    pub groups: u64,
    /// Columns of a schema.
    pub columns: u64,
    /// Records.
    pub rows: u64,
    /// Entries of all dimensions, one for each key of each record.
    pub entries: u64,
    /// Values of one cell.
    pub cell_values: u64,
    /// Bytes of one cell.
    pub cell_bytes: u64,
    /// Bytes of all texts.
    pub text_bytes: u64,
    /// Bytes of one file.
    pub file_bytes: u64,
    /// Bytes of one session line, its end not counted.
    pub line_bytes: u64,
    /// Charts of a board.
    pub charts: u64,
    /// Marks of a chart.
    pub marks: u64,
}

impl Model for Limits {
    ghost use Rattle.xf_base.specs.Bounds.{Bounds, AreLimits};

    ghost Value = { Bounds };

    ghost use Rattle.xf_base.specs.LimitsFields.{bounds_of, fields_of};

    ghost view = { bounds_of };

    ghost invariant = { λ limits. AreLimits (bounds_of limits) };

    ghost inverse = { fields_of };
}

impl Limits {
    pub const DIMENSIONS: u64 = 32;

    pub const GROUPS: u64 = 64;

    pub const COLUMNS: u64 = 64;

    pub const ROWS: u64 = 1_000_000;

    pub const ENTRIES: u64 = 16_000_000;

    pub const CELL_VALUES: u64 = 64;

    pub const CELL_BYTES: u64 = 4_096;

    pub const TEXT_BYTES: u64 = 134_217_728;

    pub const FILE_BYTES: u64 = 134_217_728;

    pub const LINE_BYTES: u64 = 65_536;

    pub const CHARTS: u64 = 32;

    pub const MARKS: u64 = 10_000;

    /// The standard limits.
    pub fn standard() -> Limits
        ensures { result ≡ standard }
    {
        Limits {
            dimensions: Limits::DIMENSIONS,
            groups: Limits::GROUPS,
            columns: Limits::COLUMNS,
            rows: Limits::ROWS,
            entries: Limits::ENTRIES,
            cell_values: Limits::CELL_VALUES,
            cell_bytes: Limits::CELL_BYTES,
            text_bytes: Limits::TEXT_BYTES,
            file_bytes: Limits::FILE_BYTES,
            line_bytes: Limits::LINE_BYTES,
            charts: Limits::CHARTS,
            marks: Limits::MARKS,
        }
    }

    /// True of all limits: the clause tells a proof what they meet.
    pub fn is_sound(&self) -> bool
        ensures answer { result ≡ true }
        ensures sound { AreLimits self.now }
    {
        self.rows <= Limits::ROWS
    }
}
