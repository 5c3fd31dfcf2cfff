//! The rows of a file under a schema.
ghost use Rattle.std.specs.Prelude.{◌≡◌, ◌⊎◌, ◌<◌, ◌^◌, length, position, Err, IfOk};
ghost use Rattle.std.specs.Str.{bytes_eq};
ghost use Rattle.std.specs.List.{AllByRecursion};
ghost use Rattle.csv.specs.Records.{fields_of};
ghost use Rattle.xf_base.specs.Schema.{IsCellOf, IsColumn, IsRowOf};
ghost use Rattle.xf_load.specs.Load.{cell_at, loaded_of, places_of, row_of, rows_of};

use crate::cell::{CellRefusal, ReadCellFault, read_cell};
use crate::record_reader::RecordReader;
use csv::ByteRecord;
use std::alloc::{AllocError, AllocFailed, Global};
use thiserror::Error;
use xf_base::{Cell, Column, ListOf, OutOfMemory, Row, RowList, Schema};

/// Why a file has no rows under a schema. No header comes before a missing column, and both before the records; of these
/// the first that is bad is told, and an uneven record is not asked for its cells.
#[derive(Clone, Copy, Debug, PartialEq, Eq, Error)]
pub enum LoadRefusal {
    /// There is no record, so no header.
    #[error("no header")]
    NoHeader,
    /// The header lacks the name of this column of the schema, numbered from 0; the first of those that it lacks.
    #[error("missing column {column}")]
    MissingColumn {
        column: u64,
    },
    /// A record, numbered from 1 after the header, has another number of fields than the header.
    #[error("uneven record {number}")]
    UnevenRecord {
        number: u64,
    },
    /// A field of a record, numbered from 1 after the header, is no cell of this column of the schema, numbered from 0.
    #[error("bad cell {number} {column} {why}")]
    BadCell {
        number: u64,
        column: u64,
        why: CellRefusal,
    },
    /// Memory was refused.
    #[error("out of memory")]
    OutOfMemory,
}

impl From<OutOfMemory> for LoadRefusal {
    ghost use Rattle.std.specs.Prelude.{◌≡◌};
    ghost use Rattle.xf_load.specs.declared.load.LoadRefusal.TheVariants.{OutOfMemory};

    ghost from_gives = { λ _ refusal. refusal ≡ OutOfMemory };

    fn from(_error: OutOfMemory) -> LoadRefusal {
        LoadRefusal::OutOfMemory
    }
}

impl From<AllocError> for LoadRefusal {
    ghost use Rattle.std.specs.Prelude.{◌≡◌};
    ghost use Rattle.xf_load.specs.declared.load.LoadRefusal.TheVariants.{OutOfMemory};

    ghost from_gives = { λ _ refusal. refusal ≡ OutOfMemory };

    fn from(_error: AllocError) -> LoadRefusal {
        LoadRefusal::OutOfMemory
    }
}

impl<T: Drop> From<AllocFailed<T>> for LoadRefusal {
    ghost use Rattle.std.specs.Prelude.{◌≡◌};
    ghost use Rattle.xf_load.specs.declared.load.LoadRefusal.TheVariants.{OutOfMemory};

    ghost from_gives = { λ _ refusal. refusal ≡ OutOfMemory };

    fn from(_error: AllocFailed<T>) -> LoadRefusal {
        LoadRefusal::OutOfMemory
    }
}

/// The first rows of a file, and how many rows it has.
#[derive(Debug, Drop)]
pub struct Loaded {
    pub rows: RowList,
    pub count: u64,
}

/// The rows of a file under a schema, or the first refusal. Columns of the file that are not in the schema are ignored,
/// and of two with one name the first counts.
pub fn records_of(alloc: Global, schema: &Schema, bytes: &[u8]) -> Result<RowList, LoadRefusal>
    ensures rows { (result ≡ Err LoadRefusal.OutOfMemory) ⊎ (result ≡ rows_of schema.now bytes.now) }
    ensures of_schema { IfOk result (AllByRecursion (IsRowOf schema.now)) }
{
    let loaded = records_within(alloc, schema, bytes, u64::MAX)?;
    Ok(loaded.rows)
}

/// The same, where at most `limit` rows are kept. Those after them are read too, so that a refusal is the same whatever
/// the limit, and are counted.
pub fn records_within(
    alloc: Global,
    schema: &Schema,
    bytes: &[u8],
    limit: u64,
) -> Result<Loaded, LoadRefusal>
    ensures loaded { (result ≡ Err LoadRefusal.OutOfMemory) ⊎ (result ≡ loaded_of schema.now bytes.now limit) }
    ensures of_schema { IfOk result (λ loaded. AllByRecursion (IsRowOf schema.now) loaded.rows) }
{
    let mut reader = RecordReader::new(alloc, bytes)?;
    let mut record = ByteRecord::new(alloc);
    if !reader.read(&mut record)? {
        return Err(LoadRefusal::NoHeader);
    }
    let columns = schema.as_slice();
    let places = places_of(alloc, columns, &record)?;
    let places = places.as_slice();
    let width = record.len();
    let mut rows = RowList::new(alloc);
    let mut count: u64 = 0;
    while reader.read(&mut record)? {
        count += 1;
        let row = row_of(alloc, columns, places, width, count, &record)?;
        if count <= limit {
            rows.push(row)?;
        }
    }
    Ok(Loaded { rows, count })
}

/// The place of each column: the first at which the header has its name.
fn places_of(
    alloc: Global,
    columns: &[Column],
    header: &ByteRecord,
) -> Result<ListOf<usize>, LoadRefusal>
    ensures { (result ≡ Err LoadRefusal.OutOfMemory) ⊎ (result ≡ places_of columns.now (fields_of header.now)) }
{
    let mut places = Vec::with_capacity(alloc, columns.len())?;
    for (index, column) in columns.iter().enumerate() {
        let Some(place) = place_in(header, column.name.as_str().as_bytes()) else {
            return Err(LoadRefusal::MissingColumn {
                column: index as u64,
            });
        };
        places.push(place)?;
    }
    Ok(ListOf::from_vec(places))
}

/// The first place at which a header has a name.
fn place_in(header: &ByteRecord, name: &[u8]) -> Option<usize>
    ensures { result ≡ position (bytes_eq name.now) (fields_of header.now) }
{
    for place in 0..header.len() {
        if header.get(place) == Some(name) {
            return Some(place);
        }
    }
    None
}

/// The row of a record of this number: a cell for each column, where the record has as many fields as the header.
fn row_of(
    alloc: Global,
    columns: &[Column],
    places: &[usize],
    width: usize,
    number: u64,
    fields: &ByteRecord,
) -> Result<Row, LoadRefusal>
    requires columns { AllByRecursion IsColumn columns.now }
    requires places { length places.now ≡ length columns.now }
    ensures row { (result ≡ Err LoadRefusal.OutOfMemory)
        ⊎ (result ≡ row_of columns.now places.now width (number, fields_of fields.now)) }
    ensures of_columns { IfOk result (IsRowOf columns.now) }
{
    if fields.len() != width {
        return Err(LoadRefusal::UnevenRecord { number });
    }
    let mut cells = Vec::with_capacity(alloc, columns.len())?;
    for (column, place) in columns.iter().zip(places) {
        let cell = cell_at(alloc, fields, number, cells.len(), column, *place)?;
        cells.push(cell)?;
    }
    Ok(ListOf::from_vec(cells))
}

/// The cell of the column `index`, whose field stands at a place of the record of this number.
fn cell_at(
    alloc: Global,
    fields: &ByteRecord,
    number: u64,
    index: usize,
    column: &Column,
    place: usize,
) -> Result<Cell, LoadRefusal>
    requires { IsColumn column.now }
    ensures cell { (result ≡ Err LoadRefusal.OutOfMemory)
        ⊎ (result ≡ cell_at number (fields_of fields.now) (index, (column.now, place))) }
    ensures of_column { IfOk result (IsCellOf column.now.kind) }
{
    let field = fields.get(place).unwrap_or(&[]);
    match read_cell(alloc, column, field) {
        Ok(cell) => Ok(cell),
        Err(ReadCellFault::Bad(why)) => Err(LoadRefusal::BadCell {
            number,
            column: index as u64,
            why,
        }),
        Err(ReadCellFault::OutOfMemory) => Err(LoadRefusal::OutOfMemory),
    }
}
