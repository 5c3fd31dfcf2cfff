//! The sheet of a CSV file: its columns of whole numbers, and a row for each record below the header.
ghost use Rattle.std.specs.Prelude.{◌≡◌, ◌⊎◌, ◌<◌, ◌≤◌, ◌^◌, ◌+◌, ◌*◌, Some, None, Ok, Err, IfOk, IfErr, OnOk, IsSomeAnd, length, map, filter, take, nat_lt, if◌then◌else◌};
ghost use Rattle.std.specs.List.{All, enumerate_from};
ghost use Rattle.std.specs.Str.{IsUtf8};
ghost use Rattle.csv.specs.Records.{fields_of};
ghost use Rattle.xf_load.specs.Load.{rows_of};
ghost use Rattle.xf_load.specs.Records.{records_of};
ghost use Rattle.xf_sheet.specs.Sheet.{field_of, int_column, is_named, is_number, is_number_column, sheet_columns, sheet_of, uneven_place};

use csv::ByteRecord;
use std::alloc::Global;
use std::collections::HashSet;
use std::marker::Model;
use thiserror::Error;
use xf_base::{Column, ColumnKind, Limits, OutOfMemory, RowList, Schema, Text, read_fixed};
use xf_load::{RecordReader, records_of};

/// A CSV file as a board: its columns of whole numbers, and its rows. It has at most 32 columns, as a crossfilter has
/// dimensions, and each row is of these columns.
#[derive(Debug, Drop)]
pub struct Sheet {
    pub schema: Schema,
    pub rows: RowList,
}

impl Model for Sheet {
    ghost use Rattle.xf_sheet.specs.SheetParts.{SheetParts, IsSheet};

    ghost Value = { SheetParts };

    ghost view = { λ sheet. record { columns = sheet.schema; rows = sheet.rows } };

    ghost invariant = { λ sheet. IsSheet sheet.schema sheet.rows };
}

/// Why a file is no sheet. The first that holds, in this order.
#[derive(Clone, Copy, Debug, PartialEq, Eq, Error)]
pub enum SheetRefusal {
    /// There is no record, so no header.
    #[error("no header")]
    NoHeader,
    /// A record, numbered from 1 after the header, has another number of fields than the header.
    #[error("uneven record {number}")]
    UnevenRecord { number: u64 },
    /// There are `more` records after the header, above the limit.
    #[error("too many records: {more}, of at most {limit}")]
    TooManyRecords { more: u64, limit: u64 },
    /// The records have `more` fields in the columns of the sheet, above the limit.
    #[error("too many entries: {more}, of at most {limit}")]
    TooManyEntries { more: u64, limit: u64 },
    /// Memory was refused, at whatever step.
    #[error("out of memory")]
    OutOfMemory,
}

impl From<OutOfMemory> for SheetRefusal {
    ghost use Rattle.std.specs.Prelude.{◌≡◌};
    ghost use Rattle.xf_sheet.specs.declared.sheet.SheetRefusal.TheVariants.{OutOfMemory};

    ghost from_gives = { λ _ refusal. refusal ≡ OutOfMemory };

    fn from(_error: OutOfMemory) -> SheetRefusal {
        SheetRefusal::OutOfMemory
    }
}

/// The sheet of a file, or the first cause for which there is none. A column is chosen where its name is UTF-8 and stands
/// nowhere earlier in the header, and every field below is a whole number. At most the first 32 of those are taken,
/// whatever the limits are; of these only the numbers of rows and of entries are asked, and entries are counted in the
/// columns that are taken. The file is read twice: once for the choice of its columns, and once for the rows.
pub fn read_sheet(alloc: Global, bytes: &[u8], limits: &Limits) -> Result<Sheet, SheetRefusal>
    ensures sheet { (result ≡ Err SheetRefusal.OutOfMemory) ⊎ (result ≡ sheet_of bytes.now limits.now) }

    // The rows are never refused.
    ensures rows { IfOk result (λ sheet. rows_of sheet.columns bytes.now ≡ Ok sheet.rows) }
    ensures within { IfOk result (λ sheet. (length sheet.rows ≤ limits.now.rows)
        × (length sheet.rows * length sheet.columns ≤ limits.now.entries)) }
{
    let _sound = limits.is_sound();
    let schema = sheet_schema(alloc, bytes, limits)?;
    // Each chosen column stands in the header and takes every field below, so that memory alone can be wanting.
    match records_of(alloc, &schema, bytes) {
        Ok(rows) => Ok(Sheet { schema, rows }),
        Err(_refusal) => Err(SheetRefusal::OutOfMemory),
    }
}

/// The columns of the sheet of a file.
fn sheet_schema(alloc: Global, bytes: &[u8], limits: &Limits) -> Result<Schema, SheetRefusal>
    ensures { (result ≡ Err SheetRefusal.OutOfMemory)
        ⊎ (result ≡ sheet_columns (records_of bytes.now) limits.now) }
{
    let mut reader = RecordReader::new(alloc, bytes)?;
    let mut header = ByteRecord::new(alloc);
    if !reader.read(&mut header)? {
        return Err(SheetRefusal::NoHeader);
    }
    let mut places = named_places(alloc, &header)?;
    let count = count_records(alloc, &mut reader, header.len(), &mut places)?;
    let schema = int_schema(alloc, &header, places.as_slice())?;
    if count > limits.rows {
        return Err(SheetRefusal::TooManyRecords {
            more: count,
            limit: limits.rows,
        });
    }
    let entries = count * schema.len() as u64;
    if entries > limits.entries {
        return Err(SheetRefusal::TooManyEntries {
            more: entries,
            limit: limits.entries,
        });
    }
    Ok(schema)
}

/// The places of the names of a header that are UTF-8 and stand nowhere earlier in it.
fn named_places(alloc: Global, header: &ByteRecord) -> Result<Vec<usize>, OutOfMemory>
    ensures { IfOk result (λ places. places.items
        ≡ map (λ column. column.0) (filter (is_named (fields_of header.now)) (enumerate_from 0 (fields_of header.now)))) }
{
    let mut names = HashSet::new(alloc);
    let mut places = Vec::new(alloc);
    for place in 0..header.len() {
        let name = field_of(header, place);
        let is_new = names.insert(name)?;
        if is_new && str::from_utf8(name).is_ok() {
            places.push(place)?;
        }
    }
    Ok(places)
}

/// The field of a record at a place; an empty one where there is none.
fn field_of(fields: &ByteRecord, place: usize) -> &[u8]
    ensures { result.now ≡ field_of (fields_of fields.now) place }
{
    fields.get(place).unwrap_or(&[])
}

/// Reads all records, and gives their number. Of the places those are kept at which every field is a whole number.
fn count_records(
    alloc: Global,
    reader: &mut RecordReader<'_>,
    width: usize,
    places: &mut Vec<usize>,
) -> Result<u64, SheetRefusal>
    requires few { length reader.old < 2 ^ 63 }
    ensures count { IfOk result (λ count. count ≡ length reader.old) }
    ensures even { OnOk result (uneven_place width reader.old ≡ None) }
    ensures kept { OnOk result (places.new.items ≡ filter (is_number_column reader.old) places.old.items) }
    ensures refused { IfErr result (λ refusal. (refusal ≡ SheetRefusal.OutOfMemory)
        ⊎ IsSomeAnd (uneven_place width reader.old) (λ place. refusal ≡ SheetRefusal.UnevenRecord (place + 1))) }
{
    let mut record = ByteRecord::new(alloc);
    let mut number: u64 = 0;
    while reader.read(&mut record)? {
        number += 1;
        if record.len() != width {
            return Err(SheetRefusal::UnevenRecord { number });
        }
        keep_numbers(places, &record);
    }
    Ok(number)
}

/// Keeps those places at which a record has a whole number.
fn keep_numbers(places: &mut Vec<usize>, fields: &ByteRecord)
    ensures { places.new.items ≡ filter (λ place. is_number (field_of (fields_of fields.now) place)) places.old.items }
{
    places.retain(|place| read_fixed(field_of(fields, *place), 0).is_ok());
}

/// Columns of whole numbers for the first names, at most as many as a sheet has.
fn int_schema(alloc: Global, header: &ByteRecord, places: &[usize]) -> Result<Schema, OutOfMemory>
    requires { All (λ place. IsUtf8 (field_of (fields_of header.now) place)) places.now }
    ensures { IfOk result (λ schema. schema
        ≡ map (λ place. int_column (field_of (fields_of header.now) place)) (take Limits.DIMENSIONS places.now)) }
{
    let mut schema = Schema::new(alloc);
    let chosen = &places[..places.len().min(Limits::DIMENSIONS as usize)];
    for place in chosen {
        let Ok(name) = str::from_utf8(field_of(header, *place)) else {
            unreachable!()
        };
        schema.push(Column {
            name: Text::of(alloc, name)?,
            kind: ColumnKind::Int,
            blank: None,
        })?;
    }
    Ok(schema)
}
