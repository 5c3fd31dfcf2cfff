//! The records of a CSV file, one at a time.
ghost use Rattle.std.specs.Prelude.{◌≡◌, [], ◌∷◌, IfOk, OnErr};
ghost use Rattle.std.specs.Bool.{MatchBool};
ghost use Rattle.csv.specs.Records.{fields_of};
ghost use Rattle.xf_load.specs.Records.{records_of};

use csv::{ByteRecord, Reader, ReaderBuilder};
use std::alloc::Global;
use std::marker::Model;
use xf_base::OutOfMemory;

/// A reader of the records of a file, seen by contracts as the list of those that are still to come, the header among
/// them. It keeps one record at a time.
#[derive(Drop)]
pub struct RecordReader<'a> {
    reader: Reader<&'a [u8]>,
    has_ended: bool,
}

impl<'a> Model for RecordReader<'a> {
    ghost use Rattle.std.specs.Prelude.{◌≡◌, ℕ, List, [], Some, false, if◌then◌else◌};
    ghost use Rattle.xf_load.specs.RecordsAhead.{IsReading, records_ahead};

    ghost Value = { List (List (List ℕ)) };

    ghost view = { λ r. if r.has_ended then [] else records_ahead (λ bytes. Some bytes.now) r.reader };

    ghost invariant = { λ r. r.has_ended ≡ false → IsReading (λ bytes. Some bytes.now) r.reader };
}

impl<'a> RecordReader<'a> {
    /// A reader at the start of a file.
    pub fn new(alloc: Global, bytes: &'a [u8]) -> Result<RecordReader<'a>, OutOfMemory>
        ensures { IfOk result (λ reader. reader ≡ records_of bytes.now) }
    {
        let mut reader = ReaderBuilder::new()
            .flexible(true)
            .from_reader(alloc, bytes);
        // With a header set, the reader keeps no copies of the first record.
        if reader.set_byte_headers(ByteRecord::new(alloc)).is_err() {
            return Err(OutOfMemory);
        }
        Ok(RecordReader {
            reader,
            has_ended: false,
        })
    }

    /// Reads the next record into `fields`, and says whether there was one. Bytes in memory do not fail, and records
    /// may have any length, so that memory alone can be wanting; no records come after that.
    pub fn read(&mut self, fields: &mut ByteRecord) -> Result<bool, OutOfMemory>
        ensures read { IfOk result (λ found.
            MatchBool found (self.old ≡ fields_of fields.new ∷ self.new) ((self.old ≡ []) × (self.new ≡ []))) }
        ensures err { OnErr result (self.new ≡ []) }
    {
        if self.has_ended {
            return Ok(false);
        }
        match self.reader.read_byte_record(fields) {
            Ok(true) => Ok(true),
            Ok(false) => {
                self.has_ended = true;
                Ok(false)
            }
            Err(_error) => {
                self.has_ended = true;
                Err(OutOfMemory)
            }
        }
    }
}
