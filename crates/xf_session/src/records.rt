//! The commands with which records come.
ghost use Rattle.std.specs.Prelude.{◌≡◌, ◌⊎◌, ◌+◌, ◌<◌, IfOk, OnErr, Some, Err, length};
ghost use Rattle.std.specs.List.{AllByRecursion};
ghost use Rattle.xf_base.specs.Schema.{IsCellOf, IsColumn, IsRowOf};
ghost use Rattle.xf_load.specs.Load.{cell_at, rows_of};
ghost use Rattle.xf_outside.specs.Account.{Files};
ghost use Rattle.xf_outside.specs.Count.{Rose, RoseExactly};
ghost use Rattle.xf_reply.specs.Step.{HasText};
ghost use Rattle.xf_script.specs.declared.command.CommandForm.TheVariants.{Add, Load};
ghost use Rattle.xf_session.specs.Arrivals.{read_outcome, rows_outcome};
ghost use Rattle.xf_session.specs.Asked.{FaultsAfter, IsLoadCause, IsLoadReply, TellsAbsent, TellsTooLong};
ghost use Rattle.xf_session.specs.Command.{as_refusal, column_name, outcome_of, row_of_words};
ghost use Rattle.xf_session.specs.Does.{Does, outcome_within};

use crate::apply::SessionFault;
use crate::session::Session;
use std::alloc::Global;
use std::sync::ledger::Ledger;
use xf_base::{Cell, Column, OutOfMemory, Row, RowList, Schema, Steps, Text, TextList};
use xf_engine::AddRefusal;
use xf_load::{LoadRefusal, ReadCellFault, read_cell, records_within};
use xf_outside::{Depot, FetchFault};
use xf_reply::{Change, Refusal, Reply};

impl Session {
    /// `load FILE`. Nothing is kept of a file that is refused.
    pub(crate) fn load<D: Depot, L: Ledger>(
        &mut self,
        file: Text,
        depot: &mut D,
        steps: &mut Steps<L>,
    ) -> Result<Reply, SessionFault>
        ensures command { (files : Files) → (D.account depot.old).files ≡ Some files → Does (outcome_of files self.old (Load file)) self.old self.new result }
        ensures some_files { (files : Files) × Does (outcome_of files self.old (Load file)) self.old self.new result }
        ensures err { OnErr result (self.new ≡ self.old) }
        ensures loads { IfOk result IsLoadReply }
        ensures files { (D.account depot.new).files ≡ (D.account depot.old).files }
        ensures faults { FaultsAfter result (D.account depot.old).faults (D.account depot.new).faults }
        ensures absent { IfOk result (λ reply. TellsAbsent reply → RoseExactly (D.account depot.old).misses (D.account depot.new).misses 1) }
        ensures found { IfOk result (λ reply. (TellsAbsent reply → ⊥) → (D.account depot.new).misses ≡ (D.account depot.old).misses) }
        ensures too_long { IfOk result (λ reply. TellsTooLong self.old.cross.limits.file_bytes reply
            → Rose (D.account depot.old).taken (D.account depot.new).taken (self.old.cross.limits.file_bytes + 1)) }
        ensures utf8 { IfOk result HasText }
    {
        let limit = self.cross.limits().file_bytes;
        match depot.fetch(self.alloc, file.as_str(), limit) {
            Ok(bytes) => Ok(self.add_file(bytes.as_slice(), steps)?),
            Err(FetchFault::Absent) => Ok(Reply::Refused(Refusal::Absent { name: file })),
            Err(FetchFault::TooLong) => Ok(Reply::Refused(Refusal::TooLong { name: file, limit })),
            Err(FetchFault::Failed) => Err(SessionFault::ReadFault),
            Err(FetchFault::OutOfMemory) => Err(SessionFault::OutOfMemory),
        }
    }

    /// Adds the records of a file. At most as many rows are kept as there may be, so that a file of millions of short
    /// lines is refused without being held.
    fn add_file<L: Ledger>(
        &mut self,
        bytes: &[u8],
        steps: &mut Steps<L>,
    ) -> Result<Reply, OutOfMemory>
        ensures command { Does (read_outcome self.old (rows_of self.old.cross.columns bytes.now)) self.old self.new result }
        ensures loads { IfOk result IsLoadReply }
        ensures err { OnErr result (self.new ≡ self.old) }
        ensures utf8 { IfOk result HasText }
    {
        let _sound = self.is_sound();
        let limit = self.cross.limits().rows;
        let loaded = match records_within(self.alloc, self.cross.schema(), bytes, limit) {
            Ok(loaded) => loaded,
            Err(LoadRefusal::OutOfMemory) => return Err(OutOfMemory),
            Err(cause) => return Ok(Reply::Refused(self.refusal_of(cause)?)),
        };
        let have = self.cross.size();
        let more = loaded.count;
        if more > limit - have {
            return Ok(Reply::Refused(Refusal::TooManyRecords { have, more, limit }));
        }
        self.add_rows(loaded.rows, steps)
    }

    /// `add W W*`: each word is read as the field of its column.
    pub(crate) fn add<L: Ledger>(
        &mut self,
        words: &TextList,
        steps: &mut Steps<L>,
    ) -> Result<Reply, OutOfMemory>
        ensures command { Does (outcome_within self.old (Add words.now)) self.old self.new result }
        ensures utf8 { IfOk result HasText }
    {
        let schema = self.cross.schema();
        if words.len() != schema.len() {
            return Ok(Reply::Refused(Refusal::WrongCells {
                wanted: schema.len() as u64,
                given: words.len() as u64,
            }));
        }
        let row = match row_of(self.alloc, schema, words.as_slice()) {
            Ok(row) => row,
            Err(LoadRefusal::OutOfMemory) => return Err(OutOfMemory),
            Err(cause) => return Ok(Reply::Refused(self.refusal_of(cause)?)),
        };
        let mut rows = RowList::new(self.alloc);
        rows.push(row)?;
        self.add_rows(rows, steps)
    }

    /// Adds rows of the schema, or refuses all of them where they would be too many or too much.
    fn add_rows<L: Ledger>(
        &mut self,
        rows: RowList,
        steps: &mut Steps<L>,
    ) -> Result<Reply, OutOfMemory>
        requires { AllByRecursion (IsRowOf self.old.cross.columns) rows }
        ensures command { Does (rows_outcome self.old rows) self.old self.new result }
        ensures loads { IfOk result IsLoadReply }
        ensures utf8 { IfOk result HasText }
    {
        let count = rows.len() as u64;
        match self.cross.add_records(rows, steps) {
            Ok(()) => Ok(Reply::Changed(Change::Added(count))),
            Err(AddRefusal::TooManyRecords { have, more, limit }) => {
                Ok(Reply::Refused(Refusal::TooManyRecords { have, more, limit }))
            }
            Err(AddRefusal::TooMuchText { have, more, limit }) => {
                Ok(Reply::Refused(Refusal::TooMuchText { have, more, limit }))
            }
            Err(AddRefusal::TooManyEntries { have, more, limit }) => {
                Ok(Reply::Refused(Refusal::TooManyEntries { have, more, limit }))
            }
            Err(AddRefusal::OutOfMemory) => Err(OutOfMemory),
            Err(AddRefusal::KindMismatch { .. }) => unreachable!(),
        }
    }

    /// A cause for which a file or a record is refused, with the column's name in place of its number.
    fn refusal_of(&self, cause: LoadRefusal) -> Result<Refusal, OutOfMemory>
        ensures refusal { IfOk result (λ refusal. refusal ≡ as_refusal self.now.cross.columns cause) }
        ensures number { IfOk result IsLoadCause }
    {
        Ok(match cause {
            LoadRefusal::NoHeader => Refusal::NoHeader,
            LoadRefusal::MissingColumn { column } => Refusal::MissingColumn {
                name: self.column_name(column)?,
            },
            LoadRefusal::UnevenRecord { number } => Refusal::UnevenRecord { number },
            LoadRefusal::BadCell {
                number,
                column,
                why,
            } => Refusal::BadCell {
                number,
                column: self.column_name(column)?,
                why,
            },
            LoadRefusal::OutOfMemory => return Err(OutOfMemory),
        })
    }

    /// The name of a column of the schema; an empty one where there is no such column.
    fn column_name(&self, column: u64) -> Result<Text, OutOfMemory>
        ensures { IfOk result (λ name. name ≡ column_name self.now.cross.columns column) }
    {
        match self.cross.schema().as_slice().get(column as usize) {
            Some(column) => column.name.copy(self.alloc),
            None => Text::of(self.alloc, ""),
        }
    }
}

/// The row of words, each read as the field of its column in record 1.
fn row_of(alloc: Global, schema: &Schema, words: &[Text]) -> Result<Row, LoadRefusal>
    requires { length words.now ≡ length schema.now }
    ensures row { (result ≡ Err LoadRefusal.OutOfMemory) ⊎ (result ≡ row_of_words schema.now words.now) }
    ensures of_columns { IfOk result (IsRowOf schema.now) }
{
    let columns = schema.as_slice();
    let mut cells = Vec::with_capacity(alloc, columns.len())?;
    for (place, column) in columns.iter().enumerate() {
        let cell = cell_of_word(alloc, column, place, words)?;
        cells.push(cell)?;
    }
    Ok(Row::from_vec(cells))
}

/// The cell of the column at a place, whose field is the word at that place.
fn cell_of_word(
    alloc: Global,
    column: &Column,
    place: usize,
    words: &[Text],
) -> Result<Cell, LoadRefusal>
    requires column { IsColumn column.now }
    requires within { place < length words.now }
    ensures cell { (result ≡ Err LoadRefusal.OutOfMemory) ⊎ (result ≡ cell_at 1 words.now (place, (column.now, place))) }
    ensures of_column { IfOk result (IsCellOf column.now.kind) }
{
    match read_cell(alloc, column, words[place].as_str().as_bytes()) {
        Ok(cell) => Ok(cell),
        Err(ReadCellFault::Bad(why)) => Err(LoadRefusal::BadCell {
            number: 1,
            column: place as u64,
            why,
        }),
        Err(ReadCellFault::OutOfMemory) => Err(LoadRefusal::OutOfMemory),
    }
}
