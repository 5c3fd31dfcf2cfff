//! The session with which a board begins, and that with which a CSV file begins.
ghost use Rattle.std.specs.Prelude.{◌≡◌, ◌⊎◌, ◌+◌, ◌*◌, ◌<◌, ◌≤◌, [], Err, IfErr, IfOk, None, Ok, OnOk, length, take, true};
ghost use Rattle.xf_access.specs.Stock.{keys_of_row};
ghost use Rattle.xf_board.specs.Board.{is_within};
ghost use Rattle.xf_engine.specs.Refusals.{add_refusal_of};
ghost use Rattle.xf_reply.specs.declared.refusal.Refusal.{Refusal as Cause};
ghost use Rattle.xf_session.specs.Command.{with_rows};
ghost use Rattle.xf_session.specs.Start.{bare_session, board_session, cause_of_sheet, csv_session, start_of, with_dimensions, with_groups, with_wholes};

use crate::names::Names;
use crate::schema::copy_schema;
use crate::session::Session;
use crate::standard::standard_board;
use std::alloc::Global;
use std::marker::Brand;
use std::sync::ledger::{Blank, Ledger};
use thiserror::Error;
use xf_base::{Limits, OutOfMemory, RowList, Steps};
use xf_board::Board;
use xf_engine::{AddRefusal, Cross, DimensionRefusal, GroupRefusal, WholeRefusal};
use xf_reply::Refusal;
use xf_sheet::{Sheet, SheetRefusal, read_sheet};

/// Why a CSV file has no session.
#[derive(Debug, Drop, Error)]
pub enum CsvStart {
    /// The file is no board of its own: it has no header, an uneven record, or too many records or entries.
    #[error("the file is no board")]
    Refused(Refusal),
    /// Memory was refused.
    #[error("out of memory")]
    OutOfMemory,
}

impl From<OutOfMemory> for CsvStart {
    ghost use Rattle.std.specs.Prelude.{◌≡◌};
    ghost use Rattle.xf_session.specs.declared.start.CsvStart.TheVariants.{OutOfMemory};

    ghost from_gives = { λ _ fault. fault ≡ OutOfMemory };

    fn from(_error: OutOfMemory) -> CsvStart {
        CsvStart::OutOfMemory
    }
}

impl Session {
    /// The session of a board, within limits that have room for it. Its dimensions, groups and wholes are made in the board's
    /// order, as the commands of a session make them; there are no records yet.
    pub fn new(alloc: Global, board: Board, limits: Limits) -> Result<Session, OutOfMemory>
        requires within { is_within board limits ≡ true }
        ensures { IfOk result (λ session. session ≡ board_session limits board) }
    {
        new_counted::<Brand>(alloc, board, limits, Blank::new(1))
    }

    /// The session of a CSV file that is its own board: each column whose every field is a whole number, at most the first
    /// 32 of them, is a dimension of its name with a group of that name, and the whole `all` counts. The records of the
    /// file are in it, added at once.
    pub fn from_csv(alloc: Global, bytes: &[u8], limits: Limits) -> Result<Session, CsvStart>
        requires dimensions { 32 ≤ limits.dimensions }
        requires groups { 33 ≤ limits.groups }
        ensures session { IfOk result (λ session. csv_session limits bytes.now ≡ Ok session) }
        ensures refused { IfErr result (λ start. (start ≡ CsvStart.OutOfMemory)
            ⊎ ((cause : Cause) × (start ≡ CsvStart.Refused cause) × (csv_session limits bytes.now ≡ Err cause))) }
    {
        match read_sheet(alloc, bytes, &limits) {
            Ok(sheet) => Ok(session_of(alloc, sheet, limits)?),
            Err(refusal) => Err(start_refusal(refusal)),
        }
    }

    /// The session of a board, with its steps counted.
    fn of_board<L: Ledger>(
        alloc: Global,
        board: Board,
        limits: Limits,
        steps: &mut Steps<L>,
    ) -> Result<Session, OutOfMemory>
        requires within { is_within board limits ≡ true }
        ensures { IfOk result (λ session. session ≡ board_session limits board) }
    {
        let mut session = Session::bare(alloc, board, limits)?;
        session.declare_dimensions(steps)?;
        session.declare_groups(steps)?;
        session.declare_wholes(steps)?;
        Ok(session)
    }

    /// A session on a board, without dimensions, groups, wholes and records.
    fn bare(alloc: Global, board: Board, limits: Limits) -> Result<Session, OutOfMemory>
        ensures { IfOk result (λ session. session ≡ bare_session limits board) }
    {
        let schema = copy_schema(alloc, board.schema())?;
        Ok(Session {
            alloc,
            board,
            cross: Cross::new(alloc, schema, limits),
            dimensions: Names::new(alloc),
            groups: Names::new(alloc),
            wholes: Names::new(alloc),
        })
    }

    /// Adds the dimensions of its board, in order.
    fn declare_dimensions<L: Ledger>(&mut self, steps: &mut Steps<L>) -> Result<(), OutOfMemory>
        requires within { is_within self.old.board self.old.cross.limits ≡ true }
        requires before { self.old ≡ with_dimensions self.old.cross.limits self.old.board [] }
        ensures { OnOk result (self.new ≡ with_dimensions self.old.cross.limits self.old.board self.old.board.dimensions) }
    {
        for place in 0..self.board.dimensions().len() {
            self.declare_dimension_at(place, steps)?;
        }
        Ok(())
    }

    /// Adds the dimension at a place of the board, after those before it.
    fn declare_dimension_at<L: Ledger>(
        &mut self,
        place: usize,
        steps: &mut Steps<L>,
    ) -> Result<(), OutOfMemory>
        requires within { is_within self.old.board self.old.cross.limits ≡ true }
        requires before { self.old ≡ with_dimensions self.old.cross.limits self.old.board (take place self.old.board.dimensions) }
        requires inside { place < length self.old.board.dimensions }
        ensures { OnOk result (self.new ≡ with_dimensions self.old.cross.limits self.old.board (take (place + 1) self.old.board.dimensions)) }
    {
        let (_own, _sound) = (self.is_sound(), self.board.is_sound());
        let dimension = &self.board.dimensions()[place];
        let (name, from) = (dimension.name.copy(self.alloc)?, dimension.from);
        match self.push_dimension(&name, from, steps) {
            Ok(()) => Ok(()),
            Err(DimensionRefusal::OutOfMemory) => Err(OutOfMemory),
            // The board is within the limits, and there are no records.
            Err(DimensionRefusal::TooManyDimensions { .. }) => unreachable!(),
            Err(DimensionRefusal::TooManyEntries { .. }) => unreachable!(),
        }
    }

    /// Adds the groups of its board with their orders, after all dimensions.
    fn declare_groups<L: Ledger>(&mut self, steps: &mut Steps<L>) -> Result<(), OutOfMemory>
        requires within { is_within self.old.board self.old.cross.limits ≡ true }
        requires before { self.old ≡ with_groups self.old.cross.limits self.old.board [] }
        ensures { OnOk result (self.new ≡ with_groups self.old.cross.limits self.old.board self.old.board.groups) }
    {
        for place in 0..self.board.groups().len() {
            self.declare_group_at(place, steps)?;
        }
        Ok(())
    }

    /// Adds the group at a place of the board, after those before it.
    fn declare_group_at<L: Ledger>(
        &mut self,
        place: usize,
        steps: &mut Steps<L>,
    ) -> Result<(), OutOfMemory>
        requires within { is_within self.old.board self.old.cross.limits ≡ true }
        requires before { self.old ≡ with_groups self.old.cross.limits self.old.board (take place self.old.board.groups) }
        requires inside { place < length self.old.board.groups }
        ensures { OnOk result (self.new ≡ with_groups self.old.cross.limits self.old.board (take (place + 1) self.old.board.groups)) }
    {
        let (_own, _sound) = (self.is_sound(), self.board.is_sound());
        let group = &self.board.groups()[place];
        let (name, of) = (group.name.copy(self.alloc)?, group.of.copy(self.alloc)?);
        let (round, reduce, order) = (group.round, group.reduce, group.order);
        let Some(naming) = self.naming(&of) else {
            // The board declares the dimension.
            unreachable!()
        };
        match self.push_group(&name, &of, naming, round, reduce, steps) {
            Ok(()) => {}
            Err(GroupRefusal::OutOfMemory) => return Err(OutOfMemory),
            // The dimension is there, and the board is within the limits.
            Err(GroupRefusal::NoDimension { .. }) => unreachable!(),
            Err(GroupRefusal::TooManyGroups { .. }) => unreachable!(),
        }
        let _ordered = self.order(name, Some(order));
        Ok(())
    }

    /// Adds the wholes of its board, after all groups.
    fn declare_wholes<L: Ledger>(&mut self, steps: &mut Steps<L>) -> Result<(), OutOfMemory>
        requires within { is_within self.old.board self.old.cross.limits ≡ true }
        requires before { self.old ≡ with_wholes self.old.cross.limits self.old.board [] }
        ensures { OnOk result (self.new ≡ board_session self.old.cross.limits self.old.board) }
    {
        for place in 0..self.board.wholes().len() {
            self.declare_whole_at(place, steps)?;
        }
        Ok(())
    }

    /// Adds the whole at a place of the board, after those before it.
    fn declare_whole_at<L: Ledger>(
        &mut self,
        place: usize,
        steps: &mut Steps<L>,
    ) -> Result<(), OutOfMemory>
        requires within { is_within self.old.board self.old.cross.limits ≡ true }
        requires before { self.old ≡ with_wholes self.old.cross.limits self.old.board (take place self.old.board.wholes) }
        requires inside { place < length self.old.board.wholes }
        ensures { OnOk result (self.new ≡ with_wholes self.old.cross.limits self.old.board (take (place + 1) self.old.board.wholes)) }
    {
        let (_own, _sound) = (self.is_sound(), self.board.is_sound());
        let whole = &self.board.wholes()[place];
        let (name, reduce) = (whole.name.copy(self.alloc)?, whole.reduce);
        match self.push_whole(&name, reduce, steps) {
            Ok(()) => Ok(()),
            Err(WholeRefusal::OutOfMemory) => Err(OutOfMemory),
            // The board is within the limits.
            Err(WholeRefusal::TooManyGroups { .. }) => unreachable!(),
        }
    }

    /// Adds rows that are not refused.
    fn put_rows<L: Ledger>(
        &mut self,
        rows: RowList,
        steps: &mut Steps<L>,
    ) -> Result<(), OutOfMemory>
        requires { add_refusal_of keys_of_row self.old.cross rows ≡ None }
        ensures { OnOk result (self.new ≡ with_rows self.old rows) }
    {
        match self.cross.add_records(rows, steps) {
            Ok(()) => Ok(()),
            Err(AddRefusal::OutOfMemory) => Err(OutOfMemory),
            // There is no other cause.
            Err(_) => unreachable!(),
        }
    }
}

/// The session of a board, in the ledger that the blank becomes. Nobody asks how many steps it takes.
fn new_counted<L: Ledger>(
    alloc: Global,
    board: Board,
    limits: Limits,
    blank: Blank,
) -> Result<Session, OutOfMemory>
    requires name { blank.name ≡ L.name }
    requires parts { blank.parts ≡ L.parts }
    requires some { 0 < blank.parts }
    requires within { is_within board limits ≡ true }
    ensures { IfOk result (λ session. session ≡ board_session limits board) }
{
    let mut steps = Steps::<L>::new(blank);
    Session::of_board(alloc, board, limits, &mut steps)
}

/// The session of a sheet. Nobody asks how many steps it takes.
fn session_of(alloc: Global, sheet: Sheet, limits: Limits) -> Result<Session, OutOfMemory>
    requires dimensions { 32 ≤ limits.dimensions }
    requires groups { 33 ≤ limits.groups }
    requires rows { length sheet.rows ≤ limits.rows }
    requires entries { length sheet.rows * length sheet.columns ≤ limits.entries }
    ensures { IfOk result (λ session. session ≡ start_of limits sheet) }
{
    session_counted::<Brand>(alloc, sheet, limits, Blank::new(1))
}

/// The same, in the ledger that the blank becomes.
fn session_counted<L: Ledger>(
    alloc: Global,
    sheet: Sheet,
    limits: Limits,
    blank: Blank,
) -> Result<Session, OutOfMemory>
    requires name { blank.name ≡ L.name }
    requires parts { blank.parts ≡ L.parts }
    requires some { 0 < blank.parts }
    requires dimensions { 32 ≤ limits.dimensions }
    requires groups { 33 ≤ limits.groups }
    requires rows { length sheet.rows ≤ limits.rows }
    requires entries { length sheet.rows * length sheet.columns ≤ limits.entries }
    ensures { IfOk result (λ session. session ≡ start_of limits sheet) }
{
    let mut steps = Steps::<L>::new(blank);
    let Sheet { schema, rows } = sheet;
    let board = standard_board(alloc, schema)?;
    let mut session = Session::of_board(alloc, board, limits, &mut steps)?;
    session.put_rows(rows, &mut steps)?;
    Ok(session)
}

/// Why a CSV file has no session, by why it is no sheet.
fn start_refusal(refusal: SheetRefusal) -> CsvStart
    ensures { ((refusal ≡ SheetRefusal.OutOfMemory) × (result ≡ CsvStart.OutOfMemory))
        ⊎ ((refusal ≡ SheetRefusal.OutOfMemory → ⊥) × (result ≡ CsvStart.Refused (cause_of_sheet refusal))) }
{
    match refusal {
        SheetRefusal::NoHeader => CsvStart::Refused(Refusal::NoHeader),
        SheetRefusal::UnevenRecord { number } => {
            CsvStart::Refused(Refusal::UnevenRecord { number })
        }
        SheetRefusal::TooManyRecords { more, limit } => {
            CsvStart::Refused(Refusal::TooManyRecords {
                have: 0,
                more,
                limit,
            })
        }
        SheetRefusal::TooManyEntries { more, limit } => {
            CsvStart::Refused(Refusal::TooManyEntries {
                have: 0,
                more,
                limit,
            })
        }
        SheetRefusal::OutOfMemory => CsvStart::OutOfMemory,
    }
}
