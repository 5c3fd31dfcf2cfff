//! The session with which a board's file begins, or why it has none.
ghost use Rattle.std.specs.Prelude.{◌≡◌, ◌⊎◌, Err, IfOk};
ghost use Rattle.xf_app.specs.Start.{board_start, data_start, start_in};
ghost use Rattle.xf_base.specs.Bounds.{standard};
ghost use Rattle.xf_session.specs.Start.{board_session};

use std::alloc::Global;
use thiserror::Error;
use xf_base::{Limits, OutOfMemory};
use xf_board::{Board, BoardRefusal, read_board};
use xf_reply::Refusal;
use xf_session::{CsvStart, Session};

/// Why a board's file has no session.
#[derive(Debug, Drop, Error)]
pub enum StartRefusal {
    /// It is data, and not such as a board is made of.
    #[error("the data is no board")]
    Data(Refusal),
    /// It is a board file, and breaks a rule.
    #[error("the board breaks a rule")]
    Board(BoardRefusal),
    /// Memory was refused.
    #[error("out of memory")]
    OutOfMemory,
}

impl From<OutOfMemory> for StartRefusal {
    ghost use Rattle.std.specs.Prelude.{◌≡◌};
    ghost use Rattle.xf_app.specs.declared.start.StartRefusal.TheVariants.{OutOfMemory};

    ghost from_gives = { λ _ refusal. refusal ≡ OutOfMemory };

    fn from(_error: OutOfMemory) -> StartRefusal {
        StartRefusal::OutOfMemory
    }
}

/// The session with which the file of a name begins: where the name ends in `.csv` the bytes are data and make a board of
/// their own, else they are a board file.
pub fn start_of(alloc: Global, name: &str, bytes: &[u8]) -> Result<Session, StartRefusal>
    ensures { (result ≡ Err StartRefusal.OutOfMemory) ⊎ (result ≡ start_in name.now bytes.now) }
{
    if name.as_bytes().ends_with(b".csv") {
        start_of_data(alloc, bytes)
    } else {
        start_of_board(alloc, bytes)
    }
}

/// The session of data.
fn start_of_data(alloc: Global, bytes: &[u8]) -> Result<Session, StartRefusal>
    ensures { (result ≡ Err StartRefusal.OutOfMemory) ⊎ (result ≡ data_start bytes.now) }
{
    match Session::from_csv(alloc, bytes, Limits::standard()) {
        Ok(session) => Ok(session),
        Err(CsvStart::Refused(cause)) => Err(StartRefusal::Data(cause)),
        Err(CsvStart::OutOfMemory) => Err(StartRefusal::OutOfMemory),
    }
}

/// The session of a board file.
fn start_of_board(alloc: Global, bytes: &[u8]) -> Result<Session, StartRefusal>
    ensures { (result ≡ Err StartRefusal.OutOfMemory) ⊎ (result ≡ board_start bytes.now) }
{
    match read_board(alloc, bytes) {
        Ok(board) => Ok(session_of(alloc, board)?),
        Err(BoardRefusal::OutOfMemory) => Err(StartRefusal::OutOfMemory),
        Err(cause) => Err(StartRefusal::Board(cause)),
    }
}

/// The session of a board: each is within the standard limits.
fn session_of(alloc: Global, board: Board) -> Result<Session, OutOfMemory>
    ensures { IfOk result (λ session. session ≡ board_session standard board) }
{
    let _sound = board.is_sound();
    Session::new(alloc, board, Limits::standard())
}
