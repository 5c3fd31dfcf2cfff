//! A depot over the files of the system.
ghost use Rattle.std.specs.Prelude.{◌≡◌, ◌≢◌, ℕ, ◌+◌, ◌<◌, ◌≤◌, ◌↔◌, length, OnOk, IfOk, IfErr, IfSome, IsErrAnd, IsErrOf, IsSome};
ghost use Rattle.std.specs.Io.KnownBytes.{Consumes, IsAtEnd};
ghost use Rattle.std.specs.IoError.{error_kind};
ghost use Rattle.xf_outside.specs.Count.{Rose, RoseExactly};
ghost use Rattle.xf_outside.specs.Fetch.{CountsTaken, bytes_left, counts_after};

use crate::counted_file::{CountedFile, FetchCounts};
use crate::depot::{Depot, FetchFault};
use std::alloc::Global;
use std::io::{ErrorKind, Read};
use std::marker::Model;
use std::rt::Files;
use std::{fs, io};
use thiserror::Error;

/// How many bytes are asked for at a time.
const PIECE: usize = 16_384;

/// Why a fetch gave no bytes, in words for a person.
#[derive(Clone, Copy, Debug, Error)]
pub enum FetchCause {
    /// The system says that there is no such file.
    #[error("no such file")]
    Absent,
    /// The file has more bytes than the limit that was given.
    #[error("more than {limit} bytes")]
    TooLong { limit: u64 },
    /// The system said this at the opening or at a read.
    #[error("{0}")]
    Failed(io::Error),
    /// Memory was refused.
    #[error("out of memory")]
    OutOfMemory,
}

/// A fetch that gave no bytes.
#[derive(Debug, Drop)]
pub struct FetchFailure {
    /// The name that was asked for, or None where memory was refused for a copy of it.
    pub name: Option<String>,
    /// Why there were none.
    pub cause: FetchCause,
}

/// A depot over the files of a runtime. It tells nothing of what they hold, and counts what failed.
#[derive(Drop)]
pub struct FileDepot<R> {
    rt: R,
    counts: FetchCounts,
    failure: Option<FetchFailure>,
}

impl<R> Model for FileDepot<R> {
    ghost use Rattle.xf_outside.specs.declared.counted_file.FetchCounts.{FetchCounts};

    ghost Value = { FetchCounts };

    ghost view = { λ depot. depot.counts };
}

impl<R> FileDepot<R> {
    /// A depot that has counted nothing yet. A name is a path, taken from the folder that the program runs in where it
    /// begins with no slash; one that the system cannot take, as with a NUL in it, fails.
    pub fn new(rt: R) -> FileDepot<R>
        ensures { result ≡ record { faults = 0; misses = 0; taken = 0; ends = 0 } }
    {
        FileDepot {
            rt,
            counts: FetchCounts::new(),
            failure: None,
        }
    }

    /// The last fetch that gave no bytes. It is for a person to read, and no contract sees it.
    pub fn failure(&self) -> Option<&FetchFailure> {
        self.failure.as_ref()
    }
}

impl<R: Files> Depot for FileDepot<R> {
    ghost use Rattle.xf_outside.specs.Fetch.{untold_account};

    ghost account = { untold_account };

    fn fetch(&mut self, alloc: Global, name: &str, limit: u64) -> Result<Vec<u8>, FetchFault>
        ensures counts { self.new ≡ counts_after result self.old self.new.taken }
        ensures misses_stay { self.old.misses ≤ self.new.misses }
        ensures taken_stay { self.old.taken ≤ self.new.taken }
        ensures few { self.new.taken ≤ self.old.taken + limit + 1 }

        ensures fetched { IfOk result (λ bytes. (length bytes.items ≤ limit) × RoseExactly self.old.taken self.new.taken (length bytes.items)) }
        ensures too_long { IsErrOf result FetchFault.TooLong → Rose self.old.taken self.new.taken (limit + 1) }
    {
        let mut file = CountedFile::new(fs::open(&self.rt, name), self.counts);
        let fetched = read_whole(alloc, &mut file, limit);
        self.counts = file.counts();
        if let Err(fault) = &fetched {
            let name = String::from_str(alloc, name).ok();
            let cause = cause_of(*fault, limit, file.failure());
            self.failure = Some(FetchFailure { name, cause });
        }
        fetched
    }
}

/// Why a fetch was answered with a fault, where the limit was this and the system said that of a failure.
fn cause_of(fault: FetchFault, limit: u64, failure: Option<io::Error>) -> FetchCause
    requires { fault ≡ FetchFault.Failed → IsSome failure }
{
    match fault {
        FetchFault::Absent => FetchCause::Absent,
        FetchFault::TooLong => FetchCause::TooLong { limit },
        FetchFault::Failed => FetchCause::Failed(failure.unwrap()),
        FetchFault::OutOfMemory => FetchCause::OutOfMemory,
    }
}

/// All bytes that are left in a file, where there are at most `limit`.
fn read_whole<F: Read>(
    alloc: Global,
    file: &mut CountedFile<F>,
    limit: u64,
) -> Result<Vec<u8>, FetchFault>
    // The bytes are all that the file had left, and it is at its end.
    ensures within { IfOk result (λ bytes. length bytes.items ≤ limit) }
    ensures whole { IfOk result (λ bytes. Consumes (bytes_left F.remaining file.old) (bytes_left F.remaining file.new) bytes.items) }
    ensures end { OnOk result (IsAtEnd (bytes_left F.remaining file.new)) }

    ensures absent { (result ≡ Err FetchFault.Absent) ↔ IsErrAnd file.old.opened (λ error. error_kind error ≡ ErrorKind.NotFound) }
    ensures unopened { IfErr file.old.opened (λ error.
        error_kind error ≢ ErrorKind.NotFound → (result ≡ Err FetchFault.Failed) × (file.new.failure ≡ Some error)) }
    ensures caused { IsErrOf result FetchFault.Failed → IsSome file.new.failure }
    ensures too_long { IsErrOf result FetchFault.TooLong → IfSome (bytes_left F.remaining file.old) (λ all. limit < length all) }

    // Each failure is counted once, and what was read, which is one byte beyond the limit at most.
    ensures counts { file.new.counts ≡ counts_after result file.old.counts file.new.counts.taken }
    ensures taken { CountsTaken (bytes_left F.remaining file.old) (bytes_left F.remaining file.new)
        file.old.counts.taken file.new.counts.taken (limit + 1) }
    ensures taken_whole { IfOk result (λ bytes. RoseExactly file.old.counts.taken file.new.counts.taken (length bytes.items)) }
    ensures taken_long { IsErrOf result FetchFault.TooLong → Rose file.old.counts.taken file.new.counts.taken (limit + 1) }
{
    let mut piece = [0u8; PIECE];
    let mut bytes = Vec::new(alloc);
    while bytes.len() as u64 <= limit {
        let room = (limit - bytes.len() as u64).saturating_add(1);
        let count = file.read(&mut piece, room)?;
        if count == 0 {
            return Ok(bytes);
        }
        bytes.extend_from_slice(&piece[..count])?;
    }
    Err(FetchFault::TooLong)
}
