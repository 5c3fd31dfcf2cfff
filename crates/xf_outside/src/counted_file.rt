//! A file of the system that counts what it gives and how often it fails.
ghost use Rattle.std.specs.Prelude.{◌≡◌, ◌≢◌, ◌<◌, ◌≤◌, ◌↔◌, ◌⊎◌, length, take, IfOk, IfErr, OnOk, OnErr, IsOk, IsErrAnd, IsErrOf, IsSome};
ghost use Rattle.std.specs.Io.KnownBytes.{Consumes, IsAtEnd, Keeps};
ghost use Rattle.std.specs.IoError.{error_kind};
ghost use Rattle.xf_outside.specs.Count.{count_after};

use crate::depot::FetchFault;
use std::io;
use std::io::{ErrorKind, Read};

/// What was counted while files were fetched. No other module can change it.
#[derive(Clone, Copy)]
pub struct FetchCounts {
    /// The calls that failed.
    faults: u64,
    /// The names that no file had.
    misses: u64,
    /// The bytes that were read.
    taken: u64,
    /// The reads that found a file at its end.
    ends: u64,
}

impl FetchCounts {
    /// Nothing was counted yet.
    pub fn new() -> FetchCounts
        ensures { result ≡ record { faults = 0; misses = 0; taken = 0; ends = 0 } }
    {
        FetchCounts {
            faults: 0,
            misses: 0,
            taken: 0,
            ends: 0,
        }
    }
}

/// A file as its opening gave it: open, or the error of the opening. What it gives is counted, and so is each failure,
/// and no other module can read from it past the counts.
#[derive(Drop)]
pub struct CountedFile<F> {
    opened: io::Result<F>,
    counts: FetchCounts,
    failure: Option<io::Error>,
}

impl<F: Read> CountedFile<F> {
    ghost use Rattle.xf_outside.specs.Fetch.{bytes_left, counts_after, counts_after_read};

    /// A file that counts on from these counts.
    pub fn new(opened: io::Result<F>, counts: FetchCounts) -> CountedFile<F>
        ensures { result ≡ record { opened = opened; counts = counts; failure = None } }
    {
        CountedFile {
            opened,
            counts,
            failure: None,
        }
    }

    /// The counts so far.
    pub fn counts(&self) -> FetchCounts
        ensures { result ≡ self.now.counts }
    {
        self.counts
    }

    /// The error of the last call that failed.
    pub fn failure(&self) -> Option<io::Error>
        ensures { result ≡ self.now.failure }
    {
        self.failure
    }

    /// One read into the front of a piece, of at most `most` bytes. It gives 0 only at the end of the file. Where the
    /// file was not opened, the answer is what the error of its opening means: that there is no such file, or else a
    /// failure.
    pub fn read(&mut self, piece: &mut [u8], most: u64) -> Result<usize, FetchFault>
        requires piece { 0 < length piece.old }
        requires most { 0 < most }
        ensures bound { IfOk result (λ count. (count ≤ length piece.new) × (count ≤ most)) }
        ensures bytes { IfOk result (λ count.
            Consumes (bytes_left F.remaining self.old) (bytes_left F.remaining self.new) (take count piece.new)) }
        ensures end { IfOk result (λ count. count ≡ 0 → IsAtEnd (bytes_left F.remaining self.new)) }
        ensures opened { OnOk result (IsOk self.old.opened × IsOk self.new.opened) }
        ensures err { OnErr result (Keeps (bytes_left F.remaining self.old) (bytes_left F.remaining self.new)) }
        ensures only { OnErr result ((result ≡ Err FetchFault.Absent) ⊎ (result ≡ Err FetchFault.Failed)) }
        ensures absent { (result ≡ Err FetchFault.Absent) ↔ IsErrAnd self.old.opened (λ error. error_kind error ≡ ErrorKind.NotFound) }
        ensures unopened { IfErr self.old.opened (λ error.
            error_kind error ≢ ErrorKind.NotFound → (result ≡ Err FetchFault.Failed) × (self.new.failure ≡ Some error)) }
        ensures caused { IsErrOf result FetchFault.Failed → IsSome self.new.failure }

        ensures counts { IfOk result (λ count. self.new.counts ≡ counts_after_read self.old.counts count) }
        ensures failed { OnErr result (self.new.counts ≡ counts_after result self.old.counts self.old.counts.taken) }
    {
        let most = most.min(piece.len() as u64) as usize;
        match &mut self.opened {
            Ok(file) => match file.read(&mut piece[..most]) {
                Ok(count) => {
                    self.counts.taken = self.counts.taken.saturating_add(count as u64);
                    if count == 0 {
                        self.counts.ends = self.counts.ends.saturating_add(1);
                    }
                    Ok(count)
                }
                Err(error) => Err(self.fail(error)),
            },
            Err(error) if error.kind() == ErrorKind::NotFound => {
                self.counts.misses = self.counts.misses.saturating_add(1);
                Err(FetchFault::Absent)
            }
            Err(error) => {
                let error = *error;
                Err(self.fail(error))
            }
        }
    }

    /// Counts a failure and keeps its error.
    fn fail(&mut self, error: io::Error) -> FetchFault
        ensures fault { result ≡ FetchFault.Failed }
        ensures kept { self.new ≡ record self.old {
          failure = Some error;
          counts = record self.old.counts { faults = count_after self.old.counts.faults 1 };
        } }
    {
        self.counts.faults = self.counts.faults.saturating_add(1);
        self.failure = Some(error);
        FetchFault::Failed
    }
}
