//! Why words are no filter, and where.
ghost use Rattle.std.specs.Prelude.{◌≡◌, ◌<◌, ◌+◌, ◌-◌, ◌^◌};
ghost use Rattle.xf_filter.specs.Reading.{numbered};

use std::alloc::{AllocError, AllocFailed};
use thiserror::Error;
use xf_base::OutOfMemory;

/// Why words are no filter or item. Words are numbered from 1.
#[derive(Clone, Copy, Debug, PartialEq, Eq, Error)]
pub enum FilterSyntax {
    /// The first word with which nothing in the grammar goes on; one past the last where words are wanting.
    #[error("bad word {number}")]
    Word { number: u64 },
    /// The first word that begins a predicate inside 16 others.
    #[error("nested too deep {number}")]
    TooDeep { number: u64 },
    /// Memory was refused.
    #[error("out of memory")]
    OutOfMemory,
}

/// What is wrong with words, with how many are left from there on.
#[derive(Clone, Copy, Debug, PartialEq, Eq)]
pub enum Fault {
    BadWord(usize),
    TooDeep(usize),
}

/// Why nothing was read.
#[derive(Clone, Copy, Debug, PartialEq, Eq, Error)]
pub enum ReadError {
    #[error("fault")]
    Fault(Fault),
    #[error("out of memory")]
    OutOfMemory,
}

impl From<OutOfMemory> for ReadError {
    ghost use Rattle.xf_filter.specs.declared.filter_syntax.ReadError.TheVariants.{OutOfMemory};

    ghost from_gives = { λ _ e. e ≡ OutOfMemory };

    fn from(_error: OutOfMemory) -> ReadError {
        ReadError::OutOfMemory
    }
}

impl From<AllocError> for ReadError {
    ghost use Rattle.xf_filter.specs.declared.filter_syntax.ReadError.TheVariants.{OutOfMemory};

    ghost from_gives = { λ _ e. e ≡ OutOfMemory };

    fn from(_error: AllocError) -> ReadError {
        ReadError::OutOfMemory
    }
}

impl<T: Drop> From<AllocFailed<T>> for ReadError {
    ghost use Rattle.xf_filter.specs.declared.filter_syntax.ReadError.TheVariants.{OutOfMemory};

    ghost from_gives = { λ _ e. e ≡ OutOfMemory };

    fn from(_error: AllocFailed<T>) -> ReadError {
        ReadError::OutOfMemory
    }
}

impl Fault {
    /// The fault with the number of its word among so many.
    pub fn numbered(&self, words: usize) -> FilterSyntax
        requires { words < 2 ^ 63 }
        ensures { result ≡ numbered words self.now }
    {
        match self {
            Fault::BadWord(left) => FilterSyntax::Word {
                number: number_of(words, *left),
            },
            Fault::TooDeep(left) => FilterSyntax::TooDeep {
                number: number_of(words, *left),
            },
        }
    }
}

/// The number of the word from which on so many are left.
fn number_of(words: usize, left: usize) -> u64
    requires { words < 2 ^ 63 }
    ensures { result ≡ words + 1 - left }
{
    (words as u64 + 1).saturating_sub(left as u64)
}
