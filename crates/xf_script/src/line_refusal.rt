//! Why a line says no command, and where.
ghost use Rattle.std.specs.Prelude.{◌≡◌};

use std::alloc::{AllocError, AllocFailed};
use thiserror::Error;
use xf_base::OutOfMemory;
use xf_filter::FilterSyntax;

/// Why a line says no command: the first that holds, in this order, but that of `Word` and `TooDeep` the one with the
/// lower number comes. Words are numbered from 1.
#[derive(Clone, Copy, Debug, PartialEq, Eq, Error)]
pub enum LineRefusal {
    /// The line has so many bytes, above 65,536.
    #[error("line too long {length}")]
    TooLong { length: u64 },
    /// The line is not UTF-8: its longest part from the front that is UTF-8 has so many bytes.
    #[error("not text {place}")]
    NotText { place: u64 },
    /// The first word is no verb.
    #[error("unknown verb")]
    Verb,
    /// The first word that does not fit or is malformed; one past the last where words are wanting.
    #[error("bad word {number}")]
    Word { number: u64 },
    /// The first word that begins a predicate inside 16 others.
    #[error("nested too deep {number}")]
    TooDeep { number: u64 },
    /// Memory was refused.
    #[error("out of memory")]
    OutOfMemory,
}

impl From<OutOfMemory> for LineRefusal {
    ghost use Rattle.xf_script.specs.declared.line_refusal.LineRefusal.TheVariants.{OutOfMemory};

    ghost from_gives = { λ _ e. e ≡ OutOfMemory };

    fn from(_error: OutOfMemory) -> LineRefusal {
        LineRefusal::OutOfMemory
    }
}

impl From<AllocError> for LineRefusal {
    ghost use Rattle.xf_script.specs.declared.line_refusal.LineRefusal.TheVariants.{OutOfMemory};

    ghost from_gives = { λ _ e. e ≡ OutOfMemory };

    fn from(_error: AllocError) -> LineRefusal {
        LineRefusal::OutOfMemory
    }
}

impl<T: Drop> From<AllocFailed<T>> for LineRefusal {
    ghost use Rattle.xf_script.specs.declared.line_refusal.LineRefusal.TheVariants.{OutOfMemory};

    ghost from_gives = { λ _ e. e ≡ OutOfMemory };

    fn from(_error: AllocFailed<T>) -> LineRefusal {
        LineRefusal::OutOfMemory
    }
}

impl From<FilterSyntax> for LineRefusal {
    ghost use Rattle.xf_filter.specs.declared.filter_syntax.FilterSyntax.{FilterSyntax};
    ghost use Rattle.xf_script.specs.Grammar.{refusal_of};

    ghost from_gives = { λ syntax refusal. refusal ≡ refusal_of syntax };

    fn from(syntax: FilterSyntax) -> LineRefusal {
        match syntax {
            FilterSyntax::Word { number } => LineRefusal::Word { number },
            FilterSyntax::TooDeep { number } => LineRefusal::TooDeep { number },
            FilterSyntax::OutOfMemory => LineRefusal::OutOfMemory,
        }
    }
}
