//! Why words name nothing.
use thiserror::Error;
use xf_base::Text;

/// Why a column that words name does not fit.
#[derive(Debug, Drop, Error)]
pub enum ColumnRefusal {
    /// The schema has no column of the name.
    #[error("no column")]
    NoColumn { name: Text },
    /// The column is of a kind that is not taken there.
    #[error("wrong column")]
    WrongColumn { name: Text },
}
