//! What the words of a line name over the columns, or why the line is refused.
ghost use Rattle.std.specs.Prelude.{◌≡◌, None, Some, IfErr, IfOk, true};
ghost use Rattle.xf_access.specs.Stock.{fits_columns};
ghost use Rattle.xf_columns.specs.Columns.{accessor_of, reducer_of};
ghost use Rattle.xf_reduce.specs.StockReducer.{stock_fits};
ghost use Rattle.xf_session.specs.Columns.{accessor_causes, column_cause, reducer_causes};
ghost use Rattle.xf_session.specs.Command.{first_cause};

use xf_access::StockAccessor;
use xf_base::Schema;
use xf_columns::{AccessorWords, ColumnRefusal, ReducerWords, accessor_of, reducer_of};
use xf_reduce::StockReducer;
use xf_reply::Refusal;

/// The accessor that words name, or why a column does not fit.
pub fn find_accessor(schema: &Schema, words: AccessorWords) -> Result<StockAccessor, Refusal>
    ensures accessor { IfOk result (λ accessor. (accessor ≡ accessor_of schema.now words)
        × (first_cause (accessor_causes schema.now words) ≡ None) × (fits_columns accessor schema.now ≡ true)) }
    ensures refused { IfErr result (λ cause. first_cause (accessor_causes schema.now words) ≡ Some cause) }
{
    match accessor_of(schema, words) {
        Ok(accessor) => Ok(accessor),
        Err(cause) => Err(refused_column(cause)),
    }
}

/// The reducer that words name, or why a column does not fit.
pub fn find_reducer(schema: &Schema, words: ReducerWords) -> Result<StockReducer, Refusal>
    ensures reducer { IfOk result (λ reducer. (reducer ≡ reducer_of schema.now words)
        × (first_cause (reducer_causes schema.now words) ≡ None) × (stock_fits reducer schema.now ≡ true)) }
    ensures refused { IfErr result (λ cause. first_cause (reducer_causes schema.now words) ≡ Some cause) }
{
    match reducer_of(schema, words) {
        Ok(reducer) => Ok(reducer),
        Err(cause) => Err(refused_column(cause)),
    }
}

/// Why a column does not fit, as a line is refused for it.
fn refused_column(cause: ColumnRefusal) -> Refusal
    ensures { result ≡ column_cause cause }
{
    match cause {
        ColumnRefusal::NoColumn { name } => Refusal::NoColumn { name },
        ColumnRefusal::WrongColumn { name } => Refusal::WrongColumn { name },
    }
}
