//! Which rows pass, marked row by row.
ghost use Rattle.std.specs.Prelude.{◌≡◌, IfOk, map};
ghost use Rattle.std.specs.List.{range_with_len};
ghost use Rattle.xf_engine.specs.Held.{HoldEach, keys_pass, passes_each_at};

use crate::dimension::{Dimension, keys_pass, passes_each};
use std::alloc::Global;
use xf_base::{Key, OutOfMemory};
use xf_filter::{Filter, Predicate};
use xf_lists::Lists;

/// For each row, whether it passes each dimension.
pub fn passing_marks<A, P: Predicate>(
    alloc: Global,
    dimensions: &[Dimension<A, P>],
    count: usize,
) -> Result<Vec<bool>, OutOfMemory>
    requires { HoldEach count dimensions.now }
    ensures { IfOk result (λ marks. marks.items ≡ map (passes_each_at P.says_to dimensions.now) (range_with_len 0 count)) }
{
    let mut marks = Vec::with_capacity(alloc, count)?;
    for place in 0..count {
        marks.push(passes_each(dimensions, count, place))?;
    }
    Ok(marks)
}

/// For each row, whether its keys pass a filter.
pub fn marks_under<P: Predicate>(
    alloc: Global,
    keys: &Lists<Key>,
    filter: &Filter<P>,
) -> Result<Vec<bool>, OutOfMemory>
    ensures { IfOk result (λ marks. marks.items ≡ map (keys_pass P.says_to filter.now) keys.now) }
{
    let mut marks = Vec::with_capacity(alloc, keys.len())?;
    for place in 0..keys.len() {
        marks.push(keys_pass(filter, keys.list(place)))?;
    }
    Ok(marks)
}
