//! Calls with values worked by hand: each makes one call, and its contract says what that gives. So the contract of the
//! call is seen to say enough to know it.
ghost use Rattle.std.specs.Prelude.{◌≡◌, Some, IfOk, negsuc, true, false};
ghost use Rattle.xf_base.specs.declared.key.Key.TheVariants as key;
ghost use Rattle.xf_base.specs.declared.kind.KeyKind.TheVariants as kind;
ghost use Rattle.xf_filter.specs.declared.filter.Filter.TheVariants as filter;

use std::alloc::Global;
use xf_access::{Rounding, StockRounding};
use xf_base::{Key, KeyKind, OutOfMemory, Text};
use xf_filter::{Filter, Item, Predicate, StockPredicate, toggled};

/// Whether a range holds for its upper end.
pub fn holds_for_end() -> bool
    ensures { result ≡ false }
{
    let range: Filter<StockPredicate> = Filter::Range(Key::Num(0), Key::Num(7));
    range.holds(&Key::Num(7))
}

/// Whether a number below 0 has the remainder 2 by 3: remainders are counted from 0 on.
pub fn remainder_below_0() -> bool
    ensures { result ≡ true }
{
    StockPredicate::Modulo(3, 2).says(&Key::Num(-4))
}

/// Whether a number begins with a text.
pub fn number_begins(alloc: Global) -> Result<bool, OutOfMemory>
    ensures { IfOk result (λ says. says ≡ false) }
{
    let prefix = StockPredicate::Prefix(Text::of(alloc, "1")?);
    Ok(prefix.says(&Key::Num(1)))
}

/// The kind of the first key of a filter that is no number.
pub fn no_number(alloc: Global) -> Result<Option<KeyKind>, OutOfMemory>
    ensures { IfOk result (λ found. found ≡ Some kind.Text) }
{
    let exact: Filter<StockPredicate> = Filter::Exact(Key::Text(Text::of(alloc, "a")?));
    Ok(exact.misfit(&KeyKind::Num))
}

/// A number below 0, rounded to a multiple of 5: down.
pub fn floor_below_0(alloc: Global) -> Result<Key, OutOfMemory>
    ensures { IfOk result (λ rounded. rounded ≡ key.Num (negsuc 9)) }
{
    StockRounding::Floor(5).round(alloc, &Key::Num(-7))
}

/// The filter "exactly 1", with 1 toggled.
pub fn toggled_out(alloc: Global) -> Result<Filter<StockPredicate>, OutOfMemory>
    ensures { IfOk result (λ new. new ≡ filter.All) }
{
    toggled(alloc, &Filter::Exact(Key::Num(1)), Item::Exact(Key::Num(1)))
}
