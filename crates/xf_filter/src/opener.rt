//! The words with which filters, items and predicates begin.
ghost use Rattle.std.specs.Prelude.{◌≡◌};
ghost use Rattle.xf_filter.specs.Words.{filter_opener_of, item_opener_of, predicate_opener_of};

/// How a filter begins.
#[derive(Clone, Copy, Debug, PartialEq, Eq)]
pub enum FilterOpener {
    All,
    Exact,
    Range,
    Func,
}

/// How an item begins.
#[derive(Clone, Copy, Debug, PartialEq, Eq)]
pub enum ItemOpener {
    Exact,
    Range,
}

/// How a predicate begins.
#[derive(Clone, Copy, Debug, PartialEq, Eq)]
pub enum PredicateOpener {
    OneOf,
    Prefix,
    Modulo,
    Not,
    And,
    Or,
}

/// The kind of filter that a word begins.
pub fn filter_opener_of(word: &str) -> Option<FilterOpener>
    ensures { result ≡ filter_opener_of word.now }
{
    match word {
        "all" => Some(FilterOpener::All),
        "exact" => Some(FilterOpener::Exact),
        "range" => Some(FilterOpener::Range),
        "func" => Some(FilterOpener::Func),
        _ => None,
    }
}

/// The kind of item that a word begins.
pub fn item_opener_of(word: &str) -> Option<ItemOpener>
    ensures { result ≡ item_opener_of word.now }
{
    match word {
        "exact" => Some(ItemOpener::Exact),
        "range" => Some(ItemOpener::Range),
        _ => None,
    }
}

/// The kind of predicate that a word begins.
pub fn predicate_opener_of(word: &str) -> Option<PredicateOpener>
    ensures { result ≡ predicate_opener_of word.now }
{
    match word {
        "oneof" => Some(PredicateOpener::OneOf),
        "prefix" => Some(PredicateOpener::Prefix),
        "modulo" => Some(PredicateOpener::Modulo),
        "not" => Some(PredicateOpener::Not),
        "and" => Some(PredicateOpener::And),
        "or" => Some(PredicateOpener::Or),
        _ => None,
    }
}
