//! The keywords of the commands.
ghost use Rattle.std.specs.Prelude.{◌≡◌};
ghost use Rattle.xf_script.specs.Openers.{accessor_opener_of, reducer_opener_of, removal_of, rounding_opener_of, sort_of, verb_of};

/// The first word of a command.
#[derive(Clone, Copy, Debug, PartialEq, Eq)]
pub enum Verb {
    Load,
    Add,
    Filter,
    Toggle,
    Clear,
    ClearAll,
    Remove,
    Dimension,
    Group,
    Whole,
    Order,
    Dispose,
    Top,
    Bottom,
    Groups,
    GroupTop,
    Value,
    Records,
    Size,
    Passing,
    Events,
    Note,
}

/// Which records `remove` removes.
#[derive(Clone, Copy, Debug, PartialEq, Eq)]
pub enum Removal {
    Passing,
    Where,
}

/// The sorts of things that may be disposed of.
#[derive(Clone, Copy, Debug, PartialEq, Eq)]
pub enum Sort {
    Dimension,
    Group,
    Whole,
}

/// How an accessor begins.
#[derive(Clone, Copy, Debug, PartialEq, Eq)]
pub enum AccessorOpener {
    Column,
    Pair,
    Tags,
    Weekday,
    Month,
}

/// How a rounding begins.
#[derive(Clone, Copy, Debug, PartialEq, Eq)]
pub enum RoundingOpener {
    Same,
    Floor,
    Month,
    Year,
    Letters,
}

/// How a reducer begins.
#[derive(Clone, Copy, Debug, PartialEq, Eq)]
pub enum ReducerOpener {
    Count,
    Sum,
    SumCount,
    SumSquares,
    Spread,
    Both,
}

/// The verb that a word is.
pub fn verb_of(word: &str) -> Option<Verb>
    ensures { result ≡ verb_of word.now }
{
    Some(match word {
        "load" => Verb::Load,
        "add" => Verb::Add,
        "filter" => Verb::Filter,
        "toggle" => Verb::Toggle,
        "clear" => Verb::Clear,
        "clearall" => Verb::ClearAll,
        "remove" => Verb::Remove,
        "dimension" => Verb::Dimension,
        "group" => Verb::Group,
        "whole" => Verb::Whole,
        "order" => Verb::Order,
        "dispose" => Verb::Dispose,
        "top" => Verb::Top,
        "bottom" => Verb::Bottom,
        "groups" => Verb::Groups,
        "grouptop" => Verb::GroupTop,
        "value" => Verb::Value,
        "records" => Verb::Records,
        "size" => Verb::Size,
        "passing" => Verb::Passing,
        "events" => Verb::Events,
        "note" => Verb::Note,
        _ => return None,
    })
}

/// What a word behind `remove` names.
pub fn removal_of(word: &str) -> Option<Removal>
    ensures { result ≡ removal_of word.now }
{
    match word {
        "passing" => Some(Removal::Passing),
        "where" => Some(Removal::Where),
        _ => None,
    }
}

/// The sort that a word behind `dispose` names.
pub fn sort_of(word: &str) -> Option<Sort>
    ensures { result ≡ sort_of word.now }
{
    match word {
        "dimension" => Some(Sort::Dimension),
        "group" => Some(Sort::Group),
        "whole" => Some(Sort::Whole),
        _ => None,
    }
}

/// The accessor that a word begins.
pub fn accessor_opener_of(word: &str) -> Option<AccessorOpener>
    ensures { result ≡ accessor_opener_of word.now }
{
    match word {
        "column" => Some(AccessorOpener::Column),
        "pair" => Some(AccessorOpener::Pair),
        "tags" => Some(AccessorOpener::Tags),
        "weekday" => Some(AccessorOpener::Weekday),
        "month" => Some(AccessorOpener::Month),
        _ => None,
    }
}

/// The rounding that a word begins.
pub fn rounding_opener_of(word: &str) -> Option<RoundingOpener>
    ensures { result ≡ rounding_opener_of word.now }
{
    match word {
        "same" => Some(RoundingOpener::Same),
        "floor" => Some(RoundingOpener::Floor),
        "month" => Some(RoundingOpener::Month),
        "year" => Some(RoundingOpener::Year),
        "letters" => Some(RoundingOpener::Letters),
        _ => None,
    }
}

/// The reducer that a word begins.
pub fn reducer_opener_of(word: &str) -> Option<ReducerOpener>
    ensures { result ≡ reducer_opener_of word.now }
{
    match word {
        "count" => Some(ReducerOpener::Count),
        "sum" => Some(ReducerOpener::Sum),
        "sumcount" => Some(ReducerOpener::SumCount),
        "sumsquares" => Some(ReducerOpener::SumSquares),
        "spread" => Some(ReducerOpener::Spread),
        "both" => Some(ReducerOpener::Both),
        _ => None,
    }
}
