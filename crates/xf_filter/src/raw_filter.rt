//! Filters as a session names them: their keys are words that are not read yet.
ghost use Rattle.std.specs.Prelude.{◌≡◌};
ghost use Rattle.xf_filter.specs.Spelling.{IsReadable};

use sqlite_items::{Boxed, Items};
use std::marker::Model;
use xf_base::Text;

/// A filter whose keys are words. It is made by `read_filter` alone.
#[derive(Debug, Drop)]
pub struct RawFilter {
    parts: RawFilterParts,
}

/// An item whose keys are words. It is made by `read_item` alone.
#[derive(Debug, Drop)]
pub struct RawItem {
    parts: RawItemParts,
}

/// The kinds of filters.
#[derive(Debug, Drop)]
pub enum RawFilterParts {
    All,
    Exact(Text),
    Range(Text, Text),
    Func(RawPredicate),
}

/// The kinds of items.
#[derive(Debug, Drop)]
pub enum RawItemParts {
    Exact(Text),
    Range(Text, Text),
}

/// A predicate whose keys are words.
#[derive(Debug, Drop)]
pub enum RawPredicate {
    OneOf(Items<RawItemParts>),
    Prefix(Text),
    /// The divisor and the remainder.
    Modulo(i64, i64),
    Not(Boxed<RawPredicate>),
    And(Boxed<RawPredicate>, Boxed<RawPredicate>),
    Or(Boxed<RawPredicate>, Boxed<RawPredicate>),
}

impl Model for RawFilter {
    ghost use Rattle.std.specs.Coded.{codes};
    ghost use Rattle.xf_filter.specs.contracts.raw_filter.RawPredicate as e;
    ghost use Rattle.xf_filter.specs.declared.raw_filter.RawFilterParts.{RawFilterParts};
    ghost use Rattle.xf_filter.specs.Spelling.{IsReadable};

    ghost Value = { RawFilterParts };

    ghost coded = { Prim.hlevel (codes, e.the_row.coded) };

    ghost view = { λ f. f.parts };

    ghost invariant = { λ f. IsReadable f.parts };
}

impl Model for RawItem {
    ghost use Rattle.xf_filter.specs.declared.raw_filter.RawItemParts.{RawItemParts};

    ghost Value = { RawItemParts };

    ghost view = { λ i. i.parts };
}

impl RawFilter {
    /// A filter that was read.
    pub(crate) fn of(parts: RawFilterParts) -> RawFilter
        requires { IsReadable parts }
        ensures { result ≡ parts }
    {
        RawFilter { parts }
    }

    pub(crate) fn parts(&self) -> &RawFilterParts
        ensures same { result.now ≡ self.now }
        ensures filtering { IsReadable self.now }
    {
        &self.parts
    }
}

impl RawItem {
    /// An item that was read.
    pub(crate) fn of(parts: RawItemParts) -> RawItem
        ensures { result ≡ parts }
    {
        RawItem { parts }
    }

    pub(crate) fn parts(&self) -> &RawItemParts
        ensures { result.now ≡ self.now }
    {
        &self.parts
    }
}
