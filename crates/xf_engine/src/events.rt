//! How often a crossfilter was changed.
ghost use Rattle.std.specs.Prelude.{◌≡◌};
ghost use Rattle.xf_engine.specs.Changes.{one_more};

/// How often records were added, how often some were removed, and how often a filter was set or all were cleared. A refused
/// call does not count; an accepted one counts also where it changes nothing else. Each count stops at `u64::MAX`.
#[derive(Clone, Copy, Debug, PartialEq, Eq)]
pub struct Events {
    pub added: u64,
    pub removed: u64,
    pub filtered: u64,
}

/// A number of events with one more.
pub fn one_more(count: u64) -> u64
    ensures { result ≡ one_more count }
{
    count.saturating_add(1)
}
