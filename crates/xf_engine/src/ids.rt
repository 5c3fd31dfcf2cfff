//! Ids of dimensions, groups and wholes. A new id is the least number that no live thing of its sort has.
use thiserror::Error;

/// The id of a dimension.
#[derive(Clone, Copy, Debug, PartialEq, Eq)]
pub struct DimensionId(pub u32);

/// The id of a group.
#[derive(Clone, Copy, Debug, PartialEq, Eq)]
pub struct GroupId(pub u32);

/// The id of a whole.
#[derive(Clone, Copy, Debug, PartialEq, Eq)]
pub struct WholeId(pub u32);

/// No live dimension has this id.
#[derive(Clone, Copy, Debug, PartialEq, Eq, Error)]
#[error("no dimension {id}")]
pub struct NoDimension {
    pub id: u32,
}

/// No live group has this id.
#[derive(Clone, Copy, Debug, PartialEq, Eq, Error)]
#[error("no group {id}")]
pub struct NoGroup {
    pub id: u32,
}

/// No live whole has this id.
#[derive(Clone, Copy, Debug, PartialEq, Eq, Error)]
#[error("no whole {id}")]
pub struct NoWhole {
    pub id: u32,
}
