//! A live group: what it is of, and its values.
ghost use Rattle.std.specs.Prelude.{◌≡◌, ◌<◌, ◌^◌, filter, length, map, position};
ghost use Rattle.xf_engine.specs.Folding.{regrouped};
ghost use Rattle.xf_engine.specs.Held.{held_group_ids, is_elsewhere};
ghost use Rattle.xf_engine.specs.State.{IsFreeId};
ghost use Rattle.std.specs.Prelude.{◌==◌};

use crate::ids::{DimensionId, GroupId};
use xf_group::GroupOrder;

/// A live group: its dimension, what rounds its keys, by which field its top is ranked, and its values.
#[derive(Drop)]
pub struct Grouping<G, T> {
    pub id: GroupId,
    pub dimension: DimensionId,
    pub rounding: G,
    pub order: GroupOrder,
    pub group: T,
}

/// The place of the group of an id.
pub fn group_place<G, T>(groups: &[Grouping<G, T>], id: GroupId) -> Option<usize>
    ensures { result ≡ position (λ group. group.id.0 == id.0) groups.now }
{
    for (place, group) in groups.iter().enumerate() {
        if group.id.0 == id.0 {
            return Some(place);
        }
    }
    None
}

/// The least id that no group has.
pub fn free_group_id<G, T>(groups: &[Grouping<G, T>]) -> GroupId
    requires { length groups.now < 2 ^ 32 }
    ensures { IsFreeId (held_group_ids groups.now) result.0 }
{
    let mut id = 0;
    while group_place(groups, GroupId(id)).is_some() {
        id += 1;
    }
    GroupId(id)
}

/// Takes the groups of a dimension away.
pub fn drop_groups_of<G: Drop, T: Drop>(groups: &mut Vec<Grouping<G, T>>, dimension: DimensionId)
    ensures { groups.new.items ≡ filter (is_elsewhere dimension.0) groups.old.items }
{
    let mut place = 0;
    while place < groups.len() {
        if groups[place].dimension.0 == dimension.0 {
            groups.remove(place);
        } else {
            place += 1;
        }
    }
}

/// Puts other values in place of those of each group.
pub fn regroup<G, T: Drop>(groups: &mut [Grouping<G, T>], values: Vec<T>)
    requires { length values.items ≡ length groups.old }
    ensures { groups.new ≡ regrouped groups.old values.items }
{
    let mut place = 0;
    for value in values {
        groups[place].group = value;
        place += 1;
    }
}
