//! A live whole: its reducer and its value.
ghost use Rattle.std.specs.Prelude.{◌≡◌, ◌==◌, ◌<◌, ◌^◌, length, position};
ghost use Rattle.xf_engine.specs.Folding.{revalued};
ghost use Rattle.xf_engine.specs.Held.{held_whole_ids};
ghost use Rattle.xf_engine.specs.State.{IsFreeId};

use crate::ids::WholeId;

/// A live whole.
#[derive(Drop)]
pub struct Whole<R, V> {
    pub id: WholeId,
    pub reducer: R,
    pub value: V,
}

/// The place of the whole of an id.
pub fn whole_place<R, V>(wholes: &[Whole<R, V>], id: WholeId) -> Option<usize>
    ensures { result ≡ position (λ whole. whole.id.0 == id.0) wholes.now }
{
    for (place, whole) in wholes.iter().enumerate() {
        if whole.id.0 == id.0 {
            return Some(place);
        }
    }
    None
}

/// The least id that no whole has.
pub fn free_whole_id<R, V>(wholes: &[Whole<R, V>]) -> WholeId
    requires { length wholes.now < 2 ^ 32 }
    ensures { IsFreeId (held_whole_ids wholes.now) result.0 }
{
    let mut id = 0;
    while whole_place(wholes, WholeId(id)).is_some() {
        id += 1;
    }
    WholeId(id)
}

/// Puts other values in place of those of each whole.
pub fn revalue<R, V: Drop>(wholes: &mut [Whole<R, V>], values: Vec<V>)
    requires { length values.items ≡ length wholes.old }
    ensures { wholes.new ≡ revalued wholes.old values.items }
{
    let mut place = 0;
    for value in values {
        wholes[place].value = value;
        place += 1;
    }
}
