//! Whether keys are of the kind of a dimension.
ghost use Rattle.std.specs.Prelude.{◌≡◌, ◌∷◌, []};
ghost use Rattle.xf_filter.specs.Filter.{first_other};

use xf_base::{Key, KeyKind};

/// The kind of a key that is of another kind.
pub fn misfit_of(kind: &KeyKind, key: &Key) -> Option<KeyKind>
    ensures { result ≡ first_other kind.now (key.now ∷ []) }
{
    let given = key.kind();
    if given == *kind { None } else { Some(given) }
}

/// The kind of the first of two keys that is of another kind.
pub fn misfit_of_ends(kind: &KeyKind, low: &Key, high: &Key) -> Option<KeyKind>
    ensures { result ≡ first_other kind.now (low.now ∷ high.now ∷ []) }
{
    match misfit_of(kind, low) {
        Some(given) => Some(given),
        None => misfit_of(kind, high),
    }
}
