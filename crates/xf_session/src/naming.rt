//! What the name of a dimension stands for.

use xf_base::KeyForm;
use xf_engine::DimensionId;

/// The id of a dimension, and how its keys are written.
#[derive(Clone, Copy, Debug, PartialEq, Eq)]
pub struct Naming {
    pub id: DimensionId,
    pub form: KeyForm,
}
