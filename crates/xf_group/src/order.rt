//! By which field the entries of a group are ranked.
ghost use Rattle.std.specs.Prelude.{◌≡◌};

/// By which field the entries of a group are ranked.
#[derive(Clone, Copy, Debug)]
pub enum GroupOrder {
    /// By field 0.
    Natural,
    /// By a field, from 0 on.
    By(u8),
}

impl GroupOrder {
    ghost use Rattle.xf_group.specs.Order.{order_field};

    /// The field.
    pub fn field(self) -> u8
        ensures { result ≡ order_field self }
    {
        match self {
            GroupOrder::Natural => 0,
            GroupOrder::By(field) => field,
        }
    }
}
