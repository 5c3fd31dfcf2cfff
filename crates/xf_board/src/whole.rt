//! The wholes of a board.
ghost use Rattle.std.specs.Prelude.{◌≡◌, find, option_copied};
ghost use Rattle.xf_board.specs.Board.{IsNewWhole, whole_named};
ghost use Rattle.xf_board.specs.Walk.{whole_of};

use crate::group::reducer_at;
use crate::parts::WholeSpec;
use serde_json::Value;
use std::alloc::Global;
use xf_base::Schema;
use xf_members::{
    BoardRefusal, ElementRule, ObjectSort, object_at, only_members, text_at, unless_taken,
};

/// How the wholes of a board are read, over its columns.
#[derive(Clone, Copy)]
pub struct WholeRule<'a> {
    pub schema: &'a Schema,
}

impl<'a> ElementRule for WholeRule<'a> {
    type Item = WholeSpec;

    ghost walk = { λ rule. whole_of rule.schema.now };

    ghost Keeps = { λ rule. IsNewWhole rule.schema.now };

    fn read(
        &self,
        alloc: Global,
        before: &[WholeSpec],
        path: &str,
        value: &Value,
    ) -> Result<WholeSpec, BoardRefusal> {
        object_at(alloc, path, value)?;
        only_members(alloc, ObjectSort::Whole, path, value)?;
        let name = text_at(alloc, path, "name", value)?;
        let taken = whole_named(before, name.as_str()).is_some();
        unless_taken(alloc, taken, path, name.as_str())?;
        let reduce = reducer_at(alloc, self.schema, path, value)?;
        Ok(WholeSpec { name, reduce })
    }
}

/// The whole of a name.
pub fn whole_named<'a>(wholes: &'a [WholeSpec], name: &str) -> Option<&'a WholeSpec>
    ensures { option_copied result ≡ whole_named wholes.now name.now }
{
    wholes.iter().find(|whole| whole.name.as_str() == name)
}
