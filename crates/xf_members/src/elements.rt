//! The elements of an array, one after another.
ghost use Rattle.std.specs.Prelude.{◌≡◌, [], List, ℕ, length, map, IfOk};
ghost use Rattle.serde_json.specs.Data.{Data};
ghost use Rattle.serde_json.specs.View.{view};
ghost use Rattle.xf_members.specs.Reading.{AllAfter, Answers, Read, each};

use crate::board_refusal::BoardRefusal;
use crate::path::element;
use serde_json::Value;
use std::alloc::Global;
use xf_base::ListOf;

/// How the elements of an array are read.
pub trait ElementRule {
    /// What an element is read as.
    type Item: Drop;

    /// What an element is read as beside those before it, by its path.
    ghost walk: { Self → List Self.Item → List ℕ → Data → Read Self.Item };

    /// What an item keeps beside those before it.
    ghost Keeps: { Self → List Self.Item → Self.Item → Type 0 };

    /// Reads an element beside those before it. The path is that of the element.
    fn read(
        &self,
        alloc: Global,
        before: &[Self::Item],
        path: &str,
        value: &Value,
    ) -> Result<Self::Item, BoardRefusal>
        ensures exact { Answers result (walk self.now before.now path.now (view value.now)) }
        ensures kept { IfOk result (Keeps self.now before.now) };
}

/// What a rule reads all elements as, each beside those before it, or the refusal of the first that it refuses. The path is
/// that of the array.
pub fn elements_of<E: ElementRule>(
    alloc: Global,
    rule: &E,
    path: &str,
    values: &[Value],
) -> Result<ListOf<E::Item>, BoardRefusal>
    ensures exact { Answers result (each (E.walk rule.now) path.now [] (map view values.now)) }
    ensures kept { IfOk result (AllAfter (E.Keeps rule.now) []) }
    ensures all { IfOk result (λ items. length items ≡ length values.now) }
{
    let mut items = ListOf::new(alloc);
    for value in values {
        let path = element(alloc, path, items.len())?;
        let item = rule.read(alloc, items.as_slice(), path.as_str(), value)?;
        items.push(item)?;
    }
    Ok(items)
}
