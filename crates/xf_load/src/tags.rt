//! Tags: the distinct pieces of a field, in order.
ghost use Rattle.std.specs.Prelude.{◌≡◌, ◌⊎◌, ◌<◌, map, Err, IfOk};
ghost use Rattle.xf_base.specs.Key.{text_cmp};
ghost use Rattle.xf_load.specs.Fallible.{map_err};
ghost use Rattle.xf_load.specs.Cell.{pieces_of, tags_cell};
ghost use Rattle.xf_model.specs.Group.{distinct_keys};

use crate::cell::{CellRefusal, ReadCellFault};
use std::alloc::Global;
use xf_base::{Cell, Limits, OutOfMemory, Text, TextList};

/// The tags of a field. They are put in order as parts of the field, and only those that are kept are copied.
pub(crate) fn read_tags(alloc: Global, separator: u8, text: &str) -> Result<Cell, ReadCellFault>
    requires { separator < 128 }
    ensures { (result ≡ Err ReadCellFault.OutOfMemory)
        ⊎ (result ≡ map_err ReadCellFault.Bad (tags_cell separator text.now)) }
{
    if text.len() as u64 > Limits::CELL_BYTES {
        return Err(ReadCellFault::Bad(CellRefusal::TextTooLong));
    }
    let mut pieces = pieces_of(alloc, separator, text)?;
    sort_distinct(&mut pieces);
    if pieces.len() as u64 > Limits::CELL_VALUES {
        return Err(ReadCellFault::Bad(CellRefusal::TooManyTags));
    }
    Ok(Cell::Tags(copies_of(alloc, pieces.as_slice())?))
}

/// What stands between the separators, where something does.
fn pieces_of(alloc: Global, separator: u8, text: &str) -> Result<Vec<&str>, OutOfMemory>
    requires { separator < 128 }
    ensures { IfOk result (λ pieces. map (λ piece. piece.now) pieces.items ≡ pieces_of separator text.now) }
{
    Ok(
        text.split(char::from(separator))
            .filter(|piece| !piece.is_empty())
            .collect(alloc)?,
    )
}

/// Puts texts in the order of their bytes, and drops those that are there already.
fn sort_distinct(texts: &mut Vec<&str>)
    ensures { map (λ text. text.now) texts.new.items ≡ distinct_keys text_cmp (map (λ text. text.now) texts.old.items) }
{
    texts.sort_unstable();
    texts.dedup();
}

fn copies_of(alloc: Global, texts: &[&str]) -> Result<TextList, OutOfMemory>
    ensures { IfOk result (λ copies. copies ≡ map (λ text. text.now) texts.now) }
{
    let mut copies = Vec::with_capacity(alloc, texts.len())?;
    for text in texts {
        copies.push(Text::of(alloc, text)?)?;
    }
    Ok(TextList::from_vec(copies))
}
