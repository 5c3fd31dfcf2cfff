//! The colours of a board.
ghost use Rattle.std.specs.Prelude.{◌≡◌, codes, IfOk};
ghost use Rattle.xf_board.specs.Board.{IsColour};
ghost use Rattle.xf_board.specs.Walk.{colour_of, usual_colours};

use serde_json::Value;
use std::alloc::Global;
use xf_base::{ListOf, OutOfMemory, Text, TextList};
use xf_members::{BoardRefusal, ElementRule, colour_of, wrong_element};

/// How the colours of a board are read.
#[derive(Clone, Copy)]
pub struct ColourRule;

impl ElementRule for ColourRule {
    type Item = Text;

    ghost walk = { λ rule. colour_of };

    ghost Keeps = { λ rule before. IsColour };

    fn read(
        &self,
        alloc: Global,
        _before: &[Text],
        path: &str,
        value: &Value,
    ) -> Result<Text, BoardRefusal> {
        match colour_of(value) {
            Some(text) => Ok(Text::of(alloc, text)?),
            None => wrong_element(alloc, path),
        }
    }
}

/// The colours of a board that says none.
pub fn usual_colours(alloc: Global) -> Result<TextList, OutOfMemory>
    ensures { IfOk result (λ colours. colours ≡ usual_colours) }
{
    let mut colours = ListOf::new(alloc);
    colours.push(Text::of(alloc, "#e8eef4")?)?;
    colours.push(Text::of(alloc, "#b9cbdd")?)?;
    colours.push(Text::of(alloc, "#7d9cbc")?)?;
    colours.push(Text::of(alloc, "#40688f")?)?;
    colours.push(Text::of(alloc, "#16324f")?)?;
    Ok(colours)
}
