//! What fields and files mean, by values written by hand.
mod cell;
mod file;
mod record;
mod sheet;

use std::alloc::Global;
use std::fmt::Write;
use std::test::Fail;
use xf_base::{Cell, Text, TextList};

/// A cell as a case of a table has it: a number, a text between bars, tags each between bars.
fn shown(alloc: Global, cell: &Cell) -> Result<String, Fail> {
    let mut text = String::new(alloc);
    match cell {
        Cell::Num(number) => write!(text, "{number}")?,
        Cell::Text(own) => write!(text, "|{}|", own.as_str())?,
        Cell::Tags(tags) => {
            text.push_str("tags")?;
            for tag in tags.as_slice() {
                write!(text, "|{}|", tag.as_str())?;
            }
        }
    }
    Ok(text)
}

/// A cell of one tag.
fn one_tag(alloc: Global, tag: &str) -> Result<Cell, Fail> {
    let mut tags = TextList::new(alloc);
    tags.push(Text::of(alloc, tag)?)?;
    Ok(Cell::Tags(tags))
}
