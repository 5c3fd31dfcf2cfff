//! Paths of members and elements.
ghost use Rattle.std.specs.Prelude.{◌≡◌, IfOk};
ghost use Rattle.xf_members.specs.Reading.{element, member};

use itoa::Buffer;
use std::alloc::Global;
use xf_base::{OutOfMemory, Text};

/// The path of a member.
pub fn member(alloc: Global, path: &str, name: &str) -> Result<Text, OutOfMemory>
    ensures { IfOk result (λ text. text ≡ member path.now name.now) }
{
    let mut text = String::from_str(alloc, path)?;
    text.push('/')?;
    text.push_str(name)?;
    Text::of(alloc, text.as_str())
}

/// The path of an element, by its number from 0.
pub fn element(alloc: Global, path: &str, number: usize) -> Result<Text, OutOfMemory>
    ensures { IfOk result (λ text. text ≡ element path.now number) }
{
    let mut digits = Buffer::new();
    member(alloc, path, digits.format(number as u64))
}
