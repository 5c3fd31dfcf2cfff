//! The rules for members, and which refusal a broken one gives.
ghost use Rattle.std.specs.Prelude.{◌≡◌, ◌≤◌, ◌<◌, ⊤, map, length, Err, IfOk, option_map, option_and_then, codes, [], IfSome, OnOk, true, false};
ghost use Rattle.serde_json.specs.Find.{as_str};
ghost use Rattle.serde_json.specs.View.{view};
ghost use Rattle.xf_members.specs.Reading.{Answers, Gives, absent, ensured, few, filled_array, member, needed, number, number_below, only_members, optional, refusal_of, unless_taken};
ghost use Rattle.xf_members.specs.Values.{array_of, is_object, member_names, whole_number};
ghost use Rattle.xf_members.specs.declared.board_refusal.BoardRefusal.TheVariants as refusal;

use crate::board_refusal::BoardRefusal;
use crate::object_sort::ObjectSort;
use crate::path::member;
use crate::value::{array_of, first_unknown, whole_number};
use serde_json::Value;
use std::alloc::Global;
use xf_base::Text;
use xf_columns::ColumnRefusal;

// ---- refusals

/// `Field` at a member.
pub fn wrong_field<A: Drop>(alloc: Global, path: &str, name: &str) -> Result<A, BoardRefusal>
    ensures { Answers result (Err (refusal.Field (member path.now name.now))) }
{
    let path = member(alloc, path, name)?;
    Err(BoardRefusal::Field { path })
}

/// `Field` at a member, unless a test holds.
pub fn ensured(alloc: Global, holds: bool, path: &str, name: &str) -> Result<(), BoardRefusal>
    ensures exact { Answers result (ensured (member path.now name.now) holds) }
    ensures holds { OnOk result (holds ≡ true) }
{
    if holds {
        return Ok(());
    }
    wrong_field(alloc, path, name)
}

/// `Field` at an element.
pub fn wrong_element<A: Drop>(alloc: Global, path: &str) -> Result<A, BoardRefusal>
    ensures { Answers result (Err (refusal.Field path.now)) }
{
    let path = Text::of(alloc, path)?;
    Err(BoardRefusal::Field { path })
}

/// `Name` at a member.
pub fn wrong_name<A: Drop>(
    alloc: Global,
    path: &str,
    name: &str,
    given: &str,
) -> Result<A, BoardRefusal>
    ensures { Answers result (Err (refusal.Name (member path.now name.now) given.now)) }
{
    let path = member(alloc, path, name)?;
    let name = Text::of(alloc, given)?;
    Err(BoardRefusal::Name { path, name })
}

/// `Name` at an element.
pub fn wrong_element_name<A: Drop>(
    alloc: Global,
    path: &str,
    given: &str,
) -> Result<A, BoardRefusal>
    ensures { Answers result (Err (refusal.Name path.now given.now)) }
{
    let path = Text::of(alloc, path)?;
    let name = Text::of(alloc, given)?;
    Err(BoardRefusal::Name { path, name })
}

/// `Name` at a member `name` where a name is taken.
pub fn unless_taken(alloc: Global, taken: bool, path: &str, given: &str) -> Result<(), BoardRefusal>
    ensures exact { Answers result (unless_taken taken (member path.now (codes "name")) given.now) }
    ensures new { OnOk result (taken ≡ false) }
{
    if taken {
        return wrong_name(alloc, path, "name", given);
    }
    Ok(())
}

/// Why a column does not fit, at the member that names it.
pub fn wrong_column<A: Drop>(
    alloc: Global,
    path: &str,
    name: &str,
    cause: ColumnRefusal,
) -> Result<A, BoardRefusal>
    ensures { Answers result (Err (refusal_of (member path.now name.now) cause)) }
{
    let path = member(alloc, path, name)?;
    Err(match cause {
        ColumnRefusal::NoColumn { name } => BoardRefusal::Name { path, name },
        ColumnRefusal::WrongColumn { name: _ } => BoardRefusal::Field { path },
    })
}

/// `Limit` at an array, where it has more elements than its limit.
pub fn few(alloc: Global, path: &str, limit: u64, count: usize) -> Result<(), BoardRefusal>
    ensures exact { Answers result (few path.now limit count) }
    ensures within { OnOk result (count ≤ limit) }
{
    if count as u64 > limit {
        let path = Text::of(alloc, path)?;
        return Err(BoardRefusal::Limit { path, limit });
    }
    Ok(())
}

// ---- objects

/// `Field` at an element that is no object.
pub fn object_at(alloc: Global, path: &str, value: &Value) -> Result<(), BoardRefusal>
    ensures { Answers result (ensured path.now (is_object (view value.now))) }
{
    if value.is_object() {
        return Ok(());
    }
    wrong_element(alloc, path)
}

/// `Unknown` at the first member that objects of a sort do not have.
pub fn only_members(
    alloc: Global,
    sort: ObjectSort,
    path: &str,
    object: &Value,
) -> Result<(), BoardRefusal>
    ensures { Answers result (only_members sort path.now (view object.now)) }
{
    match first_unknown(sort, object) {
        None => Ok(()),
        Some(name) => {
            let path = member(alloc, path, name)?;
            Err(BoardRefusal::Unknown { path })
        }
    }
}

/// `Field` at a member that is there.
pub fn absent(alloc: Global, path: &str, name: &str, object: &Value) -> Result<(), BoardRefusal>
    ensures { Answers result (absent path.now name.now (view object.now)) }
{
    ensured(alloc, object.get(name).is_none(), path, name)
}

// ---- texts

/// A text that has no default.
pub fn text_at(alloc: Global, path: &str, name: &str, object: &Value) -> Result<Text, BoardRefusal>
    ensures { Answers result (needed as_str path.now name.now (view object.now)) }
{
    match text_of(object.get(name)) {
        Some(text) => Ok(Text::of(alloc, text)?),
        None => wrong_field(alloc, path, name),
    }
}

/// The text that a member is.
pub fn text_of(value: Option<&Value>) -> Option<&str>
    ensures { option_map (λ text. text.now) result ≡ option_and_then as_str (option_map (λ v. view v.now) value.entry) }
{
    match value {
        Some(value) => value.as_str(),
        None => None,
    }
}

/// A text with a default.
pub fn text_or(
    alloc: Global,
    default: &str,
    path: &str,
    name: &str,
    object: &Value,
) -> Result<Text, BoardRefusal>
    ensures { Answers result (optional default.now as_str path.now name.now (view object.now)) }
{
    let text = match object.get(name) {
        Some(value) => value.as_str(),
        None => Some(default),
    };
    match text {
        Some(text) => Ok(Text::of(alloc, text)?),
        None => wrong_field(alloc, path, name),
    }
}

// ---- numbers

/// A number of a range, if a value is one.
pub fn number(least: u64, greatest: u64, value: &Value) -> Option<u64>
    ensures value { result ≡ number least greatest (view value.now) }
    ensures within { IfSome result (λ n. (least ≤ n) × (n ≤ greatest)) }
{
    match whole_number(value) {
        Some(n) if least <= n && n <= greatest => Some(n),
        _ => None,
    }
}

/// A number below another, if a value is one.
pub fn number_below(end: u8, value: &Value) -> Option<u8>
    ensures value { result ≡ number_below end (view value.now) }
    ensures within { IfSome result (λ n. n < end) }
{
    match whole_number(value) {
        Some(n) if n < u64::from(end) => Some(n as u8),
        _ => None,
    }
}

/// A number of a range, with a default.
pub fn number_or(
    alloc: Global,
    default: u64,
    range: (u64, u64),
    path: &str,
    name: &str,
    object: &Value,
) -> Result<u64, BoardRefusal>
    requires { (range.0 ≤ default) × (default ≤ range.1) }
    ensures exact { Answers result (optional default (number range.0 range.1) path.now name.now (view object.now)) }
    ensures within { IfOk result (λ n. (range.0 ≤ n) × (n ≤ range.1)) }
{
    let read = match object.get(name) {
        Some(value) => number(range.0, range.1, value),
        None => Some(default),
    };
    match read {
        Some(n) => Ok(n),
        None => wrong_field(alloc, path, name),
    }
}

/// The number of a field, of which there are some; 0 where it is left out.
pub fn field_or(
    alloc: Global,
    fields: u8,
    path: &str,
    name: &str,
    object: &Value,
) -> Result<u8, BoardRefusal>
    requires { 0 < fields }
    ensures exact { Answers result (optional 0 (number_below fields) path.now name.now (view object.now)) }
    ensures within { IfOk result (λ n. n < fields) }
{
    let read = match object.get(name) {
        Some(value) => number_below(fields, value),
        None => Some(0),
    };
    match read {
        Some(n) => Ok(n),
        None => wrong_field(alloc, path, name),
    }
}

// ---- arrays

/// The elements of an array that has no default.
pub fn array_at<'a>(
    alloc: Global,
    path: &str,
    name: &str,
    object: &'a Value,
) -> Result<&'a [Value], BoardRefusal>
    ensures { Gives (λ values. map view values.now) result (needed array_of path.now name.now (view object.now)) }
{
    match object.get(name) {
        Some(value) => match array_of(value) {
            Some(values) => Ok(values),
            None => wrong_field(alloc, path, name),
        },
        None => wrong_field(alloc, path, name),
    }
}

/// The elements of an array that may be left out.
pub fn array_or_none<'a>(
    alloc: Global,
    path: &str,
    name: &str,
    object: &'a Value,
) -> Result<&'a [Value], BoardRefusal>
    ensures { Gives (λ values. map view values.now) result (optional [] array_of path.now name.now (view object.now)) }
{
    match object.get(name) {
        Some(value) => match array_of(value) {
            Some(values) => Ok(values),
            None => wrong_field(alloc, path, name),
        },
        None => Ok(&[]),
    }
}

/// The elements of an array that has no default, of which there is one at least.
pub fn filled_array_at<'a>(
    alloc: Global,
    path: &str,
    name: &str,
    object: &'a Value,
) -> Result<&'a [Value], BoardRefusal>
    ensures exact { Gives (λ values. map view values.now) result (needed filled_array path.now name.now (view object.now)) }
    ensures filled { IfOk result (λ values. 0 < length values.now) }
{
    let values = array_at(alloc, path, name, object)?;
    if values.is_empty() {
        return wrong_field(alloc, path, name);
    }
    Ok(values)
}
