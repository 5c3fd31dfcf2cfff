//! Values of JSON: elements of arrays, and members of objects.
ghost use Rattle.std.specs.Prelude.{◌≡◌, map, find, not, option_copied, option_map, string_bytes};
ghost use Rattle.std.specs.BTreeMap.{keys};
ghost use Rattle.serde_json.specs.View.{view};
ghost use Rattle.xf_members.specs.Members.{first_unknown, is_member};
ghost use Rattle.xf_members.specs.Values.{array_of, member_names, whole_number};

use crate::object_sort::{ObjectSort, is_member};
use serde_json::{Map, Value};

/// The elements of an array.
pub fn array_of(value: &Value) -> Option<&[Value]>
    ensures { option_map (λ values. map view values.now) result ≡ array_of (view value.now) }
{
    match value.as_array() {
        Some(values) => Some(values.as_slice()),
        None => None,
    }
}

/// An unsigned whole number.
pub fn whole_number(value: &Value) -> Option<u64>
    ensures { result ≡ whole_number (view value.now) }
{
    value.as_u64()
}

/// The first member of an object, in the order of the bytes of names, that objects of a sort do not have.
pub fn first_unknown(sort: ObjectSort, object: &Value) -> Option<&str>
    ensures { option_map (λ name. name.now) result ≡ first_unknown sort (member_names (view object.now)) }
{
    match object.as_object() {
        Some(members) => match first_unknown_key(sort, members) {
            Some(name) => Some(name.as_str()),
            None => None,
        },
        None => None,
    }
}

/// The first key that is no name of a member.
fn first_unknown_key(sort: ObjectSort, members: &Map<String, Value>) -> Option<&String>
    ensures { option_copied result ≡ find (λ name. not (is_member sort (string_bytes name))) (keys members.now) }
{
    members.keys().find(|name| !is_member(sort, name.as_str()))
}
