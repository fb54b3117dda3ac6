//! What the format asks of a JSON value.
ghost use Rattle.std.specs.Prelude.{◌≡◌, ◌≤◌, ◌^◌, ◌<◌, map, option_map, string_bytes, IfSome};
ghost use Rattle.std.specs.List.{list_any, list_all};
ghost use Rattle.std.specs.BTreeMap.{keys};
ghost use Rattle.std.specs.Str.{bytes_eq};
ghost use Rattle.serde_json.specs.View.{view};
ghost use Rattle.ent_script.specs.Json.{elements, members, keys_among, whole_within};
ghost use Rattle.ent_script.specs.Names.{as_name};

use crate::names::is_name;
use serde_json::{Map, Value};

/// The elements of an array. `None` if the value is no array.
pub fn elements(value: &Value) -> Option<&Vec<Value>>
    ensures { option_map (λ list. map view list.now.items) result ≡ elements (view value.now) }
{
    value.as_array()
}

/// The members of an object. `None` if the value is no object.
pub fn members(value: &Value) -> Option<&Map<String, Value>>
    ensures { option_map (λ found. map (λ m. (string_bytes m.0, view m.1)) found.now.entries) result
        ≡ members (view value.now) }
{
    value.as_object()
}

/// Whether the key is one of these.
pub fn is_among(key: &str, allowed: &[&str]) -> bool
    ensures { result ≡ list_any (λ name. bytes_eq key.now name.now) allowed.now }
{
    allowed.iter().any(|name| key == *name)
}

fn are_among(members: &Map<String, Value>, allowed: &[&str]) -> bool
    ensures { result ≡ list_all (λ key. list_any (λ name. bytes_eq (string_bytes key) name.now)
        allowed.now) (keys members.now) }
{
    members.keys().all(|key| is_among(key.as_str(), allowed))
}

/// Whether each key is one of these.
pub(crate) fn are_keys_among(members: &Map<String, Value>, allowed: &[&str]) -> bool
    ensures { result ≡ keys_among (map (λ key. key.now) allowed.now)
        (map (λ m. (string_bytes m.0, view m.1)) members.now.entries) }
{
    are_among(members, allowed)
}

/// The whole number in this range that it is.
pub(crate) fn whole_within(value: &Value, low: u32, high: u32) -> Option<u32>
    ensures { result ≡ whole_within low high (view value.now) }
{
    let number = value.as_i64()?;
    if low as i64 <= number && number <= high as i64 {
        Some(number as u32)
    } else {
        None
    }
}

/// The name that a value is: a string of 1 to 32 letters from `a` to `z`, digits and `_`. `None` if
/// it is none.
pub fn name(value: &Value) -> Option<&str>
    ensures { option_map (λ text. text.now) result ≡ as_name (view value.now) }
{
    let text = value.as_str()?;
    if is_name(text) { Some(text) } else { None }
}
