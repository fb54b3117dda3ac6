//! The first of several keys, members or names that fails its test.
ghost use Rattle.std.specs.Prelude.{◌≡◌, [], Some, false, map, option_and_then, option_map};
ghost use Rattle.std.specs.Prelude.{string_bytes};
ghost use Rattle.std.specs.Prelude.{unwrap_or};
ghost use Rattle.std.specs.List.{list_any};
ghost use Rattle.serde_json.specs.View.{view};
ghost use Rattle.serde_json.specs.Find.{as_str};
ghost use Rattle.ent_script.specs.Json.{elements, members};
ghost use Rattle.ent_script.specs.Reading.{script_keys};
ghost use Rattle.ent_script.specs.Place.{bad_name, component_place, is_among, is_listed, is_text};
ghost use Rattle.ent_script.specs.Place.{key_but, key_place, listed_in, member_place, place_of};
ghost use Rattle.ent_script.specs.Place.{names_place, removed_place, unwhole_in};

use super::instead::Instead;
use crate::elements::{elements, is_among, members, name};
use crate::sizes::COMPONENTS;
use serde_json::{Map, Value};

/// The first key that is none of a script's.
pub(super) fn unknown_key(script: &Value) -> Instead<'_>
    ensures { place_of result ≡ key_place (option_and_then (key_but (is_among script_keys))
        (members (view script.now))) }
{
    let known = ["format", "slots", "generations", "components", "frames"];
    let Some(members) = members(script) else {
        return Instead::Absent;
    };
    match first_key(members, &known) {
        Some(key) => Instead::Key(key),
        None => Instead::Absent,
    }
}

// The first key that is none of these.
fn first_key<'a>(members: &'a Map<String, Value>, known: &[&str]) -> Option<&'a str>
    ensures { option_map (λ key. key.now) result
        ≡ key_but (is_among (map (λ key. key.now) known.now))
        (map (λ m. (string_bytes m.0, view m.1)) members.now.entries) }
{
    for (key, _value) in members.iter() {
        if !is_among(key.as_str(), known) {
            return Some(key.as_str());
        }
    }
    None
}

/// The first member of an object whose value is no whole number.
pub(super) fn unwhole_member(bundle: Option<&Value>) -> Instead<'_>
    ensures { place_of result ≡ member_place (option_and_then unwhole_in
        (option_and_then members (option_map (λ v. view v.now) bundle.entry))) }
{
    let Some(bundle) = bundle else {
        return Instead::Absent;
    };
    let Some(members) = members(bundle) else {
        return Instead::Absent;
    };
    first_unwhole(members)
}

// The first member whose value is no whole number.
fn first_unwhole(members: &Map<String, Value>) -> Instead<'_>
    ensures { place_of result ≡ member_place (unwhole_in
        (map (λ m. (string_bytes m.0, view m.1)) members.now.entries)) }
{
    for (key, value) in members.iter() {
        if !value.is_i64() {
            return Instead::Member(key.as_str(), value);
        }
    }
    Instead::Absent
}

/// The first component of an operation that the script doesn't list: of the bundle, or that is
/// removed, or of the target.
pub(super) fn unlisted_component<'a>(
    script: &'a Value,
    bundle: Option<&'a Value>,
    removed: Option<&'a Value>,
    target: Option<&'a Value>,
) -> Instead<'a>
    ensures { place_of result ≡ component_place (is_listed (listed_in (view script.now)))
        (option_map (λ v. view v.now) bundle.entry) (option_map (λ v. view v.now) removed.entry)
        (option_map (λ v. view v.now) target.entry) }
{
    let listed = listed_in(script);
    match unlisted_key(bundle, listed) {
        Some(key) => Instead::Key(key),
        None => unlisted_value(removed, target, listed),
    }
}

// What is removed, if it is not listed, or else what stands in the target.
fn unlisted_value<'a>(
    removed: Option<&'a Value>,
    target: Option<&'a Value>,
    listed: &[Value],
) -> Instead<'a>
    ensures { place_of result ≡ removed_place (is_listed (map view listed.now))
        (option_map (λ v. view v.now) removed.entry) (option_map (λ v. view v.now) target.entry) }
{
    match removed {
        Some(removed) if !names_one_of(removed, listed) => Instead::Refused(removed),
        _ => Instead::of(target),
    }
}

// Whether it is the name of a listed component.
fn names_one_of(value: &Value, listed: &[Value]) -> bool
    ensures { result ≡ unwrap_or (option_map (is_listed (map view listed.now))
        (as_str (view value.now))) false }
{
    match value.as_str() {
        Some(text) => is_listed(text, listed),
        None => false,
    }
}

// The components that the script lists.
fn listed_in(script: &Value) -> &[Value]
    ensures { map view result.now ≡ listed_in (view script.now) }
{
    match script.get("components") {
        Some(value) => elements_of(value),
        None => &[],
    }
}

// The elements of an array, or none if it is something else.
fn elements_of(value: &Value) -> &[Value]
    ensures { map view result.now ≡ unwrap_or (elements (view value.now)) [] }
{
    match elements(value) {
        Some(list) => list.as_slice(),
        None => &[],
    }
}

// The first key of the bundle that is not listed.
fn unlisted_key<'a>(bundle: Option<&'a Value>, listed: &[Value]) -> Option<&'a str>
    ensures { option_map (λ key. key.now) result
        ≡ option_and_then (key_but (is_listed (map view listed.now)))
        (option_and_then members (option_map (λ v. view v.now) bundle.entry)) }
{
    first_unlisted(members(bundle?)?, listed)
}

// The first key that is not listed.
fn first_unlisted<'a>(members: &'a Map<String, Value>, listed: &[Value]) -> Option<&'a str>
    ensures { option_map (λ key. key.now) result ≡ key_but (is_listed (map view listed.now))
        (map (λ m. (string_bytes m.0, view m.1)) members.now.entries) }
{
    for (key, _value) in members.iter() {
        if !is_listed(key.as_str(), listed) {
            return Some(key.as_str());
        }
    }
    None
}

// Whether one of the values is this text.
fn is_listed(text: &str, listed: &[Value]) -> bool
    ensures { result ≡ list_any (λ v. is_text text.now (view v)) listed.now }
{
    listed.iter().any(|value| is_text(text, value))
}

fn is_text(text: &str, value: &Value) -> bool
    ensures { result ≡ is_text text.now (view value.now) }
{
    match value.as_str() {
        Some(own) => text == own,
        None => false,
    }
}

/// The components, if they are too many, or the first that is no name or that an earlier one is
/// too.
pub(super) fn bad_component(components: Option<&Value>) -> Instead<'_>
    ensures { place_of result ≡ names_place (option_map (λ v. view v.now) components.entry) }
{
    match components {
        Some(value) => bad_element(value),
        None => Instead::Absent,
    }
}

fn bad_element(value: &Value) -> Instead<'_>
    ensures { place_of result ≡ names_place (Some (view value.now)) }
{
    let Some(list) = elements(value) else {
        return Instead::Refused(value);
    };
    if list.len() > COMPONENTS {
        return Instead::Long(list.len());
    }
    bad_name(list.as_slice())
}

// The first that is no name or that an earlier one is too.
fn bad_name(list: &[Value]) -> Instead<'_>
    ensures { place_of result ≡ bad_name [] (map view list.now) }
{
    for (number, value) in list.iter().enumerate() {
        let Some(text) = name(value) else {
            return Instead::Refused(value);
        };
        if is_listed(text, &list[..number]) {
            return Instead::Twice(text);
        }
    }
    Instead::Absent
}
