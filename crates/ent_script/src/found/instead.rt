ghost use Rattle.std.specs.Prelude.{◌≡◌, ◌≤◌, ◌++◌, ℕ, List, length, IfSome, Some, option_map};
ghost use Rattle.std.specs.Fmt.InlineText.{inline_text};
ghost use Rattle.std.specs.List.{flat_map};
ghost use Rattle.std.specs.Str.{chars};
ghost use Rattle.serde_json.specs.View.{view};
ghost use Rattle.ent_script.specs.Place.{IsJsonOf, Shows, at_place, key_char, list_place};
ghost use Rattle.ent_script.specs.Place.{place_of, quoted};
ghost use Rattle.ent_script.specs.Shown.{ArePrintable, front, plain};

use super::shown::{Shown, with_char, with_letter, with_text};
use itoa::Buffer;
use serde_json::Value;
use std::alloc::Global;
use std::fmt::InlineText;

/// What is in the place where a test failed.
#[derive(Clone, Copy)]
pub(super) enum Instead<'a> {
    /// Nothing is there.
    Absent,
    /// A value that is refused.
    Refused(&'a Value),
    /// A key that is refused.
    Key(&'a str),
    /// A member whose value is refused.
    Member(&'a str, &'a Value),
    /// A name that a list has twice.
    Twice(&'a str),
    /// A list that is too long.
    Long(usize),
}

impl<'a> Instead<'a> {
    /// A value that is refused, if it is there.
    pub(super) fn of(value: Option<&'a Value>) -> Instead<'a>
        ensures { place_of result ≡ at_place (option_map (λ v. view v.now) value.entry) }
    {
        match value {
            Some(value) => Instead::Refused(value),
            None => Instead::Absent,
        }
    }

    /// A list that is too long, or what is there instead of a list.
    pub(super) fn of_list(value: Option<&'a Value>) -> Instead<'a>
        ensures { place_of result ≡ list_place (option_map (λ v. view v.now) value.entry) }
    {
        match value {
            Some(value) => Instead::no_list(value),
            None => Instead::Absent,
        }
    }

    fn no_list(value: &'a Value) -> Instead<'a>
        ensures { place_of result ≡ list_place (Some (view value.now)) }
    {
        match value.as_array() {
            Some(list) => Instead::Long(list.len()),
            None => Instead::Refused(value),
        }
    }

    /// The front of its text, if there is memory for that.
    pub(super) fn shown(self, alloc: Global) -> Option<Shown>
        ensures text { IfSome result (λ shown. Shows (place_of self.entry) (inline_text shown)) }
        ensures printable { IfSome result (λ shown. ArePrintable (inline_text shown)) }
    {
        let nothing = InlineText::new();
        match self {
            Instead::Absent => Some(with_text(nothing, "none")),
            Instead::Refused(value) => with_json(alloc, nothing, value),
            Instead::Key(key) => Some(with_quoted(nothing, key)),
            Instead::Member(key, value) => {
                let shown = with_text(with_quoted(nothing, key), ":");
                with_json(alloc, shown, value)
            }
            Instead::Twice(name) => Some(with_text(with_quoted(nothing, name), " twice")),
            Instead::Long(count) => {
                let shown = with_text(nothing, Buffer::new().format(count));
                Some(with_text(shown, " elements"))
            }
        }
    }
}

// Appends a JSON text of a value, if there is memory for it.
fn with_json(alloc: Global, shown: Shown, value: &Value) -> Option<Shown>
    requires printable { ArePrintable (inline_text shown) }
    requires short { length (inline_text shown) ≤ 60 }
    ensures text { IfSome result (λ new. (json : List ℕ) × IsJsonOf (view value.now) json
        × (inline_text new ≡ front (inline_text shown ++ plain json))) }
    ensures printable { IfSome result (λ new. ArePrintable (inline_text new)) }
{
    match value.to_string(alloc) {
        Ok(json) => Some(with_text(shown, json.as_str())),
        Err(_) => None,
    }
}

// Appends a key between quotation marks.
fn with_quoted(shown: Shown, key: &str) -> Shown
    requires printable { ArePrintable (inline_text shown) }
    requires short { length (inline_text shown) ≤ 60 }
    ensures text { inline_text result ≡ front (inline_text shown ++ quoted key.now) }
    ensures printable { ArePrintable (inline_text result) }
    ensures short { length (inline_text result) ≤ 60 }
{
    let shown = with_letter(shown, b'"');
    let shown = with_key(shown, key);
    with_letter(shown, b'"')
}

fn with_key(shown: Shown, key: &str) -> Shown
    requires printable { ArePrintable (inline_text shown) }
    requires short { length (inline_text shown) ≤ 60 }
    ensures text { inline_text result
        ≡ front (inline_text shown ++ flat_map key_char (chars key.now)) }
    ensures printable { ArePrintable (inline_text result) }
    ensures short { length (inline_text result) ≤ 60 }
{
    let mut shown = shown;
    for letter in key.chars() {
        shown = with_key_char(shown, letter);
    }
    shown
}

// Appends a character of a key, after a backslash if it could end the key or begin an escape.
fn with_key_char(shown: Shown, letter: char) -> Shown
    requires printable { ArePrintable (inline_text shown) }
    requires short { length (inline_text shown) ≤ 60 }
    ensures text { inline_text result ≡ front (inline_text shown ++ key_char letter) }
    ensures printable { ArePrintable (inline_text result) }
    ensures short { length (inline_text result) ≤ 60 }
{
    match letter {
        '"' => with_text(shown, "\\\""),
        '\\' => with_text(shown, "\\\\"),
        _ => with_char(shown, letter),
    }
}
