ghost use Rattle.std.specs.Prelude.{◌≡◌, ◌<◌, ◌≤◌, length, Some, None, Err, IfOk, OnOk, IfErr, ◌⊎◌};
ghost use Rattle.std.specs.Prelude.{option_map};
ghost use Rattle.serde_json.specs.Find.{as_str};
ghost use Rattle.ent_script.specs.Json.{members as members_in, pairs_of, whole, whole_within};
ghost use Rattle.ent_script.specs.Names.{as_name};
ghost use Rattle.json.specs.Json.{value, members};
ghost use Rattle.serde_json.specs.Data.{Data, Members, no_members};
ghost use Rattle.serde_json.specs.Read.{of_json, of_members, converted};
ghost use Rattle.ent_script.specs.declared.read_fault.ReadFault.TheVariants.{Json, Memory};
ghost use Rattle.ent_script.specs.Cut.{cut, cut_members};
ghost use Rattle.ent_script.specs.Part.{data_of, members_of};

use crate::leaf::read_leaf;
use crate::names::is_name;
use crate::number::number;
use crate::object::Object;
use crate::passing::pass_rest;
use crate::read_fault::ReadFault;
use json::{Reader, Token};
use serde_json::Number;
use std::alloc::Global;

/// What is under a key of an operation, with its arrays emptied, and the objects in it.
#[derive(Drop)]
pub(crate) enum Part<'a> {
    Null,
    Bool(bool),
    Number(Number),
    Text(&'a str),
    Array,
    Object(Object<'a>),
}

impl<'a> Part<'a> {
    /// The members of an object.
    pub(crate) fn members(&self) -> Option<&Object<'a>>
        ensures { option_map (λ o. pairs_of (members_of o.now)) result
            ≡ members_in (data_of self.now) }
    {
        match self {
            Part::Object(members) => Some(members),
            Part::Null | Part::Bool(_) | Part::Number(_) | Part::Text(_) | Part::Array => None,
        }
    }

    /// The text of a string.
    pub(crate) fn text(&self) -> Option<&'a str>
        ensures { option_map (λ text. text.now) result ≡ as_str (data_of self.now) }
    {
        match self {
            Part::Text(text) => Some(text),
            Part::Null | Part::Bool(_) | Part::Number(_) | Part::Array | Part::Object(_) => None,
        }
    }

    /// The name that it is.
    pub(crate) fn name(&self) -> Option<&'a str>
        ensures { option_map (λ text. text.now) result ≡ as_name (data_of self.now) }
    {
        let text = self.text()?;
        if is_name(text) { Some(text) } else { None }
    }

    /// The whole number that it is.
    fn whole(&self) -> Option<i64>
        ensures { result ≡ whole (data_of self.now) }
    {
        match self {
            Part::Number(number) => number.as_i64(),
            Part::Null | Part::Bool(_) | Part::Text(_) | Part::Array | Part::Object(_) => None,
        }
    }

    /// The whole number up to this one that it is.
    pub(crate) fn at_most(&self, high: u32) -> Option<u32>
        ensures { result ≡ whole_within 0 high (data_of self.now) }
    {
        let number = self.whole()?;
        if 0 <= number && number <= high as i64 {
            Some(number as u32)
        } else {
            None
        }
    }
}

/// The part that comes next, with its arrays emptied, and the objects in it.
pub(crate) fn read_part<'a>(
    alloc: Global,
    reader: &mut Reader<'a>,
    depth: usize,
) -> Result<Part<'a>, ReadFault>
    ensures ok { IfOk result (λ p. (d : Data)
        × (converted of_json (value depth reader.old) ≡ Some (d, reader.new))
        × (data_of p ≡ cut 1 d)) }
    ensures shorter { OnOk result (length reader.new < length reader.old) }
    ensures no_longer { length reader.new ≤ length reader.old }
    ensures json { result ≡ Err Json → converted of_json (value depth reader.old) ≡ None }
    ensures kind { IfErr result (λ e. (e ≡ Json) ⊎ (e ≡ Memory)) }
{
    let token = reader.next().ok_or(ReadFault::Json)?;
    match token {
        Token::String(text) => Ok(Part::Text(text)),
        Token::Number(text) => match number(text) {
            Some(number) => Ok(Part::Number(number)),
            None => Err(ReadFault::Json),
        },
        Token::Bool(b) => Ok(Part::Bool(b)),
        Token::Null => Ok(Part::Null),
        Token::EndObject | Token::EndArray | Token::Key(_) | Token::Bad => Err(ReadFault::Json),
        Token::BeginArray => {
            pass_rest(reader, token, depth)?;
            Ok(Part::Array)
        }
        Token::BeginObject => {
            if depth == 0 {
                return Err(ReadFault::Json);
            }
            Ok(Part::Object(read_object(alloc, reader, depth - 1)?))
        }
    }
}

/// The members of an object, of which the brace was taken.
fn read_object<'a>(
    alloc: Global,
    reader: &mut Reader<'a>,
    depth: usize,
) -> Result<Object<'a>, ReadFault>
    ensures ok { IfOk result (λ o. (ms : Members)
        × (converted (λ ms. of_members ms no_members)
        (members (value depth) (length reader.old) reader.old) ≡ Some (ms, reader.new))
        × (members_of o ≡ cut_members 0 ms)) }
    ensures shorter { OnOk result (length reader.new ≤ length reader.old) }
    ensures no_longer { length reader.new ≤ length reader.old }
    ensures json { result ≡ Err Json → converted (λ ms. of_members ms no_members)
        (members (value depth) (length reader.old) reader.old) ≡ None }
    ensures kind { IfErr result (λ e. (e ≡ Json) ⊎ (e ≡ Memory)) }
{
    let mut found = Object::Empty;
    'members: while let Some(name) = reader.next_key()? {
        let leaf = read_leaf(reader, depth)?;
        found = found.with(alloc, name, leaf)?;
    }
    Ok(found)
}
