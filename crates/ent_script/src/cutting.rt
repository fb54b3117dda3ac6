ghost use Rattle.std.specs.Prelude.{◌≡◌, ◌<◌, ◌≤◌, length, Some, None, Err, IfOk, OnOk, IfErr, ◌⊎◌};
ghost use Rattle.json.specs.Json.{value, members};
ghost use Rattle.serde_json.specs.Data.{Data, Members, no_members};
ghost use Rattle.serde_json.specs.Read.{of_json, of_members, converted};
ghost use Rattle.serde_json.specs.View.{view, members_view};
ghost use Rattle.ent_script.specs.declared.read_fault.ReadFault.TheVariants.{Json, Memory};
ghost use Rattle.ent_script.specs.Cut.{cut, cut_members};

use crate::number::number;
use crate::passing::pass_rest;
use crate::read_fault::ReadFault;
use json::{Reader, Token};
use serde_json::{Map, Value};
use std::alloc::Global;

/// The value that comes next, with its arrays emptied, and so the objects that nest deeper than so
/// many levels.
#[cycle(read)]
pub(crate) fn read_cut(
    alloc: Global,
    reader: &mut Reader<'_>,
    depth: usize,
    levels: usize,
) -> Result<Value, ReadFault>
    ensures ok { IfOk result (λ v. (d : Data)
        × (converted of_json (value depth reader.old) ≡ Some (d, reader.new))
        × (view v ≡ cut levels d)) }
    ensures shorter { OnOk result (length reader.new < length reader.old) }
    ensures no_longer { length reader.new ≤ length reader.old }
    ensures json { result ≡ Err Json → converted of_json (value depth reader.old) ≡ None }
    ensures kind { IfErr result (λ e. (e ≡ Json) ⊎ (e ≡ Memory)) }
{
    let token = reader.next().ok_or(ReadFault::Json)?;
    match token {
        Token::String(text) => Ok(Value::String(String::from_str(alloc, text)?)),
        Token::Number(text) => match number(text) {
            Some(number) => Ok(Value::Number(number)),
            None => Err(ReadFault::Json),
        },
        Token::Bool(b) => Ok(Value::Bool(b)),
        Token::Null => Ok(Value::Null),
        Token::EndObject | Token::EndArray | Token::Key(_) | Token::Bad => Err(ReadFault::Json),
        Token::BeginArray => {
            pass_rest(reader, token, depth)?;
            Ok(Value::Array(Vec::new(alloc)))
        }
        Token::BeginObject => {
            if levels == 0 {
                pass_rest(reader, token, depth)?;
                return Ok(Value::Object(Map::new(alloc)));
            }
            if depth == 0 {
                return Err(ReadFault::Json);
            }
            Ok(Value::Object(cut_members(alloc, reader, depth - 1, levels - 1)?))
        }
    }
}

#[cycle(read)]
fn cut_members(
    alloc: Global,
    reader: &mut Reader<'_>,
    depth: usize,
    levels: usize,
) -> Result<Map<String, Value>, ReadFault>
    ensures ok { IfOk result (λ m. (ms : Members)
        × (converted (λ ms. of_members ms no_members)
        (members (value depth) (length reader.old) reader.old) ≡ Some (ms, reader.new))
        × (members_view m.entries ≡ cut_members levels ms)) }
    ensures shorter { OnOk result (length reader.new ≤ length reader.old) }
    ensures no_longer { length reader.new ≤ length reader.old }
    ensures json { result ≡ Err Json → converted (λ ms. of_members ms no_members)
        (members (value depth) (length reader.old) reader.old) ≡ None }
    ensures kind { IfErr result (λ e. (e ≡ Json) ⊎ (e ≡ Memory)) }
{
    let mut found = Map::new(alloc);
    'members: while let Some(name) = reader.next_key()? {
        let key = String::from_str(alloc, name)?;
        let member = read_cut(alloc, reader, depth, levels)?;
        drop(found.insert(key, member)?);
    }
    Ok(found)
}
