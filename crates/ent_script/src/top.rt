ghost use Rattle.std.specs.Prelude.{◌≡◌, ◌<◌, ◌≤◌, length, map, Some, None, Err, IfOk, OnOk, IfErr};
ghost use Rattle.std.specs.Prelude.{◌⊎◌, IfSome, option_map, option_and_then, codes};
ghost use Rattle.json.specs.Json.{value, members};
ghost use Rattle.serde_json.specs.Data.{Data, Members, no_members, object};
ghost use Rattle.serde_json.specs.Find.{get, get_member};
ghost use Rattle.serde_json.specs.Read.{of_json, of_members, converted};
ghost use Rattle.serde_json.specs.View.{view};
ghost use Rattle.ent_script.specs.declared.read_fault.ReadFault.TheVariants.{Json, Memory};
ghost use Rattle.ent_script.specs.Cut.{cut};
ghost use Rattle.ent_script.specs.Json.{at_most};
ghost use Rattle.ent_script.specs.Reading.{heading_of};
ghost use Rattle.ent_script.specs.Top.{heads};
ghost use Rattle.ent_script.specs.Sizes.{most_components};

use crate::cutting::read_cut;
use crate::passing::pass_rest;
use crate::read_fault::ReadFault;
use crate::sizes::COMPONENTS;
use crate::streaming::read_elements;
use json::{Reader, Token};
use serde_json::{Map, Value};
use std::alloc::Global;

/// What the first pass over a text keeps.
#[derive(Drop)]
pub(crate) struct Top {
    /// The value of the text, with what its heading depends on.
    pub(crate) value: Value,
    /// The elements of `components`, each cut, if they are an array of at most 256.
    pub(crate) components: Option<Vec<Value>>,
}

/// The top of the value that comes next.
pub(crate) fn read_top(
    alloc: Global,
    reader: &mut Reader<'_>,
    depth: usize,
) -> Result<Top, ReadFault>
    ensures ok { IfOk result (λ top. (d : Data)
        × (converted of_json (value depth reader.old) ≡ Some (d, reader.new))
        × (heading_of (view top.value) ≡ heading_of d)
        × (option_map (λ vs. map view vs.items) top.components
        ≡ option_map (map (cut 0)) (option_and_then (at_most most_components) (get (codes "components") d)))) }
    ensures few { IfOk result (λ top. IfSome top.components (λ vs. length vs.items ≤ most_components)) }
    ensures json { result ≡ Err Json → converted of_json (value depth reader.old) ≡ None }
    ensures kind { IfErr result (λ e. (e ≡ Json) ⊎ (e ≡ Memory)) }
{
    let token = reader.next().ok_or(ReadFault::Json)?;
    if let Token::BeginObject = token {
        if depth == 0 {
            return Err(ReadFault::Json);
        }
        return read_members(alloc, reader, depth - 1);
    }
    pass_rest(reader, token, depth)?;
    Ok(Top {
        value: Value::Null,
        components: None,
    })
}

/// The top of an object, of which the brace was taken. Of a key that occurs twice the last counts.
fn read_members(alloc: Global, reader: &mut Reader<'_>, depth: usize) -> Result<Top, ReadFault>
    ensures ok { IfOk result (λ top. (ms : Members)
        × (converted (λ ms. of_members ms no_members)
        (members (value depth) (length reader.old) reader.old) ≡ Some (ms, reader.new))
        × (view top.value ≡ object (heads ms))
        × (option_map (λ vs. map view vs.items) top.components
        ≡ option_map (map (cut 0))
        (option_and_then (at_most most_components) (get_member (codes "components") ms)))) }
    ensures few { IfOk result (λ top. IfSome top.components (λ vs. length vs.items ≤ most_components)) }
    ensures json { result ≡ Err Json → converted (λ ms. of_members ms no_members)
        (members (value depth) (length reader.old) reader.old) ≡ None }
    ensures kind { IfErr result (λ e. (e ≡ Json) ⊎ (e ≡ Memory)) }
{
    let mut found = Map::new(alloc);
    let mut components = None;
    'members: while let Some(name) = reader.next_key()? {
        let key = String::from_str(alloc, name)?;
        if name == "components" {
            components = None;
            components = read_elements(alloc, reader, depth, 0, COMPONENTS)?;
            drop(found.insert(key, Value::Null)?);
        } else {
            let member = read_cut(alloc, reader, depth, 0)?;
            drop(found.insert(key, member)?);
        }
    }
    Ok(Top {
        value: Value::Object(found),
        components,
    })
}
