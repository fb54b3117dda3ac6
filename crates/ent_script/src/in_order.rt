//! Scripts whose frames come last, as most do. Such a text is read once.
//!
//! An error other than `Memory` says nothing about the text, which is then read twice.
ghost use Rattle.std.specs.Prelude.{◌≡◌, [], ◌<◌, ◌≤◌, List, length, codes, Some, None, Ok};
ghost use Rattle.std.specs.Prelude.{IfOk, IfSome, OnOk};
ghost use Rattle.json.specs.Json.{value, members, read_key};
ghost use Rattle.json.specs.Token.{Token as SpecToken};
ghost use Rattle.serde_json.specs.Data.{Items, Members, array, object, no_members, put};
ghost use Rattle.serde_json.specs.Find.{get_member};
ghost use Rattle.serde_json.specs.Read.{of_json, of_members, converted};
ghost use Rattle.serde_json.specs.View.{members_view};
ghost use Rattle.ent_script.specs.Front.{IsFront};
ghost use Rattle.ent_script.specs.Reading.{heading_of, in_script};
ghost use Rattle.ent_script.specs.Shares.{Makes, script_by};
ghost use Rattle.ent_script.specs.Sizes.{most_components};
ghost use Rattle.ent_script.specs.Top.{heads};

use crate::cause::ScriptCause;
use crate::cutting::read_cut;
use crate::frames::frames;
use crate::front::Front;
use crate::read_fault::ReadFault;
use crate::reading::{DEPTH, different_names, heading, opens, owned};
use crate::script::Script;
use crate::share::Share;
use crate::sizes::COMPONENTS;
use crate::streaming::read_elements;
use json::{Reader, Scratch};
use serde_json::{Map, Value};
use std::alloc::Global;

/// Takes the brace that ends an object, and the end of the text.
fn end(reader: &mut Reader<'_>) -> Result<(), ReadFault>
    ensures { OnOk result (read_key reader.old ≡ Some (None, [])) }
{
    if reader.next_key()?.is_some() {
        return Err(ReadFault::Json);
    }
    if reader.next().is_some() {
        return Err(ReadFault::Json);
    }
    Ok(())
}

/// The script with this front. Its frames come next, and nothing behind them.
fn script_behind(
    alloc: Global,
    front: Front,
    share: Share,
    reader: &mut Reader<'_>,
    depth: usize,
) -> Result<Script, ReadFault>
    requires { IfSome front.components (λ values. length values.items ≤ most_components) }
    ensures { IfOk result (λ script. (ds : Items) × (rest : List SpecToken)
        × (converted of_json (value depth reader.old) ≡ Some (array ds, rest))
        × (length rest < length reader.old)
        × (read_key rest ≡ Some (None, []))
        × ((ms : Members) → IsFront front (object ms)
        → get_member (codes "frames") ms ≡ Some (array ds)
        → script_by share (object ms) ≡ Ok script)) }
{
    let heading = front.heading;
    let values = front.components.ok_or(ScriptCause::Components)?;
    let components = different_names(alloc, &values)?;
    let frames = frames(alloc, heading.format, &components, share, reader, depth)?;
    end(reader)?;
    let names = owned(alloc, components.as_slice())?;
    Ok(Script::new(heading.limits, names, frames))
}

/// The front of an object with these members, emptied, and with an array of frames.
fn front_of(
    alloc: Global,
    found: Map<String, Value>,
    components: Option<Vec<Value>>,
) -> Result<Front, ReadFault>
    ensures components { IfOk result (λ front. front.components ≡ components) }
    ensures heading { IfOk result (λ front. (old : Members) (ds : Items)
        → members_view found.entries ≡ heads old
        → in_script (heading_of (object (put (codes "frames") (array ds) old)))
        ≡ Ok front.heading) }
{
    let mut all = found;
    let key = String::from_str(alloc, "frames")?;
    drop(all.insert(key, Value::Array(Vec::new(alloc)))?);
    let value = Value::Object(all);
    let heading = heading(&value)?;
    Ok(Front {
        heading,
        components,
    })
}

/// The script of an object of which the brace was taken, if its frames come last.
fn script_inside(
    alloc: Global,
    share: Share,
    reader: &mut Reader<'_>,
    depth: usize,
) -> Result<Script, ReadFault>
    ensures { IfOk result (λ script. (ms : Members)
        × (converted (λ ms. of_members ms no_members)
        (members (value depth) (length reader.old) reader.old) ≡ Some (ms, []))
        × (script_by share (object ms) ≡ Ok script)) }
{
    let mut found = Map::new(alloc);
    let mut components = None;
    'members: while let Some(name) = reader.next_key()? {
        if name == "frames" {
            let front = front_of(alloc, found, components)?;
            return script_behind(alloc, front, share, reader, depth);
        }
        let key = String::from_str(alloc, name)?;
        if name == "components" {
            components = None;
            components = read_elements(alloc, reader, depth, 0, COMPONENTS)?;
            drop(found.insert(key, Value::Null)?);
        } else {
            let member = read_cut(alloc, reader, depth, 0)?;
            drop(found.insert(key, member)?);
        }
    }
    Err(ReadFault::Script(ScriptCause::Frames))
}

/// What the workers of a share make of a text, if its frames come last.
pub(crate) fn script_in_order(
    alloc: Global,
    text: &str,
    scratch: &mut Scratch,
    share: Share,
) -> Result<Script, ReadFault>
    ensures { IfOk result (Makes share text.now) }
{
    let mut reader = Reader::new(text, scratch)?;
    if !opens(&mut reader) {
        return Err(ReadFault::Script(ScriptCause::Top));
    }
    script_inside(alloc, share, &mut reader, DEPTH - 1)
}
