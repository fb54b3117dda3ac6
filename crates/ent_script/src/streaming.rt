ghost use Rattle.std.specs.Prelude.{◌≡◌, ◌≢◌, ℕ, ◌<◌, ◌≤◌, true, List, length, Some, None};
ghost use Rattle.std.specs.Prelude.{Ok, OnOk, IfOk, IfErr, IfSome, ◌⊎◌, ◌-◌, MatchResult};
ghost use Rattle.std.specs.Prelude.{if◌then◌else◌};
ghost use Rattle.json.specs.Json.{value, items};
ghost use Rattle.json.specs.Token.{Token as SpecToken};
ghost use Rattle.serde_json.specs.Data.{Data, Items, array};
ghost use Rattle.serde_json.specs.Read.{of_json, of_items, converted};
ghost use Rattle.ent_script.specs.declared.read_fault.ReadFault.TheVariants.{Json, Memory};
ghost use Rattle.ent_script.specs.Fields.{BeginsObject};
ghost use Rattle.ent_script.specs.Passing.{Passes, left, after_value, after_items};
ghost use Rattle.ent_script.specs.Passing.{after_members};
ghost use Rattle.ent_script.specs.Streaming.{BeginsArray, PassesAtMost, FaultOfArray};
ghost use Rattle.ent_script.specs.Streaming.{ReadsElements};

use crate::cutting::read_cut;
use crate::passing::{pass_rest, pass_value};
use crate::read_fault::ReadFault;
use json::{Invalid, Reader, Token};
use serde_json::Value;
use std::alloc::Global;

/// Takes the bracket that begins an array. A value that is no array is passed over.
pub(crate) fn begins_array(reader: &mut Reader<'_>, depth: usize) -> Result<bool, Invalid>
    ensures value { (d : Data) (rest : List SpecToken)
        → converted of_json (value depth reader.old) ≡ Some (d, rest)
        → BeginsArray depth result reader.new d rest }
    ensures passes { MatchResult result
        (λ begins. after_value depth reader.old
        ≡ (if begins then after_items (depth - 1) reader.new else Some reader.new))
        (λ _. after_value depth reader.old ≡ None) }
    ensures deep { result ≡ Ok true → 0 < depth }
    ensures shorter { OnOk result (length reader.new < length reader.old) }
    ensures no_longer { length reader.new ≤ length reader.old }
{
    let token = reader.next().ok_or(Invalid)?;
    if let Token::BeginArray = token {
        if depth == 0 {
            return Err(Invalid);
        }
        return Ok(true);
    }
    pass_rest(reader, token, depth)?;
    Ok(false)
}

/// Takes the brace that begins an object. A value that is no object is passed over.
pub(crate) fn begins_object(reader: &mut Reader<'_>, depth: usize) -> Result<bool, Invalid>
    ensures value { (d : Data) (rest : List SpecToken)
        → converted of_json (value depth reader.old) ≡ Some (d, rest)
        → BeginsObject depth result reader.new d rest }
    ensures passes { result ≡ Ok true
        → after_value depth reader.old ≡ after_members (depth - 1) reader.new }
    ensures deep { result ≡ Ok true → 0 < depth }
    ensures shorter { OnOk result (length reader.new < length reader.old) }
    ensures no_longer { length reader.new ≤ length reader.old }
{
    let token = reader.next().ok_or(Invalid)?;
    if let Token::BeginObject = token {
        if depth == 0 {
            return Err(Invalid);
        }
        return Ok(true);
    }
    pass_rest(reader, token, depth)?;
    Ok(false)
}

/// Passes over the rest of an array. Whether at most so many elements came.
pub(crate) fn passes_at_most(
    reader: &mut Reader<'_>,
    depth: usize,
    most: usize,
) -> Result<bool, Invalid>
    ensures value { (n : ℕ) (ds : Items) (rest : List SpecToken)
        → converted of_items (items (value depth) n reader.old) ≡ Some (ds, rest)
        → PassesAtMost most result reader.new ds rest }
    ensures passes { (n : ℕ) → length reader.old ≤ n → MatchResult result
        (λ _. left (converted of_items (items (value depth) n reader.old)) ≡ Some reader.new)
        (λ _. left (converted of_items (items (value depth) n reader.old)) ≡ None) }
    ensures shorter { OnOk result (length reader.new ≤ length reader.old) }
    ensures no_longer { length reader.new ≤ length reader.old }
{
    let mut fits = true;
    let mut room = most;
    while !reader.take_end_array() {
        pass_value(reader, depth)?;
        if room == 0 {
            fits = false;
        } else {
            room -= 1;
        }
    }
    Ok(fits)
}

/// What is wrong with an array, of which an element has this fault, and at most so many elements
/// may follow. Running out of memory is no fault of the array, and decides at once.
pub(crate) fn fault_of_array(
    reader: &mut Reader<'_>,
    depth: usize,
    most: usize,
    fault: ReadFault,
    too_many: ReadFault,
) -> ReadFault
    ensures memory { fault ≡ Memory → result ≡ Memory }
    ensures value { fault ≢ Memory → (n : ℕ) (ds : Items) (rest : List SpecToken)
        → converted of_items (items (value depth) n reader.old) ≡ Some (ds, rest)
        → FaultOfArray most fault too_many result reader.new ds rest }
    ensures no_longer { length reader.new ≤ length reader.old }
{
    if fault == ReadFault::Memory {
        return fault;
    }
    match passes_at_most(reader, depth, most) {
        Ok(true) => fault,
        Ok(false) => too_many,
        Err(Invalid) => ReadFault::Json,
    }
}

/// The elements of an array of at most so many, each cut at so many levels.
pub(crate) fn read_elements(
    alloc: Global,
    reader: &mut Reader<'_>,
    depth: usize,
    levels: usize,
    most: usize,
) -> Result<Option<Vec<Value>>, ReadFault>
    ensures value { (d : Data) (rest : List SpecToken)
        → converted of_json (value depth reader.old) ≡ Some (d, rest)
        → ReadsElements levels most result reader.new d rest }
    ensures passes { Passes result reader.new (after_value depth reader.old) }
    ensures few { IfOk result (λ found. IfSome found (λ values. length values.items ≤ most)) }
    ensures kind { IfErr result (λ e. (e ≡ Json) ⊎ (e ≡ Memory)) }
    ensures shorter { OnOk result (length reader.new < length reader.old) }
    ensures no_longer { length reader.new ≤ length reader.old }
{
    if !begins_array(reader, depth)? {
        return Ok(None);
    }
    elements_cut(alloc, reader, depth - 1, levels, most)
}

fn elements_cut(
    alloc: Global,
    reader: &mut Reader<'_>,
    depth: usize,
    levels: usize,
    most: usize,
) -> Result<Option<Vec<Value>>, ReadFault>
    ensures value { (n : ℕ) (ds : Items) (rest : List SpecToken)
        → converted of_items (items (value depth) n reader.old) ≡ Some (ds, rest)
        → ReadsElements levels most result reader.new (array ds) rest }
    ensures passes { (n : ℕ) → length reader.old ≤ n → Passes result reader.new
        (left (converted of_items (items (value depth) n reader.old))) }
    ensures few { IfOk result (λ found. IfSome found (λ values. length values.items ≤ most)) }
    ensures kind { IfErr result (λ e. (e ≡ Json) ⊎ (e ≡ Memory)) }
    ensures shorter { OnOk result (length reader.new ≤ length reader.old) }
    ensures no_longer { length reader.new ≤ length reader.old }
{
    let mut found = Vec::new(alloc);
    'elements: while !reader.take_end_array() {
        if found.len() == most {
            passes_at_most(reader, depth, 0)?;
            return Ok(None);
        }
        found.push(read_cut(alloc, reader, depth, levels)?)?;
    }
    Ok(Some(found))
}
