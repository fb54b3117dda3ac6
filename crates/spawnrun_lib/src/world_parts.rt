//! The text of a world that several workers write side by side: each writes the lines of some of
//! the entities.
ghost use Rattle.std.specs.Prelude.{◌≡◌, ◌<◌, ◌++◌, ℕ, List, IfOk, OnOk, length, map};
ghost use Rattle.std.specs.Prelude.{string_bytes, vec_len};
ghost use Rattle.std.specs.List.{flat_map};
ghost use Rattle.ent_storage.specs.BirthOrder.{ListsAll};
ghost use Rattle.spawnrun_lib.specs.Pieces.{AreLabels};
ghost use Rattle.spawnrun_lib.specs.Texts.{joined};
ghost use Rattle.spawnrun_lib.specs.WorldText.{IsWorldText, line_in};
ghost use denote.Param.Send.{IsSync};

use crate::labels::Labels;
use crate::show::Show;
use crate::text::Text;
use crate::world_text::{append_alive, append_entities, write_world};
use ent_handle::{Handle, Memory};
use ent_world::World;
use std::alloc::Global;
use std::thread::{Threads, join_mut};

/// One more worker writes for each so many lines. To start a thread takes as long as to write half
/// of them, or less.
const WORTH: usize = 8192;

/// The text, and behind it that of a world, which so many workers write. One worker writes the lines
/// of few entities.
///
/// # Errors
///
/// `Memory` if memory ran out.
pub(crate) fn with_world<R>(
    rt: &R,
    alloc: Global,
    text: Vec<u8>,
    world: &World,
    names: &[String],
    show: Show,
    workers: usize,
) -> Result<Text, Memory>
where
    R: Threads + Sync,
    requires some { 0 < workers }
    ensures { IfOk result (λ all. (own : List ℕ)
        × IsWorldText (map string_bytes names.now) show world.now.entities own
        × (all ≡ text.items ++ own)) }
{
    let writers = (world.len() / WORTH).min(workers - 1) + 1;
    if writers == 1 {
        let mut text = text;
        write_world(world, names, show, &mut text)?;
        return Text::one(alloc, text);
    }
    let mut parts = empty_texts(alloc, writers)?;
    write_entities(rt, alloc, world, names, show, &mut parts)?;
    let mut last = Vec::new(alloc);
    append_alive(&mut last, world.len())?;
    parts.push(last)?;
    parts.insert(0, text)?;
    Ok(Text::of(parts))
}

/// So many texts without a byte.
fn empty_texts(alloc: Global, count: usize) -> Result<Vec<Vec<u8>>, Memory>
    ensures { IfOk result (λ texts. vec_len texts ≡ count) }
{
    let mut texts = Vec::with_capacity(alloc, count)?;
    for _ in 0..count {
        texts.push(Vec::new(alloc))?;
    }
    Ok(texts)
}

/// Makes the parts the lines of all entities, with one worker for each part.
fn write_entities<R>(
    rt: &R,
    alloc: Global,
    world: &World,
    names: &[String],
    show: Show,
    parts: &mut [Vec<u8>],
) -> Result<(), Memory>
where
    R: Threads + Sync,
    requires some { 0 < length parts.old }
    ensures { OnOk result ((handles : List Handle) × ListsAll world.now.entities handles
        × (joined parts.new ≡ flat_map (line_in (map string_bytes names.now) show world.now.entities)
        handles)) }
{
    let handles = world.by_birth()?;
    let labels = Labels::of(names);
    write_lines(rt, alloc, names, &labels, show, world, &handles, parts)
}

/// Makes the parts the lines of these entities, with one worker for each part.
#[cycle(halves)]
fn write_lines<R>(
    rt: &R,
    alloc: Global,
    names: &[String],
    labels: &Labels,
    show: Show,
    world: &World,
    handles: &[Handle],
    parts: &mut [Vec<u8>],
) -> Result<(), Memory>
where
    R: Threads + Sync,
    requires labels { AreLabels (map string_bytes names.now) labels.now.pieces }
    requires some { 0 < length parts.old }
    ensures { OnOk result (joined parts.new
        ≡ flat_map (line_in (map string_bytes names.now) show world.now.entities) handles.now) }
{
    if parts.len() == 1 {
        // Threads that append to lists beside one another would wait for the same line of cache.
        let mut text = Vec::new(alloc);
        append_entities(&mut text, names, labels, show, world, handles)?;
        parts[0] = text;
        return Ok(());
    }
    let middle = parts.len() / 2;
    let (first, second) = handles.split_at(handles.len() / parts.len() * middle);
    let (front, back) = parts.split_at_mut(middle);
    let (one, other) = write_both(
        rt, alloc, names, labels, show, world, first, front, second, back,
    );
    one?;
    other
}

/// Makes the parts in front the lines of the first entities, and side by side those behind the lines
/// of the others.
#[cycle(halves)]
fn write_both<R>(
    rt: &R,
    alloc: Global,
    names: &[String],
    labels: &Labels,
    show: Show,
    world: &World,
    first: &[Handle],
    front: &mut [Vec<u8>],
    second: &[Handle],
    back: &mut [Vec<u8>],
) -> (Result<(), Memory>, Result<(), Memory>)
where
    R: Threads + Sync,
    requires labels { AreLabels (map string_bytes names.now) labels.now.pieces }
    requires some_front { 0 < length front.old }
    requires some_back { 0 < length back.old }
    ensures front { OnOk result.0 (joined front.new
        ≡ flat_map (line_in (map string_bytes names.now) show world.now.entities) first.now) }
    ensures back { OnOk result.1 (joined back.new
        ≡ flat_map (line_in (map string_bytes names.now) show world.now.entities) second.now) }
{
    let mut one = || -> Result<(), Memory>
        requires { IsSync R.row × AreLabels (map string_bytes names.now) labels.now.pieces
            × (0 < length front.now) }
        ensures { OnOk result (joined front.exit.now
            ≡ flat_map (line_in (map string_bytes names.entry.now) show world.entry.now.entities)
            first.entry.now) }
    { write_lines(rt, alloc, names, labels, show, world, first, front) };
    let mut other = || -> Result<(), Memory>
        requires { IsSync R.row × AreLabels (map string_bytes names.now) labels.now.pieces
            × (0 < length back.now) }
        ensures { OnOk result (joined back.exit.now
            ≡ flat_map (line_in (map string_bytes names.entry.now) show world.entry.now.entities)
            second.entry.now) }
    { write_lines(rt, alloc, names, labels, show, world, second, back) };
    join_mut(rt, &mut one, &mut other)
}
