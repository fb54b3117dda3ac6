//! Calls that read a world, or the view of one in a phase.

use crate::cases::call::Call;
use crate::cases::writing::Out;
use ent_handle::Handle;
use ent_world::{View, World};

/// A call of a world that is in no phase.
pub fn look(world: &World, call: &Call<'_>, out: &mut Out) {
    match call.name {
        "contains" => out.show(&world.contains(call.handle)),
        "get" => out.value(world.get(call.handle, call.id())),
        "birth" => out.birth(world.birth(call.handle)),
        "items" => out.entity(world.items(call.handle)),
        "by_birth" => out.list(world.by_birth()),
        "entities" => write_entities(world, true, out),
        // The same without handles.
        "births" => write_entities(world, false, out),
        _ => look_at_all(world, call, out),
    }
}

fn look_at_all(world: &World, call: &Call<'_>, out: &mut Out) {
    match call.name {
        "len" => out.show(&world.len()),
        "is_empty" => out.show(&world.is_empty()),
        "retired" => out.show(&world.retired()),
        "phase" => out.show(&world.phase()),
        "needs_flush" => out.show(&world.needs_flush()),
        _ => out.word("no such call"),
    }
}

/// All entities, and the numbers.
pub fn write_state(world: &World, out: &mut Out) {
    write_entities(world, true, out);
    out.next(&world.len());
    out.next(&world.retired());
    out.next(&world.phase());
    out.next(&world.needs_flush());
}

/// Each entity with its birth, its handle if that is wanted, and its components.
fn write_entities(world: &World, has_handles: bool, out: &mut Out) {
    let Ok(handles) = world.by_birth() else {
        return out.word("out of memory");
    };
    if handles.is_empty() {
        out.word("empty");
    }
    for (number, handle) in handles.iter().enumerate() {
        if number > 0 {
            out.word("; ");
        }
        out.birth(world.birth(*handle));
        if has_handles {
            out.word(" ");
            out.show(handle);
        }
        write_components(world, *handle, out);
    }
}

/// The components of an entity, each with its value. `get` has to return that too.
fn write_components(world: &World, handle: Handle, out: &mut Out) {
    let Some(items) = world.items(handle) else {
        return out.word(" none");
    };
    for (id, value) in items {
        out.item(id, value);
        if world.get(handle, id) != Some(value) {
            out.word(" and get differs");
        }
    }
}

/// A call of the view of a world in a phase.
pub fn view(view: &View<'_>, call: &Call<'_>, out: &mut Out) {
    match call.name {
        "contains" => out.show(&view.contains(call.handle)),
        "of_birth" => out.value(view.of_birth(call.birth)),
        "by_birth" => out.list(view.by_birth()),
        "phase" => out.show(&view.phase()),
        _ => out.word("no such call"),
    }
}
