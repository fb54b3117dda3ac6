//! Calls of a storage.

use crate::cases::call::Call;
use crate::cases::writing::Out;
use ent_storage::Storage;
use std::alloc::Global;

/// A storage, as calls change it.
#[derive(Drop)]
pub struct Storing {
    storage: Storage,
    /// The spare room when it was noted.
    noted: usize,
    alloc: Global,
}

impl Storing {
    pub fn new(alloc: Global) -> Self {
        Storing {
            storage: Storage::new(alloc),
            noted: 0,
            alloc,
        }
    }

    pub fn answer(&mut self, call: &Call<'_>, out: &mut Out) {
        match call.name {
            "new" => {
                self.storage = Storage::new(self.alloc);
                out.word("done");
            }
            "note_spare" => {
                self.noted = self.storage.spare();
                out.word("done");
            }
            "spare_since" => write_change(self.noted, self.storage.spare(), out),
            _ => change(&mut self.storage, call, out),
        }
    }

    /// Writes all entities, and the spare room.
    pub fn write_state(&self, call: &Call<'_>, out: &mut Out) {
        write_entities(&self.storage, out);
        let spare = self.storage.spare();
        if call.name == "reserve" {
            // If it fails, there may be more room than before, but less than it asked for.
            out.next(&(spare >= call.number() as usize));
        } else {
            out.next(&spare);
        }
    }
}

/// Each entity with its birth and its components.
fn write_entities(storage: &Storage, out: &mut Out) {
    let Ok(handles) = storage.by_birth() else {
        return out.word("out of memory");
    };
    for handle in &handles {
        out.next(handle);
        out.word(" ");
        out.birth(storage.birth(*handle));
        out.entity(storage.items(*handle));
    }
}

/// How much more there is now, or less.
fn write_change(before: usize, now: usize, out: &mut Out) {
    if now < before {
        out.word("-");
        out.show(&(before - now));
    } else {
        out.show(&(now - before));
    }
}

fn change(storage: &mut Storage, call: &Call<'_>, out: &mut Out) {
    match call.name {
        "born" => out.done(storage.born(call.handle, call.birth)),
        "insert" => out.done(storage.insert(call.handle, &call.items)),
        "remove" => remove(storage, call, out),
        "despawn" => out.done(storage.despawn(call.handle)),
        "reserve" => out.done(storage.reserve(call.number() as usize)),
        _ => look(storage, call, out),
    }
}

fn remove(storage: &mut Storage, call: &Call<'_>, out: &mut Out) {
    match storage.remove(call.handle, call.id()) {
        Ok(value) => out.value(value),
        Err(fault) => out.show(&fault),
    }
}

/// The calls that read.
fn look(storage: &Storage, call: &Call<'_>, out: &mut Out) {
    match call.name {
        "contains" => out.show(&storage.contains(call.handle)),
        "birth" => out.birth(storage.birth(call.handle)),
        "get" => out.value(storage.get(call.handle, call.id())),
        "items" => out.entity(storage.items(call.handle)),
        "place" => out.value(storage.place(call.handle)),
        "of_birth" => out.value(storage.of_birth(call.birth)),
        _ => look_at_all(storage, call, out),
    }
}

fn look_at_all(storage: &Storage, call: &Call<'_>, out: &mut Out) {
    match call.name {
        "len" => out.show(&storage.len()),
        "is_empty" => out.show(&storage.is_empty()),
        "spare" => out.show(&storage.spare()),
        // Whether there is room for that many more.
        "has_room" => out.show(&(storage.spare() >= call.number() as usize)),
        "by_birth" => out.list(storage.by_birth()),
        "with" => out.list(storage.with(call.id())),
        "dense" => write_dense(storage.dense(call.id()), storage.len(), out),
        // How many pairs there are.
        "dense_len" => out.show(&storage.dense(call.id()).len()),
        _ => out.word("no such call"),
    }
}

/// The pairs by rising places, since they come in no order.
fn write_dense(pairs: &[(usize, i64)], places: usize, out: &mut Out) {
    if pairs.is_empty() {
        out.word("empty");
    }
    for place in 0..places {
        for (at, value) in pairs {
            if *at == place {
                out.word(" ");
                out.show(at);
                out.word("=");
                out.show(value);
            }
        }
    }
}
