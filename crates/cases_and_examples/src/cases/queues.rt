//! The commands of queues.
ghost use Rattle.std.specs.Prelude.{◌≤◌, drop};
ghost use Rattle.ent_world.specs.Sync.{stops, stops_in};

use crate::cases::writing::Out;
use ent_handle::Handle;
use ent_queue::{BundleRef, CommandQueue, Entry, HandlesRef};

/// How many stops the queues have at that command, before each of its handles. It is 0 if there is
/// no such command.
pub fn stops_at(queues: &[CommandQueue], system: usize, command: usize) -> usize
    ensures { result ≤ stops_in command (drop system queues.now) }
{
    match queues.get(system) {
        Some(queue) => stops_of(queue, command),
        None => 0,
    }
}

#[tactic(auto, using(ent_world::proofs::Folds::next_left))]
fn stops_of(queue: &CommandQueue, command: usize) -> usize
    ensures { result ≤ stops (drop command queue.now) }
{
    let mut entries = queue.entries();
    for _number in 0..command {
        let Some(_) = entries.next() else {
            return 0;
        };
    }
    match entries.next() {
        Some(Entry::SpawnMany(handles, _)) => handles.len(),
        Some(_) => 1,
        None => 0,
    }
}

/// The commands of a queue, in the order of issue.
pub fn write_queue(queue: &CommandQueue, out: &mut Out) {
    if queue.is_empty() {
        out.word("empty");
    }
    let mut is_first = true;
    for entry in queue.entries() {
        if !is_first {
            out.word("; ");
        }
        write_entry(&entry, out);
        is_first = false;
    }
}

fn write_entry(entry: &Entry<'_>, out: &mut Out) {
    match entry {
        Entry::Spawn(handle, bundle) => write_with("spawn ", *handle, bundle, out),
        Entry::Insert(handle, bundle) => write_with("insert ", *handle, bundle, out),
        Entry::SpawnMany(handles, bundle) => write_many(handles, bundle, out),
        Entry::Remove(handle, id) => {
            out.word("remove ");
            out.show(handle);
            out.word(" ");
            out.show(&id.0);
        }
        Entry::Despawn(handle) => {
            out.word("despawn ");
            out.show(handle);
        }
        Entry::Refused { wanted, why } => {
            out.word("refused ");
            out.show(wanted);
            out.word(": ");
            out.show(why);
        }
    }
}

fn write_with(name: &str, handle: Handle, bundle: &BundleRef<'_>, out: &mut Out) {
    out.word(name);
    out.show(&handle);
    write_bundle(bundle, out);
}

fn write_many(handles: &HandlesRef<'_>, bundle: &BundleRef<'_>, out: &mut Out) {
    out.word("spawn ");
    out.show(&handles.len());
    out.word(":");
    for handle in handles.iter() {
        out.word(" ");
        out.show(&handle);
    }
    write_bundle(bundle, out);
}

fn write_bundle(bundle: &BundleRef<'_>, out: &mut Out) {
    out.word(" with ");
    out.show(&bundle.len());
    out.word(":");
    for (id, value) in bundle.iter() {
        out.item(id, value);
    }
}
