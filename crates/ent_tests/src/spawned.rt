//! What systems have spawned.
use crate::acts::HP;
use ent_handle::{Birth, Handle};
use ent_queue::{CommandQueue, Entry};
use ent_world::World;
use std::process::Abort;

/// Of the entities by birth, those after the first `skip` ones were spawned by the systems of that
/// frame, one by each in the order of the systems. The first has this `HP`, each other one more
/// than the one before it, and none has another component.
pub fn assert_spawned(rt: &impl Abort, world: &World, skip: usize, frame: u64, hp: i64) {
    let handles = by_birth(rt, world);
    let (mut system, mut hp) = (0, hp);
    for handle in handles.iter().skip(skip) {
        assert!(rt; is_born(world, *handle, frame, system) && has_only(world, *handle, hp));
        system = system.wrapping_add(1);
        hp = hp.wrapping_add(1);
    }
}

fn by_birth(rt: &impl Abort, world: &World) -> Vec<Handle> {
    let handles = world.by_birth().expect(rt, "memory for the handles");
    assert!(rt; handles.len() == world.len());
    handles
}

/// Whether the system of this number spawned it in that frame, as its first one.
fn is_born(world: &World, handle: Handle, frame: u64, system: u32) -> bool {
    let birth = Birth {
        frame,
        system,
        ordinal: 0,
    };
    world.birth(handle) == Some(birth)
}

/// Whether the entity has this `HP`, and no other component.
fn has_only(world: &World, handle: Handle, hp: i64) -> bool {
    let Some(mut items) = world.items(handle) else {
        return false;
    };
    items.next() == Some((HP, hp)) && items.next().is_none() && world.get(handle, HP) == Some(hp)
}

/// Each queue has one command, which spawns an entity. The first has 0 as `HP`, each other one more
/// than the one before it, and none has another component.
pub fn assert_spawns(rt: &impl Abort, queues: &[CommandQueue]) {
    let mut hp = 0;
    for queue in queues {
        assert!(rt; spawns_only(queue, hp));
        hp = hp.wrapping_add(1);
    }
}

fn spawns_only(queue: &CommandQueue, hp: i64) -> bool {
    let mut entries = queue.entries();
    let Some(Entry::Spawn(_, bundle)) = entries.next() else {
        return false;
    };
    bundle.len() == 1 && bundle.iter().next() == Some((HP, hp)) && entries.next().is_none()
}
