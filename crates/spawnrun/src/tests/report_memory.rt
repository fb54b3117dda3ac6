//! Reports of what no script does, which run out of memory. Each test passes whichever single
//! allocation is refused: `rt try --test --fail-alloc N -- out_of_memory` refuses the Nth.
use ent_alloc::Limits;
use ent_handle::{Birth, ComponentId, Handle, Memory};
use ent_queue::Bundle;
use ent_world::{Fault, FaultKind, SyncReport, World};
use spawnrun_lib::{Show, write_frame, write_world};
use std::alloc::Global;
use std::process::Abort;

// The greatest number of a frame, a handle whose numbers are long, and a quota that is used up.
const FRAME: &[u8] = b"frame 18446744073709551615 born 1 faults 2\n\
    fault 3 70 not alive 1234567v89\nfault 255 9999 quota left 1099511627776\n";

#[test]
fn out_of_memory_of_a_frame(rt: HostRuntime) {
    let mut out = Vec::new(rt.alloc());
    append_frame_at_last(&rt, rt.alloc(), &mut out);
    assert!(rt; out.as_slice() == FRAME);
}

// Appends the frame, once more if memory ran out. Nothing is appended then.
fn append_frame_at_last(rt: &impl Abort, alloc: Global, out: &mut Vec<u8>) {
    if append_frame(alloc, out).is_err() {
        assert!(rt; out.is_empty());
        assert!(rt; append_frame(alloc, out).is_ok());
    }
}

fn append_frame(alloc: Global, out: &mut Vec<u8>) -> Result<(), Memory> {
    write_frame(u64::MAX, &report(alloc)?, Show::Handles, out)
}

fn report(alloc: Global) -> Result<SyncReport, Memory> {
    let late = Fault {
        system: 3,
        command: 70,
        kind: FaultKind::NotAlive(Handle::from_parts(1_234_567, 89)),
    };
    let spent = Fault {
        system: 255,
        command: 9999,
        kind: FaultKind::Quota {
            left: 1_099_511_627_776,
        },
    };
    Ok(SyncReport {
        born: Vec::from_slice(alloc, &[Handle::from_parts(0, 1)])?,
        faults: Vec::from_slice(alloc, &[late, spent])?,
    })
}

// The greatest birth, and a component beyond the names.
const WORLD: &[u8] = b"18446744073709551615.4294967295.4294967295 0v1 hp=-7 =123456\nalive 1\n";

#[test]
fn out_of_memory_of_a_world(rt: HostRuntime) {
    let mut out = Vec::new(rt.alloc());
    append_world_at_last(&rt, rt.alloc(), &mut out);
    assert!(rt; out.as_slice() == WORLD);
}

// Appends the world, once more if memory ran out. Nothing is appended then.
fn append_world_at_last(rt: &impl Abort, alloc: Global, out: &mut Vec<u8>) {
    if append_world(alloc, out).is_err() {
        assert!(rt; out.is_empty());
        assert!(rt; append_world(alloc, out).is_ok());
    }
}

fn append_world(alloc: Global, out: &mut Vec<u8>) -> Result<(), Memory> {
    let mut world = World::new(alloc, Limits::default_limits());
    spawn(alloc, &mut world)?;
    append(alloc, &world, out)
}

fn append(alloc: Global, world: &World, out: &mut Vec<u8>) -> Result<(), Memory> {
    let names = names(alloc)?;
    write_world(world, &names, Show::Handles, out)
}

fn spawn(alloc: Global, world: &mut World) -> Result<(), Memory> {
    let birth = Birth {
        frame: u64::MAX,
        system: u32::MAX,
        ordinal: u32::MAX,
    };
    let items = Bundle::of(alloc, &[(ComponentId(0), -7), (ComponentId(1), 123_456)])?;
    match world.spawn(birth, &items) {
        Ok(_) => Ok(()),
        Err(_) => Err(Memory),
    }
}

fn names(alloc: Global) -> Result<Vec<String>, Memory> {
    let mut names = Vec::new(alloc);
    names.push(String::from_str(alloc, "hp")?)?;
    Ok(names)
}
