//! Frames, with what they require tested before.
use crate::acts::spawns;
use crate::rendezvous::Rendezvous;
use crate::spawned::{assert_spawned, assert_spawns};
use ent_handle::{Handle, Memory};
use ent_runner::{FrameFault, FrameReport, Gate, System, run_frame};
use ent_shared::Shared;
use ent_world::World;
use std::alloc::Global;
use std::process::Abort;
use std::thread::Threads;

/// A frame.
pub fn tried<R, S, G>(
    rt: &R,
    alloc: Global,
    world: &mut World,
    systems: &[S],
    workers: usize,
    gate: &G,
) -> Result<FrameReport, FrameFault>
where
    R: Threads + Sync + Abort,
    S: System<Shared, Memory> + Sync,
    G: Gate + Sync,
{
    assert!(rt; !world.needs_flush());
    assert!(rt; systems.len() <= 65_536);
    assert!(rt; 0 < workers && workers <= 64);
    run_frame(rt, alloc, world, systems, workers, gate)
}

/// A frame that has the memory that it asks for.
pub fn frame<R, S, G>(
    rt: &R,
    alloc: Global,
    world: &mut World,
    systems: &[S],
    workers: usize,
    gate: &G,
) -> FrameReport
where
    R: Threads + Sync + Abort,
    S: System<Shared, Memory> + Sync,
    G: Gate + Sync,
{
    let Ok(report) = tried(rt, alloc, world, systems, workers, gate) else {
        panic!(rt; "memory for a frame")
    };
    report
}

/// A frame of as many systems as the gate is for. Each spawns an entity, and so many of those that
/// wait at the gate see all others. Queues and births stand in the order of the systems.
pub fn assert_saw_all<R>(
    rt: &R,
    alloc: Global,
    world: &mut World,
    workers: usize,
    gate: &Rendezvous,
    seeing: u32,
)
where
    R: Threads + Sync + Abort,
{
    let (before, number) = (world.len(), world.phase());
    run_spawns(rt, alloc, world, workers, gate);
    assert!(rt; gate.saw_all() == seeing);
    assert!(rt; world.len() == before.saturating_add(gate.systems() as usize));
    assert_spawned(rt, world, before, number, 0);
}

fn run_spawns<R>(rt: &R, alloc: Global, world: &mut World, workers: usize, gate: &Rendezvous)
where
    R: Threads + Sync + Abort,
{
    let systems = spawns(rt, alloc, gate.systems());
    let report = frame(rt, alloc, world, &systems, workers, gate);
    assert!(rt; report.queues.len() == systems.len());
    assert_spawns(rt, &report.queues);
}

/// The first handle of a slot.
pub fn first(rt: &impl Abort, index: u32) -> Handle {
    Handle::new(index, 1).expect(rt, "a handle in range")
}
