//! Systems that run side by side. If each worker does not have a thread of its own, the first test
//! fails. If the workers do not claim the systems one by one, the second fails.
use crate::acts::Count;
use crate::frames::{assert_saw_all, frame};
use crate::rendezvous::Rendezvous;
use crate::spawned::assert_spawned;
use ent_alloc::Limits;
use ent_world::World;
use std::alloc::Global;
use std::process::Abort;
use std::thread::Threads;

/// In the first frame of a world so many of the systems that wait at the gate see all others.
fn assert_first_saw_all<R>(rt: &R, alloc: Global, workers: usize, gate: &Rendezvous, seeing: u32)
where
    R: Threads + Sync + Abort,
{
    let mut world = World::new(alloc, Limits::default_limits());
    assert_saw_all(rt, alloc, &mut world, workers, gate, seeing);
}

#[test]
fn workers_overlap(rt: HostRuntime) {
    assert_first_saw_all(&rt, rt.alloc(), 2, &Rendezvous::new(2, 2), 2);
    assert_first_saw_all(&rt, rt.alloc(), 4, &Rendezvous::new(4, 4), 4);
}

/// While one worker is busy with the first system, the other one takes all the rest.
#[test]
fn a_busy_worker_leaves_systems_to_others(rt: HostRuntime) {
    assert_first_saw_all(&rt, rt.alloc(), 2, &Rendezvous::new(4, 1), 1);
}

/// The first system ends last, and its queue is the first all the same.
#[test]
fn queues_stand_in_the_order_of_the_systems(rt: HostRuntime) {
    assert_first_saw_all(&rt, rt.alloc(), 4, &Rendezvous::new(40, 1), 1);
}

/// One worker takes the systems one after the other, and the gate hears of each before it runs.
#[test]
fn the_gate_is_told_before_a_system_runs(rt: HostRuntime) {
    let alloc = rt.alloc();
    let mut world = World::new(alloc, Limits::default_limits());
    run_three(&rt, alloc, &mut world);
    assert!(rt; world.len() == 3);
    assert_spawned(&rt, &world, 0, 0, 1);
}

/// A frame of three systems that ask the gate.
fn run_three<R>(rt: &R, alloc: Global, world: &mut World)
where
    R: Threads + Sync + Abort,
{
    let gate = Rendezvous::new(3, 0);
    let _report = frame(rt, alloc, world, &[Count { gate: &gate }; 3], 1, &gate);
}
