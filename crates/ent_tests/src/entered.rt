//! Which systems are entered, how often, and under which number.
use crate::acts::{Act, all_counted};
use crate::counts::Counts;
use crate::frames::{first, frame, tried};
use ent_alloc::Limits;
use ent_runner::{FrameFault, NoGate};
use ent_world::World;
use std::alloc::Global;
use std::process::Abort;
use std::thread::Threads;

/// How many systems the frames have in which some stop.
const MANY: usize = 500;

/// Why a frame of these systems stopped, if it did. Each of them is counted.
fn stopped<R>(
    rt: &R,
    alloc: Global,
    world: &mut World,
    acts: &[Act],
    workers: usize,
    counts: &Counts,
) -> Option<FrameFault>
where
    R: Threads + Sync + Abort,
{
    let systems = all_counted(rt, alloc, counts, acts);
    tried(rt, alloc, world, &systems, workers, counts).err()
}

/// Systems that issue nothing, that only insert, only despawn or only spawn: each is entered and
/// runs once in each of two frames.
#[test]
fn each_system_is_entered_once_in_each_frame(rt: HostRuntime) {
    let acts = [
        Act::Nothing,
        Act::Insert(first(&rt, 0), 9),
        Act::Despawn(first(&rt, 1)),
        Act::Spawn(7),
        Act::Nothing,
    ];
    for workers in &[1, 2, 8] {
        assert_each_enters(&rt, rt.alloc(), &acts, *workers);
    }
}

/// In a world of three entities each of these systems is entered and runs once in each of two
/// frames.
fn assert_each_enters<R>(rt: &R, alloc: Global, acts: &[Act], workers: usize)
where
    R: Threads + Sync + Abort,
{
    let mut world = World::new(alloc, Limits::default_limits());
    let _report = frame(rt, alloc, &mut world, &[Act::Spawn(1); 3], 1, &NoGate);
    assert_enter_twice(rt, alloc, &mut world, acts, workers);
}

fn assert_enter_twice<R>(rt: &R, alloc: Global, world: &mut World, acts: &[Act], workers: usize)
where
    R: Threads + Sync + Abort,
{
    let counts = Counts::new(rt, alloc, acts.len());
    for times in 1..3 {
        assert!(rt; stopped(rt, alloc, world, acts, workers, &counts).is_none());
        counts.assert_first(rt, acts.len(), times);
    }
}

/// Systems that spawn, of which `stops` in a row, after the first `before` ones, then return that
/// memory ran out.
fn stopping(rt: &impl Abort, alloc: Global, before: usize, stops: usize) -> Vec<Act> {
    let mut acts = Vec::new(alloc);
    for number in 0..MANY {
        let act = if before <= number && number - before < stops {
            Act::SpawnAndStop(1)
        } else {
            Act::Spawn(1)
        };
        acts.push(act).expect(rt, "memory for the systems");
    }
    acts
}

/// A frame in which systems stop. Just the first systems are entered, that many, and each of them
/// has reserved one handle.
fn assert_entered<R>(rt: &R, alloc: Global, acts: &[Act], workers: usize, entered: usize)
where
    R: Threads + Sync + Abort,
{
    let mut world = World::new(alloc, Limits::default_limits());
    assert_stops(rt, alloc, &mut world, acts, workers, entered);
    assert!(rt; world.is_empty());
    assert_reserved(rt, &mut world, entered);
}

/// A frame in which systems stop, and just the first ones are entered, that many.
fn assert_stops<R>(
    rt: &R,
    alloc: Global,
    world: &mut World,
    acts: &[Act],
    workers: usize,
    entered: usize,
)
where
    R: Threads + Sync + Abort,
{
    let counts = Counts::new(rt, alloc, acts.len());
    let stopped = stopped(rt, alloc, world, acts, workers, &counts);
    assert!(rt; matches!(stopped, Some(FrameFault::Lost(Some(_)))));
    counts.assert_first(rt, entered, 1);
}

/// A flush brings to life what is reserved, and so many live then.
fn assert_reserved(rt: &impl Abort, world: &mut World, entered: usize) {
    world.flush().expect(rt, "memory for the flush");
    assert!(rt; world.len() == entered);
}

/// How many workers a frame has, how many systems spawn before some stop, how many these are, and
/// how many systems are entered.
const STOPS: &[(usize, usize, usize, usize)] = &[
    (1, 0, 1, 1),
    (1, 4, 1, 5),
    (1, 499, 1, 500),
    (2, 0, 1, 500),
    (2, 7, 1, 500),
    (2, 7, 2, 9),
    (2, 7, 5, 9),
    (4, 1, 3, 500),
    (64, 0, 63, 500),
    (64, 0, 64, 64),
];

/// A worker that has stopped does no more. The others run what is left, as long as one of them has
/// not stopped.
#[test]
fn a_worker_that_stops_does_no_more(rt: HostRuntime) {
    let alloc = rt.alloc();
    for (workers, before, stops, entered) in STOPS {
        let acts = stopping(&rt, alloc, *before, *stops);
        assert_entered(&rt, alloc, &acts, *workers, *entered);
    }
}

/// Systems that do not fail, as no more than one allocation is refused.
const SURE: [Act; 2] = [Act::SpawnSurely(5), Act::SpawnSurely(7)];

/// One worker runs systems that do not fail. So the entries of the gate tell where memory ran
/// out: before the first system, between the two, where the list of what the worker ran grows,
/// or after both. Each system that was entered has reserved one handle.
#[test]
fn out_of_memory_and_what_was_entered(rt: HostRuntime) {
    let alloc = rt.alloc();
    let mut world = World::new(alloc, Limits::default_limits());
    let entered = entered(&rt, alloc, &mut world);
    assert_reserved(&rt, &mut world, entered);
}

/// How many of the systems that do not fail are entered, as the end of the frame tells. The gate
/// says the same.
fn entered<R>(rt: &R, alloc: Global, world: &mut World) -> usize
where
    R: Threads + Sync + Abort,
{
    let counts = Counts::new(rt, alloc, 2);
    let entered = match stopped(rt, alloc, world, &SURE, 1, &counts) {
        Some(FrameFault::Memory) => 0,
        Some(FrameFault::Lost(None)) => 1,
        _ => 2,
    };
    counts.assert_first(rt, entered, 1);
    entered
}
