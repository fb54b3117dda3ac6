//! A small game of projectiles: systems that launch, age and aim at them, run by workers side by
//! side.
//!
//! The whole game is played twice, by one worker and by four. A system never sees which worker runs
//! it, and commands take effect in the order of the systems, so both games tell the same story. It
//! is printed once. Handles are no part of it: which of two systems reserves first is a matter of
//! luck. An entity is named by its birth instead: the frame, the system, and which one of that
//! system's spawns it was.
ghost use Rattle.std.specs.Prelude.{◌≡◌, ◌<◌, ◌≤◌, OnOk};

mod components;
mod role;
mod systems;

use anyhow::{Result, anyhow};
use components::{AGE, TARGET};
use ent_alloc::Limits;
use ent_runner::{NoGate, run_frame};
use ent_world::{SyncReport, World};
use role::Role;
use std::thread::Threads;
use systems::{Age, Aim, Launch};

/// The systems of a frame, in the order in which their commands take effect.
const SYSTEMS: [Role; 6] = [
    Role::Launch(Launch { count: 3 }),
    Role::Age(Age { limit: 2 }),
    Role::Launch(Launch { count: 1 }),
    Role::Aim(Aim { rank: 0 }),
    Role::Aim(Aim { rank: 8 }),
    Role::Launch(Launch { count: 2 }),
];

const FRAMES: u32 = 5;

/// Plays the game twice, and prints its story.
pub fn show<R: Threads + Sync + Print + AllocGlobal>(rt: &R) -> Result<()> {
    let alone = play(rt, 1)?;
    let together = play(rt, 4)?;
    if alone != together {
        return Err(anyhow!("the story depends on the number of workers"));
    }
    println!(rt; "{alone}1 worker and 4 workers agree")?;
    Ok(())
}

/// Plays the game with that many workers, and returns its story.
fn play<R>(rt: &R, workers: usize) -> Result<String>
where
    R: Threads + Sync + AllocGlobal,
    requires some { 0 < workers }
    requires few { workers ≤ 64 }
{
    let mut world = World::new(rt.alloc(), Limits::default_limits());
    run_frames(rt, &mut world, workers)
}

/// Runs the frames, and tells what each did and who is left in the end.
fn run_frames<R>(rt: &R, world: &mut World, workers: usize) -> Result<String>
where
    R: Threads + Sync + AllocGlobal,
    requires flushed { world.old.allocator.asked ≡ 0 }
    requires some { 0 < workers }
    requires few { workers ≤ 64 }
{
    let mut story = String::new(rt.alloc());
    for frame in 0..FRAMES {
        step(rt, world, workers, frame, &mut story)?;
    }
    tell_survivors(world, &mut story)?;
    Ok(story)
}

/// Runs one frame, and tells what it did.
fn step<R>(rt: &R, world: &mut World, workers: usize, frame: u32, story: &mut String) -> Result<()>
where
    R: Threads + Sync + AllocGlobal,
    requires flushed { world.old.allocator.asked ≡ 0 }
    requires some { 0 < workers }
    requires few { workers ≤ 64 }
    ensures flushed { OnOk result (world.new.allocator.asked ≡ 0) }
{
    let report = run_frame(rt, rt.alloc(), world, &SYSTEMS, workers, &NoGate)?;
    tell_frame(frame, world.len(), &report.sync, story)
}

/// Tells what a frame did, and which of its commands had no effect.
fn tell_frame(frame: u32, alive: usize, sync: &SyncReport, story: &mut String) -> Result<()> {
    let (born, faults) = (sync.born.len(), sync.faults.len());
    writeln!(
        story,
        "frame {frame}: born {born}, alive {alive}, faults {faults}"
    )?;
    for fault in &sync.faults {
        let (system, command) = (fault.system, fault.command);
        writeln!(
            story,
            "  command {command} of system {system} had no effect"
        )?;
    }
    Ok(())
}

/// Tells of each living projectile, by birth.
fn tell_survivors(world: &World, story: &mut String) -> Result<()> {
    for handle in world.by_birth()? {
        if let Some(birth) = world.birth(handle) {
            let age = world.get(handle, AGE).unwrap_or(0);
            let aimed = if world.get(handle, TARGET).is_some() {
                ", aimed at"
            } else {
                ""
            };
            let (frame, system, ordinal) = (birth.frame, birth.system, birth.ordinal);
            writeln!(
                story,
                "born in frame {frame} by system {system} as its {ordinal}: age {age}{aimed}"
            )?;
        }
    }
    Ok(())
}
