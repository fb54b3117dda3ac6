//! The frames of the meadow.
ghost use Rattle.std.specs.Prelude.{◌≡◌, ◌≤◌, length, IfOk, OnOk};
ghost use Rattle.ent_runner.specs.Frame.{queue_at};

use crate::examples::by_hand::plant_by_hand;
use crate::examples::going_on::frame_that_goes_on;
use crate::examples::meadow::{Grow, Reap, Sow};
use anyhow::Result;
use either::{Left, Right};
use ent_alloc::Limits;
use ent_runner::{FrameFault, FrameReport, NoGate, run_frame};
use ent_world::World;
use std::thread::Threads;

/// Plants the meadow by hand, and runs its frames.
pub fn show<R: Threads + Sync + Print + AllocGlobal>(rt: &R) -> Result<()> {
    let world = World::new(rt.alloc(), Limits::default_limits());
    let mut world = plant_by_hand(rt.alloc(), world)?;
    frames(rt, &mut world)
}

/// Three frames, and how many plants there are before and after each.
fn frames<R>(rt: &R, world: &mut World) -> Result<()>
where
    R: Threads + Sync + Print + AllocGlobal,
    requires flushed { world.old.allocator.asked ≡ 0 }
{
    tell(rt, "by hand", world)?;
    let _ = sow_and_grow(rt, world)?;
    tell(rt, "sown and grown", world)?;
    let _ = reap(rt, world)?;
    tell(rt, "reaped", world)?;
    let _ = frame_that_goes_on(rt, world, &[Sow, Sow])?;
    tell(rt, "sown twice", world)
}

/// Prints how many plants there are.
fn tell(rt: &impl Print, when: &str, world: &World) -> Result<()> {
    println!(rt; "{when}: {} alive", world.len())?;
    Ok(())
}

/// A frame on two workers: a plant is sown, and those that were there grow.
fn sow_and_grow<R>(rt: &R, world: &mut World) -> Result<FrameReport, FrameFault>
where
    R: Threads + Sync + AllocGlobal,
    requires flushed { world.old.allocator.asked ≡ 0 }
    ensures flushed { OnOk result (world.new.allocator.asked ≡ 0) }
{
    let systems = [Left(Sow), Right(Grow)];
    run_frame(rt, rt.alloc(), world, &systems, 2, &NoGate)
}

/// A frame of the reaper alone. It hands on what the reaper promises: at most one command.
fn reap<R>(rt: &R, world: &mut World) -> Result<FrameReport, FrameFault>
where
    R: Threads + Sync + AllocGlobal,
    requires flushed { world.old.allocator.asked ≡ 0 }
    ensures flushed { OnOk result (world.new.allocator.asked ≡ 0) }
    ensures few { IfOk result (λ report. length (queue_at report.queues.items 0) ≤ 1) }
{
    run_frame(rt, rt.alloc(), world, &[Reap { ripe: 3 }], 2, &NoGate)
}
