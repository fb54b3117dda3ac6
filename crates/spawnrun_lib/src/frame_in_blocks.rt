//! One frame of a script whose systems get their handles from blocks.
ghost use Rattle.std.specs.Prelude.{◌≡◌, ◌<◌, ◌≤◌, length, List, Option, IfOk, IsErrOf};
ghost use Rattle.ent_handle.specs.declared.memory.Memory.{Memory};
ghost use Rattle.ent_queue.specs.Command.{Command};
ghost use Rattle.ent_runner.specs.declared.run_error.RunError.TheVariants as failed;
ghost use Rattle.ent_script.specs.Sizes.{most_systems};
ghost use Rattle.spawnrun_lib.specs.ReportInBlocks.{sizes_of};
ghost use Rattle.spawnrun_lib.specs.CourseInBlocks.{EndsInBlocks, StopsInBlocks};

use crate::script_system::{ScriptSystem, runnable};
use ent_blocks::Blocks;
use ent_handle::Memory;
use ent_runner::{Issuers, NoGate, RunError, run_in_blocks};
use ent_script::System;
use ent_world::{SyncReport, World};
use std::alloc::Global;
use std::thread::Threads;

/// When memory ran out in a frame in blocks, so that it didn't end.
#[derive(Clone, Copy, PartialEq, Eq)]
pub(crate) enum Undone {
    /// Before any system ran, or after all had run.
    Memory,
    /// While the systems ran.
    Lost,
}

/// As many handles for each of the systems.
fn sizes(alloc: Global, size: u32, systems: &[System]) -> Result<Vec<u32>, Memory>
    ensures { IfOk result (λ sizes. sizes.items ≡ sizes_of size systems.now) }
{
    let mut sizes = Vec::with_capacity(alloc, systems.len())?;
    for _system in systems {
        sizes.push_reserved(size);
    }
    Ok(sizes)
}

/// Why a frame didn't end whose systems were refused or broken off.
fn why_undone(error: RunError) -> Undone
    ensures { result ≡ Undone.Lost → (first : Option Memory) × (error ≡ failed.Lost first) }
{
    match error {
        RunError::Lost(_) => Undone::Lost,
        _ => Undone::Memory,
    }
}

/// Runs the systems in blocks of these sizes, and the sync point.
fn run_dealt<R>(
    rt: &R,
    alloc: Global,
    world: World,
    sizes: &[u32],
    systems: &[ScriptSystem<'_>],
    workers: usize,
) -> Result<(World, SyncReport), Undone>
where
    R: Threads + Sync,
    requires flushed { world.allocator.asked ≡ 0 }
    requires some { 0 < workers }
    requires few { workers ≤ 64 }
    requires systems { length systems.now ≤ most_systems }
    ensures flushed { IfOk result (λ ended. ended.0.allocator.asked ≡ 0) }
    ensures went { IfOk result (λ ended. (queues : List (List Command))
        × EndsInBlocks sizes.now systems.now world queues ended.0
        ended.1.born.items ended.1.faults.items) }
    ensures lost { IsErrOf result Undone.Lost
        → StopsInBlocks sizes.now systems.now workers world }
{
    let Ok((dealt, reservers)) = world.deal_blocks::<Blocks>(alloc, sizes) else {
        return Err(Undone::Memory);
    };
    let issuers = Issuers {
        view: dealt.view(),
        systems,
        gate: &NoGate,
    };
    let filled = run_in_blocks(rt, alloc, dealt.dealer(), reservers, &issuers, workers);
    let (queues, reservers) = match filled {
        Ok(filled) => filled,
        Err(refused) => {
            let (_, error) = refused.into_parts();
            return Err(why_undone(error));
        }
    };
    let (blocks, rest) = dealt.into_parts();
    let Ok(mut world) = rest.settle(blocks.close(reservers)) else {
        return Err(Undone::Memory);
    };
    match world.apply(&queues) {
        Ok(report) => Ok((world, report)),
        Err(_) => Err(Undone::Memory),
    }
}

/// Runs a frame of these systems on that many workers, each system with a block of that many
/// handles, and its sync point.
///
/// # Errors
///
/// [`Undone`] if memory ran out. The world is dropped then.
pub(crate) fn run<R>(
    rt: &R,
    alloc: Global,
    world: World,
    size: u32,
    systems: &[System],
    workers: usize,
) -> Result<(World, SyncReport), Undone>
where
    R: Threads + Sync,
    requires flushed { world.allocator.asked ≡ 0 }
    requires some { 0 < workers }
    requires few { workers ≤ 64 }
    requires systems { length systems.now ≤ most_systems }
    ensures flushed { IfOk result (λ ended. ended.0.allocator.asked ≡ 0) }
    ensures went { IfOk result (λ ended. (queues : List (List Command))
        × EndsInBlocks (sizes_of size systems.now) systems.now world queues ended.0
        ended.1.born.items ended.1.faults.items) }

    // That many workers ran, so each has run a system if one is left that no worker had room for.
    ensures lost { IsErrOf result Undone.Lost
        → StopsInBlocks (sizes_of size systems.now) systems.now workers world }
{
    let Ok(runnable) = runnable(alloc, systems) else {
        return Err(Undone::Memory);
    };
    let Ok(sizes) = sizes(alloc, size, systems) else {
        return Err(Undone::Memory);
    };
    run_dealt(rt, alloc, world, &sizes, &runnable, workers)
}
