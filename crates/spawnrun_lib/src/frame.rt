//! One frame of a script.
ghost use Rattle.std.specs.Prelude.{◌≡◌, ◌<◌, ◌≤◌, length, List, IfOk, OnOk};
ghost use Rattle.ent_queue.specs.Command.{Command};
ghost use Rattle.ent_runner.specs.Frame.{Ends};
ghost use Rattle.ent_script.specs.Sizes.{most_systems};
ghost use Rattle.spawnrun_lib.specs.Issuing.{MayIssue};

use crate::frame_workers::frame_workers;
use crate::script_system::runnable;
use ent_handle::Memory;
use ent_runner::{NoGate, run_frame};
use ent_script::System;
use ent_world::{SyncReport, World};
use std::alloc::Global;
use std::thread::Threads;

/// Runs a frame of these systems on that many workers, and its sync point. If the frame has few
/// commands, some of the workers have nothing to do, and no thread starts for them.
pub(crate) fn run<R>(
    rt: &R,
    alloc: Global,
    world: &mut World,
    systems: &[System],
    workers: usize,
) -> Result<SyncReport, Memory>
where
    R: Threads + Sync,
    requires flushed { world.old.allocator.asked ≡ 0 }
    requires systems { length systems.now ≤ most_systems }
    requires some { 0 < workers }
    requires few { workers ≤ 64 }
    ensures flushed { OnOk result (world.new.allocator.asked ≡ 0) }
    ensures went { IfOk result (λ report. (queues : List (List Command))
        × Ends MayIssue systems.now workers world.old queues world.new
        report.born.items report.faults.items) }
{
    let runnable = runnable(alloc, systems)?;
    let workers = frame_workers(world.len(), systems, workers);
    match run_frame(rt, alloc, world, &runnable, workers, &NoGate) {
        Ok(report) => Ok(report.sync),
        Err(_) => Err(Memory),
    }
}
