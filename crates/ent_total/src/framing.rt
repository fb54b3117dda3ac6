//! Frames: systems run on workers over a world, and the sync point lets their queues take effect.
ghost use Rattle.std.specs.Prelude.{◌≡◌, length, IfOk, IfErr, OnOk, IsErrOf};
ghost use Rattle.ent_runner.specs.Frame.{Ends, EndsInOrder};
ghost use Rattle.ent_runner.specs.Refusing.{IsRefused};
ghost use Rattle.ent_total.specs.Framing.{IsLeft};

use crate::frame_error::FrameError;
use crate::queues::Queues;
use crate::stop::Stop;
use crate::stopped::Stopped;
use crate::world::World;
use ent_runner::{FrameFault, FrameReport, Gate, System};
use ent_shared::Shared;
use std::alloc::Global;
use std::thread::Threads;

/// How many workers may run systems.
const WORKERS: usize = 64;

/// How many systems run together.
const SYSTEMS: usize = 65_536;

/// Runs each system once, on that many workers side by side, and then the sync point.
///
/// Each worker takes the next system that isn't taken yet, until none is left. The commands of the
/// systems take effect in the order of the systems, whatever the order in which they ended. If a
/// thread can't be started, another one does its work. One worker starts no thread.
///
/// # Errors
///
/// It is the first of these that holds.
///
/// - [`FrameError::NeedsFlush`], [`FrameError::Workers`], [`FrameError::Systems`],
///   [`FrameError::Memory`]: no system ran, and the world is as it was.
/// - [`FrameError::Lost`]: a system returned an error, and this has the first one in the order of
///   the systems. Or some systems didn't run, since no worker has memory for another one: then it
///   has none. No command took effect. What the systems that ran had reserved stays reserved, and
///   nothing else is: [`World::flush`] brings it to life, without components.
/// - [`FrameError::Unapplied`], [`FrameError::Stopped`]: all systems ran, and the sync point ran
///   out of memory. It can be repeated or continued.
pub fn run_frame<R, S, E, G>(
    rt: &R,
    alloc: Global,
    world: &mut World,
    systems: &[S],
    workers: usize,
    gate: &G,
) -> Result<FrameReport, FrameError<E>>
where
    R: Threads + Sync,
    S: System<Shared, E> + Sync,
    E: Drop + Send,
    G: Gate + Sync,
    ensures ok { IfOk result (λ report. Ends S.may_issue systems.now workers world.old.world
        report.queues.items world.new.world report.sync.born.items report.sync.faults.items) }
    ensures alone { workers ≡ 1 → IfOk result (λ report. EndsInOrder world.old.world
        report.queues.items world.new.world report.sync.born.items report.sync.faults.items) }
    ensures flushed { OnOk result
        ((world.new.world.allocator.asked ≡ 0) × (world.new.spawned ≡ 0)) }
    ensures number { world.new.number ≡ world.old.number }

    // When the systems are refused, and what is left of a frame that didn't do all.
    ensures refused { IsRefused world.old.world.allocator.asked workers (length systems.now)
        (IsErrOf result FrameError.NeedsFlush) (IsErrOf result FrameError.Workers)
        (IsErrOf result FrameError.Systems) }
    ensures left { IfErr result (IsLeft S.may_issue S.may_leave systems.now workers
        world.old world.new) }
{
    if world.world.needs_flush() {
        return Err(FrameError::NeedsFlush);
    }
    if workers == 0 || workers > WORKERS {
        return Err(FrameError::Workers);
    }
    if systems.len() > SYSTEMS {
        return Err(FrameError::Systems);
    }
    match ent_runner::run_frame(rt, alloc, &mut world.world, systems, workers, gate) {
        Ok(report) => {
            world.spawned = 0;
            Ok(report)
        }
        Err(FrameFault::Memory) => Err(FrameError::Memory),
        Err(FrameFault::Lost(error)) => Err(FrameError::Lost(error)),
        Err(FrameFault::Sync { fault, queues }) => {
            let queues = Queues::new(world.number, queues);
            match Stop::of(fault) {
                None => Err(FrameError::Unapplied(queues)),
                Some((stop, so_far)) => {
                    world.spawned = 0;
                    Err(FrameError::Stopped(Stopped::new(queues, stop, so_far)))
                }
            }
        }
    }
}
