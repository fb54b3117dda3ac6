//! A frame: workers run the systems while the world is open, and the sync point applies their
//! queues.
ghost use Rattle.std.specs.Prelude.{◌≡◌, ◌≢◌, ◌<◌, ◌≤◌, ◌^◌, [], length, List, IfOk, IsErrOf, OnOk};
ghost use Rattle.ent_alloc.specs.History.{Call};
ghost use Rattle.ent_alloc.specs.Sequential.{born};
ghost use Rattle.ent_runner.specs.Frame.{Ends, EndsInOrder, IsBrokenOff, IsLost, StopsAt};
ghost use Rattle.ent_runner.specs.Frame.{IfLost, IfSyncStopped, IfStoppedAt, reserved_by};
ghost use Rattle.ent_world.specs.Memory.{TakesMemoryAt};
ghost use Rattle.ent_world.specs.Sync.{sync, IsStop};

pub(super) mod gate;
pub(super) mod report;
mod side;
pub(super) mod system;

use crate::crew::{Crew, first_error};
use crate::frame::gate::Gate;
use crate::frame::report::{FrameFault, FrameReport};
use crate::frame::system::System;
use crate::stage::SharedStage;
use crate::systems::Issuers;
use ent_alloc::Limits;
use ent_shared::Shared;
use ent_world::{SyncFault, World};
use std::alloc::Global;
use std::mem;
use std::thread::Threads;

/// Runs each system once, on that many workers side by side, and then the sync point.
///
/// A worker has one reserver, and takes the next system that isn't taken yet until none is left.
/// Each system fills a queue of its own. The queues are applied in the order of the systems,
/// whatever the order in which they ended. If a thread can't be started, another one does its work.
///
/// There have to be 1 to 64 workers and at most 65,536 systems. No handle may have been requested
/// since the world's last flush, not even by a request that was refused: [`World::needs_flush`]
/// has to be `false`, as it is in a new world, and after a flush or a frame that succeeded.
///
/// # Errors
///
/// - [`FrameFault::Memory`] if memory ran out before any system ran. The world is as it was. A
///   frame without systems doesn't allocate.
/// - [`FrameFault::Lost`] if a system returned an error: it has the first one in the order of the
///   systems. Or if some systems didn't run, since no worker has memory for the queue of another
///   one: then it has none. No command was applied. What the systems that ran had reserved stays
///   reserved, and nothing else is: [`World::flush`] brings it to life.
/// - [`FrameFault::Sync`] if all systems ran and memory ran out in the sync point. The
///   fault has the queues. If it stopped before any entity was born ([`SyncFault::FlushMemory`]),
///   [`World::apply`] does the sync point. If it stopped at a command, [`World::apply_from`] goes
///   on there. Both end as this frame would have.
pub fn run_frame<R, S, E, G>(
    rt: &R,
    alloc: Global,
    world: &mut World,
    systems: &[S],
    workers: usize,
    gate: &G,
) -> Result<FrameReport, FrameFault<E>>
where
    R: Threads + Sync,
    S: System<Shared, E> + Sync,
    E: Drop + Send,
    G: Gate + Sync,
    requires flushed { world.old.allocator.asked ≡ 0 }
    requires systems { length systems.now ≤ 2 ^ 16 }
    requires some { 0 < workers }
    requires few { workers ≤ 64 }
    ensures ok { IfOk result (λ report. Ends S.may_issue systems.now workers world.old
        report.queues.items world.new report.sync.born.items report.sync.faults.items) }
    ensures alone { workers ≡ 1 → IfOk result (λ report. EndsInOrder world.old
        report.queues.items world.new report.sync.born.items report.sync.faults.items) }
    ensures flushed { OnOk result (world.new.allocator.asked ≡ 0) }
    ensures memory { IsErrOf result FrameFault.Memory → world.new ≡ world.old }
    ensures memory_some { IsErrOf result FrameFault.Memory → 0 < length systems.now }
    ensures lost { IfLost result (λ error. (history : List Call)
        × IsBrokenOff S.may_issue S.may_leave systems.now workers world.old history error
        × (world.new ≡ reserved_by history world.old)) }
    ensures still { IfLost result (λ _. IsLost world.old world.new) }

    // So late, memory runs out only in workers that have run a system.
    ensures lost_some { IfLost result (λ _. 0 < length systems.now) }

    ensures stopped { IfSyncStopped result (λ fault queues.
        StopsAt S.may_issue systems.now workers world.old queues world.new fault) }
    ensures stopped_flushed { IfSyncStopped result (λ fault _.
        fault ≢ SyncFault.FlushMemory → world.new.allocator.asked ≡ 0) }

    // It stops before the births only if something is reserved, and else only at a command that may
    // take memory in the world as it then is.
    ensures flush_reserved { IfSyncStopped result (λ fault _.
        fault ≡ SyncFault.FlushMemory → 0 < length world.new.allocator.taken) }
    ensures stopped_memory { IfStoppedAt result (λ system command done _ queues.
        TakesMemoryAt world.new system command done queues) }

    // What `World::apply_from` requires of who goes on after a stop at a command.
    ensures stop { IfStoppedAt result (λ system command done _ queues.
        IsStop system command done queues) }
    ensures stop_flushed { IfStoppedAt result (λ _ _ _ _ _. world.new.allocator.asked ≡ 0) }
{
    if systems.is_empty() {
        return Ok(without_systems(alloc, world));
    }
    let Ok(crew) = Crew::new(alloc, systems.len(), workers) else {
        return Err(FrameFault::Memory);
    };
    let closed = mem::replace(world, World::new(alloc, Limits::default_limits()));
    let (opened, mut reservers) = match closed.open(workers) {
        Ok(made) => made,
        Err((closed, _)) => {
            *world = closed;
            return Err(FrameFault::Memory);
        }
    };
    let issuers = Issuers {
        view: opened.view(),
        systems,
        gate,
    };
    let stage = SharedStage {
        alloc,
        shared: opened.shared(),
        systems: &issuers,
    };
    let queues = crew.work(rt, &mut reservers, &stage);
    *world = opened.close(reservers);
    let queues = match queues {
        Ok(queues) => queues,
        Err(left) => return Err(FrameFault::Lost(first_error(left))),
    };
    match world.apply(&queues) {
        Ok(sync) => Ok(FrameReport { queues, sync }),
        Err(fault) => Err(FrameFault::Sync { fault, queues }),
    }
}

/// The sync point of a frame without systems: nothing is born, and there is no command.
fn without_systems(alloc: Global, world: &mut World) -> FrameReport
    requires flushed { world.old.allocator.asked ≡ 0 }
    ensures queues { result.queues.items ≡ [] }
    ensures world { world.new ≡ (sync [] world.old).world }
    ensures born { result.sync.born.items ≡ born world.old.allocator }
    ensures faults { result.sync.faults.items ≡ (sync [] world.old).faults }
    ensures flushed { world.new.allocator.asked ≡ 0 }
{
    let queues = Vec::new(alloc);
    let sync = world.apply(&queues).unwrap();
    FrameReport { queues, sync }
}
