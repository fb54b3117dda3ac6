//! Logs that systems fill side by side, over an allocator of the caller's.
ghost use Rattle.std.specs.Prelude.{◌≡◌, ◌≢◌, ◌<◌, ◌≤◌, ◌^◌, ◌↔◌, ◌⊎◌, length};
ghost use Rattle.std.specs.Prelude.{IfOk, IfErr, IsErrOf, Err, None};
ghost use Rattle.ent_log.specs.Logs.{entries_of, spawned_in, first_unreserved};
ghost use Rattle.ent_runner.specs.Logs.{HaveLogged, IsBrokenOff};
ghost use Rattle.ent_runner.specs.RunErrors.{IfLost, IfNotLost, IsOfAllocator};

pub(super) mod beginning;
pub(super) mod system;

use crate::crew::{Crew, first_error};
use crate::logs::system::LogSystem;
use crate::run_error::RunError;
use crate::stage::SharedStage;
use crate::systems::Loggers;
use ent_alloc::{Entities, Limits};
use ent_log::Log;
use ent_shared::{Shared, share};
use std::alloc::Global;
use std::mem;
use std::thread::Threads;

/// How many workers may run systems.
const WORKERS: usize = 64;

/// How many systems run together.
const SYSTEMS: usize = 65_536;

/// Runs each system once, on that many workers side by side, each with a log of its own. The logs
/// are in the order of the systems, whatever the order in which they ended, and
/// [`SyncPoint::begin`](ent_log::SyncPoint::begin) takes them.
///
/// Each worker takes the next system that isn't taken yet, until none is left. If a thread can't be
/// started, another one does its work. One worker starts no thread.
///
/// # Errors
///
/// It is the first of these that holds.
///
/// - [`RunError::NeedsFlush`], [`RunError::Workers`], [`RunError::Systems`], [`RunError::Memory`]:
///   no system ran, and the allocator is as it was.
/// - [`RunError::Lost`]: a system returned an error, and this has the first one in the order of the
///   systems. Or some systems didn't run, since no worker has memory for the log of another one:
///   then it has none. The logs are dropped. What the systems that ran had reserved stays reserved,
///   and nothing else is: [`Entities::flush`] brings it to life.
pub fn run_logs<R, C, S, E>(
    rt: &R,
    alloc: Global,
    entities: &mut Entities,
    systems: &[S],
    workers: usize,
) -> Result<Vec<Log<C>>, RunError<E>>
where
    R: Threads + Sync,
    C: Drop + Send,
    S: LogSystem<C, Shared, E> + Sync,
    E: Drop + Send,
    ensures ok { IfOk result (λ logs. HaveLogged S.may_log systems.now workers
        entities.old.allocator logs.items entities.new.allocator) }
    ensures rows { entities.new.rows ≡ entities.old.rows }

    // The handles of all spawns are reserved.
    ensures reserved { IfOk result (λ logs. first_unreserved entities.new.allocator
        (spawned_in (entries_of logs.items)) ≡ None) }

    ensures needs_flush { IsErrOf result RunError.NeedsFlush
        ↔ (0 < entities.old.allocator.asked) }
    ensures no_crew { IsErrOf result RunError.Workers
        ↔ ((entities.old.allocator.asked ≡ 0) × ((workers ≡ 0) ⊎ (64 < workers))) }
    ensures too_many { IsErrOf result RunError.Systems
        ↔ ((entities.old.allocator.asked ≡ 0) × (0 < workers) × (workers ≤ 64)
        × (2 ^ 16 < length systems.now)) }
    ensures memory_some { IsErrOf result RunError.Memory → 0 < length systems.now }
    ensures nothing { IfErr result (IfNotLost (entities.new ≡ entities.old)) }

    // What is left of a run that was broken off.
    ensures lost { IfErr result (IfLost (IsBrokenOff S.may_log S.may_leave systems.now workers
        entities.old.allocator entities.new.allocator)) }
    ensures lost_some { IfErr result (IfLost (λ _. 0 < length systems.now)) }
    ensures unborn { result ≢ Err RunError.Unborn }
    ensures of_allocator { IfErr result IsOfAllocator }
{
    if entities.needs_flush() {
        return Err(RunError::NeedsFlush);
    }
    if workers == 0 || workers > WORKERS {
        return Err(RunError::Workers);
    }
    if systems.len() > SYSTEMS {
        return Err(RunError::Systems);
    }
    if systems.is_empty() {
        return Ok(Vec::new(alloc));
    }
    let Ok(crew) = Crew::new(alloc, systems.len(), workers) else {
        return Err(RunError::Memory);
    };
    let flushed = mem::replace(entities, Entities::new(alloc, Limits::default_limits()));
    let (shared, mut reservers) = match share(alloc, flushed, workers) {
        Ok(made) => made,
        Err((flushed, _)) => {
            *entities = flushed;
            return Err(RunError::Memory);
        }
    };
    let loggers = Loggers { systems };
    let stage = SharedStage {
        alloc,
        shared: &shared,
        systems: &loggers,
    };
    // A command may panic when it is dropped. So no log is dropped before the allocator is in its
    // place.
    let logs = crew.work(rt, &mut reservers, &stage);
    *entities = shared.close(reservers);
    match logs {
        Ok(logs) => Ok(logs),
        Err(left) => Err(RunError::Lost(first_error(left))),
    }
}
