//! Systems fill logs, and the sync point of these logs begins.
ghost use Rattle.std.specs.Prelude.{◌≡◌, ◌≢◌, ◌<◌, ◌≤◌, ◌+◌, ◌^◌, ◌↔◌, ◌⊎◌, length};
ghost use Rattle.std.specs.Prelude.{[], All, vec_len, vec_capacity};
ghost use Rattle.std.specs.Prelude.{IfOk, IfErr, IsErrAnd, OnErr, None};
ghost use Rattle.ent_alloc.specs.Sequential.{made_at_flush};
ghost use Rattle.ent_alloc.specs.Sound.{IsLive};
ghost use Rattle.ent_log.specs.Logs.{entries_of, spawned_in, first_unreserved};
ghost use Rattle.ent_runner.specs.Logs.{HaveBegun, HaveLogged, IsBrokenOff};
ghost use Rattle.ent_runner.specs.RunErrors.{IfLost, IfNotLost, IsOfAllocator};
ghost use Rattle.ent_runner.specs.declared.run_error.RunError.TheVariants as failed;

use crate::logs::run_logs;
use crate::logs::system::LogSystem;
use crate::run_error::RunError;
use ent_alloc::Entities;
use ent_handle::{HandedBack, Handle, Memory};
use ent_log::{Log, SyncPoint};
use ent_shared::Shared;
use std::alloc::Global;
use std::thread::Threads;

/// [`run_logs`], and then the beginning of the sync point of these logs. It brings to life what the
/// systems reserved, and appends it to `out`, as [`Entities::flush`] does. The sync point has the
/// entries of all logs, in the order of the systems.
///
/// All spawns of these logs are reserved. So it doesn't look at each of them, as
/// [`SyncPoint::begin`] has to do with logs that may be of another phase.
///
/// # Errors
///
/// [`HandedBack`] has the logs that the sync point did not take, and the first of these errors that
/// applies. The list is as it was.
///
/// - Those of [`run_logs`]. There are no logs.
/// - [`RunError::Unborn`]: all systems ran, and there isn't enough memory for what is born. The
///   logs are those of all systems, for [`SyncPoint::begin`]. What the systems reserved stays
///   reserved.
pub fn run_to_sync_point<R, C, S, E>(
    rt: &R,
    alloc: Global,
    entities: &mut Entities,
    systems: &[S],
    workers: usize,
    out: &mut Vec<Handle>,
) -> Result<SyncPoint<C>, HandedBack<Vec<Log<C>>, RunError<E>>>
where
    R: Threads + Sync,
    C: Drop + Send,
    S: LogSystem<C, Shared, E> + Sync,
    E: Drop + Send,
    ensures ok { IfOk result (λ point. HaveBegun S.may_log systems.now workers
        entities.old.allocator out.old.items point entities.new.allocator out.new.items) }
    ensures alive { IfOk result (λ point. All (IsLive entities.new.allocator) (spawned_in point)) }
    ensures rows { entities.new.rows ≡ entities.old.rows }
    ensures needs_flush { IsErrAnd result (λ h. h.error ≡ failed.NeedsFlush)
        ↔ (0 < entities.old.allocator.asked) }
    ensures no_crew { IsErrAnd result (λ h. h.error ≡ failed.Workers)
        ↔ ((entities.old.allocator.asked ≡ 0) × ((workers ≡ 0) ⊎ (64 < workers))) }
    ensures too_many { IsErrAnd result (λ h. h.error ≡ failed.Systems)
        ↔ ((entities.old.allocator.asked ≡ 0) × (0 < workers) × (workers ≤ 64)
        × (2 ^ 16 < length systems.now)) }
    ensures memory_some { IsErrAnd result (λ h. h.error ≡ failed.Memory)
        → 0 < length systems.now }
    ensures nothing { IfErr result (λ h. h.error ≢ failed.Unborn
        → IfNotLost (entities.new ≡ entities.old) h.error) }
    ensures none { IfErr result (λ h. h.error ≢ failed.Unborn → h.value.items ≡ []) }
    ensures of_allocator { IfErr result (λ h. IsOfAllocator h.error) }
    ensures unlisted { OnErr result (out.new.items ≡ out.old.items) }

    // What is left of a run that was broken off.
    ensures lost { IfErr result (λ h. IfLost (IsBrokenOff S.may_log S.may_leave systems.now workers
        entities.old.allocator entities.new.allocator) h.error) }
    ensures lost_some { IfErr result (λ h. IfLost (λ _. 0 < length systems.now) h.error) }

    // What holds if only what was reserved isn't born.
    ensures unborn { IfErr result (λ h. h.error ≡ failed.Unborn → HaveLogged S.may_log systems.now
        workers entities.old.allocator h.value.items entities.new.allocator) }
    ensures unborn_reserved { IfErr result (λ h. h.error ≡ failed.Unborn → first_unreserved
        entities.new.allocator (spawned_in (entries_of h.value.items)) ≡ None) }
    ensures unborn_memory { IfErr result (λ h. h.error ≡ failed.Unborn
        → (0 < made_at_flush entities.new.allocator) ⊎ (vec_capacity out.old
        < vec_len out.old + length entities.new.allocator.taken)) }
{
    let mut logs = match run_logs(rt, alloc, entities, systems, workers) {
        Ok(logs) => logs,
        Err(error) => return Err(HandedBack::new(Vec::new(alloc), error)),
    };
    match SyncPoint::begin_reserved(alloc, entities, &mut logs, out) {
        Ok(point) => Ok(point),
        Err(Memory) => Err(HandedBack::new(logs, RunError::Unborn)),
    }
}
