ghost use Rattle.std.specs.Prelude.{◌≡◌, ◌≢◌, ◌<◌, ◌≤◌, ◌^◌, ◌↔◌, ◌⊎◌, [], All, IfOk};
ghost use Rattle.std.specs.Prelude.{IfErr, IsErrAnd, length};
ghost use Rattle.ent_blocks.specs.Drawing.{IsOfPhase};
ghost use Rattle.ent_runner.specs.Blocks.{HaveFilled, IsBrokenOff};
ghost use Rattle.ent_runner.specs.RunErrors.{IfLost, IfNotLost, IsOfBlocks};
ghost use Rattle.ent_runner.specs.declared.run_error.RunError.TheVariants as failed;

use crate::blocks::room::{Room, WORKERS, check_run, prepare};
use crate::blocks::splitting::split;
use crate::crew::first_error;
use crate::run_error::RunError;
use crate::stage::BlockStage;
use crate::systems::Systems;
use ent_blocks::{BlockReserver, Blocks};
use ent_handle::HandedBack;
use ent_queue::Output;
use std::alloc::Global;
use std::thread::Threads;

/// Runs each system once, on that many workers side by side, each with the reserver at its position
/// and an output of its own: a queue ([`Issuers`](crate::Issuers)), or a log
/// ([`Loggers`](crate::Loggers)). The outputs and the reservers are in the order of the systems.
///
/// The handles of a system's spawns are the next ones of its block, in the pool's order, whatever
/// the others do, whichever worker runs it, and however many workers there are. So if what a system
/// does follows from what it sees, all outputs are the same each time, handles included.
///
/// Each worker takes the next system that isn't taken yet, until none is left. If a thread can't be
/// started, another one does its work. One worker starts no thread.
///
/// # Errors
///
/// [`HandedBack`] has the reservers that are handed back, and the first of these errors that
/// applies.
///
/// - [`RunError::Workers`], [`RunError::Systems`], [`RunError::Reservers`],
///   [`RunError::Memory`]: no system ran, and the reservers are handed
///   back as they were. With no systems, it doesn't allocate.
/// - [`RunError::Lost`]: a system returned an error, and this has the first one in the order of the
///   systems. Or some systems didn't run, since no worker has memory for another one: then it has
///   none. All outputs and reservers are dropped: [`Blocks::close_lost`] ends the phase.
///
/// # Panics
///
/// If a system panics, the panic is propagated when all workers have ended. Outputs and reservers
/// are dropped then too.
pub fn run_in_blocks<R, O, T, E>(
    rt: &R,
    alloc: Global,
    blocks: &Blocks,
    reservers: Vec<BlockReserver>,
    systems: &T,
    workers: usize,
) -> Result<(Vec<O>, Vec<BlockReserver>), HandedBack<Vec<BlockReserver>, RunError<E>>>
where
    R: Threads + Sync,
    O: Output + Send,
    T: Systems<O, Blocks, E> + Sync,
    E: Drop + Send,
    requires own { All (IsOfPhase blocks.now) reservers.items }
    ensures ok { IfOk result (λ ran. HaveFilled O.adds O.empty blocks.now
        (T.may_fill systems.now) (T.count systems.now) reservers.items ran.0.items ran.1.items) }
    ensures own { IfOk result (λ ran. All (IsOfPhase blocks.now) ran.1.items) }
    ensures workers { IsErrAnd result (λ h. h.error ≡ failed.Workers)
        ↔ ((workers ≡ 0) ⊎ (64 < workers)) }
    ensures systems { IsErrAnd result (λ h. h.error ≡ failed.Systems)
        ↔ ((0 < workers) × (workers ≤ 64) × (2 ^ 16 < T.count systems.now)) }
    ensures reservers { IsErrAnd result (λ h. h.error ≡ failed.Reservers)
        ↔ ((0 < workers) × (workers ≤ 64) × (T.count systems.now ≤ 2 ^ 16)
        × (length reservers.items ≢ T.count systems.now)) }
    ensures not_other { IfErr result (λ h. h.error ≢ failed.OtherPhase) }
    ensures of_blocks { IfErr result (λ h. IsOfBlocks h.error) }
    ensures memory_some { IsErrAnd result (λ h. h.error ≡ failed.Memory)
        → 0 < T.count systems.now }
    ensures handed_back { IfErr result (λ h.
        IfNotLost (h.value.items ≡ reservers.items) h.error) }

    // What is left if the systems were broken off.
    ensures lost { IfErr result (λ h. IfLost (IsBrokenOff O.adds O.empty blocks.now
        (T.may_fill systems.now) (T.may_leave systems.now) (T.count systems.now) workers
        reservers.items) h.error) }
    ensures lost_some { IfErr result (λ h. IfLost (λ _. 0 < T.count systems.now) h.error) }
    ensures lost_reservers { IfErr result (λ h. IfLost (λ _. h.value.items ≡ []) h.error) }
{
    let count = systems.how_many();
    if let Err(error) = check_run(reservers.len(), count, workers) {
        return Err(HandedBack::new(reservers, error));
    }
    if count == 0 {
        return Ok((Vec::new(alloc), reservers));
    }
    let Ok(room) = prepare(alloc, count, workers) else {
        return Err(HandedBack::new(reservers, RunError::Memory));
    };
    let Room {
        crew,
        mut outputs,
        reservers: mut returned,
    } = room;
    let stage = BlockStage {
        alloc,
        blocks,
        reservers: &reservers,
        systems,
    };
    let mut nothing = [(); WORKERS];
    let done = match crew.work(rt, &mut nothing[..workers], &stage) {
        Ok(done) => done,
        Err(left) => return Err(HandedBack::new(returned, RunError::Lost(first_error(left)))),
    };
    split(done, &mut outputs, &mut returned);
    Ok((outputs, returned))
}
