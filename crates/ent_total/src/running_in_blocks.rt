ghost use Rattle.std.specs.Prelude.{[], IfOk, IfErr, IsErrOf, length};
ghost use Rattle.ent_queue.specs.Logging.{Logs};
ghost use Rattle.ent_runner.specs.Blocks.{HaveFilled, IsBrokenOff};
ghost use Rattle.ent_runner.specs.Blocks.Refusing.{IsRefused};
ghost use Rattle.ent_runner.specs.Logs.{SystemMayLog, SystemMayLeave};
ghost use Rattle.ent_runner.specs.RunErrors.{IfLost};
ghost use Rattle.ent_total.specs.Lending.{AreLent};
ghost use Rattle.ent_total.specs.Phases.{AreOf, reservers_of};

use crate::lending::{are_of, lend_all, put_back};
use crate::numbering::Numbering;
use crate::of_blocks::OfBlocks;
use crate::phase::Phase;
use crate::reserver::Reserver;
use ent_blocks::Blocks;
use ent_log::Log;
use ent_queue::Output;
use ent_runner::{LogSystem, Loggers, RunError, Systems, check_run};
use std::alloc::Global;
use std::thread::Threads;

/// Runs systems that fill any outputs, with the blocks of the reservers, which get them back.
///
/// # Errors
///
/// Those of [`run_in_blocks`].
pub(crate) fn run_lent<R, J: Numbering, S: OfBlocks, O, T, E>(
    rt: &R,
    alloc: Global,
    phase: &Phase<J, S>,
    reservers: &mut [Reserver<J, S>],
    systems: &T,
    workers: usize,
) -> Result<Vec<O>, RunError<E>>
where
    R: Threads + Sync,
    O: Output + Send,
    T: Systems<O, Blocks, E> + Sync,
    E: Drop + Send,
    ensures ok { IfOk result (λ outputs. HaveFilled O.adds O.empty (S.of phase.now.source)
        (T.may_fill systems.now) (T.count systems.now) (reservers_of reservers.old) outputs.items
        (reservers_of reservers.new)) }
    ensures lent { AreLent reservers.old reservers.new result }
    ensures refused { IsRefused workers (T.count systems.now) (length reservers.old)
        (AreOf phase.now.number reservers.old) (λ why. IsErrOf result why) }
    ensures lost { IfErr result (IfLost (IsBrokenOff O.adds O.empty (S.of phase.now.source)
        (T.may_fill systems.now) (T.may_leave systems.now) (T.count systems.now) workers
        (reservers_of reservers.old))) }
{
    check_run(reservers.len(), systems.how_many(), workers)?;
    if !are_of(phase, reservers) {
        return Err(RunError::OtherPhase);
    }
    let Ok(lent) = lend_all(alloc, reservers) else {
        return Err(RunError::Memory);
    };
    let source = phase.server();
    match ent_runner::run_in_blocks(rt, alloc, source.blocks(), lent, systems, workers) {
        Ok((outputs, lent)) => {
            put_back(reservers, source, lent);
            Ok(outputs)
        }
        Err(back) => {
            // None, if they are lost.
            let (lent, error) = back.into_parts();
            put_back(reservers, source, lent);
            Err(error)
        }
    }
}

/// Runs each system once, on that many workers side by side, 1 to 64, each with the reserver at its
/// position and a log of its own. The logs are in the order of the systems.
///
/// The handles of a system's spawns are the next ones of its block, in the pool's order, whatever
/// the others do, whichever worker runs it, and however many workers there are. So if what a system
/// does follows from what it sees, all logs are the same each time, handles included.
///
/// Each worker takes the next system that isn't taken yet, until none is left. If a thread can't be
/// started, another one does its work. One worker starts no thread.
///
/// ```
/// # #[cfg(feature = "std")] {
/// use forgeni::{run_in_blocks, Blocks, Entities, LogCommands, StdThreads, SyncPoint};
///
/// let spawn = |commands: &mut LogCommands<'_, String, Blocks>| match commands.spawn() {
///     Ok(one) => commands.push(format!("{one}")),
///     Err(refused) => refused.or_memory(),
/// };
/// let (phase, mut reservers) = Entities::new().share_in::<Blocks>(&[64, 64])?;
/// let mut logs = run_in_blocks(&StdThreads, &phase, &mut reservers, &[spawn; 2], 4)?;
/// let mut entities = phase.close(reservers)?.into_entities()?;
/// let mut born = Vec::new();
/// let _sync = SyncPoint::begin(&mut entities, &mut logs, &mut born)?;
/// born.sort_unstable();
/// assert_eq!(born.iter().map(|one| one.index()).collect::<Vec<_>>(), [0, 64]);
/// # }
/// # Ok::<(), Box<dyn std::error::Error + Send + Sync>>(())
/// ```
///
/// If a system returns an error, what is left of the blocks counts as used:
///
/// ```
/// # #[cfg(feature = "std")] {
/// use forgeni::{run_in_blocks, Blocks, Entities, LogCommands, OutOfMemory, RunError, StdThreads};
///
/// fn fails(commands: &mut LogCommands<'_, (), Blocks>) -> Result<(), OutOfMemory> {
///     let _reserved = commands.spawn();
///     Err(OutOfMemory)
/// }
///
/// let (phase, mut reservers) = Entities::new().share_in::<Blocks>(&[2, 2])?;
/// let run = run_in_blocks(&StdThreads, &phase, &mut reservers, &[fails; 2], 1);
/// assert_eq!(run.err(), Some(RunError::Lost(Some(OutOfMemory))));
///
/// // A flush brings all of their handles to life.
/// let mut entities = phase.close(reservers)?.into_entities()?;
/// entities.flush(&mut Vec::new())?;
/// assert_eq!(entities.len(), 4);
/// # }
/// # Ok::<(), Box<dyn std::error::Error + Send + Sync>>(())
/// ```
///
/// # Errors
///
/// The first of these that applies:
///
/// - [`RunError::Workers`], [`RunError::Systems`] if there are more than 65,536,
///   [`RunError::Reservers`], [`RunError::OtherPhase`], [`RunError::Memory`]: no system ran, and
///   the reservers are as they were. With no systems, it doesn't allocate.
/// - [`RunError::Lost`]: a system returned an error, and this has the first one in the order of the
///   systems. Or some systems didn't run, since no worker has memory for another one: then it has
///   none. The logs are dropped, and the blocks are used up.
///
/// # Panics
///
/// If a system panics, the panic is propagated when all workers have ended. The logs are dropped,
/// and the blocks are used up.
pub fn run_in_blocks<R, J: Numbering, S: OfBlocks, C, T, E>(
    rt: &R,
    alloc: Global,
    phase: &Phase<J, S>,
    reservers: &mut [Reserver<J, S>],
    systems: &[T],
    workers: usize,
) -> Result<Vec<Log<C>>, RunError<E>>
where
    R: Threads + Sync,
    C: Drop + Send,
    T: LogSystem<C, Blocks, E> + Sync,
    E: Drop + Send,
    ensures ok { IfOk result (λ logs. HaveFilled Logs [] (S.of phase.now.source)
        (SystemMayLog T.may_log systems.now) (length systems.now) (reservers_of reservers.old)
        logs.items (reservers_of reservers.new)) }
    ensures lent { AreLent reservers.old reservers.new result }
    ensures refused { IsRefused workers (length systems.now) (length reservers.old)
        (AreOf phase.now.number reservers.old) (λ why. IsErrOf result why) }

    // What is left if the systems were broken off.
    ensures lost { IfErr result (IfLost (IsBrokenOff Logs [] (S.of phase.now.source)
        (SystemMayLog T.may_log systems.now) (SystemMayLeave T.may_leave systems.now)
        (length systems.now) workers (reservers_of reservers.old))) }
{
    run_lent(rt, alloc, phase, reservers, &Loggers { systems }, workers)
}
