ghost use Rattle.std.specs.Prelude.{◌≡◌, [], IfOk, IfErr, IsErrOf, length};
ghost use Rattle.ent_queue.specs.Issuing.{Issues};
ghost use Rattle.ent_runner.specs.Blocks.{HaveFilled, IsBrokenOff};
ghost use Rattle.ent_runner.specs.Blocks.Refusing.{IsRefused};
ghost use Rattle.ent_runner.specs.Frame.{SystemMayIssue, SystemMayLeave};
ghost use Rattle.ent_runner.specs.RunErrors.{IfLost};
ghost use Rattle.ent_total.specs.InWorld.{view_in};
ghost use Rattle.ent_total.specs.Lending.{AreLent};
ghost use Rattle.ent_total.specs.Phases.{AreOf, reservers_of};

use crate::in_world::InWorld;
use crate::numbering::Numbering;
use crate::phase::Phase;
use crate::queues::Queues;
use crate::reserver::Reserver;
use crate::running_in_blocks::run_lent;
use ent_blocks::Blocks;
use ent_runner::{Issuers, NoGate, RunError, System};
use std::alloc::Global;
use std::thread::Threads;

/// Runs each system once, on that many workers side by side, 1 to 64, each with the reserver at its
/// position. The world isn't changed: when the phase has ended, [`World::apply`](crate::World::apply)
/// takes the queues, which are in the order of the systems.
///
/// The handles of a system's spawns are the next ones of its block, in the pool's order, whatever
/// the others do, whichever worker runs it, and however many workers there are. The reservers say
/// how many handles each system wanted, which can decide the size of its block in the next frame:
///
/// ```
/// # #[cfg(feature = "std")] {
/// use forgeni::{fill_in_blocks, Blocks, BlockSize, OutOfMemory, StdThreads, View, World};
/// use forgeni::WorldCommands;
///
/// fn launch(_: &View<'_>, out: &mut WorldCommands<'_, Blocks>) -> Result<(), OutOfMemory> {
///     out.spawn_many_with(100, &[]).map_or_else(|refused| refused.or_memory(), |_| Ok(()))
/// }
///
/// let (mut world, mut sizes) = (World::new(), [BlockSize::new(1000); 3]);
/// for _frame in 0..2 {
///     let (phase, mut reservers) = world.open_in::<Blocks>(&sizes.map(|it| it.size()))?;
///     let queues = fill_in_blocks(&StdThreads, &phase, &mut reservers, &[launch; 3], 2)?;
///     for (size, reserver) in sizes.iter_mut().zip(&reservers) {
///         size.adapt(reserver.wanted());
///     }
///     world = phase.close(reservers)?.into_world()?;
///     world.apply(queues)?;
/// }
/// // The first blocks, of 64, were too small for it.
/// assert_eq!((world.len(), sizes[0].size()), (300, 200));
/// # }
/// # Ok::<(), Box<dyn std::error::Error + Send + Sync>>(())
/// ```
///
/// Each worker takes the next system that isn't taken yet, until none is left. If a thread can't be
/// started, another one does its work. One worker starts no thread.
///
/// # Errors
///
/// Those of [`run_in_blocks`](crate::run_in_blocks). After [`RunError::Lost`] the queues are
/// dropped, and the blocks are used up.
///
/// # Panics
///
/// The same as `run_in_blocks`.
pub fn fill_in_blocks<R, J: Numbering, T, E>(
    rt: &R,
    alloc: Global,
    phase: &Phase<J, InWorld<Blocks>>,
    reservers: &mut [Reserver<J, InWorld<Blocks>>],
    systems: &[T],
    workers: usize,
) -> Result<Queues, RunError<E>>
where
    R: Threads + Sync,
    T: System<Blocks, E> + Sync,
    E: Drop + Send,
    ensures ok { IfOk result (λ ran. HaveFilled Issues [] phase.now.source.source
        (SystemMayIssue T.may_issue systems.now (view_in phase.now.source)) (length systems.now)
        (reservers_of reservers.old) ran.queues (reservers_of reservers.new)) }
    ensures world { IfOk result (λ ran. ran.world ≡ phase.now.source.of_world) }
    ensures lent { AreLent reservers.old reservers.new result }
    ensures refused { IsRefused workers (length systems.now) (length reservers.old)
        (AreOf phase.now.number reservers.old) (λ why. IsErrOf result why) }

    // What is left if the systems were broken off.
    ensures lost { IfErr result (IfLost (IsBrokenOff Issues [] phase.now.source.source
        (SystemMayIssue T.may_issue systems.now (view_in phase.now.source))
        (SystemMayLeave T.may_leave systems.now (view_in phase.now.source)) (length systems.now)
        workers (reservers_of reservers.old))) }
{
    let world = phase.server();
    let issuers = Issuers {
        view: world.view(),
        systems,
        gate: &NoGate,
    };
    let queues = run_lent(rt, alloc, phase, reservers, &issuers, workers)?;
    Ok(Queues::new(world.of_world, queues))
}
