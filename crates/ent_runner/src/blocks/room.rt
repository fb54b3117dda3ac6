//! What systems in blocks need before they run: a reserver each, a crew, and room for what they
//! hand back.
ghost use Rattle.std.specs.Prelude.{◌≡◌, ◌≢◌, ◌<◌, ◌≤◌, ◌^◌, ◌↔◌, ◌⊎◌, [], IfOk};
ghost use Rattle.std.specs.Prelude.{IfErr, OnOk, IsErrOf};
ghost use Rattle.std.specs.Prelude.{vec_capacity};
ghost use Rattle.ent_runner.specs.RunErrors.{IfLost, IsOfBlocks};
ghost use Rattle.ent_runner.specs.declared.run_error.RunError.TheVariants as failed;

use crate::crew::Crew;
use crate::run_error::RunError;
use ent_blocks::BlockReserver;
use ent_handle::Memory;
use std::alloc::Global;

/// How many workers there may be.
pub(super) const WORKERS: usize = 64;

/// How many systems there may be.
const SYSTEMS: usize = 65_536;

/// A crew whose jobs hand back an `O` each, and a reserver, and a list for all of either.
#[derive(Drop)]
pub(super) struct Room<O, E> {
    pub(super) crew: Crew<(O, BlockReserver), E>,
    pub(super) outputs: Vec<O>,
    pub(super) reservers: Vec<BlockReserver>,
}

/// Whether that many systems may run on that many workers, with that many reservers.
///
/// # Errors
///
/// The first of these that holds: [`RunError::Workers`], [`RunError::Systems`],
/// [`RunError::Reservers`].
pub fn check_run<E>(reservers: usize, systems: usize, workers: usize) -> Result<(), RunError<E>>
    ensures some { OnOk result (0 < workers) }
    ensures few { OnOk result (workers ≤ 64) }
    ensures within { OnOk result (systems ≤ 2 ^ 16) }
    ensures ready { OnOk result (reservers ≡ systems) }
    ensures of_workers { IsErrOf result failed.Workers ↔ ((workers ≡ 0) ⊎ (64 < workers)) }
    ensures of_systems { IsErrOf result failed.Systems
        ↔ ((0 < workers) × (workers ≤ 64) × (2 ^ 16 < systems)) }
    ensures of_reservers { IsErrOf result failed.Reservers
        ↔ ((0 < workers) × (workers ≤ 64) × (systems ≤ 2 ^ 16)
        × (reservers ≢ systems)) }
    ensures not_other { ¬ (IsErrOf result failed.OtherPhase) }
    ensures not_memory { ¬ (IsErrOf result failed.Memory) }
    ensures not_lost { IfErr result (IfLost (λ _. ⊥)) }
    ensures of_blocks { IfErr result IsOfBlocks }
{
    if workers == 0 || workers > WORKERS {
        return Err(RunError::Workers);
    }
    if systems > SYSTEMS {
        return Err(RunError::Systems);
    }
    if reservers != systems {
        return Err(RunError::Reservers);
    }
    Ok(())
}

/// Room for that many systems.
///
/// # Errors
///
/// `Memory`, if there isn't enough memory for it.
pub(super) fn prepare<O: Drop, E: Drop>(
    alloc: Global,
    systems: usize,
    workers: usize,
) -> Result<Room<O, E>, Memory>
    requires some { 0 < workers }
    requires few { workers ≤ 64 }
    requires within { systems ≤ 2 ^ 16 }
    ensures crew { IfOk result (λ room. (room.crew.jobs ≡ systems) × (room.crew.workers ≡ workers)) }
    ensures empty { IfOk result (λ room.
        (room.outputs.items ≡ []) × (room.reservers.items ≡ [])) }
    ensures outputs { IfOk result (λ room. systems ≤ vec_capacity room.outputs) }
    ensures reservers { IfOk result (λ room. systems ≤ vec_capacity room.reservers) }
{
    Ok(Room {
        crew: Crew::new(alloc, systems, workers)?,
        outputs: Vec::with_capacity(alloc, systems)?,
        reservers: Vec::with_capacity(alloc, systems)?,
    })
}
