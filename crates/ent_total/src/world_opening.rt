//! A world is opened.
ghost use Rattle.std.specs.Prelude.{◌≡◌, ◌<◌, ◌≤◌, ◌⊎◌, [], All, IfOk, IfErr};
ghost use Rattle.std.specs.Prelude.{IsErrAnd, length, map};
ghost use Rattle.std.specs.Vec.{vec_capacity, vec_len};
ghost use Rattle.ent_shared.specs.Phase.{IsOf, records_of};
ghost use Rattle.ent_shared.specs.Record.{opened_records};
ghost use Rattle.ent_total.specs.Issuing.{reservers_in, new_issuer, view_of};
ghost use Rattle.ent_total.specs.Opening.{IsUnopened};

use crate::numbering::Numbering;
use crate::open_world::OpenWorld;
use crate::opening::{Opening, begin};
use crate::share_error::ShareError;
use crate::sharing::CALLERS;
use crate::world::World;
use ent_alloc::Phased;
use ent_handle::{HandedBack, Memory};
use ent_queue::{CommandQueue, Output};
use ent_shared::Reserver;
use std::alloc::Global;

/// Opens a world for `count` systems, 1 to 1,024.
///
/// # Errors
///
/// [`HandedBack`] has the world as it was, and the first of these errors that applies:
/// [`ShareError::NeedsFlush`], [`ShareError::Count`], [`ShareError::Memory`].
pub fn open<J: Numbering>(
    alloc: Global,
    world: World,
    count: usize,
) -> Result<Opening<J, OpenWorld>, HandedBack<World, ShareError>>
    ensures same { IfOk result (λ o.
        (o.source.of_world ≡ world.number) × (o.source.spawned ≡ world.spawned)) }
    ensures shared { IfOk result (λ o. (o.source.world.shared.start ≡ world.world.allocator)
        × (o.source.world.shared.count ≡ count)) }
    ensures world { IfOk result (λ o. view_of o.source
        ≡ record { phase = world.world.phase; entities = world.world.entities }) }
    ensures reservers { IfOk result (λ o. records_of (reservers_in o.returned)
        ≡ opened_records world.world.allocator 0 count) }
    ensures no_command { IfOk result (λ o. All (λ c. c.1 ≡ []) o.returned) }
    ensures refused { IsUnopened world.world.allocator.asked ((count ≡ 0) ⊎ (1024 < count))
        (λ why. IsErrAnd result (λ h. h.error ≡ why)) }
    ensures handed_back { IfErr result (λ h. h.value ≡ world) }
{
    if world.needs_flush() {
        return Err(HandedBack::new(world, ShareError::NeedsFlush));
    }
    if count == 0 || count > CALLERS {
        return Err(HandedBack::new(world, ShareError::Count));
    }
    let Ok(reservers) = Vec::with_capacity(alloc, count) else {
        return Err(HandedBack::new(world, ShareError::Memory));
    };
    let (source, callers) = match opened(alloc, world, count) {
        Ok(made) => made,
        Err(world) => return Err(HandedBack::new(world, ShareError::Memory)),
    };
    match begin(alloc, source, callers, reservers) {
        Ok(opening) => Ok(opening),
        Err((source, callers)) => {
            let (world, _) = source.end_with_all(callers);
            Err(HandedBack::new(world, ShareError::Memory))
        }
    }
}

/// Opens a flushed world for its callers. If memory runs out, it comes back.
fn opened(
    alloc: Global,
    world: World,
    count: usize,
) -> Result<(OpenWorld, Vec<(Reserver, CommandQueue)>), World>
    requires flushed { world.world.allocator.asked ≡ 0 }
    requires some { 0 < count }
    requires few { count ≤ 1024 }
    ensures same { IfOk result (λ made.
        (made.0.of_world ≡ world.number) × (made.0.spawned ≡ world.spawned)) }
    ensures shared { IfOk result (λ made. (made.0.world.shared.start ≡ world.world.allocator)
        × (made.0.world.shared.count ≡ count)) }
    ensures world { IfOk result (λ made. view_of made.0
        ≡ record { phase = world.world.phase; entities = world.world.entities }) }
    ensures reservers { IfOk result (λ made. records_of (reservers_in made.1.items)
        ≡ opened_records world.world.allocator 0 count) }
    ensures own { IfOk result (λ made.
        All (λ c. IsOf made.0.world.shared c.0) made.1.items) }
    ensures unused { IfOk result (λ made. All (λ c. c.0.own.entries ≡ []) made.1.items) }
    ensures no_command { IfOk result (λ made. All (λ c. c.1 ≡ []) made.1.items) }
    ensures count { IfOk result (λ made. length made.1.items ≡ count) }
    ensures room { IfOk result (λ made. count ≤ vec_capacity made.1) }
    ensures err { IfErr result (λ refused. refused ≡ world) }
{
    let Ok(queues) = Vec::with_capacity(alloc, count) else {
        return Err(world);
    };
    let Ok(mut callers) = Vec::with_capacity(alloc, count) else {
        return Err(world);
    };
    let World {
        world,
        number: of_world,
        spawned,
    } = world;
    match world.open(count) {
        Ok((world, mut returned)) => {
            equip(alloc, &mut returned, &mut callers);
            let source = OpenWorld {
                world,
                of_world,
                spawned,
                returned,
                queues,
            };
            Ok((source, callers))
        }
        Err((world, _)) => Err(World {
            world,
            number: of_world,
            spawned,
        }),
    }
}

/// Gives each of the reservers an empty queue, in their order, and leaves a list without elements.
/// There is room for all of them.
fn equip(alloc: Global, reservers: &mut Vec<Reserver>, callers: &mut Vec<(Reserver, CommandQueue)>)
    requires none { callers.old.items ≡ [] }
    requires room { vec_len reservers.old ≤ vec_capacity callers.old }
    ensures callers { callers.new.items ≡ map new_issuer reservers.old.items }
    ensures left { reservers.new.items ≡ [] }
    ensures room { vec_capacity reservers.new ≡ vec_capacity reservers.old }
    ensures callers_room { vec_capacity callers.new ≡ vec_capacity callers.old }
{
    reservers.reverse();
    while let Some(reserver) = reservers.pop() {
        callers.push_reserved((reserver, CommandQueue::unfilled(alloc)));
    }
}
