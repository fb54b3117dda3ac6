//! Clones of a world, as snapshots that a program goes back to.
ghost use Rattle.std.specs.Prelude.{◌≡◌, ◌≢◌, ◌<◌, ◌⊎◌, IfOk, OnOk, OnErr};
ghost use Rattle.std.specs.FinMap as map;

use crate::world::World;
use ent_handle::Memory;

/// Another world in the same state, with this number. So the queues of one are refused by the
/// other.
///
/// # Errors
///
/// `Memory`. It is never returned if no slot was made and there are no entities.
pub fn clone_world(world: &World, number: u64) -> Result<World, Memory>
    ensures ok { IfOk result (λ clone. clone ≡ record world.now { number = number }) }
    ensures memory { OnErr result ((0 < world.now.world.allocator.made)
        ⊎ (world.now.world.entities ≢ map.empty)) }
{
    Ok(World {
        world: world.world.try_clone()?,
        number,
        spawned: world.spawned,
    })
}

/// Makes a world the same as another, with this number. So queues from before are refused.
///
/// # Errors
///
/// `Memory`, with the world as it was. It is never returned if the source has no slots and no
/// entities.
pub fn clone_world_from(world: &mut World, source: &World, number: u64) -> Result<(), Memory>
    ensures ok { OnOk result (world.new ≡ record source.now { number = number }) }
    ensures err { OnErr result (world.new ≡ world.old) }
    ensures memory { OnErr result ((0 < source.now.world.allocator.made)
        ⊎ (source.now.world.entities ≢ map.empty)) }
{
    world.world.try_clone_from(&source.world)?;
    world.number = number;
    world.spawned = source.spawned;
    Ok(())
}
