//! A phase without a runner: one queue, filled on this thread, and the sync point that applies it.
ghost use Rattle.std.specs.Prelude.{◌≡◌, All, IfOk, OnOk, length};
ghost use Rattle.ent_shared.specs.Phase.{IsOf};

use crate::examples::meadow::AGE;
use anyhow::{Result, anyhow};
use ent_queue::{Bundle, CommandQueue, Commands};
use ent_shared::{Reserver, Shared};
use ent_world::{OpenWorld, World};
use std::alloc::Global;

/// Plants an oak and an ash, and takes the ash out again.
pub fn plant_by_hand(alloc: Global, world: World) -> Result<World>
    requires flushed { world.allocator.asked ≡ 0 }
    ensures flushed { IfOk result (λ world. world.allocator.asked ≡ 0) }
{
    match world.open(1) {
        Ok((opened, reservers)) => phase(alloc, opened, reservers),
        Err((_, memory)) => Err(memory.into()),
    }
}

/// One system's commands.
fn issue(alloc: Global, shared: &Shared, reserver: &mut Reserver) -> Result<CommandQueue>
    requires own { IsOf shared.now reserver.old }
    ensures own { OnOk result (IsOf shared.now reserver.new) }
{
    let empty = Bundle::new(alloc);
    let grown = Bundle::of(alloc, &[(AGE, 2)])?;
    fill(alloc, shared, reserver, &empty, &grown)
}

/// Fills the queue with two spawns, an insert and a despawn.
fn fill(
    alloc: Global,
    shared: &Shared,
    reserver: &mut Reserver,
    empty: &Bundle,
    grown: &Bundle,
) -> Result<CommandQueue>
    requires own { IsOf shared.now reserver.old }
    ensures own { OnOk result (IsOf shared.now reserver.new) }
{
    let mut commands: Commands<'_> = Commands::new(alloc, shared, reserver);
    // Each spawn reserves its handle at once.
    let oak = commands.spawn(empty)?;
    let ash = commands.spawn(grown)?;
    commands.insert(oak, grown)?;
    commands.despawn(ash)?;
    Ok(commands.finish())
}

/// The phase: the commands, and then the sync point.
fn phase(alloc: Global, opened: OpenWorld, mut reservers: Vec<Reserver>) -> Result<World>
    requires all { length reservers.items ≡ opened.shared.count }
    requires own { All (IsOf opened.shared) reservers.items }
    ensures flushed { IfOk result (λ world. world.allocator.asked ≡ 0) }
{
    let queue = issue_by_first(alloc, opened.shared(), &mut reservers)?;
    let mut world = opened.close(reservers);
    sync(&mut world, queue)?;
    Ok(world)
}

/// Issues the commands with the first reserver.
fn issue_by_first(
    alloc: Global,
    shared: &Shared,
    reservers: &mut Vec<Reserver>,
) -> Result<CommandQueue>
    requires own { All (IsOf shared.now) reservers.old.items }
    ensures all { OnOk result (length reservers.new.items ≡ length reservers.old.items) }
    ensures own { OnOk result (All (IsOf shared.now) reservers.new.items) }
{
    let Some(reserver) = reservers.get_mut(0) else {
        return Err(anyhow!("no reserver"));
    };
    issue(alloc, shared, reserver)
}

/// First what was reserved comes to life, then the commands take effect.
fn sync(world: &mut World, queue: CommandQueue) -> Result<()>
    ensures flushed { OnOk result (world.new.allocator.asked ≡ 0) }
{
    if !world.apply(&[queue])?.faults.is_empty() {
        return Err(anyhow!("a command had no effect"));
    }
    Ok(())
}
