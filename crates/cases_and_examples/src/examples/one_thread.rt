//! One thread, an allocator and a storage: spawn, despawn, and what stands under a handle whose
//! entity is gone.
use anyhow::Result;
use ent_alloc::{Entities, Limits};
use ent_handle::{Birth, ComponentId, Handle};
use ent_storage::Storage;

const HEALTH: ComponentId = ComponentId(0);

const ARMOUR: ComponentId = ComponentId(1);

/// The living entities: who is alive, and what each of them has.
#[derive(Drop)]
struct Game {
    entities: Entities,
    storage: Storage,
}

impl Game {
    /// Brings an entity to life, with these components.
    fn spawn(&mut self, ordinal: u32, items: &[(ComponentId, i64)]) -> Result<Handle> {
        let handle = self.entities.alloc()?;
        let birth = Birth {
            frame: 0,
            system: 0,
            ordinal,
        };
        self.storage.born(handle, birth)?;
        self.storage.insert(handle, items)?;
        Ok(handle)
    }

    /// Takes an entity out. Returns the handle under which its slot is given next, or `None` if
    /// the slot is retired.
    fn despawn(&mut self, handle: Handle) -> Result<Option<Handle>> {
        let freed = self.entities.free(handle)?;
        self.storage.despawn(handle)?;
        Ok(freed.next)
    }
}

/// Begins a short game, and plays it.
pub fn show<R: Print + AllocGlobal>(rt: &R) -> Result<()> {
    let mut game = Game {
        entities: Entities::new(rt.alloc(), Limits::default_limits()),
        storage: Storage::new(rt.alloc()),
    };
    play(rt, &mut game)
}

/// Plays the game, and prints who is alive and what is found.
fn play<R: Print + AllocGlobal>(rt: &R, game: &mut Game) -> Result<()> {
    let (rat, raven) = take_the_slot(rt, game)?;
    print_both(rt, game, rat, raven)?;
    print_healths(rt, game)
}

/// Spawns a knight and a rat, and a raven in the slot of the rat, which is gone then. Returns the
/// handles of these two.
fn take_the_slot<R: Print + AllocGlobal>(rt: &R, game: &mut Game) -> Result<(Handle, Handle)> {
    let knight = game.spawn(0, &[(HEALTH, 20), (ARMOUR, 3)])?;
    let rat = game.spawn(1, &[(HEALTH, 4)])?;
    println!(rt; "spawned {knight} and {rat}")?;

    if let Some(next) = game.despawn(rat)? {
        println!(rt; "{rat} is gone, its slot will be {next}")?;
    }
    let raven = game.spawn(2, &[(HEALTH, 9)])?;
    println!(rt; "the slot of {rat} went to {raven}")?;
    Ok((rat, raven))
}

/// What stands under the handle of an entity that is gone, and under that of the next in its slot.
fn print_both<R: Print + AllocGlobal>(rt: &R, game: &Game, old: Handle, new: Handle) -> Result<()> {
    let (old, new) = (game.storage.get(old, HEALTH), game.storage.get(new, HEALTH));
    println!(rt; "the old handle finds {old:?}, the new one {new:?}")?;
    Ok(())
}

fn print_healths<R: Print + AllocGlobal>(rt: &R, game: &Game) -> Result<()> {
    for handle in game.storage.with(HEALTH)? {
        let health = game.storage.get(handle, HEALTH).unwrap_or(0);
        println!(rt; "{handle} has health {health}")?;
    }
    Ok(())
}
