ghost use Rattle.std.specs.Prelude.{◌≡◌, ◌≢◌, ◌<◌, ◌≤◌, ◌^◌, ◌↔◌, ◌⊎◌, [], length};
ghost use Rattle.std.specs.Prelude.{All, IsTrue, IfOk, IfErr, OnOk, OnErr, IsErrOf, Some};
ghost use Rattle.std.specs.Prelude.{true, false, slice_get};
ghost use Rattle.std.specs.Option.{option_map};
ghost use Rattle.std.specs.FinSet as set;
ghost use Rattle.std.specs.FinMap as map;
ghost use Rattle.ent_alloc.specs.Sequential.{next, retired, top};
ghost use Rattle.ent_alloc.specs.Sound.{IsSound};
ghost use Rattle.ent_shared.specs.Record.{opened_records};
ghost use Rattle.ent_shared.specs.Phase.{IsOf, records_of};
ghost use Rattle.ent_storage.specs.EntityMap.{birth_of, components_of, value_of};
ghost use Rattle.ent_storage.specs.BirthOrder.{ListsAll};
ghost use Rattle.ent_world.specs.World.{first_world, AreLiving, IsWorld, lives_in};
ghost use Rattle.ent_world.specs.Effects.{after_spawn, after_despawn};
ghost use Rattle.ent_world.specs.Sync.{after_births};

use crate::open_world::OpenWorld;
use crate::rows::place_of;
use crate::spawning::{make, next_handle};
use ent_alloc::{AllocFault, Entities, FreeFault, Freed, Limits, State};
use ent_handle::{Birth, ComponentId, Handle, Memory};
use ent_queue::Bundle;
use ent_shared::{Reserver, share};
use ent_storage::{Items, Rows};
use std::alloc::Global;
use std::marker::Model;

/// The living entities and their components.
///
/// Contracts see it as [a record](forgeni::contracts::ent_world::world#World): the state of its
/// allocator, the number of its phase, and a finite map from the handles of the living entities to
/// their births and components.
#[derive(Drop)]
pub struct World {
    pub(crate) entities: Entities,
    pub(crate) storage: Rows,
    pub(crate) phase: u64,
    pub(crate) alloc: Global,
}

impl Model for World {
    ghost use Rattle.ent_world.specs.World.{World, world_code, IsWorld};
    ghost use Rattle.ent_world.specs.Rows.{AreRows};
    ghost use Rattle.ent_alloc.specs.Sequential.{top};
    ghost use Rattle.std.specs.Prelude.{◌≤◌};

    ghost Value = { World };

    ghost coded = { world_code };

    ghost view = { λ w. record {
      allocator = w.entities.allocator;
      phase = w.phase;
      entities = w.storage.entities;
    } };

    ghost invariant = { λ w. record {
      world : IsWorld (record {
        allocator = w.entities.allocator;
        phase = w.phase;
        entities = w.storage.entities;
      });
      rows : AreRows w.entities.rows w.storage.places w.storage.entities;
      -- there is room for the next occupant of each slot that waits
      room : top w.entities.allocator ≤ w.storage.spare;
    } };
}

impl World {
    /// Creates a world without entities. It doesn't allocate, whatever the limits are.
    pub fn new(alloc: Global, limits: Limits) -> Self
        ensures value { result ≡ first_world limits }
        ensures world { IsWorld result }
    {
        let entities = Entities::new(alloc, limits);
        // Whatever the limits are, it begins in a sound state, as `cursor` promises.
        prove_eq!(entities.cursor(), 0);
        World {
            entities,
            storage: Rows::new(alloc),
            phase: 0,
            alloc,
        }
    }

    /// Returns the number of living entities.
    pub fn len(&self) -> usize
        ensures value { result ≡ map.len self.now.entities }

        // A part of what is true of every world, for who was lent one.
        ensures living { AreLiving self.now.allocator self.now.entities }
    {
        self.storage.len()
    }

    /// Returns `true` if no entity is alive.
    pub fn is_empty(&self) -> bool
        ensures { IsTrue result ↔ (self.now.entities ≡ map.empty) }
    {
        self.storage.is_empty()
    }

    /// Returns the number of retired slots, which give no more handles. It takes constant time.
    pub fn retired(&self) -> u32
        ensures { result ≡ retired self.now.allocator }
    {
        self.entities.retired()
    }

    /// Returns `true` if the entity is alive. It takes constant time.
    pub fn contains(&self, handle: Handle) -> bool
        ensures { result ≡ lives_in self.now handle }
    {
        match self.entities.state(handle) {
            State::Alive => true,
            State::Reserved | State::Gone => false,
        }
    }

    /// Returns the value of the entity's component, if the entity is alive and has it.
    pub fn get(&self, handle: Handle, id: ComponentId) -> Option<i64>
        ensures { result ≡ value_of self.now.entities handle id }
    {
        let place = place_of(&self.entities, handle)?;
        self.storage.get_at(place, handle, id)
    }

    /// Returns the birth of the entity, if it is alive: when it came to life, and by which system.
    pub fn birth(&self, handle: Handle) -> Option<Birth>
        ensures { result ≡ birth_of self.now.entities handle }
    {
        let place = place_of(&self.entities, handle)?;
        Some(self.storage.birth_at(place, handle))
    }

    /// Returns the entity's components and their values, in ascending order of number, if it is
    /// alive.
    pub fn items(&self, handle: Handle) -> Option<Items<'_>>
        ensures { result ≡ option_map map.entries (components_of self.now.entities handle) }
    {
        let place = place_of(&self.entities, handle)?;
        Some(self.storage.items_at(place, handle))
    }

    /// Returns the handles of all entities, ordered by birth and then by handle.
    ///
    /// # Errors
    ///
    /// `Memory`: there isn't enough memory for the list. It is never returned if there are no
    /// entities.
    pub fn by_birth(&self) -> Result<Vec<Handle>, Memory>
        ensures ok { IfOk result (λ handles. ListsAll self.now.entities handles.items) }
        ensures memory { OnErr result (self.now.entities ≢ map.empty) }
    {
        self.storage.by_birth()
    }

    /// Returns how many times the world was flushed. It stays at 2^64 - 1.
    pub fn phase(&self) -> u64
        ensures { result ≡ self.now.phase }
    {
        self.phase
    }

    /// Returns `true` if any handle was requested since the last flush.
    pub fn needs_flush(&self) -> bool
        ensures { IsTrue result ↔ (0 < self.now.allocator.asked) }
    {
        self.entities.needs_flush()
    }

    /// Brings to life what is reserved, without components. The birth of each entity names the
    /// phase that ends, no system, and the entity's number among those that are born.
    ///
    /// # Errors
    ///
    /// `Memory`, only if something is reserved. Nothing has changed then.
    pub fn flush(&mut self) -> Result<(), Memory>
        ensures ok { OnOk result (self.new ≡ after_births [] self.old) }
        ensures flushed { OnOk result (self.new.allocator.asked ≡ 0) }
        ensures err { OnErr result (self.new ≡ self.old) }
        ensures memory { OnErr result (0 < length self.old.allocator.taken) }
        ensures world { IsWorld self.new }
    {
        let _ = self.bring_to_life(&[])?;
        Ok(())
    }

    /// Brings an entity to life at once, with this birth and these components. Its handle is the
    /// next one of the slot that was freed last of those that wait, or the first one of a new slot
    /// if none waits.
    ///
    /// # Errors
    ///
    /// Nothing changes.
    ///
    /// - `NeedsFlush` if handles were requested since the last flush, even if the request was
    ///   refused.
    /// - `Space` if every slot has a living occupant or is retired.
    /// - `Memory` if there isn't enough memory for a component, or for a new slot and its entity.
    ///   It is never returned if a slot waits and the bundle is empty.
    #[inline(always)]
    pub fn spawn(&mut self, birth: Birth, bundle: &Bundle) -> Result<Handle, AllocFault>
        ensures front { IfOk result (λ handle.
            slice_get self.old.allocator.pool 0 ≡ Some handle) }
        ensures ok { IfOk result (λ handle.
            self.new ≡ after_spawn birth bundle.now handle self.old) }
        ensures needs_flush { IsErrOf result AllocFault.NeedsFlush
            ↔ (0 < self.old.allocator.asked) }
        ensures space { IsErrOf result AllocFault.Space
            ↔ ((self.old.allocator.asked ≡ 0) × (self.old.allocator.pool ≡ [])) }
        ensures memory { IsErrOf result AllocFault.Memory
            → (top self.old.allocator ≡ 0) ⊎ (0 < length bundle.now) }
        ensures err { OnErr result (self.new ≡ self.old) }
        ensures world { IsWorld self.new }
    {
        let handle = next_handle(&self.entities)?;
        let row = self.entities.len();
        let place = row as usize;
        make(&mut self.storage, place, handle, birth, bundle.items())?;
        if let Err(fault) = self.entities.alloc() {
            let _ = self.storage.despawn_at(place, handle);
            return Err(fault);
        }
        self.entities.set_row(handle, row);
        Ok(handle)
    }

    /// Takes a living entity out, with all its components.
    ///
    /// # Errors
    ///
    /// Nothing changes. The first of these that holds:
    ///
    /// - `NeedsFlush` if handles were requested since the last flush, even if the request was
    ///   refused.
    /// - `NotAlive` if the handle names no living entity.
    /// - `Memory` if there isn't enough memory for the slot to wait in. The slot of the last
    ///   generation never waits, so its entity is never refused for that.
    // Not inlined, its result goes through memory, as that of `free`.
    #[inline(always)]
    pub fn despawn(&mut self, handle: Handle) -> Result<Freed, FreeFault>
        ensures ok { OnOk result (self.new ≡ after_despawn handle self.old) }
        ensures next { IfOk result (λ freed. freed.next ≡ next self.old.allocator.limits handle) }
        ensures lived { OnOk result (lives_in self.old handle ≡ true) }
        ensures needs_flush { IsErrOf result FreeFault.NeedsFlush ↔ (0 < self.old.allocator.asked) }
        ensures not_alive { IsErrOf result FreeFault.NotAlive
            ↔ ((self.old.allocator.asked ≡ 0) × (lives_in self.old handle ≡ false)) }
        ensures memory { IsErrOf result FreeFault.Memory
            → handle.generation ≢ self.old.allocator.limits.generations }
        ensures err { OnErr result (self.new ≡ self.old) }
        ensures world { IsWorld self.new }
    {
        let row = self.entities.row(handle);
        let freed = self.entities.free(handle)?;
        let Some(row) = row else { unreachable!() };
        if let Some(moved) = self.storage.despawn_at(row as usize, handle) {
            self.entities.set_row(moved, row);
        }
        Ok(freed)
    }

    /// Shares the world's allocator among `n` reservers, 1 to 1,024, as [`share`] does. Systems
    /// read the rest of it by [`OpenWorld::view`].
    ///
    /// # Errors
    ///
    /// [`Memory`], with the world as it was.
    pub fn open(self, n: usize) -> Result<(OpenWorld, Vec<Reserver>), (World, Memory)>
        requires flushed { self.allocator.asked ≡ 0 }
        requires some { 0 < n }
        requires few { n ≤ 1024 }
        ensures shared { IfOk result (λ made.
            (made.0.shared.start ≡ self.allocator) × (made.0.shared.count ≡ n)) }
        ensures sound { IfOk result (λ made. IsSound made.0.shared.start) }
        ensures living { IfOk result (λ made. AreLiving made.0.shared.start made.0.entities) }
        ensures phase { IfOk result (λ made. made.0.phase ≡ self.phase) }
        ensures entities { IfOk result (λ made. made.0.entities ≡ self.entities) }
        ensures count { IfOk result (λ made. length made.1.items ≡ n) }
        ensures reservers { IfOk result (λ made.
            records_of made.1.items ≡ opened_records self.allocator 0 n) }
        ensures unused { IfOk result (λ made. All (λ r. r.own.entries ≡ []) made.1.items) }
        ensures own { IfOk result (λ made. All (IsOf made.0.shared) made.1.items) }
        ensures err { IfErr result (λ refused. refused.0 ≡ self) }
        ensures world { IfErr result (λ refused. IsWorld refused.0) }
    {
        let World {
            entities,
            storage,
            phase,
            alloc,
        } = self;
        match share(alloc, entities, n) {
            Ok((shared, reservers)) => {
                Ok((OpenWorld::new(alloc, shared, storage, phase), reservers))
            }
            Err((entities, memory)) => Err((
                World {
                    entities,
                    storage,
                    phase,
                    alloc,
                },
                memory,
            )),
        }
    }
}
