ghost use Rattle.std.specs.Prelude.{◌≡◌, ◌≢◌, ◌<◌, ◌+◌, ◌↔◌, [], length, slice_get};
ghost use Rattle.std.specs.Prelude.{IsTrue, IfOk, OnOk, OnErr, IsErrOf, Some, true, false};
ghost use Rattle.std.specs.Option.{option_map};
ghost use Rattle.std.specs.FinMap as map;
ghost use Rattle.ent_alloc.specs.Sequential.{next, retired};
ghost use Rattle.ent_storage.specs.Bundle.{bundle_of};
ghost use Rattle.ent_storage.specs.EntityMap.{birth_of, components_of, value_of};
ghost use Rattle.ent_storage.specs.BirthOrder.{ListsAll};
ghost use Rattle.ent_world.specs.World.{first_world, lives_in};
ghost use Rattle.ent_world.specs.Effects.{after_spawn, after_despawn};
ghost use Rattle.ent_world.specs.Sync.{after_births, ordinal};

use ent_alloc::{AllocFault, FreeFault, Freed, Limits};
use ent_handle::{Birth, ComponentId, Handle, Memory};
use ent_queue::Bundle;
use ent_storage::Items;
use std::alloc::Global;

/// The system in the birth of an entity that no system spawned.
const NO_SYSTEM: u32 = 0xffff_ffff;

/// The living entities and their components.
///
/// A component is a number ([`ComponentId`]) and a value of 64 bits. Systems that run side by side
/// don't touch the world: `open` gives each a [`Reserver`](crate::Reserver), and
/// [`apply`](World::apply) lets their queues take effect. Outside of phases, entities come and go
/// at once ([`spawn`](World::spawn), [`despawn`](World::despawn)), and the components of a living
/// entity change only by commands.
///
/// Queues take effect in their order, whichever system issued first. So births, components and
/// faults are the same on any number of threads, if no request is refused, no allocation fails, and
/// nothing depends on handles.
///
/// It may go to another thread, and many threads may read it at once.
///
/// ```
/// use forgeni::{ComponentId, World};
///
/// const AGE: ComponentId = ComponentId(0);
///
/// let (open, mut systems) = World::new().open(2)?;
/// std::thread::scope(|scope| {
///     for commands in &mut systems {
///         scope.spawn(move || commands.spawn(&[(AGE, 1)]));
///     }
/// });
/// let (mut world, queues) = open.close(systems)?;
/// let report = world.apply(queues)?;
/// assert_eq!(report.born.len(), 2);
/// assert!(report.faults.is_empty());
/// for entity in world.by_birth()? {
///     assert_eq!(world.get(entity, AGE), Some(1));
/// }
/// # Ok::<(), Box<dyn std::error::Error>>(())
/// ```
#[derive(Drop)]
pub struct World {
    pub(crate) world: ent_world::World,
    /// By it queues know their world. It is given from outside: what a queue says of its world is
    /// as good as it.
    pub(crate) number: u64,
    /// How many entities [`spawn`](World::spawn) made since the last flush, at most 2^32 - 1.
    pub(crate) spawned: u32,
}

/// Creates a world without entities, with these limits. It doesn't allocate. The number is its own:
/// by it queues know their world.
pub fn new_world(alloc: Global, limits: Limits, number: u64) -> World
    ensures { result ≡ record { world = first_world limits; number = number; spawned = 0 } }
{
    World {
        world: ent_world::World::new(alloc, limits),
        number,
        spawned: 0,
    }
}

impl World {
    ghost use Rattle.ent_total.specs.Spawning.{IsSpawnRefused, next_birth};

    /// Brings an entity to life at once, with these components, in any order. If a component is
    /// listed twice, its last value counts.
    ///
    /// The entity's birth names the phase and no system. Its ordinal is how many entities `spawn`
    /// made before it since the last flush, and at most 2^32 - 1.
    ///
    /// # Errors
    ///
    /// `NeedsFlush` if handles were requested since the last flush, `Space` if no slot is left,
    /// `Memory` if memory runs out. Nothing has changed then.
    ///
    /// ```
    /// use forgeni::World;
    ///
    /// let mut world = World::new();
    /// let cart = world.spawn(&[])?;
    /// let horse = world.spawn(&[])?;
    /// assert_eq!(world.birth(cart).unwrap().to_string(), "0.4294967295.0");
    /// assert_eq!(world.birth(horse).unwrap().to_string(), "0.4294967295.1");
    /// # Ok::<(), forgeni::AllocError>(())
    /// ```
    #[inline(always)]
    pub fn spawn(
        &mut self,
        alloc: Global,
        components: &[(ComponentId, i64)],
    ) -> Result<Handle, AllocFault>
        ensures front { IfOk result (λ handle.
            slice_get self.old.world.allocator.pool 0 ≡ Some handle) }
        ensures ok { IfOk result (λ handle. self.new.world
            ≡ after_spawn (next_birth self.old) (bundle_of components.now) handle self.old.world) }
        ensures counted { OnOk result (self.new.spawned ≡ ordinal (self.old.spawned + 1)) }
        ensures number { self.new.number ≡ self.old.number }

        // When it is refused, and what holds then.
        ensures refused { IsSpawnRefused self.old.world.allocator
            (length (bundle_of components.now)) result }
        ensures err { OnErr result (self.new ≡ self.old) }
    {
        let birth = Birth {
            frame: self.world.phase(),
            system: NO_SYSTEM,
            ordinal: self.spawned,
        };
        let handle = self.spawn_with_birth(alloc, birth, components)?;
        self.spawned = self.spawned.saturating_add(1);
        Ok(handle)
    }

    /// Like [`spawn`](World::spawn), but with this birth. It can be any birth, even that of another
    /// entity.
    ///
    /// ```
    /// use forgeni::{Birth, ComponentId, World};
    ///
    /// const AGE: ComponentId = ComponentId(0);
    ///
    /// // An entity of an old save comes back, under the name that it had.
    /// let birth = Birth { frame: 17, system: 2, ordinal: 0 };
    /// let mut world = World::new();
    /// let oak = world.spawn_with_birth(birth, &[(AGE, 80)])?;
    /// assert_eq!(world.birth(oak), Some(birth));
    /// # Ok::<(), Box<dyn std::error::Error>>(())
    /// ```
    ///
    /// # Errors
    ///
    /// The same as for `spawn`.
    #[inline(always)]
    pub fn spawn_with_birth(
        &mut self,
        alloc: Global,
        birth: Birth,
        components: &[(ComponentId, i64)],
    ) -> Result<Handle, AllocFault>
        ensures front { IfOk result (λ handle.
            slice_get self.old.world.allocator.pool 0 ≡ Some handle) }
        ensures ok { IfOk result (λ handle. self.new ≡ record self.old {
          world = after_spawn birth (bundle_of components.now) handle self.old.world;
        }) }

        // When it is refused, and what holds then.
        ensures refused { IsSpawnRefused self.old.world.allocator
            (length (bundle_of components.now)) result }
        ensures err { OnErr result (self.new ≡ self.old) }
    {
        let Ok(bundle) = Bundle::of(alloc, components) else {
            return Err(self.no_bundle());
        };
        self.world.spawn(birth, &bundle)
    }

    /// Why nothing was spawned, when there isn't enough memory for the components.
    #[cold]
    fn no_bundle(&self) -> AllocFault
        ensures needs_flush { result ≡ AllocFault.NeedsFlush ↔ (0 < self.now.world.allocator.asked) }
        ensures memory { result ≡ AllocFault.Memory ↔ (self.now.world.allocator.asked ≡ 0) }
    {
        if self.world.needs_flush() {
            AllocFault::NeedsFlush
        } else {
            AllocFault::Memory
        }
    }

    /// Removes a living entity, with all its components.
    ///
    /// ```
    /// use forgeni::{FreeError, World};
    ///
    /// let mut world = World::new();
    /// let cart = world.spawn(&[])?;
    /// world.despawn(cart)?;
    /// assert!(!world.contains(cart));
    /// assert_eq!(world.despawn(cart), Err(FreeError::NotAlive));
    /// # Ok::<(), Box<dyn std::error::Error>>(())
    /// ```
    ///
    /// # Errors
    ///
    /// `NeedsFlush` if handles were requested since the last flush, `NotAlive` if the handle names
    /// no living entity, `Memory` if memory runs out. Nothing has changed then.
    pub fn despawn(&mut self, handle: Handle) -> Result<Freed, FreeFault>
        ensures ok { OnOk result
            (self.new ≡ record self.old { world = after_despawn handle self.old.world }) }
        ensures next { IfOk result (λ freed.
            freed.next ≡ next self.old.world.allocator.limits handle) }
        ensures lived { OnOk result (lives_in self.old.world handle ≡ true) }
        ensures needs_flush { IsErrOf result FreeFault.NeedsFlush
            ↔ (0 < self.old.world.allocator.asked) }
        ensures not_alive { IsErrOf result FreeFault.NotAlive
            ↔ ((self.old.world.allocator.asked ≡ 0)
            × (lives_in self.old.world handle ≡ false)) }
        ensures memory { IsErrOf result FreeFault.Memory
            → handle.generation ≢ self.old.world.allocator.limits.generations }
        ensures err { OnErr result (self.new ≡ self.old) }
    {
        self.world.despawn(handle)
    }

    /// Returns the value of the entity's component, if the entity is alive and has it.
    ///
    /// ```
    /// use forgeni::{ComponentId, World};
    ///
    /// const AGE: ComponentId = ComponentId(0);
    /// const SIZE: ComponentId = ComponentId(1);
    ///
    /// let mut world = World::new();
    /// let oak = world.spawn(&[(AGE, 80)])?;
    /// assert_eq!((world.get(oak, AGE), world.get(oak, SIZE)), (Some(80), None));
    /// # Ok::<(), forgeni::AllocError>(())
    /// ```
    #[must_use]
    pub fn get(&self, handle: Handle, id: ComponentId) -> Option<i64>
        ensures { result ≡ value_of self.now.world.entities handle id }
    {
        self.world.get(handle, id)
    }

    /// Returns the birth of the entity, if it is alive: when it came to life, and by which system.
    ///
    /// ```
    /// use forgeni::World;
    ///
    /// let mut world = World::new();
    /// let (spawned, queues) = world.phase(3, |_open, systems| systems[2].spawn(&[]))?;
    /// world.apply(queues)?;
    /// // Frame 0, system 2, its first spawn.
    /// assert_eq!(world.birth(spawned?).map(|it| it.to_string()), Some("0.2.0".into()));
    /// # Ok::<(), Box<dyn std::error::Error>>(())
    /// ```
    #[must_use]
    pub fn birth(&self, handle: Handle) -> Option<Birth>
        ensures { result ≡ birth_of self.now.world.entities handle }
    {
        self.world.birth(handle)
    }

    /// Returns `true` if the entity is alive. It takes constant time. It returns `false` for a
    /// handle that is only reserved, for which [`Entities::contains`](forgeni::Entities::contains)
    /// returns `true`.
    ///
    /// ```
    /// use forgeni::World;
    ///
    /// let mut world = World::new();
    /// let oak = world.spawn(&[])?;
    /// world.despawn(oak)?;
    /// let lime = world.spawn(&[])?;
    /// // The lime has the slot of the oak, but another handle.
    /// assert!(world.contains(lime) && !world.contains(oak));
    /// # Ok::<(), Box<dyn std::error::Error>>(())
    /// ```
    #[must_use]
    pub fn contains(&self, handle: Handle) -> bool
        ensures { result ≡ lives_in self.now.world handle }
    {
        self.world.contains(handle)
    }

    /// Returns the entity's components and their values, in ascending order of number, if it is
    /// alive.
    ///
    /// ```
    /// use forgeni::{ComponentId, World};
    ///
    /// let mut world = World::new();
    /// let cart = world.spawn(&[(ComponentId(7), 2), (ComponentId(3), 1)])?;
    /// let items: Vec<_> = world.items(cart).unwrap().collect();
    /// assert_eq!(items, [(ComponentId(3), 1), (ComponentId(7), 2)]);
    /// # Ok::<(), forgeni::AllocError>(())
    /// ```
    #[must_use]
    pub fn items(&self, handle: Handle) -> Option<Items<'_>>
        ensures { result ≡ option_map map.entries (components_of self.now.world.entities handle) }
    {
        self.world.items(handle)
    }

    /// Returns the handles of all entities, ordered by birth and then by handle. It takes the time
    /// of a sort.
    ///
    /// ```
    /// use forgeni::World;
    ///
    /// let mut world = World::new();
    /// let (cart, horse) = (world.spawn(&[])?, world.spawn(&[])?);
    /// assert_eq!(world.by_birth()?, [cart, horse]);
    /// # Ok::<(), Box<dyn std::error::Error>>(())
    /// ```
    ///
    /// # Errors
    ///
    /// `OutOfMemory`: there isn't enough memory for the list. It is never returned if there are no
    /// entities.
    pub fn by_birth(&self) -> Result<Vec<Handle>, Memory>
        ensures ok { IfOk result (λ handles. ListsAll self.now.world.entities handles.items) }
        ensures memory { OnErr result (self.now.world.entities ≢ map.empty) }
    {
        self.world.by_birth()
    }

    /// Returns the number of living entities.
    ///
    /// ```
    /// use forgeni::World;
    ///
    /// let mut world = World::new();
    /// let (spawned, queues) = world.phase(1, |_open, systems| systems[0].spawn_many(10, &[]))?;
    /// assert_eq!((spawned?.len(), world.len()), (10, 0));
    /// world.apply(queues)?;
    /// assert_eq!(world.len(), 10);
    /// # Ok::<(), Box<dyn std::error::Error>>(())
    /// ```
    #[must_use]
    pub fn len(&self) -> usize
        ensures { result ≡ map.len self.now.world.entities }
    {
        self.world.len()
    }

    /// Returns `true` if no entity is alive.
    ///
    /// ```
    /// use forgeni::World;
    ///
    /// let mut world = World::new();
    /// let oak = world.spawn(&[])?;
    /// world.despawn(oak)?;
    /// assert!(world.is_empty());
    /// # Ok::<(), Box<dyn std::error::Error>>(())
    /// ```
    #[must_use]
    pub fn is_empty(&self) -> bool
        ensures { IsTrue result ↔ (self.now.world.entities ≡ map.empty) }
    {
        self.world.is_empty()
    }

    /// Returns how many times the world was flushed, which is the `frame` in the births of what
    /// comes to life next. It stays at 2^64 - 1.
    ///
    /// ```
    /// use forgeni::World;
    ///
    /// let mut world = World::new();
    /// for _ in 0..3 {
    ///     let ((), queues) = world.phase(1, |_open, _systems| ())?;
    ///     world.apply(queues)?;
    /// }
    /// assert_eq!(world.frame(), 3);
    /// # Ok::<(), Box<dyn std::error::Error>>(())
    /// ```
    #[must_use]
    pub fn frame(&self) -> u64
        ensures { result ≡ self.now.world.phase }
    {
        self.world.phase()
    }

    /// Returns the number of retired slots, which give no more handles. It takes constant time.
    ///
    /// ```
    /// use forgeni::{Limits, World};
    ///
    /// let mut world = World::with_limits(Limits::new(100, 2).unwrap());
    /// for _ in 0..2 {
    ///     let oak = world.spawn(&[])?;
    ///     world.despawn(oak)?;
    /// }
    /// // Both generations of slot 0 are used up.
    /// assert_eq!(world.retired(), 1);
    /// # Ok::<(), Box<dyn std::error::Error>>(())
    /// ```
    #[must_use]
    pub fn retired(&self) -> u32
        ensures { result ≡ retired self.now.world.allocator }
    {
        self.world.retired()
    }

    /// Returns `true` if any handle was requested since the last flush. That is the case between
    /// [`Phase::close`](crate::Phase::close) and [`apply`](World::apply), if a system has
    /// spawned.
    ///
    /// ```
    /// use forgeni::World;
    ///
    /// let mut world = World::new();
    /// let (spawned, queues) = world.phase(1, |_open, systems| systems[0].spawn(&[]))?;
    /// assert!(spawned.is_ok() && world.needs_flush());
    /// world.apply(queues)?;
    /// assert!(!world.needs_flush());
    /// # Ok::<(), Box<dyn std::error::Error>>(())
    /// ```
    #[must_use]
    pub fn needs_flush(&self) -> bool
        ensures { IsTrue result ↔ (0 < self.now.world.allocator.asked) }
    {
        self.world.needs_flush()
    }

    /// Brings to life what is reserved, without components. Use it after a phase whose systems have
    /// spawned and whose queues won't be applied. [`apply`](World::apply) brings entities to life
    /// too.
    ///
    /// The birth of each entity names the phase that ends, no system, and the entity's number among
    /// those that are born. So an entity that [`spawn`](World::spawn) made in that phase may have
    /// the same birth.
    ///
    /// ```
    /// use forgeni::World;
    ///
    /// let mut world = World::new();
    /// let (spawned, queues) = world.phase(1, |_open, systems| systems[0].spawn(&[]))?;
    /// // The commands are dropped, but the handle was given.
    /// drop(queues);
    /// world.flush()?;
    /// assert!(world.contains(spawned?));
    /// # Ok::<(), Box<dyn std::error::Error>>(())
    /// ```
    ///
    /// # Errors
    ///
    /// `OutOfMemory`, only if something is reserved. Nothing has changed then.
    pub fn flush(&mut self) -> Result<(), Memory>
        ensures ok { OnOk result (self.new ≡ record self.old {
          world = after_births [] self.old.world;
          spawned = 0;
        }) }
        ensures flushed { OnOk result (self.new.world.allocator.asked ≡ 0) }
        ensures err { OnErr result (self.new ≡ self.old) }
        ensures memory { OnErr result (0 < length self.old.world.allocator.taken) }
    {
        self.world.flush()?;
        self.spawned = 0;
        Ok(())
    }
}
