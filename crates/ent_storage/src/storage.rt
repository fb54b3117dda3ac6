ghost use Rattle.std.specs.Prelude.{◌≡◌, ◌+◌, ◌≤◌, ◌<◌, ◌⊎◌, ◌↔◌, IsTrue, IsErrOf, IfOk, IfSome};
ghost use Rattle.std.specs.Prelude.{IfErr};
ghost use Rattle.std.specs.Prelude.{OnOk, OnErr, IsOk, None, Some, [], ◌∷◌, ◌++◌};
ghost use Rattle.std.specs.Prelude.{slice_get, SomeIndex, length};
ghost use Rattle.ent_handle.specs.Handle.{Handle};
ghost use Rattle.std.specs.FinMap as map;
ghost use Rattle.ent_storage.specs.Components.{with_items, missing};
ghost use Rattle.ent_storage.specs.EntityMap.{newborn, components_of, value_of, AreBare};
ghost use Rattle.ent_storage.specs.EntityMap.{with_components};
ghost use Rattle.ent_storage.specs.Places.{AreWithout};

use super::fault::StorageFault;
use super::index::Index;
use super::rows::Rows;
use ent_handle::{Birth, ComponentId, Handle, Memory};
use std::alloc::Global;
use std::marker::Model;

/// The births and components of living entities: for each handle its birth, and a value for each
/// component that the entity has.
///
/// It does not know which handles an allocator has given: keep it beside an
/// [`Entities`](forgeni::Entities). A [`World`](forgeni::World) has both.
///
/// ```
/// use forgeni::{Birth, ComponentId, Entities, Storage};
///
/// const SPEED: ComponentId = ComponentId(0);
///
/// let mut entities = Entities::new();
/// let mut storage = Storage::new();
/// let cart = entities.alloc()?;
/// storage.born(cart, Birth { frame: 0, system: 0, ordinal: 0 })?;
/// storage.insert(cart, &[(SPEED, 40)])?;
/// assert_eq!(storage.get(cart, SPEED), Some(40));
/// # Ok::<(), Box<dyn std::error::Error>>(())
/// ```
///
/// It is `Send` and `Sync`: it can go to another thread, and many threads can read it at once.
///
/// Looking up an entity by its handle takes constant time if the handles are those of an allocator
/// that has retired few slots, and otherwise logarithmic time. The values of each component lie in
/// a vector of their own.
///
/// Contracts see a finite map from handles to births and components (`entities`), the handle at
/// each place of the vector of entities (`places`), and for how many more entities there is room
/// (`spare`).
#[derive(Drop)]
pub struct Storage {
    pub(crate) rows: Rows,
    pub(crate) index: Index,
    alloc: Global,
}

impl Model for Storage {
    ghost use Rattle.std.specs.Prelude.{◌-◌, min, length};
    ghost use Rattle.ent_storage.specs.EntityMap.{Store, store_code};

    ghost Value = { Store };

    ghost coded = { store_code };

    ghost use Rattle.ent_storage.specs.Indexed.{IsKeptIndex};

    ghost view = { λ a. record {
      entities = a.rows.entities;
      places = a.rows.places;
      spare = min a.rows.spare (a.index.room - length a.rows.places);
    } };

    ghost invariant = { λ a. IsKeptIndex a.rows a.index.by_handle a.index.room };
}

impl Storage {
    /// Creates a storage without entities. It doesn't allocate.
    ///
    /// ```
    /// use forgeni::{Birth, Entities, Storage};
    ///
    /// // For components beside an allocator of your own.
    /// let (mut entities, mut storage) = (Entities::new(), Storage::new());
    /// storage.born(entities.alloc()?, Birth { frame: 0, system: 0, ordinal: 0 })?;
    /// assert_eq!(storage.len(), entities.iter().count());
    /// # Ok::<(), Box<dyn std::error::Error>>(())
    /// ```
    #[must_use]
    pub fn new(alloc: Global) -> Self
        ensures entities { result.entities ≡ map.empty }
        ensures spare { result.spare ≡ 0 }
        ensures places { result.places ≡ [] }
    {
        Storage {
            rows: Rows::new(alloc),
            index: Index::new(alloc),
            alloc,
        }
    }

    /// Returns a storage with the same entities at the same places, with at least the same room.
    /// Without entities and room it doesn't allocate.
    ///
    /// ```
    /// use forgeni::{Birth, ComponentId, Handle, Storage};
    ///
    /// const SPEED: ComponentId = ComponentId(0);
    ///
    /// let cart = Handle::new(0, 1).unwrap();
    /// let mut now = Storage::new();
    /// now.born(cart, Birth { frame: 0, system: 0, ordinal: 0 })?;
    /// now.insert(cart, &[(SPEED, 40)])?;
    /// let before = now.try_clone()?;
    /// now.insert(cart, &[(SPEED, 50)])?;
    /// assert_eq!((now.get(cart, SPEED), before.get(cart, SPEED)), (Some(50), Some(40)));
    /// # Ok::<(), Box<dyn std::error::Error>>(())
    /// ```
    ///
    /// # Errors
    ///
    /// Out of memory.
    pub fn try_clone(&self) -> Result<Self, Memory>
        ensures entities { IfOk result (λ copy. copy.entities ≡ self.now.entities) }
        ensures places { IfOk result (λ copy. copy.places ≡ self.now.places) }
        ensures spare { IfOk result (λ copy. self.now.spare ≤ copy.spare) }
        ensures memory { OnErr result (0 < length self.now.places + self.now.spare) }
    {
        if self.is_empty() && self.spare() == 0 {
            return Ok(Storage::new(self.alloc));
        }
        Ok(Storage {
            rows: self.rows.try_clone()?,
            index: self.index.try_clone(self.alloc)?,
            alloc: self.alloc,
        })
    }

    /// Copies the entities of another storage into this one, each at its place, like
    /// [`try_clone`](Self::try_clone). What this one had before is gone.
    ///
    /// It uses the room that this one has, and never gives it back. So a storage that another one
    /// is cloned into again and again takes memory only as that one grows.
    ///
    /// ```
    /// use forgeni::{Birth, ComponentId, Handle, Storage};
    ///
    /// const SPEED: ComponentId = ComponentId(0);
    ///
    /// let cart = Handle::new(0, 1).unwrap();
    /// let mut now = Storage::new();
    /// now.born(cart, Birth { frame: 0, system: 0, ordinal: 0 })?;
    /// let mut before = Storage::new();
    /// for speed in [30, 40] {
    ///     before.try_clone_from(&now)?;
    ///     now.insert(cart, &[(SPEED, speed)])?;
    /// }
    /// assert_eq!((now.get(cart, SPEED), before.get(cart, SPEED)), (Some(40), Some(30)));
    /// # Ok::<(), Box<dyn std::error::Error>>(())
    /// ```
    ///
    /// # Errors
    ///
    /// Out of memory for the room that the source has beyond that of this storage, or for values of
    /// components. All memory is allocated before anything changes, so the entities are as before.
    /// `spare` may have grown.
    pub fn try_clone_from(&mut self, source: &Storage) -> Result<(), Memory>
        ensures entities { OnOk result (self.new.entities ≡ source.now.entities) }
        ensures places { OnOk result (self.new.places ≡ source.now.places) }
        ensures spare { OnOk result (source.now.spare ≤ self.new.spare) }
        ensures room { length self.old.places + self.old.spare
            ≤ length self.new.places + self.new.spare }

        // With as much room as the source, it takes memory only for components.
        ensures memory { OnErr result
            ((length self.old.places + self.old.spare
            < length source.now.places + source.now.spare)
            ⊎ ¬ (AreBare source.now.entities)) }
        ensures err { OnErr result (self.new ≡ record self.old { spare = self.new.spare }) }
    {
        let count = source.rows.capacity().min(source.index.room());
        self.index.reserve_or_more(count, source.index.room())?;
        self.rows.clone_within(&source.rows, count)?;
        self.index.take_over(&source.index, &self.rows);
        Ok(())
    }

    /// Returns the number of entities. That is also the place of the next one to be born.
    ///
    /// ```
    /// use forgeni::{Birth, Storage};
    ///
    /// let mut storage = Storage::new();
    /// let cart = "0v1".parse()?;
    /// storage.born(cart, Birth { frame: 0, system: 0, ordinal: 0 })?;
    /// assert_eq!(storage.len(), 1);
    /// storage.despawn(cart)?;
    /// assert_eq!(storage.len(), 0);
    /// # Ok::<(), Box<dyn std::error::Error>>(())
    /// ```
    #[must_use]
    pub fn len(&self) -> usize
        ensures value { result ≡ map.len self.now.entities }
        ensures places { result ≡ length self.now.places }
    {
        self.rows.len()
    }

    /// Returns `true` if there are no entities.
    ///
    /// ```
    /// use forgeni::{Birth, Storage};
    ///
    /// let mut storage = Storage::new();
    /// assert!(storage.is_empty());
    /// storage.born("0v1".parse()?, Birth { frame: 0, system: 0, ordinal: 0 })?;
    /// assert!(!storage.is_empty());
    /// # Ok::<(), Box<dyn std::error::Error>>(())
    /// ```
    #[must_use]
    pub fn is_empty(&self) -> bool
        ensures { IsTrue result ↔ (self.now.entities ≡ map.empty) }
    {
        self.rows.is_empty()
    }

    /// Returns the number of further entities that there is room for.
    ///
    /// `born` lowers it by 1, or makes more room if it is 0. `reserve` and `despawn` raise it.
    /// Nothing else changes it.
    ///
    /// ```
    /// use forgeni::{Birth, Storage};
    ///
    /// let mut storage = Storage::new();
    /// let cart = "0v1".parse()?;
    /// storage.reserve(1)?;
    /// let before = storage.spare();
    /// storage.born(cart, Birth { frame: 0, system: 0, ordinal: 0 })?;
    /// assert_eq!(storage.spare(), before - 1);
    /// storage.despawn(cart)?;
    /// assert_eq!(storage.spare(), before);
    /// # Ok::<(), Box<dyn std::error::Error>>(())
    /// ```
    #[must_use]
    pub fn spare(&self) -> usize
        ensures { result ≡ self.now.spare }
    {
        self.rows.spare().min(self.index.room() - self.rows.len())
    }

    /// Whether there is room for one more entity.
    #[inline(always)]
    fn has_spare(&self) -> bool
        ensures { IsTrue result ↔ (0 < self.now.spare) }
    {
        let len = self.rows.len();
        len < self.rows.capacity() && len < self.index.room()
    }

    /// Makes room for `additional` more entities, so that `born` doesn't allocate for them. If
    /// there is enough room already, it doesn't allocate, and changes nothing.
    ///
    /// ```
    /// use forgeni::Storage;
    ///
    /// let mut storage = Storage::new();
    /// storage.reserve(1000)?;
    /// assert!(storage.spare() >= 1000);
    /// # Ok::<(), forgeni::OutOfMemory>(())
    /// ```
    ///
    /// # Errors
    ///
    /// Out of memory, or there would be more than 4,294,967,296 entities. The entities are as
    /// before, and `spare` is below `additional`. It may have grown.
    pub fn reserve(&mut self, additional: usize) -> Result<(), Memory>
        ensures entities { self.new.entities ≡ self.old.entities }
        ensures ok { OnOk result (additional ≤ self.new.spare) }
        ensures grows { self.old.spare ≤ self.new.spare }
        ensures places { self.new.places ≡ self.old.places }

        // With room for that many, the call succeeds and changes nothing.
        ensures succeeds { additional ≤ self.old.spare → IsOk result }
        ensures in_place { additional ≤ self.old.spare → self.new ≡ self.old }

        ensures err { OnErr result (self.new.spare < additional) }
    {
        if additional <= self.spare() {
            return Ok(());
        }
        self.rows.reserve(additional)?;
        // With twice the room, the index drops handles that are gone half of its length at a time.
        let twice = self.rows.capacity().saturating_mul(2);
        if self.index.reserve(twice).is_err() {
            self.index.reserve(self.rows.len() + additional)?;
        }
        Ok(())
    }

    /// Makes room in the index for a pair of each of the first `slots` slots. If an allocator gives
    /// the handles, births in these slots then take constant time each, in any order. If there is
    /// that much room already, it doesn't allocate. Each slot takes twelve bytes.
    ///
    /// It is for a storage whose first births may be in the greatest slots, as with blocks. A
    /// [`World`](forgeni::World) has no index.
    ///
    /// ```
    /// use forgeni::{Birth, Entities, Storage};
    ///
    /// let mut entities = Entities::new();
    /// let mut storage = Storage::new();
    /// let all = entities.alloc_many(1000)?;
    /// storage.reserve_slots(entities.total() as usize)?;
    /// for (ordinal, handle) in all.into_iter().rev().enumerate() {
    ///     storage.born(handle, Birth { frame: 0, system: 0, ordinal: ordinal as u32 })?;
    /// }
    /// assert_eq!(storage.len(), 1000);
    /// # Ok::<(), Box<dyn std::error::Error + Send + Sync>>(())
    /// ```
    ///
    /// # Errors
    ///
    /// Out of memory, or more than 4,294,967,296 slots. Nothing has changed.
    pub fn reserve_slots(&mut self, slots: usize) -> Result<(), Memory>
        ensures kept { self.new ≡ record self.old { spare = self.new.spare } }
        ensures grows { self.old.spare ≤ self.new.spare }
        ensures succeeds { slots ≤ length self.old.places + self.old.spare → IsOk result }
        ensures err { OnErr result (self.new ≡ self.old) }
    {
        self.index.reserve(slots)?;
        Ok(())
    }

    /// Adds an entity without components. If `spare` is above 0, it doesn't allocate, and lowers
    /// `spare` by 1.
    ///
    /// It takes the time of one look-up if the handle comes after all others, or if the index has a
    /// pair that doesn't count where the new pair goes, or beside it. With an allocator's handles
    /// that is the pair of the slot's last occupant, or of a slot that was passed over: the index
    /// makes those as far as it has room ([`reserve_slots`](Self::reserve_slots)). Otherwise the
    /// later pairs of the index move up by one. If the index is full, the pairs of all entities
    /// that are gone are dropped first, in one pass.
    ///
    /// ```
    /// use forgeni::{Birth, Entities, Storage};
    ///
    /// let (mut entities, mut storage) = (Entities::new(), Storage::new());
    /// let mut born = Vec::new();
    /// entities.request_many(3)?;
    /// entities.flush(&mut born)?;
    /// for (ordinal, one) in (0..).zip(born) {
    ///     storage.born(one, Birth { frame: 0, system: 0, ordinal })?;
    /// }
    /// assert_eq!(storage.len(), 3);
    /// # Ok::<(), Box<dyn std::error::Error>>(())
    /// ```
    ///
    /// # Errors
    ///
    /// Nothing has changed.
    ///
    /// - `Present`: the entity is there already. This is tested first.
    /// - `Memory`: `spare` is 0, and memory ran out, or there are 4,294,967,296 entities, which is
    ///   the most.
    #[inline(always)]
    pub fn born(&mut self, handle: Handle, birth: Birth) -> Result<(), StorageFault>
        ensures ok { OnOk result
            (self.new.entities ≡ map.insert self.old.entities handle (newborn birth)) }
        ensures spare { OnOk result (0 < self.old.spare → self.new.spare + 1 ≡ self.old.spare) }
        ensures places { OnOk result (self.new.places ≡ self.old.places ++ handle ∷ []) }

        ensures present { IsErrOf result StorageFault.Present
            ↔ IsTrue (map.contains_key self.old.entities handle) }
        ensures memory_without_room { IsErrOf result StorageFault.Memory → self.old.spare ≡ 0 }
        ensures never_absent { ¬ (IsErrOf result StorageFault.Absent) }
        ensures err { OnErr result (self.new ≡ self.old) }
    {
        if !self.has_spare() {
            if self.contains(handle) {
                return Err(StorageFault::Present);
            }
            self.reserve(1)?;
        }
        self.born_within(handle, birth)
    }

    /// Does what [`Storage::born`] does, where there is room: a caller that adds many tests that
    /// once for all of them. It doesn't allocate, and lowers `spare` by 1.
    ///
    /// # Errors
    ///
    /// `Present`: the entity is there already. Nothing has changed.
    #[inline(always)]
    fn born_within(&mut self, handle: Handle, birth: Birth) -> Result<(), StorageFault>
        requires room { 0 < self.old.spare }
        ensures ok { OnOk result
            (self.new.entities ≡ map.insert self.old.entities handle (newborn birth)) }
        ensures spare { OnOk result (self.new.spare + 1 ≡ self.old.spare) }
        ensures places { OnOk result (self.new.places ≡ self.old.places ++ handle ∷ []) }
        ensures present { IsErrOf result StorageFault.Present
            ↔ IsTrue (map.contains_key self.old.entities handle) }
        ensures only_present { IfErr result (λ fault. fault ≡ StorageFault.Present) }
        ensures err { OnErr result (self.new ≡ self.old) }
    {
        if self.index.put(&self.rows, handle) {
            self.rows.push(handle, birth);
            Ok(())
        } else {
            Err(StorageFault::Present)
        }
    }

    /// Removes the entity, with all its components. It doesn't allocate, and raises `spare` by 1.
    ///
    /// It takes the time of two look-ups, and time for each component that any entity has ever had.
    /// The index stays as it is, except for the entity that moves.
    ///
    /// ```
    /// use forgeni::{Birth, Entities, Storage};
    ///
    /// let (mut entities, mut storage) = (Entities::new(), Storage::new());
    /// let cart = entities.alloc()?;
    /// storage.born(cart, Birth { frame: 0, system: 0, ordinal: 0 })?;
    /// // The one doesn't know of the other: both have to be called.
    /// storage.despawn(cart)?;
    /// entities.free(cart)?;
    /// assert!(storage.is_empty() && entities.is_empty());
    /// # Ok::<(), Box<dyn std::error::Error>>(())
    /// ```
    ///
    /// # Errors
    ///
    /// `Absent`: the entity is not there. Nothing has changed.
    #[inline(always)]
    pub fn despawn(&mut self, handle: Handle) -> Result<(), StorageFault>
        ensures ok { OnOk result (self.new.entities ≡ map.remove self.old.entities handle) }
        ensures spare { OnOk result (self.new.spare ≡ self.old.spare + 1) }
        ensures places { OnOk result (SomeIndex self.old.places (λ place.
            (slice_get self.old.places place ≡ Some handle)
            × AreWithout place self.old.places self.new.places)) }

        ensures absent { IsErrOf result StorageFault.Absent
            ↔ (map.get self.old.entities handle ≡ None) }
        ensures only_absent { IfErr result (λ fault. fault ≡ StorageFault.Absent) }
        ensures err { OnErr result (self.new ≡ self.old) }
    {
        let Some(place) = self.place(handle) else {
            return Err(StorageFault::Absent);
        };
        if let Some(moved) = self.rows.despawn_at(place, handle) {
            self.index.set_place(moved, place);
        }
        // So the next birth in its slot looks at no entity.
        self.index.forget(handle);
        Ok(())
    }

    /// Sets each of the components, and leaves the entity's others as they are. The list may be in
    /// any order. If a component is in it twice, its last value counts.
    ///
    /// It takes memory only for components that the entity does not have yet.
    ///
    /// ```
    /// use forgeni::{Birth, ComponentId, Handle, Storage};
    ///
    /// let [mass, speed] = [ComponentId(0), ComponentId(1)];
    /// let cart = Handle::new(0, 1).unwrap();
    /// let mut storage = Storage::new();
    /// storage.born(cart, Birth { frame: 0, system: 0, ordinal: 0 })?;
    /// storage.insert(cart, &[(speed, 1), (mass, 7), (speed, 2)])?;
    /// assert!(storage.items(cart).unwrap().eq([(mass, 7), (speed, 2)]));
    /// # Ok::<(), Box<dyn std::error::Error>>(())
    /// ```
    ///
    /// # Errors
    ///
    /// Nothing has changed.
    ///
    /// - `Absent`: the entity is not there.
    /// - `Memory`: memory ran out for the components that the entity does not have yet.
    #[inline(always)]
    pub fn insert(
        &mut self,
        handle: Handle,
        items: &[(ComponentId, i64)],
    ) -> Result<(), StorageFault>
        ensures ok { OnOk result (self.new.entities
            ≡ with_components self.old.entities handle (λ held. with_items held items.now)) }
        ensures spare { self.new.spare ≡ self.old.spare }
        ensures places { self.new.places ≡ self.old.places }

        ensures absent { IsErrOf result StorageFault.Absent
            ↔ (map.get self.old.entities handle ≡ None) }
        ensures memory_to_grow { IsErrOf result StorageFault.Memory
            → IfSome (components_of self.old.entities handle)
            (λ held. 0 < missing held items.now) }
        ensures never_present { ¬ (IsErrOf result StorageFault.Present) }
        ensures err { OnErr result (self.new ≡ self.old) }
    {
        let Some(place) = self.place(handle) else {
            return Err(StorageFault::Absent);
        };
        self.rows.insert_at(place, handle, items)?;
        Ok(())
    }

    /// Removes the component from the entity, and returns its value, or `None` if the entity
    /// doesn't have it. It doesn't allocate.
    ///
    /// ```
    /// use forgeni::{Birth, ComponentId, Storage};
    ///
    /// const BURNING: ComponentId = ComponentId(0);
    ///
    /// let mut storage = Storage::new();
    /// let cart = "0v1".parse()?;
    /// storage.born(cart, Birth { frame: 0, system: 0, ordinal: 0 })?;
    /// storage.insert(cart, &[(BURNING, 3)])?;
    /// assert_eq!(storage.remove(cart, BURNING)?, Some(3));
    /// assert_eq!(storage.remove(cart, BURNING)?, None);
    /// # Ok::<(), Box<dyn std::error::Error>>(())
    /// ```
    ///
    /// # Errors
    ///
    /// `Absent`: the entity is not there. Nothing has changed.
    pub fn remove(&mut self, handle: Handle, id: ComponentId) -> Result<Option<i64>, StorageFault>
        ensures value { IfOk result (λ value. value ≡ value_of self.old.entities handle id) }
        ensures ok { OnOk result (self.new.entities
            ≡ with_components self.old.entities handle (λ held. map.remove held id)) }
        ensures spare { self.new.spare ≡ self.old.spare }
        ensures places { self.new.places ≡ self.old.places }

        ensures absent { IsErrOf result StorageFault.Absent
            ↔ (map.get self.old.entities handle ≡ None) }
        ensures only_absent { IfErr result (λ fault. fault ≡ StorageFault.Absent) }
        ensures err { OnErr result (self.new ≡ self.old) }
    {
        let Some(place) = self.place(handle) else {
            return Err(StorageFault::Absent);
        };
        Ok(self.rows.remove_at(place, handle, id))
    }
}
