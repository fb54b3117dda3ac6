//! What a storage has: the look-ups, which change nothing.
ghost use Rattle.std.specs.Prelude.{◌≡◌, ◌<◌, ◌≤◌, ◌↔◌, IfOk, IfSome};
ghost use Rattle.std.specs.Prelude.{Contains, ◌≢◌, ℤ, OnErr, IsSome};
ghost use Rattle.std.specs.Prelude.{Some, ℕ, is_some};
ghost use Rattle.std.specs.Prelude.{slice_get, IfNone};
ghost use Rattle.std.specs.declared.cmp.Ordering.TheVariants.{Greater};
ghost use Rattle.ent_handle.specs.declared.component.ComponentId.{ComponentId as Component};
ghost use Rattle.ent_handle.specs.Handle.{Handle, handle_cmp};
ghost use Rattle.std.specs.Option.{option_map};
ghost use Rattle.std.specs.FinMap as map;
ghost use Rattle.ent_storage.specs.EntityMap.{birth_of, components_of, value_of};
ghost use Rattle.ent_storage.specs.EntityMap.{value_at_place};
ghost use Rattle.ent_storage.specs.Image.{width};
ghost use Rattle.std.specs.List.{AllPairs};
ghost use Rattle.ent_storage.specs.BirthOrder.{ListsAll, ListsWith};

use crate::items::Items;
use crate::storage::Storage;
use ent_handle::{Birth, ComponentId, Handle, Memory};

impl Storage {
    /// Returns `true` if the storage has the entity.
    ///
    /// ```
    /// use forgeni::{Birth, Storage};
    ///
    /// let mut storage = Storage::new();
    /// let (cart, horse) = ("0v1".parse()?, "1v1".parse()?);
    /// storage.born(cart, Birth { frame: 0, system: 0, ordinal: 0 })?;
    /// assert!(storage.contains(cart) && !storage.contains(horse));
    /// # Ok::<(), Box<dyn std::error::Error>>(())
    /// ```
    #[must_use]
    pub fn contains(&self, handle: Handle) -> bool
        ensures { result ≡ map.contains_key self.now.entities handle }
    {
        self.place(handle).is_some()
    }

    /// Returns the birth of the entity, if the storage has it.
    ///
    /// ```
    /// use forgeni::{Birth, Storage};
    ///
    /// let mut storage = Storage::new();
    /// let cart = "0v1".parse()?;
    /// storage.born(cart, Birth { frame: 7, system: 0, ordinal: 0 })?;
    /// let age = |now: u64| storage.birth(cart).map(|it| now - it.frame);
    /// assert_eq!(age(10), Some(3));
    /// # Ok::<(), Box<dyn std::error::Error>>(())
    /// ```
    #[must_use]
    pub fn birth(&self, handle: Handle) -> Option<Birth>
        ensures { result ≡ birth_of self.now.entities handle }
    {
        let place = self.place(handle)?;
        Some(self.rows.birth_at(place, handle))
    }

    /// Returns the value of the entity's component, if the storage has the entity and the entity
    /// has the component.
    ///
    /// ```
    /// use forgeni::{Birth, ComponentId, Storage};
    ///
    /// const SPEED: ComponentId = ComponentId(0);
    ///
    /// let mut storage = Storage::new();
    /// let cart = "0v1".parse()?;
    /// storage.born(cart, Birth { frame: 0, system: 0, ordinal: 0 })?;
    /// assert_eq!(storage.get(cart, SPEED), None);
    /// storage.insert(cart, &[(SPEED, 40)])?;
    /// assert_eq!(storage.get(cart, SPEED), Some(40));
    /// # Ok::<(), Box<dyn std::error::Error>>(())
    /// ```
    #[must_use]
    pub fn get(&self, handle: Handle, id: ComponentId) -> Option<i64>
        ensures { result ≡ value_of self.now.entities handle id }
    {
        let place = self.place(handle)?;
        self.rows.get_at(place, handle, id)
    }

    /// Returns the entity's components and their values, in ascending order of number, if the
    /// storage has the entity.
    ///
    /// ```
    /// use forgeni::{Birth, ComponentId, Storage};
    ///
    /// let mut storage = Storage::new();
    /// let cart = "0v1".parse()?;
    /// storage.born(cart, Birth { frame: 0, system: 0, ordinal: 0 })?;
    /// storage.insert(cart, &[(ComponentId(7), 2), (ComponentId(3), 1)])?;
    /// let items = storage.items(cart).ok_or("it isn't there")?;
    /// assert!(items.eq([(ComponentId(3), 1), (ComponentId(7), 2)]));
    /// # Ok::<(), Box<dyn std::error::Error>>(())
    /// ```
    #[must_use]
    pub fn items(&self, handle: Handle) -> Option<Items<'_>>
        ensures { result ≡ option_map map.entries (components_of self.now.entities handle) }
    {
        let place = self.place(handle)?;
        Some(self.rows.items_at(place, handle))
    }

    /// Returns the place of the entity in the vector of entities, if the storage has it. The place
    /// stays the same until an entity is removed.
    ///
    /// ```
    /// use forgeni::{Birth, Storage};
    ///
    /// let mut storage = Storage::new();
    /// let (cart, horse) = ("0v1".parse()?, "1v1".parse()?);
    /// for (ordinal, one) in (0..).zip([cart, horse]) {
    ///     storage.born(one, Birth { frame: 0, system: 0, ordinal })?;
    /// }
    /// storage.despawn(cart)?;
    /// // The last one has moved into the gap.
    /// assert_eq!(storage.place(horse), Some(0));
    /// # Ok::<(), Box<dyn std::error::Error>>(())
    /// ```
    #[must_use]
    #[inline(always)]
    pub fn place(&self, handle: Handle) -> Option<usize>
        ensures at { (i : ℕ) → (result ≡ Some i) ↔ (slice_get self.now.places i ≡ Some handle) }
        ensures there { is_some result ≡ map.contains_key self.now.entities handle }
    {
        self.index.place(&self.rows, handle)
    }

    /// Returns the handles of all entities, ordered by birth and then by handle. It takes the time
    /// of a sort, or of one pass if they are in that order, as they mostly are until one despawns.
    ///
    /// ```
    /// use forgeni::{Birth, Storage};
    ///
    /// let mut storage = Storage::new();
    /// let (cart, horse) = ("0v2".parse()?, "1v1".parse()?);
    /// storage.born(cart, Birth { frame: 5, system: 0, ordinal: 0 })?;
    /// storage.born(horse, Birth { frame: 3, system: 0, ordinal: 0 })?;
    /// assert_eq!(storage.by_birth()?, [horse, cart]);
    /// # Ok::<(), Box<dyn std::error::Error>>(())
    /// ```
    ///
    /// # Errors
    ///
    /// Out of memory for the list. It is never returned if there are no entities.
    pub fn by_birth(&self) -> Result<Vec<Handle>, Memory>
        ensures ok { IfOk result (λ handles. ListsAll self.now.entities handles.items) }
        ensures memory { OnErr result (self.now.entities ≢ map.empty) }
    {
        self.rows.by_birth()
    }

    /// Returns the handle of the entity with that birth, if there is one. If several entities have
    /// the birth, it returns the least of their handles.
    ///
    /// It doesn't allocate, and takes time for each entity.
    ///
    /// ```
    /// use forgeni::{Birth, Storage};
    ///
    /// let birth = Birth { frame: 5, system: 1, ordinal: 0 };
    /// let mut storage = Storage::new();
    /// let cart = "0v2".parse()?;
    /// storage.born(cart, birth)?;
    /// // A message of another machine, where the handle is another one.
    /// assert_eq!(storage.of_birth(birth), Some(cart));
    /// # Ok::<(), Box<dyn std::error::Error>>(())
    /// ```
    #[must_use]
    pub fn of_birth(&self, birth: Birth) -> Option<Handle>
        ensures found { IfSome result (λ handle.
            birth_of self.now.entities handle ≡ Some birth) }
        ensures least { IfSome result (λ handle. (other : Handle)
            → birth_of self.now.entities other ≡ Some birth
            → handle_cmp handle other ≢ Greater) }
        ensures none { IfNone result ((handle : Handle)
            → birth_of self.now.entities handle ≢ Some birth) }
    {
        self.rows.of_birth(birth)
    }

    /// Returns the place and the value of each entity that has the component, in no particular
    /// order, as one slice. It doesn't allocate.
    ///
    /// ```
    /// use forgeni::{Birth, ComponentId, Handle, Storage};
    ///
    /// const MASS: ComponentId = ComponentId(0);
    ///
    /// let mut storage = Storage::new();
    /// for (ordinal, mass) in [(0, 900), (1, 80)] {
    ///     let one = Handle::new(ordinal, 1).ok_or("out of range")?;
    ///     storage.born(one, Birth { frame: 0, system: 0, ordinal })?;
    ///     storage.insert(one, &[(MASS, mass)])?;
    /// }
    /// assert_eq!(storage.dense(MASS).iter().map(|(_, mass)| mass).sum::<i64>(), 980);
    /// # Ok::<(), Box<dyn std::error::Error>>(())
    /// ```
    #[must_use]
    pub fn dense(&self, id: ComponentId) -> &[(usize, i64)]
        ensures has { (place : ℕ) (value : ℤ) → Contains result.now (place, value)
            ↔ (value_at_place self.now place id ≡ Some value) }
        ensures once { AllPairs (λ a b. a.0 ≢ b.0) result.now }
    {
        self.rows.dense(id)
    }

    /// Returns the handles of the entities that have the component, ordered by birth and then by
    /// handle. It takes the time of sorting these.
    ///
    /// ```
    /// use forgeni::{Birth, ComponentId, Storage};
    ///
    /// const BURNING: ComponentId = ComponentId(0);
    ///
    /// let mut storage = Storage::new();
    /// let (cart, horse) = ("0v1".parse()?, "1v1".parse()?);
    /// for (ordinal, one) in (0..).zip([cart, horse]) {
    ///     storage.born(one, Birth { frame: 0, system: 0, ordinal })?;
    /// }
    /// storage.insert(horse, &[(BURNING, 1)])?;
    /// assert_eq!(storage.with(BURNING)?, [horse]);
    /// # Ok::<(), Box<dyn std::error::Error>>(())
    /// ```
    ///
    /// # Errors
    ///
    /// Out of memory for the list. It is never returned if no entity has the component.
    pub fn with(&self, id: ComponentId) -> Result<Vec<Handle>, Memory>
        ensures ok { IfOk result (λ handles. ListsWith id self.now.entities handles.items) }
        ensures memory { OnErr result
            ((handle : Handle) × IsSome (value_of self.now.entities handle id)) }
    {
        self.rows.with(id)
    }

    /// Returns the number of components up to the last one that any entity has.
    ///
    /// ```
    /// use forgeni::{Birth, ComponentId, Storage};
    ///
    /// let mut storage = Storage::new();
    /// let cart = "0v1".parse()?;
    /// storage.born(cart, Birth { frame: 0, system: 0, ordinal: 0 })?;
    /// storage.insert(cart, &[(ComponentId(9), 1)])?;
    /// // Components 0 to 9.
    /// assert_eq!(storage.width(), 10);
    /// # Ok::<(), Box<dyn std::error::Error>>(())
    /// ```
    pub fn width(&self) -> u32
        ensures value { result ≡ width self.now.entities self.now.places }
        ensures most { result ≤ 256 }
        ensures within { (h : Handle) (id : Component) (v : ℤ)
            → value_of self.now.entities h id ≡ Some v → id.0 < result }
    {
        self.rows.width()
    }
}
