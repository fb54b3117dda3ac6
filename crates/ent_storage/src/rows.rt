//! Entities at places that the caller keeps.
ghost use Rattle.std.specs.Prelude.{◌≡◌, ◌≢◌, ◌+◌, ◌≤◌, ◌<◌, ◌⊎◌, ◌↔◌, ℕ, ℤ, IsTrue, IfOk, IfSome};
ghost use Rattle.std.specs.Prelude.{IfNone, IsOk, OnOk, OnErr, IsSome, Contains, None, Some, []};
ghost use Rattle.std.specs.Prelude.{◌∷◌, ◌++◌, slice_get, length};
ghost use Rattle.std.specs.declared.cmp.Ordering.TheVariants.{Greater};
ghost use Rattle.std.specs.List.{AllPairs};
ghost use Rattle.std.specs.Option.{option_map};
ghost use Rattle.std.specs.FinMap as map;
ghost use Rattle.ent_handle.specs.Handle.{Handle, handle_cmp};
ghost use Rattle.ent_storage.specs.BirthOrder.{ListsAll, ListsWith};
ghost use Rattle.ent_storage.specs.Components.{with_items, missing};
ghost use Rattle.ent_storage.specs.EntityMap.{newborn, birth_of, components_of, value_of, AreBare};
ghost use Rattle.ent_storage.specs.EntityMap.{value_at_place, with_components, with_birth};
ghost use Rattle.ent_storage.specs.Indexed.{has_handle_at};
ghost use Rattle.ent_storage.specs.Places.{AreWithout};

use crate::items::Items;
use crate::key::Key;
use crate::living::{Living, has_key_at};
use crate::order::handles_in_order;
use ent_handle::{Birth, ComponentId, Handle, Memory};
use std::alloc::Global;
use std::marker::Model;

/// The births and components of living entities, each at a place. The caller keeps the place of
/// each handle: a world has it in its allocator's rows.
///
/// Contracts see what they see of a [`Storage`](crate::Storage).
#[derive(Drop)]
pub struct Rows {
    pub(crate) living: Living,
    pub(crate) alloc: Global,
}

impl Model for Rows {
    ghost use Rattle.std.specs.Prelude.{◌-◌, length};
    ghost use Rattle.ent_storage.specs.EntityMap.{Store, store_code};
    ghost use Rattle.ent_storage.specs.Indexed.{map_of, handles_by_place, AreApart};

    ghost Value = { Store };

    ghost coded = { store_code };

    ghost view = { λ a. record {
      entities = map_of a.living.entities;
      places = handles_by_place a.living.entities;
      spare = a.living.room - length a.living.entities;
    } };

    ghost invariant = { λ a. AreApart a.living.entities a.living.room };
}

impl Rows {
    /// No entities, without room. It doesn't allocate.
    pub fn new(alloc: Global) -> Self
        ensures entities { result.entities ≡ map.empty }
        ensures spare { result.spare ≡ 0 }
        ensures places { result.places ≡ [] }
    {
        Rows {
            living: Living::new(alloc),
            alloc,
        }
    }

    /// The same entities at the same places, with at least the same room. Without entities and room
    /// it doesn't allocate.
    ///
    /// # Errors
    ///
    /// Out of memory.
    pub fn try_clone(&self) -> Result<Self, Memory>
        ensures entities { IfOk result (λ copy. copy.entities ≡ self.now.entities) }
        ensures places { IfOk result (λ copy. copy.places ≡ self.now.places) }
        ensures spare { IfOk result (λ copy. self.now.spare ≤ copy.spare) }
        ensures memory { OnErr result (0 < length self.now.places + self.now.spare) }
    {
        if self.living.is_empty() && self.spare() == 0 {
            return Ok(Rows::new(self.alloc));
        }
        Ok(Rows {
            living: self.living.try_clone()?,
            alloc: self.alloc,
        })
    }

    /// Takes over the entities of another, each at its place. What was here before is gone. The
    /// room that is here is used, and never given back.
    ///
    /// # Errors
    ///
    /// Out of memory for the room that the source has beyond what is here, or for values of
    /// components. All memory is allocated before anything changes, so the entities are as before.
    /// `spare` may have grown.
    pub fn try_clone_from(&mut self, source: &Rows) -> Result<(), Memory>
        ensures entities { OnOk result (self.new.entities ≡ source.now.entities) }
        ensures places { OnOk result (self.new.places ≡ source.now.places) }
        ensures spare { OnOk result (source.now.spare ≤ self.new.spare) }
        ensures room { length self.old.places + self.old.spare
            ≤ length self.new.places + self.new.spare }

        // With as much room as the source, it takes memory only for components.
        ensures memory { OnErr result
            ((length self.old.places + self.old.spare
            < length source.now.places + source.now.spare)
            ⊎ ¬ (AreBare source.now.entities)) }
        ensures err { OnErr result (self.new ≡ record self.old { spare = self.new.spare }) }
    {
        self.clone_within(source, source.capacity())
    }

    /// Does what `try_clone_from` does, with room for `count` entities in all.
    ///
    /// # Errors
    ///
    /// Out of memory for that room, or for values of components.
    pub(crate) fn clone_within(&mut self, source: &Rows, count: usize) -> Result<(), Memory>
        requires { length source.now.places ≤ count }
        ensures entities { OnOk result (self.new.entities ≡ source.now.entities) }
        ensures places { OnOk result (self.new.places ≡ source.now.places) }
        ensures ok { OnOk result (count ≤ length self.new.places + self.new.spare) }
        ensures room { length self.old.places + self.old.spare
            ≤ length self.new.places + self.new.spare }
        ensures memory { OnErr result ((length self.old.places + self.old.spare < count)
            ⊎ ¬ (AreBare source.now.entities)) }
        ensures err { OnErr result (self.new ≡ record self.old { spare = self.new.spare }) }
    {
        self.living.try_clone_from(&source.living, count)?;
        Ok(())
    }

    /// The number of entities. That is also the place of the next one.
    pub fn len(&self) -> usize
        ensures value { result ≡ map.len self.now.entities }
        ensures places { result ≡ length self.now.places }
    {
        self.living.len()
    }

    /// Whether there are no entities.
    pub fn is_empty(&self) -> bool
        ensures { IsTrue result ↔ (self.now.entities ≡ map.empty) }
    {
        self.living.is_empty()
    }

    /// For how many more entities there is room.
    pub fn spare(&self) -> usize
        ensures { result ≡ self.now.spare }
    {
        self.living.capacity() - self.living.len()
    }

    /// For how many entities there is room in all.
    pub(crate) fn capacity(&self) -> usize
        ensures { result ≡ length self.now.places + self.now.spare }
    {
        self.living.capacity()
    }

    /// Makes room for `additional` more entities. If there is enough room already, it doesn't
    /// allocate, and changes nothing.
    ///
    /// # Errors
    ///
    /// Out of memory. Nothing has changed.
    #[inline(always)]
    pub fn reserve(&mut self, additional: usize) -> Result<(), Memory>
        ensures entities { self.new.entities ≡ self.old.entities }
        ensures ok { OnOk result (additional ≤ self.new.spare) }
        ensures grows { self.old.spare ≤ self.new.spare }
        ensures places { self.new.places ≡ self.old.places }

        // With room for that many, the call succeeds and changes nothing.
        ensures succeeds { additional ≤ self.old.spare → IsOk result }
        ensures in_place { additional ≤ self.old.spare → self.new ≡ self.old }

        ensures err { OnErr result (self.new ≡ self.old) }
    {
        if additional <= self.spare() {
            return Ok(());
        }
        self.living.reserve(additional)?;
        Ok(())
    }

    /// Adds an entity without components at the next place. It doesn't allocate, and lowers `spare`
    /// by 1.
    #[inline(always)]
    pub fn push(&mut self, handle: Handle, birth: Birth)
        requires new { map.get self.old.entities handle ≡ None }
        requires room { 0 < self.old.spare }
        ensures entities { self.new.entities
            ≡ map.insert self.old.entities handle (newborn birth) }
        ensures spare { self.new.spare + 1 ≡ self.old.spare }
        ensures places { self.new.places ≡ self.old.places ++ handle ∷ [] }
    {
        self.living.push(handle, birth);
    }

    /// Changes the birth of the entity at this place, which has to be that of the handle, and
    /// leaves the rest. It takes constant time and doesn't allocate.
    pub fn set_birth_at(&mut self, place: usize, handle: Handle, birth: Birth)
        requires { slice_get self.old.places place ≡ Some handle }
        ensures entities { self.new.entities ≡ with_birth self.old.entities handle birth }
        ensures spare { self.new.spare ≡ self.old.spare }
        ensures places { self.new.places ≡ self.old.places }
    {
        self.living.set_birth(place, birth);
    }

    /// Takes out the entity at this place, which has to be that of the handle. Returns the handle
    /// of the entity that has moved into the place, which was the last one; `None` if the entity
    /// was the last one itself. It doesn't allocate, and raises `spare` by 1.
    ///
    /// It takes the time of a look at each component that any entity has ever had.
    #[inline(always)]
    pub fn despawn_at(&mut self, place: usize, handle: Handle) -> Option<Handle>
        requires { slice_get self.old.places place ≡ Some handle }
        ensures entities { self.new.entities ≡ map.remove self.old.entities handle }
        ensures spare { self.new.spare ≡ self.old.spare + 1 }
        ensures places { AreWithout place self.old.places self.new.places }
        ensures moved { result ≡ slice_get self.new.places place }
    {
        self.living.swap_remove(place);
        if place >= self.living.len() {
            return None;
        }
        Some(self.living.handle(place))
    }

    /// Sets each of these components of the entity at this place, and leaves its others as they
    /// are. The place has to be that of the handle. If a component is in the list twice, its last
    /// value counts.
    ///
    /// It takes memory only for components that the entity does not have yet.
    ///
    /// # Errors
    ///
    /// Out of memory for the components that the entity does not have yet. Nothing has changed.
    #[inline(always)]
    pub fn insert_at(
        &mut self,
        place: usize,
        handle: Handle,
        items: &[(ComponentId, i64)],
    ) -> Result<(), Memory>
        requires { slice_get self.old.places place ≡ Some handle }
        ensures ok { OnOk result (self.new.entities
            ≡ with_components self.old.entities handle (λ held. with_items held items.now)) }
        ensures spare { self.new.spare ≡ self.old.spare }
        ensures places { self.new.places ≡ self.old.places }

        ensures memory_to_grow { OnErr result
            (IfSome (components_of self.old.entities handle)
            (λ held. 0 < missing held items.now)) }
        ensures err { OnErr result (self.new ≡ self.old) }
    {
        self.living.insert(place, items)?;
        Ok(())
    }

    /// Takes the component out of the entity at this place, which has to be that of the handle.
    /// Returns the value that it had, or `None` if the entity does not have it. It takes constant
    /// time and doesn't allocate.
    #[inline(always)]
    pub fn remove_at(&mut self, place: usize, handle: Handle, id: ComponentId) -> Option<i64>
        requires { slice_get self.old.places place ≡ Some handle }
        ensures value { result ≡ value_of self.old.entities handle id }
        ensures entities { self.new.entities
            ≡ with_components self.old.entities handle (λ held. map.remove held id) }
        ensures spare { self.new.spare ≡ self.old.spare }
        ensures places { self.new.places ≡ self.old.places }
    {
        self.living.remove(place, id)
    }

    /// The value of a component of the entity at this place, which has to be that of the handle.
    /// It takes constant time.
    #[inline(always)]
    pub fn get_at(&self, place: usize, handle: Handle, id: ComponentId) -> Option<i64>
        requires { slice_get self.now.places place ≡ Some handle }
        ensures { result ≡ value_of self.now.entities handle id }
    {
        self.living.value(place, id)
    }

    /// The components and their values, in ascending order of number, of the entity at this place,
    /// which has to be that of the handle.
    pub fn items_at(&self, place: usize, handle: Handle) -> Items<'_>
        requires { slice_get self.now.places place ≡ Some handle }
        ensures { option_map map.entries (components_of self.now.entities handle) ≡ Some result }
    {
        self.living.items(place)
    }

    /// When and by whom the entity at this place was brought to life. The place has to be that of
    /// the handle. It takes constant time.
    pub fn birth_at(&self, place: usize, handle: Handle) -> Birth
        requires { slice_get self.now.places place ≡ Some handle }
        ensures { birth_of self.now.entities handle ≡ Some result }
    {
        self.living.birth(place)
    }

    /// The place and the value of each entity that has the component, in no particular
    /// order, as one slice. It doesn't allocate.
    pub fn dense(&self, id: ComponentId) -> &[(usize, i64)]
        ensures has { (place : ℕ) (value : ℤ) → Contains result.now (place, value)
            ↔ (value_at_place self.now place id ≡ Some value) }
        ensures once { AllPairs (λ a b. a.0 ≢ b.0) result.now }
    {
        self.living.pairs(id)
    }

    /// The handles of the entities that have the component, ordered by birth and then by
    /// handle. It takes the time of sorting these.
    ///
    /// # Errors
    ///
    /// Out of memory for the list. It is never returned if no entity has the component.
    pub fn with(&self, id: ComponentId) -> Result<Vec<Handle>, Memory>
        ensures ok { IfOk result (λ handles. ListsWith id self.now.entities handles.items) }
        ensures memory { OnErr result
            ((handle : Handle) × IsSome (value_of self.now.entities handle id)) }
    {
        let births = self.living.births_at(self.alloc, self.living.pairs(id))?;
        Ok(handles_in_order(self.alloc, births)?)
    }

    /// The handles of all entities, ordered by birth and then by handle. It takes the time
    /// of a sort, or of one pass if they are in that order, as they mostly are until one despawns.
    ///
    /// # Errors
    ///
    /// Out of memory for the list. It is never returned if there are no entities.
    pub fn by_birth(&self) -> Result<Vec<Handle>, Memory>
        ensures ok { IfOk result (λ handles. ListsAll self.now.entities handles.items) }
        ensures memory { OnErr result (self.now.entities ≢ map.empty) }
    {
        Ok(self.living.by_birth(self.alloc)?)
    }

    /// Whether the handle of that key is at the place.
    pub(crate) fn has_key_at(&self, key: Key, place: usize) -> bool
        ensures { result ≡ has_handle_at self.now.places key (Some place) }
    {
        has_key_at(&self.living, key, place)
    }

    /// The handle of the entity with that birth, if there is one. If several entities have
    /// the birth, it returns the least of their handles.
    ///
    /// It doesn't allocate, and takes time for each entity.
    pub fn of_birth(&self, birth: Birth) -> Option<Handle>
        ensures found { IfSome result (λ handle.
            birth_of self.now.entities handle ≡ Some birth) }
        ensures least { IfSome result (λ handle. (other : Handle)
            → birth_of self.now.entities other ≡ Some birth
            → handle_cmp handle other ≢ Greater) }
        ensures none { IfNone result ((handle : Handle)
            → birth_of self.now.entities handle ≢ Some birth) }
    {
        self.living.of_birth(birth)
    }
}
