ghost use Rattle.std.specs.Prelude.{◌≡◌, ◌≢◌, ◌+◌, ◌<◌, ◌==◌, ◌≤◌, ◌⊎◌, ℕ, ℤ, [], ◌∷◌, ◌++◌};
ghost use Rattle.std.specs.Prelude.{length, map};
ghost use Rattle.std.specs.Prelude.{IsOk, IfOk, OnOk, OnErr, None, Some, Contains};
ghost use Rattle.std.specs.List.{All, HoldsAt, AllPairs};
ghost use Rattle.std.specs.FinMap as finite;
ghost use Rattle.ent_handle.specs.declared.component.ComponentId.{ComponentId as Component};
ghost use Rattle.ent_storage.specs.Components.{with_items, missing};
ghost use Rattle.ent_storage.specs.Living.{born_at, change_at, with_birth_at, IsMovedInto};
ghost use Rattle.ent_storage.specs.Living.{IsValueAt};
ghost use Rattle.ent_storage.specs.Indexed.{handles_by_place, has_handle_at};
ghost use Rattle.ent_storage.specs.BirthOrder.{IsInOrder, IsLeastOf};

use super::columns;
use super::items::Items;
use super::key::Key;
use super::lists::overwrite;
use super::order::{handles_by_birth, least_of_birth};
use super::sparse_set::SparseSet;
use ent_handle::{Birth, ComponentId, Handle};
use std::alloc::{AllocError, Global};
use std::marker::Model;

/// What an entity has besides its components.
#[derive(Clone, Copy)]
pub struct Resident {
    pub handle: Handle,
    pub birth: Birth,
}

/// The living entities, place by place.
///
/// The residents have the handle and the birth of each. The columns have the components: at a
/// component's number the values of that component, by the places of the entities that have it. The
/// columns that have ever had values are in use: their numbers stand in rising order, and a removal
/// and `items` look at those alone.
#[derive(Drop)]
pub struct Living {
    residents: Vec<Resident>,
    columns: Vec<SparseSet>,
    used: Vec<u8>,
    alloc: Global,
}

impl Model for Living {
    ghost use Rattle.std.specs.Prelude.{vec_capacity, length};
    ghost use Rattle.ent_storage.specs.Living.{Living, living_code, entities_from, AreColumnsOf};
    ghost use Rattle.ent_storage.specs.Living.{AreInUse};

    ghost Value = { Living };

    ghost coded = { living_code };

    ghost view = { λ a. record {
      entities = entities_from 0 a.residents.items a.columns.items;
      room = vec_capacity a.residents;
    } };

    ghost invariant = { λ a. AreColumnsOf (length a.residents.items) a.columns.items
        × AreInUse a.used.items a.columns.items };
}

impl Living {
    /// No entities, without room.
    pub fn new(alloc: Global) -> Self
        ensures { result ≡ record { entities = []; room = 0 } }
    {
        Living {
            residents: Vec::new(alloc),
            columns: Vec::new(alloc),
            used: Vec::new(alloc),
            alloc,
        }
    }

    /// The same entities, with at least the same room.
    pub fn try_clone(&self) -> Result<Self, AllocError>
        ensures entities { IfOk result (λ copy. copy.entities ≡ self.now.entities) }
        ensures room { IfOk result (λ copy. self.now.room ≤ copy.room) }
    {
        let mut residents = Vec::with_capacity(self.alloc, self.residents.capacity())?;
        residents.extend_from_slice(&self.residents)?;
        let mut used = Vec::with_capacity(self.alloc, self.used.len())?;
        used.extend_from_slice(&self.used)?;
        Ok(Living {
            residents,
            columns: columns::try_clone(&self.columns, self.alloc)?,
            used,
            alloc: self.alloc,
        })
    }

    /// Takes over the entities of another, and makes room for `count` in all. It doesn't allocate
    /// if there is that room, and no entity of the other has a component. After an `Err` the
    /// entities are as before.
    pub fn try_clone_from(&mut self, source: &Living, count: usize) -> Result<(), AllocError>
        requires { length source.now.entities ≤ count }
        ensures entities { OnOk result (self.new.entities ≡ source.now.entities) }
        ensures room { OnOk result (count ≤ self.new.room) }
        ensures grows { self.old.room ≤ self.new.room }
        ensures err { OnErr result (self.new.entities ≡ self.old.entities) }
        ensures memory { OnErr result ((self.old.room < count)
            ⊎ ¬ (All (λ entity. entity.components ≡ finite.empty) source.now.entities)) }
    {
        self.residents
            .reserve(count.saturating_sub(self.residents.len()))?;
        columns::reserve_for(
            &mut self.columns,
            &mut self.used,
            self.alloc,
            &source.columns,
        )?;
        overwrite(&mut self.residents, &source.residents);
        columns::take_over(&mut self.columns, &source.columns);
        Ok(())
    }

    /// Returns the number of entities.
    pub fn len(&self) -> usize
        ensures { result ≡ length self.now.entities }
    {
        self.residents.len()
    }

    /// Returns `true` if there are no entities.
    pub fn is_empty(&self) -> bool
        ensures { result ≡ (length self.now.entities == 0) }
    {
        self.residents.is_empty()
    }

    /// For how many entities there is room in all.
    pub fn capacity(&self) -> usize
        ensures { result ≡ self.now.room }
    {
        self.residents.capacity()
    }

    /// Makes room for `additional` more entities. After an `Err` nothing is changed.
    pub fn reserve(&mut self, additional: usize) -> Result<(), AllocError>
        ensures entities { self.new.entities ≡ self.old.entities }
        ensures ok { OnOk result (length self.new.entities + additional ≤ self.new.room) }
        ensures grows { self.old.room ≤ self.new.room }
        ensures succeeds { length self.old.entities + additional ≤ self.old.room → IsOk result }
        ensures full { OnErr result (self.old.room < length self.old.entities + additional) }
        ensures err { OnErr result (self.new.room ≡ self.old.room) }
    {
        self.residents.reserve(additional)
    }

    /// The handle of the entity at the place.
    pub fn handle(&self, place: usize) -> Handle
        requires { place < length self.now.entities }
        ensures { HoldsAt (λ entity. result ≡ entity.handle) self.now.entities place }
    {
        self.residents[place].handle
    }

    /// The birth of the entity at the place.
    pub fn birth(&self, place: usize) -> Birth
        requires { place < length self.now.entities }
        ensures { HoldsAt (λ entity. result ≡ entity.birth) self.now.entities place }
    {
        self.residents[place].birth
    }

    /// Changes the birth of the entity at the place. It doesn't allocate.
    pub fn set_birth(&mut self, place: usize, birth: Birth)
        requires { place < length self.old.entities }
        ensures entities { self.new.entities ≡ with_birth_at self.old.entities place birth }
        ensures room { self.new.room ≡ self.old.room }
    {
        self.residents[place].birth = birth;
    }

    /// How many columns there are beyond those of the 256 components: none. Each component that an
    /// entity has is one of these.
    pub fn beyond(&self) -> usize
        ensures none { result ≡ 0 }
        ensures within { All (λ entity. (id : Component) (v : ℤ)
            → finite.get entity.components id ≡ Some v → id.0 < 256) self.now.entities }
    {
        self.columns.len().saturating_sub(256)
    }

    /// The value of a component of the entity at the place, if it has the component.
    pub fn value(&self, place: usize, id: ComponentId) -> Option<i64>
        requires { place < length self.now.entities }
        ensures { HoldsAt (λ entity. result ≡ finite.get entity.components id)
            self.now.entities place }
    {
        columns::value(&self.columns, place, id)
    }

    /// The components of the entity at the place and their values, in ascending order of number.
    pub fn items(&self, place: usize) -> Items<'_>
        requires { place < length self.now.entities }
        ensures { HoldsAt (λ entity. result ≡ finite.entries entity.components)
            self.now.entities place }
    {
        Items::new(&self.columns, &self.used, place)
    }

    /// Adds an entity without components. There has to be room for it.
    pub fn push(&mut self, handle: Handle, birth: Birth)
        requires { length self.old.entities < self.old.room }
        ensures entities { self.new.entities ≡ self.old.entities
            ++ record { handle = handle; birth = birth; components = finite.empty } ∷ [] }
        ensures room { self.new.room ≡ self.old.room }
    {
        self.residents.push_reserved(Resident { handle, birth });
    }

    /// Takes the entity at the place out, and moves the last one there. It doesn't allocate.
    #[inline(always)]
    pub fn swap_remove(&mut self, place: usize)
        requires { place < length self.old.entities }
        ensures entities { IsMovedInto self.old.entities place self.new.entities }
        ensures room { self.new.room ≡ self.old.room }
    {
        let last = self.residents.len() - 1;
        columns::swap_remove(&mut self.columns, &self.used, place, last);
        let _ = self.residents.swap_remove(place);
    }

    /// Sets each of the items of the entity at the place, the first item first. After an `Err`
    /// nothing is changed.
    #[inline(always)]
    pub fn insert(&mut self, place: usize, items: &[(ComponentId, i64)]) -> Result<(), AllocError>
        requires { place < length self.old.entities }
        ensures ok { OnOk result (self.new.entities
            ≡ change_at self.old.entities place (λ held. with_items held items.now)) }
        ensures room { self.new.room ≡ self.old.room }
        ensures err { OnErr result (self.new.entities ≡ self.old.entities) }
        ensures growing { OnErr result
            (HoldsAt (λ entity. 0 < missing entity.components items.now) self.old.entities place) }
    {
        columns::reserve_all(&mut self.columns, &mut self.used, self.alloc, place, items)?;
        columns::set_all(&mut self.columns, place, items);
        Ok(())
    }

    /// Takes a component out of the entity at the place, and returns its value. It doesn't
    /// allocate.
    pub fn remove(&mut self, place: usize, id: ComponentId) -> Option<i64>
        requires { place < length self.old.entities }
        ensures value { HoldsAt (λ entity. result ≡ finite.get entity.components id)
            self.old.entities place }
        ensures entities { self.new.entities
            ≡ change_at self.old.entities place (λ held. finite.remove held id) }
        ensures room { self.new.room ≡ self.old.room }
    {
        columns::remove(&mut self.columns, place, id)
    }

    /// The handles of the entities, by birth and then by handle. It doesn't allocate if there is
    /// none.
    pub fn by_birth(&self, alloc: Global) -> Result<Vec<Handle>, AllocError>
        ensures ok { IfOk result (λ handles. IsInOrder
            (map (λ entity. (entity.birth, entity.handle)) self.now.entities) handles.items) }
        ensures memory { OnErr result (0 < length self.now.entities) }
    {
        handles_by_birth(alloc, &self.residents)
    }

    /// The least handle of an entity with that birth, if there is one. It doesn't allocate.
    pub fn of_birth(&self, birth: Birth) -> Option<Handle>
        ensures { IsLeastOf birth
            (map (λ entity. (entity.birth, entity.handle)) self.now.entities) result }
    {
        least_of_birth(&self.residents, birth)
    }

    /// The birth and the handle of the entity at the place of each pair. With none, it doesn't
    /// allocate.
    pub fn births_at(
        &self,
        alloc: Global,
        pairs: &[(usize, i64)],
    ) -> Result<Vec<(Birth, Handle)>, AllocError>
        requires { All (λ pair. pair.0 < length self.now.entities) pairs.now }
        ensures ok { IfOk result (λ births. map Some births.items
            ≡ map (λ pair. born_at self.now.entities pair.0) pairs.now) }
        ensures memory { OnErr result (0 < length pairs.now) }
    {
        let mut births = Vec::with_capacity(alloc, pairs.len())?;
        for pair in pairs {
            let resident = self.residents[pair.0];
            births.push((resident.birth, resident.handle))?;
        }
        Ok(births)
    }

    /// The place and the value of each entity that has the component.
    pub fn pairs(&self, id: ComponentId) -> &[(usize, i64)]
        ensures has { (place : ℕ) (v : ℤ) → Contains result.now (place, v)
            → IsValueAt self.now.entities place id v }
        ensures all { (place : ℕ) (v : ℤ) → IsValueAt self.now.entities place id v
            → Contains result.now (place, v) }
        ensures once { AllPairs (λ a b. a.0 ≢ b.0) result.now }
    {
        match self.columns.get(id.0 as usize) {
            Some(column) => column.pairs(),
            None => &[],
        }
    }
}

/// Returns `true` if the entity at the place has the handle of that key.
pub fn has_key_at(living: &Living, key: Key, place: usize) -> bool
    ensures { result
        ≡ has_handle_at (handles_by_place living.now.entities) key (Some place) }
{
    match living.residents.get(place) {
        Some(entity) => key.is_of(entity.handle),
        None => false,
    }
}
