ghost use Rattle.std.specs.Prelude.{◌≡◌, ◌≢◌, ◌<◌, ◌≤◌, ℕ, ℤ, OnOk, OnErr, IfOk, IfSome, None};
ghost use Rattle.std.specs.Prelude.{Some};
ghost use Rattle.std.specs.Prelude.{slice_get, length};
ghost use Rattle.std.specs.Prelude.{Contains, IsTrue};
ghost use Rattle.std.specs.Ordering.{nat_cmp};
ghost use Rattle.std.specs.List.{HoldsAt};
ghost use Rattle.std.specs.FinMap as map;
ghost use Rattle.ent_storage.specs.Copies.{IsCopy};
ghost use Rattle.ent_storage.specs.SparseSet.{Column, no_column, IsDense, HasRoomAt, IsMovedDown};
ghost use Rattle.ent_storage.specs.SparseSet.{HasRoomFor};

use super::lists::overwrite;
use super::places::MOST_PLACES;
use std::alloc::{AllocError, Global};
use std::marker::Model;

/// The values of one component, by the places of the entities that have it.
///
/// The dense vector has a pair of place and value for each of these entities, in no order. The
/// sparse vector has at a place the position of its pair. An entry counts only if the pair there
/// has the place, so nothing is cleared when a pair is removed.
#[derive(Drop)]
pub struct SparseSet {
    dense: Vec<(usize, i64)>,
    sparse: Vec<u32>,
}

impl Model for SparseSet {
    ghost use Rattle.std.specs.Prelude.{◌-◌, min, vec_len, vec_capacity};
    ghost use Rattle.std.specs.FinMap as map;
    ghost use Rattle.ent_storage.specs.Places.{most_places};
    ghost use Rattle.ent_storage.specs.SparseSet.{Column, column_code, IsDense};

    ghost Value = { Column };

    ghost coded = { column_code };

    ghost view = { λ a. record {
      values = map.from_entries a.dense.items;
      spare = min (vec_capacity a.dense) most_places - vec_len a.dense;
      places = vec_len a.sparse;
      count = vec_len a.dense;
      value_room = vec_capacity a.dense;
      place_room = vec_capacity a.sparse;
    } };

    ghost invariant = { λ a. IsDense a.dense.items a.sparse.items };
}

impl SparseSet {
    /// A set of no values, without room.
    pub fn new(alloc: Global) -> Self
        ensures { result ≡ no_column }
    {
        SparseSet {
            dense: Vec::new(alloc),
            sparse: Vec::new(alloc),
        }
    }

    /// A set with the same values.
    pub fn try_clone(&self, alloc: Global) -> Result<Self, AllocError>
        ensures { IfOk result (IsCopy self.now) }
    {
        if self.sparse.is_empty() {
            return Ok(SparseSet::new(alloc));
        }
        let mut dense = Vec::with_capacity(alloc, self.dense.len())?;
        dense.extend_from_slice(&self.dense)?;
        let mut sparse = Vec::with_capacity(alloc, self.sparse.len())?;
        sparse.extend_from_slice(&self.sparse)?;
        Ok(SparseSet { dense, sparse })
    }

    /// Makes room for the values of another set. After an `Err` the values are as before.
    pub fn reserve_for(&mut self, source: &SparseSet) -> Result<(), AllocError>
        ensures values { self.new.values ≡ self.old.values }
        ensures ok { OnOk result (HasRoomFor self.new source.now) }
        ensures kept { (other : Column) → HasRoomFor self.old other → HasRoomFor self.new other }
        ensures memory { OnErr result (source.now.values ≢ map.empty) }
    {
        if source.dense.is_empty() {
            return Ok(());
        }
        let values = source.dense.len().saturating_sub(self.dense.len());
        self.dense.reserve(values)?;
        let places = source.sparse.len().saturating_sub(self.sparse.len());
        self.sparse.reserve(places)
    }

    /// Takes over the values of another set. There has to be room for them.
    pub fn take_over(&mut self, source: &SparseSet)
        requires { HasRoomFor self.old source.now }
        ensures values { self.new.values ≡ source.now.values }
        ensures none { self.old ≡ no_column → self.new ≡ no_column }
    {
        self.dense.clear();
        if !source.dense.is_empty() {
            overwrite(&mut self.dense, &source.dense);
            overwrite(&mut self.sparse, &source.sparse);
        }
    }

    /// Takes all values out. The room stays.
    pub fn clear(&mut self)
        ensures values { self.new.values ≡ map.empty }
        ensures none { self.old ≡ no_column → self.new ≡ no_column }
    {
        self.dense.clear();
    }

    /// Returns `true` if there is any value.
    pub fn has_values(&self) -> bool
        ensures some { IsTrue result → self.now.values ≢ map.empty }
        ensures none { ¬ (IsTrue result) → self.now.values ≡ map.empty }
    {
        !self.dense.is_empty()
    }

    /// The place and the value of each entity that has the component.
    pub fn pairs(&self) -> &[(usize, i64)]
        ensures has { (p : ℕ) (v : ℤ) → Contains result.now (p, v)
            → map.get self.now.values p ≡ Some v }
        ensures all { (p : ℕ) (v : ℤ) → map.get self.now.values p ≡ Some v
            → Contains result.now (p, v) }
        ensures once { (j k p : ℕ) (v w : ℤ) → slice_get result.now j ≡ Some (p, v)
            → slice_get result.now k ≡ Some (p, w) → j ≡ k }
    {
        &self.dense
    }

    /// The value of the place, if it has one.
    pub fn get(&self, place: usize) -> Option<i64>
        ensures { result ≡ map.get self.now.values place }
    {
        let position = position_of(&self.dense, &self.sparse, place)?;
        Some(self.dense[position as usize].1)
    }

    /// Sets the value of the place. There has to be room for it if it has none.
    #[inline(always)]
    pub fn set(&mut self, place: usize, value: i64)
        requires { HasRoomAt self.old place }
        ensures { self.new.values ≡ map.insert self.old.values place value }
    {
        match position_of(&self.dense, &self.sparse, place) {
            Some(position) => self.dense[position as usize] = (place, value),
            None => {
                self.sparse[place] = self.dense.len() as u32;
                self.dense.push_reserved((place, value));
            }
        }
    }

    /// Returns `true` if there is room for any place.
    pub fn has_places(&self) -> bool
        ensures { IsTrue result → 0 < self.now.places }
    {
        !self.sparse.is_empty()
    }

    /// Returns `true` if there is room for one value more, and for one of the place.
    pub fn has_room(&self, place: usize) -> bool
        ensures { IsTrue result → HasRoomAt self.now place }
    {
        (self.dense.len() as u64) < (self.dense.capacity() as u64).min(MOST_PLACES)
            && place < self.sparse.len()
    }

    /// Makes room for a value of the place. After an `Err` the values are as before.
    pub fn reserve(&mut self, place: usize) -> Result<(), AllocError>
        ensures values { self.new.values ≡ self.old.values }
        ensures ok { OnOk result (HasRoomAt self.new place) }
        ensures kept { HasRoomAt self.old place → HasRoomAt self.new place }
    {
        if self.dense.len() as u64 >= MOST_PLACES {
            return Err(AllocError);
        }
        self.dense.reserve(1)?;
        let places = place.checked_add(1).ok_or(AllocError)?;
        self.sparse
            .reserve(places.saturating_sub(self.sparse.len()))?;
        // All the room is put to use at once, so that the next places are there.
        self.sparse.resize(self.sparse.capacity(), 0)
    }

    /// Takes the value of the place out, and returns it. It doesn't allocate.
    #[inline(always)]
    pub fn remove(&mut self, place: usize) -> Option<i64>
        ensures value { result ≡ map.get self.old.values place }
        ensures after { self.new.values ≡ map.remove self.old.values place }
        ensures absent { result ≡ None → self.new ≡ self.old }
    {
        let position = position_of(&self.dense, &self.sparse, place)?;
        let (_, value) = self.dense.swap_remove(position as usize);
        if (position as usize) < self.dense.len() {
            self.sparse[self.dense[position as usize].0] = position;
        }
        Some(value)
    }

    /// Moves the value of the later place, if it has one, to the earlier place, which has none. It
    /// doesn't allocate.
    #[inline(always)]
    fn relocate(&mut self, from: usize, to: usize)
        requires before { to < from }
        requires free { map.get self.old.values to ≡ None }
        ensures { IsMovedDown to from self.old.values self.new.values }
    {
        if let Some(position) = position_of(&self.dense, &self.sparse, from) {
            self.dense[position as usize].0 = to;
            self.sparse[to] = position;
        }
    }

    /// Takes the value of the place out, and moves that of the last place there. It doesn't
    /// allocate.
    #[inline(always)]
    pub fn swap_remove(&mut self, place: usize, last: usize)
        requires { place ≤ last }
        ensures { IsMovedDown place last self.old.values self.new.values }
    {
        let _ = self.remove(place);
        if place < last {
            self.relocate(last, place);
        }
    }
}

/// The position of the pair that the place has in the dense vector.
fn position_of(dense: &[(usize, i64)], sparse: &[u32], place: usize) -> Option<u32>
    requires { IsDense dense.now sparse.now }
    ensures found { IfSome result
        (λ position. HoldsAt (λ pair. pair.0 ≡ place) dense.now position) }
    ensures inside { IfSome result (λ position. position < length dense.now) }
    ensures absent { result ≡ None
        → map.get (map.from_entries {R = nat_cmp} dense.now) place ≡ None }
{
    let position = *sparse.get(place)?;
    let pair = dense.get(position as usize)?;
    if pair.0 == place {
        Some(position)
    } else {
        None
    }
}
