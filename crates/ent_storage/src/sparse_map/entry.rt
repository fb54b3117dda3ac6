ghost use Rattle.std.specs.Prelude.{◌≡◌, Some, None, IsSome, IsOk, IfOk, IfErr, unwrap_or};
ghost use Rattle.std.specs.Borrow.{sem};
ghost use Rattle.std.specs.FinMap as finite;
ghost use Rattle.std.specs.Map.Calls.{ModifiesValue};
ghost use Rattle.std.specs.Option.{UnwrapsOrElse};
ghost use Rattle.ent_storage.specs.HandleMap.{error_of};

use crate::handle_map::InsertError;
use crate::sparse_map::SparseMap;
use ent_handle::{HandedBack, Handle};
use std::mem;

/// A view into the entry of one handle in a sparse map, which is occupied or vacant.
///
/// It is created by [`SparseMap::entry`](super::SparseMap::entry).
///
/// ```
/// use forgeni::sparse_map::{Entry, SparseMap};
///
/// let mut names = SparseMap::new();
/// let said = match names.entry("0v1".parse()?) {
///     Entry::Occupied(entry) => format!("{} again", entry.get()),
///     Entry::Vacant(entry) => format!("{} is new", entry.insert("Ada")?),
/// };
/// assert_eq!(said, "Ada is new");
/// # Ok::<(), Box<dyn std::error::Error>>(())
/// ```
#[derive(Drop)]
pub enum Entry<'a, T> {
    /// The handle has a value.
    Occupied(OccupiedEntry<'a, T>),
    /// The handle has no value.
    Vacant(VacantEntry<'a, T>),
}

/// A view into an occupied entry: a handle that has a value, and its map.
///
/// ```
/// use forgeni::sparse_map::{Entry, SparseMap};
///
/// let mut left = SparseMap::new();
/// let fuse = "0v1".parse()?;
/// left.insert(fuse, 1)?;
/// if let Entry::Occupied(mut entry) = left.entry(fuse) {
///     *entry.get_mut() -= 1;
///     if *entry.get() == 0 {
///         entry.remove();
///     }
/// }
/// assert!(left.is_empty());
/// # Ok::<(), Box<dyn std::error::Error>>(())
/// ```
#[derive(Drop)]
pub struct OccupiedEntry<'a, T> {
    pub(super) map: &'a mut SparseMap<T>,
    pub(super) handle: Handle,
    ghost present: { IsSome (finite.get map.now.values handle) },
}

/// A view into a vacant entry: a handle that has no value, and its map.
///
/// ```
/// use forgeni::sparse_map::{Entry, SparseMap};
///
/// let mut names = SparseMap::new();
/// if let Entry::Vacant(entry) = names.entry("3v2".parse()?) {
///     let name = format!("entity {}", entry.handle());
///     entry.insert(name)?;
/// }
/// assert!(names.values().eq(["entity 3v2"]));
/// # Ok::<(), Box<dyn std::error::Error>>(())
/// ```
#[derive(Drop)]
pub struct VacantEntry<'a, T> {
    pub(super) map: &'a mut SparseMap<T>,
    pub(super) handle: Handle,
}

impl<'a, T: Drop> Entry<'a, T> {
    ghost use Rattle.ent_storage.specs.SparseEntry.{entry_handle, entry_map, entry_ref};
    ghost use Rattle.ent_storage.specs.SparseEntry.{entry_value};
    ghost use Rattle.ent_storage.specs.SparseEntry.{entry_lends, Gives, IsRefusal};

    /// Returns the handle.
    ///
    /// ```
    /// use forgeni::SparseMap;
    ///
    /// let mut names: SparseMap<String> = SparseMap::new();
    /// let entry = names.entry("3v2".parse()?);
    /// // A name for an entity that has none.
    /// let name = format!("entity {}", entry.handle());
    /// assert_eq!(entry.or_insert(name)?, "entity 3v2");
    /// # Ok::<(), Box<dyn std::error::Error>>(())
    /// ```
    #[must_use]
    pub fn handle(&self) -> Handle
        ensures { result ≡ entry_handle self.now }
    {
        match self {
            Entry::Occupied(entry) => entry.handle(),
            Entry::Vacant(entry) => entry.handle(),
        }
    }

    /// Returns a mutable reference to the handle's value. If the handle has none, it gets this one
    /// first.
    ///
    /// ```
    /// use forgeni::SparseMap;
    ///
    /// let mut hits = SparseMap::new();
    /// let cart = "0v1".parse()?;
    /// for damage in [3, 4] {
    ///     *hits.entry(cart).or_insert(0)? += damage;
    /// }
    /// assert_eq!(hits[cart], 7);
    /// # Ok::<(), Box<dyn std::error::Error>>(())
    /// ```
    ///
    /// # Errors
    ///
    /// [`HandedBack`] has the value, as [`SparseMap::insert`] hands it back.
    pub fn or_insert(self, value: T) -> Result<&'a mut T, HandedBack<T, InsertError>>
        ensures* writes_back { sem 𝓛 (entry_lends T.row self.entry result) }
        ensures value { IfOk result (λ x. x.now ≡ unwrap_or (entry_value self.entry) value) }
        ensures occupied { IsSome (entry_value self.entry) → IsOk result }
        ensures refused { entry_value self.entry ≡ None
            → IsRefusal (entry_map self.entry) (entry_handle self.entry) (error_of result) }
        ensures back { IfErr result (λ refused. refused.value ≡ value) }
    {
        match self {
            Entry::Occupied(entry) => Ok(entry.into_mut()),
            Entry::Vacant(entry) => entry.insert(value),
        }
    }

    /// Returns a mutable reference to the handle's value. If the handle has none, it first gets the
    /// one that `make` returns.
    ///
    /// ```
    /// use forgeni::SparseMap;
    ///
    /// let mut paths: SparseMap<Vec<u32>> = SparseMap::new();
    /// let cart = "0v1".parse()?;
    /// for step in [5, 6] {
    ///     paths.entry(cart).or_insert_with(Vec::new)?.push(step);
    /// }
    /// assert_eq!(paths[cart], [5, 6]);
    /// # Ok::<(), Box<dyn std::error::Error>>(())
    /// ```
    ///
    /// # Errors
    ///
    /// [`HandedBack`] has the value that `make` returned.
    ///
    /// # Panics
    ///
    /// A panic in `make` is propagated. Nothing has changed.
    pub fn or_insert_with<F: FnOnce() -> T>(
        self,
        make: F,
    ) -> Result<&'a mut T, HandedBack<T, InsertError>>
        requires { F.IsAlwaysCallable make }
        ensures* writes_back { sem 𝓛 (entry_lends T.row self.entry result) }
        ensures value { IfOk result (λ x.
            UnwrapsOrElse (entry_value self.entry) (F.post make) x.now) }
        ensures occupied { IsSome (entry_value self.entry) → IsOk result }
        ensures refused { entry_value self.entry ≡ None
            → IsRefusal (entry_map self.entry) (entry_handle self.entry) (error_of result) }
        ensures back { IfErr result (λ refused. F.post make refused.value) }
    {
        match self {
            Entry::Occupied(occupied) => Ok(occupied.into_mut()),
            Entry::Vacant(vacant) => vacant.insert(make()),
        }
    }

    /// Calls `change` on the value, if the handle has one.
    ///
    /// ```
    /// use forgeni::SparseMap;
    ///
    /// let mut heats = SparseMap::new();
    /// let cart = "0v1".parse()?;
    /// for _ in 0..3 {
    ///     // It begins at 20, and doubles.
    ///     heats.entry(cart).and_modify(|heat| *heat *= 2).or_insert(20)?;
    /// }
    /// assert_eq!(heats[cart], 80);
    /// # Ok::<(), Box<dyn std::error::Error>>(())
    /// ```
    ///
    /// # Panics
    ///
    /// A panic in `change` is propagated. The value stays, with the changes that `change` had made
    /// to it.
    #[must_use]
    pub fn and_modify<F: FnOnce(&mut T)>(self, change: F) -> Entry<'a, T>
        requires { F.IsAlwaysCallable change }
        ensures same_map { (entry_ref result).ghost_name ≡ (entry_ref self.entry).ghost_name }
        ensures handle { entry_handle result ≡ entry_handle self.entry }
        ensures value { ModifiesValue F.FnOnce change (entry_value self.entry) (entry_value result) }
        ensures gives { (w : T) (m : _) → Gives result w m → Gives self.entry w m }
    {
        match self {
            Entry::Occupied(mut entry) => {
                change(entry.get_mut());
                Entry::Occupied(entry)
            }
            Entry::Vacant(entry) => Entry::Vacant(entry),
        }
    }
}

impl<'a, T: Drop> OccupiedEntry<'a, T> {
    ghost use Rattle.std.specs.FinMap as finite;
    ghost use Rattle.ent_storage.specs.SparseEntry.{Occupied, entry_handle, entry_map, entry_value};
    ghost use Rattle.ent_storage.specs.SparseEntry.{occupied_lends, lends_in, with_value};
    ghost use Rattle.ent_storage.specs.SparseEntry.{IsWritten};

    /// Returns the handle.
    ///
    /// ```
    /// use forgeni::sparse_map::{Entry, SparseMap};
    ///
    /// let cart = "3v2".parse()?;
    /// let mut names = SparseMap::from([(cart, "cart")]);
    /// if let Entry::Occupied(entry) = names.entry(cart) {
    ///     assert_eq!(entry.handle(), cart);
    /// }
    /// # Ok::<(), forgeni::ParseHandleError>(())
    /// ```
    #[must_use]
    pub fn handle(&self) -> Handle
        ensures { result ≡ entry_handle (Occupied self.now) }
    {
        self.handle
    }

    /// Returns a reference to the value.
    ///
    /// ```
    /// use forgeni::sparse_map::{Entry, SparseMap};
    ///
    /// let cart = "3v2".parse()?;
    /// let mut names = SparseMap::from([(cart, "cart")]);
    /// if let Entry::Occupied(entry) = names.entry(cart) {
    ///     assert_eq!(entry.get(), &"cart");
    /// }
    /// # Ok::<(), forgeni::ParseHandleError>(())
    /// ```
    #[must_use]
    pub fn get(&self) -> &T
        ensures { entry_value (Occupied self.now) ≡ Some result.now }
    {
        let Some(value) = self.map.get(self.handle) else {
            unreachable!()
        };
        value
    }

    /// Returns a mutable reference to the value.
    ///
    /// ```
    /// use forgeni::sparse_map::{Entry, SparseMap};
    ///
    /// let cart = "3v2".parse()?;
    /// let mut hits = SparseMap::from([(cart, 3)]);
    /// if let Entry::Occupied(mut entry) = hits.entry(cart) {
    ///     *entry.get_mut() += 1;
    /// }
    /// assert_eq!(hits[cart], 4);
    /// # Ok::<(), forgeni::ParseHandleError>(())
    /// ```
    #[must_use]
    pub fn get_mut(&mut self) -> &mut T
        ensures* writes_back { sem 𝓛 (lends_in T.row self.entry result) }
        ensures value { entry_value (Occupied self.old) ≡ Some result.now }
        ensures written { (w : T) → IsWritten self.old w (with_value self.old w) }
    {
        let handle = self.handle;
        self.map.value_mut(handle)
    }

    /// Converts the entry into a mutable reference to the value, which lives as long as the borrow
    /// of the map.
    ///
    /// ```
    /// use forgeni::sparse_map::{Entry, SparseMap};
    /// use forgeni::Handle;
    ///
    /// /// The shield of an entity, if it isn't 0.
    /// fn whole(shields: &mut SparseMap<u32>, of: Handle) -> Option<&mut u32> {
    ///     match shields.entry(of) {
    ///         Entry::Occupied(entry) if *entry.get() > 0 => Some(entry.into_mut()),
    ///         _ => None,
    ///     }
    /// }
    ///
    /// let knight = "0v1".parse()?;
    /// let mut shields = SparseMap::from([(knight, 100)]);
    /// assert_eq!(whole(&mut shields, knight), Some(&mut 100));
    /// # Ok::<(), Box<dyn std::error::Error>>(())
    /// ```
    #[must_use]
    pub fn into_mut(self) -> &'a mut T
        ensures* writes_back { sem 𝓛 (occupied_lends T.row self.entry result) }
        ensures value { entry_value (Occupied self.entry) ≡ Some result.now }
    {
        let map = self.map;
        map.value_mut(self.handle)
    }

    /// Gives the handle another value, and returns the one that it had.
    ///
    /// ```
    /// use forgeni::sparse_map::{Entry, SparseMap};
    ///
    /// let cart = "0v1".parse()?;
    /// let mut names = SparseMap::from([(cart, "cart")]);
    /// if let Entry::Occupied(mut entry) = names.entry(cart) {
    ///     assert_eq!(entry.insert("wreck"), "cart");
    /// }
    /// assert_eq!(names[cart], "wreck");
    /// # Ok::<(), Box<dyn std::error::Error>>(())
    /// ```
    pub fn insert(&mut self, value: T) -> T
        ensures before { entry_value (Occupied self.old) ≡ Some result }
        ensures written { IsWritten self.old value self.new }
    {
        mem::replace(self.get_mut(), value)
    }

    /// Removes the value, and returns it.
    ///
    /// ```
    /// use forgeni::sparse_map::{Entry, SparseMap};
    ///
    /// let cart = "0v1".parse()?;
    /// let mut names = SparseMap::from([(cart, String::from("cart"))]);
    /// if let Entry::Occupied(entry) = names.entry(cart) {
    ///     // The value itself, without a clone.
    ///     let name: String = entry.remove();
    ///     assert_eq!(name, "cart");
    /// }
    /// # Ok::<(), Box<dyn std::error::Error>>(())
    /// ```
    pub fn remove(self) -> T
        ensures value { entry_value (Occupied self.entry) ≡ Some result }
        ensures map { self.exit.0.now ≡ record (entry_map (Occupied self.entry)) {
          values = finite.remove (entry_map (Occupied self.entry)).values
              (entry_handle (Occupied self.entry));
        } }
    {
        let handle = self.handle;
        let Some(value) = self.map.remove(handle) else {
            unreachable!()
        };
        value
    }
}

impl<'a, T: Drop> VacantEntry<'a, T> {
    ghost use Rattle.ent_storage.specs.SparseEntry.{Vacant, entry_handle, entry_lends, entry_map};
    ghost use Rattle.ent_storage.specs.SparseEntry.{IsRefusal};

    /// Returns the handle.
    ///
    /// ```
    /// use forgeni::sparse_map::{Entry, SparseMap};
    ///
    /// let mut names: SparseMap<&str> = SparseMap::new();
    /// if let Entry::Vacant(entry) = names.entry("3v2".parse()?) {
    ///     assert_eq!(entry.handle().index(), 3);
    /// }
    /// # Ok::<(), forgeni::ParseHandleError>(())
    /// ```
    #[must_use]
    pub fn handle(&self) -> Handle
        ensures { result ≡ entry_handle (Vacant self.now) }
    {
        self.handle
    }

    /// Gives the handle its value. If an earlier occupant of the slot has one, that is dropped.
    ///
    /// ```
    /// use forgeni::sparse_map::{Entry, SparseMap};
    ///
    /// let mut shields = SparseMap::new();
    /// let knight = "0v1".parse()?;
    /// if let Entry::Vacant(entry) = shields.entry(knight) {
    ///     let shield = entry.insert(100)?;
    ///     *shield -= 30;
    /// }
    /// assert_eq!(shields[knight], 70);
    /// # Ok::<(), Box<dyn std::error::Error>>(())
    /// ```
    ///
    /// # Errors
    ///
    /// [`HandedBack`] has the value, as [`SparseMap::insert`] hands it back.
    pub fn insert(self, value: T) -> Result<&'a mut T, HandedBack<T, InsertError>>
        ensures* writes_back { sem 𝓛 (entry_lends T.row (Vacant self.entry) result) }
        ensures value { IfOk result (λ x. x.now ≡ value) }
        ensures refused { IsRefusal (entry_map (Vacant self.entry))
            (entry_handle (Vacant self.entry)) (error_of result) }
        ensures back { IfErr result (λ refused. refused.value ≡ value) }
    {
        let VacantEntry { map, handle } = self;
        match map.insert(handle, value) {
            Ok(_) => {}
            Err(refused) => return Err(refused),
        }
        Ok(map.value_mut(handle))
    }
}
