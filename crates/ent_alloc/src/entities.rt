ghost use Rattle.std.specs.Prelude.{◌≡◌, ◌≢◌, ◌+◌, ◌-◌, ◌^◌, ◌<◌, ◌≤◌, ◌↔◌, ◌⊎◌, ◌||◌};
ghost use Rattle.std.specs.Prelude.{IsTrue, IfOk, OnOk, OnSome, OnErr, IsErrOf, IfSome, IfNone};
ghost use Rattle.std.specs.Prelude.{Some, None};
ghost use Rattle.std.specs.Prelude.{true, false, List};
ghost use Rattle.std.specs.Prelude.{[], ◌++◌, All, AllPairs, length, slice_get, vec_len};
ghost use Rattle.std.specs.Prelude.{vec_capacity};
ghost use Rattle.std.specs.FinSet as set;
ghost use Rattle.std.specs.FinMap as map;
ghost use Rattle.ent_alloc.specs.Sequential.{opening, top, cursor, available, stands_in};
ghost use Rattle.ent_alloc.specs.Sequential.{born, made_at_flush, next};
ghost use Rattle.ent_alloc.specs.Sequential.{state_of, retired, after_flush};
ghost use Rattle.ent_alloc.specs.Sequential.{after_alloc, after_free};
ghost use Rattle.ent_alloc.specs.Limits.{without_placeholder};
ghost use Rattle.ent_alloc.specs.Sound.{IsSound, IsWithin};
ghost use Rattle.ent_alloc.specs.Entities.{HasRowsOfLiving};
ghost use Rattle.ent_alloc.specs.Runs.{Step, IsRun, after_run, given_in_run};
ghost use Rattle.ent_alloc.specs.Spent.{AreSpent};
ghost use Rattle.ent_alloc.specs.Within.{slots_after_flush};

use crate::absent::Absent;
use crate::fault::{AllocFault, FreeFault, Freed};
use crate::limits::Limits;
use crate::living::Living;
use crate::requests::Requests;
use crate::slot_record::Occupancy;
use crate::slots::Slots;
use crate::state::State;
use ent_handle::{Handle, Memory};
use std::alloc::Global;
use std::marker::Model;

/// Hands out the handles of entities, and knows which of them are alive, like Bevy's `Entities`.
///
/// ```
/// use forgeni::Entities;
///
/// let mut entities = Entities::new();
/// let cart = entities.alloc()?;
/// let horse = entities.alloc()?;
/// entities.free(cart)?;
/// assert!(entities.is_alive(horse) && !entities.is_alive(cart));
///
/// // The slot of the cart is given again, with another generation.
/// let ship = entities.alloc()?;
/// assert_eq!(ship.index(), cart.index());
/// assert!(ship != cart && !entities.is_alive(cart));
/// # Ok::<(), Box<dyn std::error::Error>>(())
/// ```
///
/// It is `Send` and `Sync`: it can go to another thread, and many threads can read it at once.
/// While it is [shared](forgeni::Entities::share), many threads can reserve handles from it.
/// [`new`](forgeni::Entities::new) is a `const fn`, so an allocator can also be in a `static`:
///
/// ```
/// use forgeni::Entities;
/// use std::sync::RwLock;
///
/// static ENTITIES: RwLock<Entities> = RwLock::new(Entities::new());
/// let first = ENTITIES.write()?.alloc()?;
/// assert!(ENTITIES.read()?.is_alive(first));
/// # Ok::<(), Box<dyn std::error::Error>>(())
/// ```
///
/// Contracts see it as a state of the
/// [sequential allocator](forgeni::contracts::ent_alloc::sequential#Allocator): the living handles,
/// the pool of those that can be given, those that are reserved, and those that a refused request
/// passed over. Beside it they see the [rows](forgeni::contracts::ent_alloc::entities#Entities)
/// that a program keeps with living handles.
#[derive(Drop)]
pub struct Entities {
    pub(crate) slots: Slots,
    pub(crate) requests: Requests,
}

impl Model for Entities {
    ghost use Rattle.ent_alloc.specs.Entities.{Entities, entities_code};

    ghost Value = { Entities };

    ghost coded = { entities_code };

    ghost use Rattle.ent_alloc.specs.Entities.{entities_of, AreReserved};

    ghost view = { λ e. entities_of e.slots e.requests.asked e.requests.served };

    ghost invariant = { λ e. AreReserved e.slots e.requests.asked e.requests.served };
}

impl Entities {
    /// Creates an allocator without entities, which gives all handles within its limits, including
    /// the greatest one, which [`with_limits`](Self::with_limits) never gives. It doesn't allocate,
    /// whatever the limits are.
    ///
    /// ```
    /// use forgeni::{Entities, Limits};
    ///
    /// // Like Bevy's allocator, it gives every handle that there is.
    /// const ALL: Entities = Entities::with_exact_limits(Limits::GREATEST);
    ///
    /// let mut one = Entities::with_exact_limits(Limits::new(1, 1).unwrap());
    /// assert_eq!(ALL.left(), u32::MAX);
    /// assert_eq!((one.alloc()?.to_string(), one.left()), ("0v1".to_owned(), 0));
    /// # Ok::<(), Box<dyn std::error::Error>>(())
    /// ```
    #[must_use]
    pub fn new(alloc: Global, limits: Limits) -> Self
        ensures allocator { result.allocator ≡ opening limits }
        ensures rows { result.rows ≡ map.empty }
        ensures rows_of_living { HasRowsOfLiving result }

        // Whatever calls come then, no handle is given twice, and none that was given is given
        // again.
        ensures given_once { (steps : List Step) → IsRun result.allocator steps
            → AreSpent (after_run result.allocator steps) (given_in_run result.allocator steps) }
    {
        Entities {
            slots: Slots::new(alloc, limits),
            requests: Requests::none(),
        }
    }

    /// Creates an allocator without entities, with these limits. It doesn't allocate, whatever the
    /// limits are.
    ///
    /// It never gives the greatest handle, 4294967294v2147483647: where both limits are the
    /// greatest, each slot has one generation less.
    ///
    /// ```
    /// use forgeni::{AllocError, Entities, Limits};
    ///
    /// let mut entities = Entities::with_limits(Limits::new(2, 1).unwrap());
    /// entities.alloc_many(2)?;
    /// assert_eq!(entities.alloc(), Err(AllocError::Space));
    /// # Ok::<(), AllocError>(())
    /// ```
    #[must_use]
    pub fn with_limits(alloc: Global, limits: Limits) -> Self
        ensures allocator { result.allocator ≡ opening (without_placeholder limits) }
        ensures rows { result.rows ≡ map.empty }
        ensures rows_of_living { HasRowsOfLiving result }

        // Whatever calls come then, no handle is given twice, and none that was given is given
        // again.
        ensures given_once { (steps : List Step) → IsRun result.allocator steps
            → AreSpent (after_run result.allocator steps) (given_in_run result.allocator steps) }
    {
        Entities::new(alloc, limits.keeping_placeholder())
    }

    /// Returns the limits within which it gives handles.
    ///
    /// ```
    /// use forgeni::{Entities, Limits};
    ///
    /// let limits = Limits::new(100, 4).unwrap();
    /// assert_eq!(Entities::with_limits(limits).limits(), limits);
    /// // `new` never gives the greatest handle.
    /// assert_eq!(Entities::new().limits(), Limits::GREATEST.keeping_placeholder());
    /// ```
    #[must_use]
    pub fn limits(&self) -> Limits
        ensures { result ≡ self.now.allocator.limits }
    {
        self.slots.limits()
    }

    /// Returns the number of living entities.
    ///
    /// ```
    /// use forgeni::Entities;
    ///
    /// let mut entities = Entities::new();
    /// let cart = entities.alloc()?;
    /// entities.alloc()?;
    /// entities.free(cart)?;
    /// entities.request()?;
    /// // What is reserved isn't alive yet.
    /// assert_eq!(entities.len(), 1);
    /// # Ok::<(), Box<dyn std::error::Error>>(())
    /// ```
    #[must_use]
    pub fn len(&self) -> u32
        ensures { result ≡ set.len self.now.allocator.live }
    {
        self.slots.live()
    }

    /// Returns `true` if no entity is alive.
    ///
    /// ```
    /// use forgeni::Entities;
    ///
    /// let mut entities = Entities::new();
    /// let enemies = entities.alloc_many(3)?;
    /// for enemy in enemies {
    ///     entities.free(enemy)?;
    /// }
    /// assert!(entities.is_empty());
    /// # Ok::<(), Box<dyn std::error::Error>>(())
    /// ```
    #[must_use]
    pub fn is_empty(&self) -> bool
        ensures { IsTrue result ↔ (set.len self.now.allocator.live ≡ 0) }
    {
        self.len() == 0
    }

    /// Returns the number of slots that were made: each has or had an entity. A retired slot still
    /// counts.
    ///
    /// ```
    /// use forgeni::Entities;
    ///
    /// let mut entities = Entities::new();
    /// let cart = entities.alloc()?;
    /// entities.free(cart)?;
    /// entities.alloc()?;
    /// // A vector by slot needs no more than this.
    /// assert_eq!(entities.total(), 1);
    /// # Ok::<(), Box<dyn std::error::Error>>(())
    /// ```
    #[must_use]
    pub fn total(&self) -> u32
        ensures { result ≡ self.now.allocator.made }
    {
        self.slots.made()
    }

    /// Returns the number of slots after the next [`flush`](Self::flush): those that were made, and
    /// one for each reserved handle of a new slot.
    ///
    /// ```
    /// use forgeni::Entities;
    ///
    /// let mut entities = Entities::new();
    /// entities.request_many(5)?;
    /// assert_eq!((entities.total(), entities.total_after_flush()), (0, 5));
    /// # Ok::<(), Box<dyn std::error::Error>>(())
    /// ```
    #[must_use]
    pub fn total_after_flush(&self) -> u32
        ensures { result ≡ slots_after_flush self.now.allocator }
    {
        self.total() + self.requests.fresh(self.slots.waiting())
    }

    /// Returns the number of slots that can still be made.
    ///
    /// ```
    /// use forgeni::{Entities, Limits};
    ///
    /// let mut entities = Entities::with_limits(Limits::new(100, 1).unwrap());
    /// entities.alloc_many(40)?;
    /// assert_eq!(entities.room(), 60);
    /// # Ok::<(), Box<dyn std::error::Error>>(())
    /// ```
    #[must_use]
    pub fn room(&self) -> u32
        ensures { result ≡ self.now.allocator.limits.slots - self.now.allocator.made }
    {
        self.slots.limits().slots() - self.slots.made()
    }

    /// Returns the number of old slots that waited for their next entity at the last `flush`,
    /// `alloc` or `free`. Requests don't change it.
    ///
    /// ```
    /// use forgeni::Entities;
    ///
    /// let mut entities = Entities::new();
    /// let all = entities.alloc_many(10)?;
    /// entities.free(all[3])?;
    /// entities.free(all[7])?;
    /// assert_eq!(entities.top(), 2);
    /// # Ok::<(), Box<dyn std::error::Error>>(())
    /// ```
    #[must_use]
    pub fn top(&self) -> u32
        ensures { result ≡ top self.now.allocator }
    {
        self.slots.waiting()
    }

    /// Returns the number of retired slots: the entity of their last generation was freed, and they
    /// give no more handles. It takes constant time.
    ///
    /// ```
    /// use forgeni::{Entities, Limits};
    ///
    /// let mut entities = Entities::with_limits(Limits::new(100, 1).unwrap());
    /// let once = entities.alloc()?;
    /// // A slot has just one generation here.
    /// assert_eq!(entities.free(once)?.next, None);
    /// assert_eq!((entities.retired(), entities.left()), (1, 99));
    /// # Ok::<(), Box<dyn std::error::Error>>(())
    /// ```
    #[must_use]
    pub fn retired(&self) -> u32
        ensures value { result ≡ retired self.now.allocator }

        // Each slot that was made has a living occupant, waits for the next one, or is retired.
        ensures rest { set.len self.now.allocator.live + top self.now.allocator + result
            ≡ self.now.allocator.made }
    {
        self.total() - self.slots.live() - self.slots.waiting()
    }

    /// Returns the cursor: the number that each request lowers by its count. It is `top` if nothing
    /// was requested since the last flush; below 0 it counts fresh slots.
    ///
    /// ```
    /// use forgeni::Entities;
    ///
    /// let mut entities = Entities::new();
    /// let old = entities.alloc()?;
    /// entities.free(old)?;
    /// assert_eq!(entities.cursor(), 1);
    /// // One old slot, and two new ones.
    /// entities.request_many(3)?;
    /// assert_eq!(entities.cursor(), -2);
    /// # Ok::<(), Box<dyn std::error::Error>>(())
    /// ```
    #[must_use]
    pub fn cursor(&self) -> i64
        ensures value { result ≡ cursor self.now.allocator }

        // What is true of every state, as that no slot has two handles among the living and those
        // to be given.
        ensures sound { IsSound self.now.allocator }
        ensures rows_of_living { HasRowsOfLiving self.now }
    {
        self.slots.top() - self.asked() as i64
    }

    /// Returns the number of handles that were requested since the last flush, whether served or
    /// refused. It is at most 2^50.
    ///
    /// ```
    /// use forgeni::{Entities, Limits};
    ///
    /// let mut entities = Entities::with_limits(Limits::new(5, 1).unwrap());
    /// entities.request_many(4)?;
    /// assert!(entities.request_many(4).is_err());
    /// assert_eq!((entities.asked(), entities.reserved()), (8, 4));
    /// # Ok::<(), Box<dyn std::error::Error>>(())
    /// ```
    #[must_use]
    pub fn asked(&self) -> u64
        ensures value { result ≡ self.now.allocator.asked }
        ensures within { result ≤ 2 ^ 50 }
    {
        self.requests.asked
    }

    /// Returns `true` if any handle was requested since the last flush.
    ///
    /// ```
    /// use forgeni::Entities;
    ///
    /// let mut entities = Entities::new();
    /// entities.request()?;
    /// if entities.needs_flush() {
    ///     entities.flush(&mut Vec::new())?;
    /// }
    /// assert_eq!(entities.alloc()?.index(), 1);
    /// # Ok::<(), Box<dyn std::error::Error>>(())
    /// ```
    #[must_use]
    pub fn needs_flush(&self) -> bool
        ensures { IsTrue result ↔ (0 < self.now.allocator.asked) }
    {
        self.asked() > 0
    }

    /// Returns the number of handles that the next flush brings to life.
    ///
    /// ```
    /// use forgeni::Entities;
    ///
    /// let mut entities = Entities::new();
    /// entities.request_many(40)?;
    /// // So the flush doesn't allocate for its list.
    /// let mut born = Vec::with_capacity(entities.reserved() as usize);
    /// entities.flush(&mut born)?;
    /// assert_eq!((born.len(), entities.reserved()), (40, 0));
    /// # Ok::<(), Box<dyn std::error::Error>>(())
    /// ```
    #[must_use]
    pub fn reserved(&self) -> u32
        ensures { result ≡ length self.now.allocator.taken }
    {
        self.requests.served
    }

    /// Returns a new handle, which is alive at once: the next one of the slot that was freed last,
    /// or the first one of a new slot if none waits. It takes constant time.
    ///
    /// ```
    /// use forgeni::Entities;
    ///
    /// let mut entities = Entities::new();
    /// let player = entities.alloc()?;
    /// assert_eq!((player.to_string(), entities.len()), ("0v1".to_owned(), 1));
    /// # Ok::<(), forgeni::AllocError>(())
    /// ```
    ///
    /// # Errors
    ///
    /// In each case nothing has changed.
    ///
    /// - [`AllocError::NeedsFlush`](AllocFault::NeedsFlush) if handles were requested since the
    ///   last flush, even if the request was refused.
    /// - [`AllocError::Space`](AllocFault::Space) if every slot has a living entity or is retired.
    /// - [`AllocError::Memory`](AllocFault::Memory) if there isn't enough memory for a new slot. It
    ///   is never returned if an old slot waits.
    // Not inlined, its result goes through memory.
    #[inline(always)]
    pub fn alloc(&mut self) -> Result<Handle, AllocFault>
        ensures front { IfOk result (λ h. slice_get self.old.allocator.pool 0 ≡ Some h) }
        ensures within { IfOk result (IsWithin self.old.allocator.limits) }
        ensures ok { IfOk result (λ h. self.new.allocator ≡ after_alloc self.old.allocator h) }
        ensures rows { self.new.rows ≡ self.old.rows }
        ensures no_row { IfOk result (λ h. map.get self.new.rows h ≡ None) }
        ensures rows_of_living { HasRowsOfLiving self.new }
        ensures needs_flush { IsErrOf result AllocFault.NeedsFlush
            ↔ (0 < self.old.allocator.asked) }
        ensures space { IsErrOf result AllocFault.Space
            ↔ ((self.old.allocator.asked ≡ 0) × (self.old.allocator.pool ≡ [])) }
        ensures memory { IsErrOf result AllocFault.Memory → top self.old.allocator ≡ 0 }
        ensures err { OnErr result (self.new ≡ self.old) }
    {
        if self.needs_flush() {
            Err(AllocFault::NeedsFlush)
        } else if let Some(handle) = self.slots.reuse_last() {
            Ok(handle)
        } else if self.room() > 0 {
            Ok(self.slots.make_one()?)
        } else {
            Err(AllocFault::Space)
        }
    }

    /// Frees a living entity. Its slot is the next one to be given again, in its next generation.
    /// It takes constant time.
    ///
    /// After the last generation the slot is retired: it is never given again, and [`Freed::next`]
    /// is `None`. So no handle is ever given twice. Bevy starts again with the first generation,
    /// and warns about it.
    ///
    /// ```
    /// use forgeni::Entities;
    ///
    /// let mut entities = Entities::new();
    /// let old = entities.alloc()?;
    /// let freed = entities.free(old)?;
    /// let new = entities.alloc()?;
    /// assert_eq!(freed.next, Some(new));
    /// assert!(new.index() == old.index() && new.generation() == old.generation() + 1);
    /// assert!(entities.is_alive(new) && !entities.is_alive(old));
    /// # Ok::<(), Box<dyn std::error::Error>>(())
    /// ```
    ///
    /// # Errors
    ///
    /// In each case nothing has changed.
    ///
    /// - [`FreeError::NeedsFlush`](FreeFault::NeedsFlush) if handles were requested since the last
    ///   flush, even if the request was refused.
    /// - [`FreeError::NotAlive`](FreeFault::NotAlive) if the entity isn't alive.
    /// - [`FreeError::Memory`](FreeFault::Memory) if there isn't enough memory for one more slot
    ///   that waits. It is never returned if the slot is retired.
    // Not inlined, its result goes through memory.
    #[inline(always)]
    pub fn free(&mut self, handle: Handle) -> Result<Freed, FreeFault>
        ensures ok { OnOk result (self.new.allocator ≡ after_free self.old.allocator handle) }
        ensures row { OnOk result (self.new.rows ≡ map.remove self.old.rows handle) }
        ensures rows_of_living { HasRowsOfLiving self.new }
        ensures next { IfOk result (λ freed. freed.next ≡ next self.old.allocator.limits handle) }
        ensures lived { OnOk result (set.contains self.old.allocator.live handle ≡ true) }
        ensures needs_flush { IsErrOf result FreeFault.NeedsFlush
            ↔ (0 < self.old.allocator.asked) }
        ensures not_alive { IsErrOf result FreeFault.NotAlive
            ↔ ((self.old.allocator.asked ≡ 0)
            × (set.contains self.old.allocator.live handle ≡ false)) }

        // The slot of a handle of the last generation is retired, which takes no memory.
        ensures memory { IsErrOf result FreeFault.Memory
            → handle.generation ≢ self.old.allocator.limits.generations }
        ensures err { OnErr result (self.new ≡ self.old) }
    {
        if self.needs_flush() {
            return Err(FreeFault::NeedsFlush);
        }
        let next = self.slots.free(handle)?;
        Ok(Freed { next })
    }

    /// Brings to life what is reserved, and appends it to `out`: first the handles of new slots,
    /// then those of old ones. What a refused request passed over can be given again. If nothing is
    /// reserved, it appends nothing. It takes time for each handle that it appends, however long
    /// the list is.
    ///
    /// If the list has room for the handles and no slot is new, the call doesn't allocate. So if a
    /// list is cleared and reused, the calls eventually stop allocating.
    ///
    /// ```
    /// use forgeni::Entities;
    ///
    /// let mut entities = Entities::new();
    /// let mut born = Vec::new();
    /// for _ in 0..10 {
    ///     entities.request_many(100)?;
    ///     born.clear();
    ///     entities.flush(&mut born)?;
    ///     for &handle in &born {
    ///         entities.free(handle)?;
    ///     }
    /// }
    /// assert_eq!((born.len(), entities.total()), (100, 100));
    /// # Ok::<(), Box<dyn std::error::Error>>(())
    /// ```
    ///
    /// # Errors
    ///
    /// [`OutOfMemory`](Memory) if there isn't enough memory for new slots or for the list. Nothing
    /// has changed then, neither here nor in `out`: all memory is allocated before the first handle
    /// is appended.
    pub fn flush(&mut self, out: &mut Vec<Handle>) -> Result<(), Memory>
        ensures ok { OnOk result (self.new.allocator ≡ after_flush self.old.allocator) }
        ensures rows { self.new.rows ≡ self.old.rows }
        ensures born { OnOk result (out.new.items ≡ out.old.items ++ born self.old.allocator) }
        ensures no_rows { OnOk result
            (All (λ h. map.get self.new.rows h ≡ None) (born self.old.allocator)) }
        ensures rows_of_living { HasRowsOfLiving self.new }
        ensures err { OnErr result (self.new ≡ self.old) }
        ensures unchanged { OnErr result (out.new.items ≡ out.old.items) }
        ensures capacity { OnErr result (vec_capacity out.new ≡ vec_capacity out.old) }

        // Memory runs out only for new slots, or for a list that lacks room.
        ensures memory { OnErr result ((0 < made_at_flush self.old.allocator)
            ⊎ (vec_capacity out.old < vec_len out.old + length self.old.allocator.taken)) }
    {
        let waiting = self.slots.waiting();
        let kept = self.requests.kept(waiting);
        let fresh = self.requests.fresh(waiting);
        self.slots.bring_to_life(kept, fresh, out)?;
        self.requests = Requests::none();
        Ok(())
    }

    /// Returns the state of a handle: alive, reserved, or neither. It takes constant time.
    ///
    /// ```
    /// use forgeni::{Entities, State};
    ///
    /// let mut entities = Entities::new();
    /// let soon = entities.request()?;
    /// assert_eq!(entities.state(soon), State::Reserved);
    /// entities.flush(&mut Vec::new())?;
    /// assert_eq!(entities.state(soon), State::Alive);
    /// entities.free(soon)?;
    /// assert_eq!(entities.state(soon), State::Gone);
    /// # Ok::<(), Box<dyn std::error::Error>>(())
    /// ```
    #[must_use]
    pub fn state(&self, handle: Handle) -> State
        ensures { result ≡ state_of self.now.allocator handle }
    {
        let reserved = match self.slots.occupancy_of(handle) {
            Some(Occupancy::Alive | Occupancy::AliveWithRow { .. }) => return State::Alive,
            Some(Occupancy::Pending { position }) => {
                self.requests.kept(self.slots.waiting()) <= position as usize
            }
            Some(Occupancy::Retired) => false,
            None if self.slots.is_made(handle) => false,
            None => {
                let fresh = self.requests.fresh(self.slots.waiting());
                self.slots.is_next(handle, fresh)
            }
        };
        if reserved {
            State::Reserved
        } else {
            State::Gone
        }
    }

    /// Returns `true` if the handle is alive. It takes constant time.
    ///
    /// ```
    /// use forgeni::Entities;
    ///
    /// let mut entities = Entities::new();
    /// let target = entities.alloc()?;
    /// assert!(entities.is_alive(target));
    /// entities.free(target)?;
    /// assert!(!entities.is_alive(target));
    /// # Ok::<(), Box<dyn std::error::Error>>(())
    /// ```
    #[must_use]
    pub fn is_alive(&self, handle: Handle) -> bool
        ensures { result ≡ set.contains self.now.allocator.live handle }
    {
        self.slots.is_alive(handle)
    }

    /// Returns `true` if the entity is alive or reserved, like `contains` in Bevy and hecs. It
    /// takes constant time.
    ///
    /// ```
    /// use forgeni::Entities;
    ///
    /// let mut entities = Entities::new();
    /// let soon = entities.request()?;
    /// assert!(entities.contains(soon) && !entities.is_alive(soon));
    /// entities.flush(&mut Vec::new())?;
    /// assert!(entities.contains(soon) && entities.is_alive(soon));
    /// # Ok::<(), Box<dyn std::error::Error>>(())
    /// ```
    #[must_use]
    pub fn contains(&self, handle: Handle) -> bool
        ensures { result ≡ (set.contains self.now.allocator.live handle
            || stands_in self.now.allocator.taken handle) }
    {
        match self.state(handle) {
            State::Alive | State::Reserved => true,
            State::Gone => false,
        }
    }

    /// Returns an iterator over the handles of the living entities, in slot order. It doesn't
    /// allocate, and takes time for each slot.
    ///
    /// ```
    /// use forgeni::Entities;
    ///
    /// let mut entities = Entities::new();
    /// let all = entities.alloc_many(3)?;
    /// entities.free(all[1])?;
    /// assert!(entities.iter().eq([all[0], all[2]]));
    /// # Ok::<(), Box<dyn std::error::Error>>(())
    /// ```
    pub fn iter(&self) -> Living<'_>
        ensures living { set.from_list result ≡ self.now.allocator.live }
        ensures rising { AllPairs (λ g h. g.index < h.index) result }
        ensures count { length result ≡ set.len self.now.allocator.live }
    {
        self.slots.occupants()
    }

    /// Returns the place of a handle among those that could be given at the last flush, counted
    /// from 0 in the order in which they are given. Requests don't change it. `None` if it isn't
    /// among them. It takes constant time.
    ///
    /// ```
    /// use forgeni::Entities;
    ///
    /// let mut entities = Entities::new();
    /// let old = entities.alloc_many(2)?;
    /// let first = entities.free(old[0])?.next.ok_or("it is retired")?;
    /// let second = entities.free(old[1])?.next.ok_or("it is retired")?;
    /// // The slot that was freed last is given first.
    /// assert_eq!((entities.place(second), entities.place(first)), (Some(0), Some(1)));
    /// # Ok::<(), Box<dyn std::error::Error>>(())
    /// ```
    #[must_use]
    pub fn place(&self, handle: Handle) -> Option<u32>
        ensures found { IfSome result (λ place.
            slice_get (available self.now.allocator) place ≡ Some handle) }
        ensures none { IfNone result (stands_in (available self.now.allocator) handle ≡ false) }
    {
        let waiting = self.slots.waiting();
        match self.slots.occupancy_of(handle) {
            Some(Occupancy::Pending { position }) => Some(waiting - 1 - position),
            Some(Occupancy::Alive) => None,
            Some(Occupancy::AliveWithRow { .. }) => None,
            Some(Occupancy::Retired) => None,
            None if self.slots.is_made(handle) => None,
            None if self.slots.is_next(handle, self.room()) => {
                Some(waiting + (handle.index() - self.slots.made()))
            }
            None => None,
        }
    }

    /// Returns the row of a living entity: a number that a program keeps with it, such as the place
    /// of its components. `None` if the handle isn't alive, or if no row was set since it came to
    /// life. It takes constant time.
    ///
    /// ```
    /// use forgeni::Entities;
    ///
    /// let mut entities = Entities::new();
    /// let (cart, horse) = (entities.alloc()?, entities.alloc()?);
    /// let mut wheels = vec![];
    /// entities.try_set_row(cart, wheels.len() as u32)?;
    /// wheels.push(4);
    /// // An engine's own table, by the row that it keeps with the entity.
    /// assert_eq!(entities.row(cart).map(|row| wheels[row as usize]), Some(4));
    /// assert_eq!(entities.row(horse), None);
    /// # Ok::<(), Box<dyn std::error::Error>>(())
    /// ```
    #[must_use]
    pub fn row(&self, handle: Handle) -> Option<u32>
        ensures value { result ≡ map.get self.now.rows handle }
        ensures alive { OnSome result (set.contains self.now.allocator.live handle ≡ true) }
    {
        self.slots.row(handle)
    }

    /// Keeps a row with a living entity until the entity is freed. It takes the place of the row
    /// that was set before.
    pub fn set_row(&mut self, handle: Handle, row: u32)
        requires { set.contains self.old.allocator.live handle ≡ true }
        ensures row { self.new.rows ≡ map.insert self.old.rows handle row }
        ensures rows_of_living { HasRowsOfLiving self.new }
        ensures allocator { self.new.allocator ≡ self.old.allocator }
    {
        self.slots.set_row(handle, row);
    }

    /// Sets the row of a living entity, in place of the one that it had. The entity keeps it until
    /// it is freed. It takes constant time and doesn't allocate.
    ///
    /// ```
    /// use forgeni::{Absent, Entities};
    ///
    /// let mut entities = Entities::new();
    /// let one = entities.alloc()?;
    /// entities.try_set_row(one, 7)?;
    /// assert_eq!(entities.row(one), Some(7));
    /// entities.free(one)?;
    /// assert_eq!(entities.row(one), None);
    /// assert_eq!(entities.try_set_row(one, 8), Err(Absent));
    /// # Ok::<(), Box<dyn std::error::Error>>(())
    /// ```
    ///
    /// # Errors
    ///
    /// [`Absent`] if the handle isn't alive. Nothing has changed then.
    pub fn try_set_row(&mut self, handle: Handle, row: u32) -> Result<(), Absent>
        ensures row { OnOk result (self.new.rows ≡ map.insert self.old.rows handle row) }
        ensures lives { OnOk result (set.contains self.old.allocator.live handle ≡ true) }
        ensures absent { OnErr result (set.contains self.old.allocator.live handle ≡ false) }
        ensures unchanged { OnErr result (self.new ≡ self.old) }
        ensures allocator { self.new.allocator ≡ self.old.allocator }
        ensures rows_of_living { HasRowsOfLiving self.new }
    {
        if self.slots.is_alive(handle) {
            self.set_row(handle, row);
            Ok(())
        } else {
            Err(Absent)
        }
    }
}
