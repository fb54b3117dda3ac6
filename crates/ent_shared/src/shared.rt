ghost use Rattle.std.specs.Prelude.{◌≡◌, ◌≢◌, ◌↔◌, ◌⊎◌, ◌+◌, ◌*◌, ◌<◌, ◌≤◌, ◌≤ℤ◌, ◌<ℤ◌};
ghost use Rattle.std.specs.Prelude.{[], ◌∷◌, ◌++◌, length, sum_by, All, AllPairs, Contains};
ghost use Rattle.std.specs.Prelude.{Ok, Err, IfOk, OnOk, OnErr, OnSome, IsTrue, true};
ghost use Rattle.std.specs.FinSet as set;
ghost use Rattle.std.specs.FinMap as map;
ghost use Rattle.ent_handle.specs.Handle.{Handle as HandleValue};
ghost use Rattle.ent_alloc.specs.Limits.{quota};
ghost use Rattle.ent_alloc.specs.Sequential.{cursor, after_flush};
ghost use Rattle.ent_alloc.specs.History.{IsLegal, after_history, given_in};
ghost use Rattle.ent_alloc.specs.Sound.{IsLive};
ghost use Rattle.ent_alloc.specs.Entities.{HasRowsOfLiving};
ghost use Rattle.ent_shared.specs.Record.{requested_by};
ghost use Rattle.ent_shared.specs.Moves.{after_meeting};
ghost use Rattle.ent_shared.specs.Phase.{IsPhase, records_of};
ghost use Rattle.ent_shared.specs.Rule.{IsClosed, least_floor};
ghost use Rattle.ent_shared.specs.Order.{reservations_of, history_of, handles_given, Respects};
ghost use Rattle.ent_shared.specs.Order.{handles_of, own_of_all};
ghost use Rattle.ent_alloc.specs.declared.refused.Refused.TheVariants.{Quota};

use crate::holders::{merge, new_holder};
use crate::reserver::Reserver;
use crate::word;
use crate::word::Word;
use ent_alloc::{Entities, Living, Refused, Reserved, Span};
use ent_handle::Handle;
use std::marker::Model;

/// An allocator that many callers reserve from at once, each with a reserver of its own.
///
/// ```
/// use forgeni::{run_logs, Entities, LogCommands, OutOfMemory, SharedSource, StdThreads};
///
/// /// A system over shared handles, as `run_logs` has them.
/// fn spawn(commands: &mut LogCommands<'_, (), SharedSource>) -> Result<(), OutOfMemory> {
///     commands.spawn().map_or_else(|refused| refused.or_memory(), |_| Ok(()))
/// }
///
/// assert_eq!(run_logs(&StdThreads, &mut Entities::new(), &[spawn; 4], 2)?.len(), 4);
/// # Ok::<(), Box<dyn std::error::Error>>(())
/// ```
#[derive(Drop)]
pub struct Shared {
    entities: Entities,
    word: Word,
    count: usize,
}

impl Model for Shared {
    ghost use Rattle.ent_shared.specs.Phase.{Shared, shared_code, IsPhase};

    ghost Value = { Shared };

    ghost coded = { shared_code };

    ghost view = { λ s. record {
      word = s.word.shared.table_id;
      start = s.entities.allocator;
      rows = s.entities.rows;
      count = s.count;
    } };

    ghost invariant = { λ s. IsPhase s.entities s.count s.word.shared.key s.word.shared.table_id };
}

impl Shared {
    pub(crate) fn new(entities: Entities, word: Word, count: usize) -> Self
        requires { IsPhase entities count word.shared.key word.shared.table_id }
        ensures { result ≡ record {
          word = word.shared.table_id;
          start = entities.allocator;
          rows = entities.rows;
          count = count;
        } }
    {
        Shared {
            entities,
            word,
            count,
        }
    }
}

impl Shared {
    ghost use Rattle.ent_shared.specs.Phase.{IsOf, IsBelow, after_loss};
    ghost use Rattle.ent_alloc.specs.Sequential.{listed_alone};
    ghost use Rattle.ent_shared.specs.Replies.{Reserves};

    /// Returns the number of reservers that `share` made for it.
    pub fn count(&self) -> usize
        ensures { result ≡ self.now.count }
    {
        self.count
    }

    /// Returns the allocator as it was when the phase was opened. It doesn't change until the
    /// close.
    pub fn opened(&self) -> &Entities
        ensures start { result.now.allocator ≡ self.now.start }
        ensures rows { result.now.rows ≡ self.now.rows }
    {
        &self.entities
    }

    /// Returns `true` if the handle was alive when the phase was opened. It takes constant time.
    pub fn is_alive(&self, handle: Handle) -> bool
        ensures { result ≡ set.contains self.now.start.live handle }
    {
        self.entities.is_alive(handle)
    }

    /// Returns the number of handles that were alive when the phase was opened.
    pub fn len(&self) -> u32
        ensures { result ≡ set.len self.now.start.live }
    {
        self.entities.len()
    }

    /// Returns `true` if no handle was alive when the phase was opened.
    pub fn is_empty(&self) -> bool
        ensures { IsTrue result ↔ (set.len self.now.start.live ≡ 0) }
    {
        self.entities.is_empty()
    }

    /// Returns an iterator over the handles that were alive when the phase was opened, in slot
    /// order.
    pub fn iter(&self) -> Living<'_>
        ensures living { set.from_list result ≡ self.now.start.live }
        ensures rising { AllPairs (λ g h. g.index < h.index) result }
        ensures count { length result ≡ set.len self.now.start.live }
    {
        self.entities.iter()
    }

    /// Returns the number of handles in the pool when the phase was opened. It never has more.
    pub fn pool(&self) -> u64
        ensures { result ≡ length self.now.start.pool }
    {
        u64::from(self.entities.top()) + u64::from(self.entities.room())
    }

    /// Returns the row that the entity had when the phase was opened, or `None` if the handle
    /// wasn't alive then, or if no row was set since it came to life. It takes constant time.
    pub fn row(&self, handle: Handle) -> Option<u32>
        ensures value { result ≡ map.get self.now.rows handle }
        ensures alive { OnSome result (set.contains self.now.start.live handle ≡ true) }
    {
        self.entities.row(handle)
    }

    /// Reserves one handle, by one atomic step. It neither allocates nor waits.
    ///
    /// The handle is what the allocator would have given to one caller at that moment.
    ///
    /// # Errors
    ///
    /// - [`Refused::Quota`] if no quota is left. Nothing has changed.
    /// - [`Refused::Space`] if the pool is empty. The request is taken from the quota all the
    ///   same.
    pub fn reserve(&self, reserver: &mut Reserver) -> Result<Handle, Refused>
        requires { IsOf self.now reserver.old }
        ensures stays { IsOf self.now reserver.new }
        ensures quota { reserver.old.own.left ≡ 0
            → (result ≡ Err (Quota 0)) × (reserver.new ≡ reserver.old) }
        ensures gains { 0 < reserver.old.own.left
            → Reserves self.now reserver.old reserver.new 1 (listed_alone result) }

        // What was given is recorded.
        ensures given { IfOk result (λ handle.
            handles_given reserver.new.own ≡ handles_given reserver.old.own ++ handle ∷ []) }
        ensures refused { OnErr result
            (handles_given reserver.new.own ≡ handles_given reserver.old.own) }
    {
        if reserver.left == 0 {
            return Err(Refused::Quota { left: 0 });
        }
        // It is read once: after the atomic step the compiler would read it again.
        let left = reserver.left - 1;
        let high = word::reserve(&self.word, &mut reserver.token, 1);
        reserver.left = left;
        let handle = self.entities.reply_one(high)?;
        reserver.floor = high - 1;
        Ok(handle)
    }

    /// Reserves `n` handles at once, by one atomic step. It neither allocates nor waits. A request
    /// for 0 makes no step and is always served.
    ///
    /// The handles are what the allocator would have given to one caller at that moment, in the
    /// order of [`Entities::reply`]. They borrow from the allocator.
    ///
    /// # Errors
    ///
    /// - [`Refused::Quota`] if `n` is above the quota that is left. Nothing has changed.
    /// - [`Refused::Space`] if the pool has fewer than `n` handles. The request is taken from the
    ///   quota all the same, and the pool gives no more until the next flush.
    pub fn reserve_many(&self, reserver: &mut Reserver, n: u32) -> Result<Reserved<'_>, Refused>
        requires { IsOf self.now reserver.old }
        ensures stays { IsOf self.now reserver.new }
        ensures quota { reserver.old.own.left < n
            → (result ≡ Err (Quota reserver.old.own.left)) × (reserver.new ≡ reserver.old) }
        ensures nothing { n ≡ 0 → (result ≡ Ok []) × (reserver.new ≡ reserver.old) }
        ensures gains { 0 < n → n ≤ reserver.old.own.left
            → Reserves self.now reserver.old reserver.new n result }
        ensures length { IfOk result (λ handles. length handles ≡ n) }
        ensures enough { OnOk result (n ≤ length self.now.start.pool) }

        // What was given is recorded.
        ensures given { IfOk result (λ handles.
            handles_given reserver.new.own ≡ handles_given reserver.old.own ++ handles) }
        ensures refused { OnErr result
            (handles_given reserver.new.own ≡ handles_given reserver.old.own) }
    {
        if u64::from(n) > reserver.left {
            return Err(Refused::Quota {
                left: reserver.left,
            });
        }
        if n == 0 {
            let top = i64::from(self.entities.top());
            let Ok(nothing) = self.entities.reply(Span::new(top, 0)) else {
                unreachable!()
            };
            return Ok(nothing);
        }
        let span = Span::new(word::reserve(&self.word, &mut reserver.token, n), n);
        reserver.left -= u64::from(n);
        let handles = self.entities.reply(span)?;
        reserver.floor = span.low;
        Ok(handles)
    }

    /// Orders two reservers: every later reservation by `a` comes after everything that `b` has
    /// reserved or learned of so far. It makes two atomic steps, and neither allocates nor waits.
    pub fn meet(&self, a: &mut Reserver, b: &mut Reserver)
        requires first { IsOf self.now a.old }
        requires second { IsOf self.now b.old }
        ensures meets { a.new ≡ record a.old { own = after_meeting a.old.own b.old.own } }
        ensures met { b.new ≡ b.old }
        ensures given { handles_given a.new.own ≡ handles_given a.old.own }
        ensures first { IsOf self.now a.new }
        ensures second { IsOf self.now b.new }

        // Every reservation that b has made or learned of ends above where a's next one may begin.
        ensures mark { IsBelow a.new.own.mark b.old.own.entries }
    {
        word::meet(&self.word, &mut a.token, &mut b.token);
    }

    /// Ends the phase with all its reservers. The allocator is as if their reservations had been
    /// made one by one, in the order of their atomic steps. It doesn't allocate.
    pub fn close(self, reservers: Vec<Reserver>) -> Entities
        requires all { length reservers.items ≡ self.count }
        requires own { All (IsOf self) reservers.items }
        ensures legal { IsLegal self.start (history_of (records_of reservers.items)) }
        ensures respects { let records = records_of reservers.items in
            All (Respects (reservations_of records)) records }
        ensures after { result.allocator
            ≡ after_history self.start (history_of (records_of reservers.items)) }
        ensures rows { result.rows ≡ self.rows }
        ensures rows_of_living { HasRowsOfLiving result }

        // Each reservation is there once, where its step came: the cursor falls with each.
        ensures falls { AllPairs (λ earlier later. later.high <ℤ earlier.high)
            (reservations_of (records_of reservers.items)) }

        // Each reserver has a number of its own.
        ensures numbers { AllPairs (λ r s. r.number ≢ s.number) (records_of reservers.items) }

        // No handle was given twice, and none was alive.
        ensures distinct { AllPairs (λ g h. g ≢ h)
            (given_in (history_of (records_of reservers.items))) }
        ensures not_live { All (λ h. ¬ (IsLive self.start h))
            (given_in (history_of (records_of reservers.items))) }

        // A flush brings to life exactly what was given.
        ensures brings_to_life { let given = given_in (history_of (records_of reservers.items)) in
            (h : HandleValue) →
            IsLive (after_flush result.allocator) h ↔ (IsLive self.start h ⊎ Contains given h) }
    {
        let Shared {
            mut entities,
            word,
            ..
        } = self;
        let (cursor, floor) = end_phase(word, i64::from(entities.top()), reservers);
        entities.settle(cursor, floor);
        entities
    }

    /// Ends the phase although some reservers may be lost. The cursor tells how many handles were
    /// requested in all, but not which of the lost reservers' requests were refused. So the front
    /// of the pool counts as reserved, as far as it goes, including handles that no caller got. It
    /// doesn't allocate.
    pub fn close_lost(self, reservers: Vec<Reserver>) -> Entities
        requires own { All (IsOf self) reservers.items }
        ensures after { result.allocator ≡ after_loss self.start result.allocator.asked }
        ensures rows { result.rows ≡ self.rows }
        ensures rows_of_living { HasRowsOfLiving result }

        // It counts what the reservers that are here have requested, and of the others no more than
        // their quota.
        ensures least { sum_by (λ r. requested_by r.own) reservers.items
            ≤ result.allocator.asked }
        ensures most { sum_by (λ r. r.own.left) reservers.items + result.allocator.asked
            ≤ self.count * quota }
        ensures reached { All (λ r. cursor result.allocator ≤ℤ r.own.mark) reservers.items }

        // If all are here, it counts what they have requested, and the cursor is where `close`
        // leaves it.
        ensures asked { length reservers.items ≡ self.count
            → sum_by (λ r. requested_by r.own) reservers.items ≡ result.allocator.asked }
        ensures whole { length reservers.items ≡ self.count
            → cursor result.allocator
            ≡ cursor (after_history self.start (history_of (records_of reservers.items))) }

        // What the reservers that are here were given is reserved. No handle was given to two of
        // them, and none was alive.
        ensures given { All (λ r. All (Contains result.allocator.taken) (handles_given r.own))
            reservers.items }
        ensures distinct { AllPairs (λ g h. g ≢ h)
            (handles_of (own_of_all (records_of reservers.items))) }
        ensures not_live { All (λ h. ¬ (IsLive self.start h)) result.allocator.taken }

        // A flush brings to life exactly what is reserved.
        ensures brings_to_life { (h : HandleValue) → IsLive (after_flush result.allocator) h
            ↔ (IsLive self.start h ⊎ Contains result.allocator.taken h) }
    {
        let Shared {
            mut entities,
            word,
            ..
        } = self;
        let (cursor, _) = end_phase(word, i64::from(entities.top()), reservers);
        let end = cursor.max(-i64::from(entities.room()));
        entities.settle(cursor, end);
        entities
    }
}

/// The cursor at the end of a phase, and the least floor of the reservers that are here.
fn end_phase(word: Word, top: i64, reservers: Vec<Reserver>) -> (i64, i64)
    requires word { (word.shared.table_id.words ≡ 1) × (word.shared.table_id.slots ≡ 0) }
    requires own { All (λ r. r.word ≡ word.shared.table_id) reservers.items }
    ensures cursor { let opening = word.shared.key in
        IsClosed opening.entities.allocator opening.count (records_of reservers.items) result.0 }
    ensures floor { result.1 ≡ least_floor top (records_of reservers.items) }
{
    let mut all = new_holder(&word);
    let mut floor = top;
    for reserver in reservers {
        floor = floor.min(reserver.floor);
        merge(&word, &mut all, reserver.token);
    }
    (word::close(word, all), floor)
}
