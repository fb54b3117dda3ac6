ghost use Rattle.std.specs.Prelude.{◌≡◌, ◌⊎◌, ◌+◌, ◌<◌, [], ◌∷◌, ◌++◌, length, All};
ghost use Rattle.std.specs.Prelude.{None, IfOk, IfErr, OnOk, OnErr, IfSome, IfNone};
ghost use Rattle.std.specs.Prelude.{vec_len, vec_capacity};
ghost use Rattle.ent_alloc.specs.Sequential.{after_flush, born, made_at_flush};
ghost use Rattle.ent_alloc.specs.Sound.{IsLive};
ghost use Rattle.ent_log.specs.Beginning.{unreserved_of};
ghost use Rattle.ent_log.specs.declared.begin_error.BeginError.TheVariants.{Memory as NoMemory};
ghost use Rattle.ent_log.specs.HandingOn.{TakesAll, FailsAt};
ghost use Rattle.ent_log.specs.Logs.{entries_of, spawned_in, first_unreserved};

use crate::begin_error::BeginError;
use crate::entry::Entry;
use crate::handing::hand_on;
use crate::log::Log;
use crate::rest::Rest;
use ent_alloc::Entities;
use ent_handle::{Handle, Memory};
use std::alloc::Global;
use std::marker::Model;
use std::mem;

/// A sync point of logs: the entries that are still to be passed on.
///
/// [`begin`](Self::begin) brings to life what is reserved, and [`apply`](Self::apply) passes on the
/// entries. It doesn't own the allocator, so the allocator isn't lost if a caller returns early.
/// The entries that are left are dropped then.
///
/// ```
/// use forgeni::{Entities, Entry, FreeError, Handle, HandleMap, Log, SyncPoint};
///
/// enum Command {
///     Name(Handle, String),
///     Despawn(Handle),
/// }
///
/// let mut entities = Entities::new();
/// let mut names = HandleMap::new();
/// let old = entities.alloc()?;
///
/// // Two systems, on one thread or on two: each has a log of its own.
/// let mut logs = vec![Log::new(), Log::new()];
/// entities.phase(2, |_, reservers| {
///     for (reserver, log) in reservers.iter_mut().zip(&mut logs) {
///         let cart = log.spawn(reserver)?;
///         log.push(Command::Name(cart, format!("cart {}", reserver.number())))?;
///     }
///     logs[1].push(Command::Despawn(old))?;
///     Ok::<(), forgeni::ReserveError>(())
/// })??;
///
/// let (mut born, mut refused) = (Vec::new(), 0);
/// let mut sync = SyncPoint::begin(&mut entities, &mut logs, &mut born)?;
/// sync.apply(&mut entities, |entities, entry| match entry {
///     Entry::Spawn(cart) => {
///         assert!(entities.is_alive(cart));
///         Ok(())
///     }
///     Entry::Refused(_) => {
///         refused += 1;
///         Ok(())
///     }
///     Entry::Command(Command::Name(cart, name)) => {
///         names.insert(cart, name).expect("memory");
///         Ok(())
///     }
///     Entry::Command(Command::Despawn(gone)) => match entities.free(gone) {
///         Ok(_) => Ok(()),
///         // The command comes back, and with it all that are behind it.
///         Err(error) => Err((entry, error)),
///     },
/// })?;
/// assert_eq!((born.len(), refused, entities.len()), (2, 0, 2));
/// assert_eq!(names[born[1]], "cart 1");
/// # Ok::<(), Box<dyn std::error::Error>>(())
/// ```
#[must_use]
#[derive(Drop)]
pub struct SyncPoint<C> {
    /// The entry that a closure handed back.
    front: Option<Entry<C>>,
    rest: Rest<C>,
}

impl<C> Model for SyncPoint<C> {
    ghost use Rattle.std.specs.Prelude.{List, ◌++◌};
    ghost use Rattle.std.specs.Option.{option_to_list};
    ghost use Rattle.ent_log.specs.declared.entry.Entry.{Entry};

    ghost Value = { List (Entry C) };

    ghost view = { λ p. option_to_list p.front ++ p.rest };
}

impl<C: Drop> SyncPoint<C> {
    /// Brings to life all that is reserved, and appends it to `out`, as
    /// [`flush`](Entities::flush) does. The sync point has the entries of these logs, one log after
    /// the other, and the list of logs is empty then. What a log reserved that isn't among them
    /// comes to life too.
    ///
    /// It tests each spawn of the logs: its handle has to be reserved in this allocator. So when
    /// the first entry is passed on, each of these handles is alive.
    ///
    /// ```
    /// use forgeni::{Entities, Log, SyncPoint};
    ///
    /// let mut entities = Entities::new();
    /// let mut logs: Vec<Log<()>> = vec![Log::new(), Log::new()];
    /// let cart = entities.phase(2, |_, reservers| logs[1].spawn(&mut reservers[1]))??;
    /// let mut born = Vec::new();
    /// let _sync = SyncPoint::begin(&mut entities, &mut logs, &mut born)?;
    /// assert_eq!((born, logs.len()), (vec![cart], 0));
    /// assert!(entities.is_alive(cart));
    /// # Ok::<(), Box<dyn std::error::Error>>(())
    /// ```
    ///
    /// # Errors
    ///
    /// The list has its logs, and nothing has changed.
    ///
    /// - [`BeginError::NotReserved`] if the handle of a spawn isn't reserved.
    /// - [`BeginError::Memory`] if there isn't enough memory for what is born.
    pub fn begin(
        alloc: Global,
        entities: &mut Entities,
        logs: &mut Vec<Log<C>>,
        out: &mut Vec<Handle>,
    ) -> Result<Self, BeginError>
        ensures entries { IfOk result (λ point. point ≡ entries_of logs.old.items) }
        ensures emptied { OnOk result (logs.new.items ≡ []) }
        ensures flushed { OnOk result
            (entities.new.allocator ≡ after_flush entities.old.allocator) }
        ensures rows { entities.new.rows ≡ entities.old.rows }
        ensures born { OnOk result
            (out.new.items ≡ out.old.items ++ born entities.old.allocator) }
        ensures alive { OnOk result
            (All (IsLive entities.new.allocator) (spawned_in (entries_of logs.old.items))) }

        // Each handle of a spawn is reserved, or the error says which is the first that isn't.
        ensures reserved { OnOk result (first_unreserved entities.old.allocator
            (spawned_in (entries_of logs.old.items)) ≡ None) }
        ensures not_reserved { IfErr result (λ error. unreserved_of error
            ≡ first_unreserved entities.old.allocator (spawned_in (entries_of logs.old.items))) }
        ensures memory { IfErr result (λ error. error ≡ NoMemory
            → (0 < made_at_flush entities.old.allocator)
            ⊎ (vec_capacity out.old < vec_len out.old + length entities.old.allocator.taken)) }
        ensures kept { OnErr result (logs.new.items ≡ logs.old.items) }
        ensures err { OnErr result (entities.new ≡ entities.old) }
        ensures unchanged { OnErr result (out.new.items ≡ out.old.items) }
    {
        if let Some(handle) = unreserved(entities, logs) {
            return Err(BeginError::NotReserved { handle });
        }
        match SyncPoint::begin_reserved(alloc, entities, logs, out) {
            Ok(point) => Ok(point),
            Err(Memory) => Err(BeginError::Memory),
        }
    }

    /// As [`begin`](Self::begin), for logs all of whose spawns are reserved in the allocator. It
    /// tests none of them.
    ///
    /// # Errors
    ///
    /// [`OutOfMemory`](Memory) if there isn't enough memory for what is born. Nothing has changed.
    pub fn begin_reserved(
        alloc: Global,
        entities: &mut Entities,
        logs: &mut Vec<Log<C>>,
        out: &mut Vec<Handle>,
    ) -> Result<Self, Memory>
        requires reserved { first_unreserved entities.old.allocator
            (spawned_in (entries_of logs.old.items)) ≡ None }
        ensures entries { IfOk result (λ point. point ≡ entries_of logs.old.items) }
        ensures emptied { OnOk result (logs.new.items ≡ []) }
        ensures flushed { OnOk result
            (entities.new.allocator ≡ after_flush entities.old.allocator) }
        ensures rows { entities.new.rows ≡ entities.old.rows }
        ensures born { OnOk result
            (out.new.items ≡ out.old.items ++ born entities.old.allocator) }
        ensures alive { OnOk result
            (All (IsLive entities.new.allocator) (spawned_in (entries_of logs.old.items))) }
        ensures memory { OnErr result ((0 < made_at_flush entities.old.allocator)
            ⊎ (vec_capacity out.old < vec_len out.old + length entities.old.allocator.taken)) }
        ensures kept { OnErr result (logs.new.items ≡ logs.old.items) }
        ensures err { OnErr result (entities.new ≡ entities.old) }
        ensures unchanged { OnErr result (out.new.items ≡ out.old.items) }
    {
        entities.flush(out)?;
        Ok(SyncPoint {
            front: None,
            rest: Rest::of(alloc, mem::replace(logs, Vec::new(alloc))),
        })
    }

    /// Calls `run` with each entry in turn, and with the allocator, so that a command can free
    /// entities.
    ///
    /// `run` hands an entry back with its error. That entry is then the first one that is left, and
    /// the next call begins with it. [`take_next`](Self::take_next) removes it instead.
    ///
    /// ```
    /// use forgeni::{Entities, Entry, HandleMap, Log, SyncPoint};
    ///
    /// let (mut entities, mut names) = (Entities::new(), HandleMap::new());
    /// let cart = entities.alloc()?;
    /// let mut log = Log::new();
    /// log.push((cart, String::from("cart")))?;
    /// let mut sync = SyncPoint::begin(&mut entities, &mut vec![log], &mut Vec::new())?;
    /// sync.apply(&mut entities, |_entities, entry| match entry {
    ///     Entry::Command((one, name)) => match names.insert(one, name) {
    ///         Ok(_) => Ok(()),
    ///         // The name is back, and the entry is whole again.
    ///         Err(refused) => {
    ///             let (name, error) = refused.into_parts();
    ///             Err((Entry::Command((one, name)), error))
    ///         }
    ///     },
    ///     _spawned_or_refused => Ok(()),
    /// })?;
    /// assert_eq!(names[cart], "cart");
    /// # Ok::<(), Box<dyn std::error::Error>>(())
    /// ```
    ///
    /// # Errors
    ///
    /// That of `run`. It was called with the entries before that one, and not with those after it,
    /// which are left.
    ///
    /// # Panics
    ///
    /// A panic in `run` is propagated. The entry on which it panicked is lost, and those after it
    /// are left.
    pub fn apply<E: Drop, F: FnMut(&mut Entities, Entry<C>) -> Result<(), (Entry<C>, E)>>(
        &mut self,
        entities: &mut Entities,
        run: F,
    ) -> Result<(), E>
        requires { F.IsAlwaysCallable run }
        ensures all { OnOk result
            (TakesAll F.step run entities.old self.old entities.new) }
        ensures done { OnOk result (self.new ≡ []) }
        ensures fails { IfErr result (λ error.
            FailsAt F.step run entities.old self.old error self.new entities.new) }
    {
        hand_on(&mut self.front, &mut self.rest, entities, run)
    }

    /// Removes the next entry, and returns it: the one that a closure handed back, or the first
    /// that it wasn't called with. `None` if none is left.
    ///
    /// ```
    /// use forgeni::{Entities, Entry, Log, SyncPoint};
    ///
    /// let mut entities = Entities::new();
    /// let mut log = Log::new();
    /// for command in ["walk", "fly", "swim"] {
    ///     log.push(command)?;
    /// }
    /// let mut sync = SyncPoint::begin(&mut entities, &mut vec![log], &mut Vec::new())?;
    /// let mut done = Vec::new();
    /// let mut run = |_: &mut Entities, entry| match entry {
    ///     Entry::Command("fly") => Err((entry, "nobody can fly")),
    ///     entry => Ok(done.push(entry)),
    /// };
    /// while sync.apply(&mut entities, &mut run).is_err() {
    ///     assert_eq!(sync.take_next(), Some(Entry::Command("fly")));
    /// }
    /// assert_eq!(done.len(), 2);
    /// # Ok::<(), Box<dyn std::error::Error>>(())
    /// ```
    pub fn take_next(&mut self) -> Option<Entry<C>>
        ensures first { IfSome result (λ entry. self.old ≡ entry ∷ self.new) }
        ensures none { IfNone result (self.old ≡ []) }
        ensures done { IfNone result (self.new ≡ []) }
    {
        match self.front.take() {
            Some(entry) => Some(entry),
            None => self.rest.take_next(),
        }
    }
}

/// The first handle of a spawn of these logs that isn't reserved.
fn unreserved<C>(entities: &Entities, logs: &[Log<C>]) -> Option<Handle>
    ensures { result
        ≡ first_unreserved entities.now.allocator (spawned_in (entries_of logs.now)) }
{
    let mut rest = logs;
    while let Some((log, behind)) = rest.split_first() {
        if let Some(handle) = log.unreserved(entities) {
            return Some(handle);
        }
        rest = behind;
    }
    None
}
