ghost use Rattle.std.specs.Prelude.{◌≡◌, ◌↔◌, [], ◌∷◌, ◌++◌, length, IsTrue};
ghost use Rattle.std.specs.Prelude.{Result, IfOk, IfErr, OnOk, OnErr, IsErrOf};
ghost use Rattle.std.specs.Vec.Iter.{into_iter_items};
ghost use Rattle.ent_handle.specs.Handle.{Handle as HandleValue};
ghost use Rattle.ent_alloc.specs.Sequential.{listed_alone};
ghost use Rattle.ent_alloc.specs.declared.refused.Refused.{Refused as Refusal};
ghost use Rattle.ent_log.specs.declared.entry.Entry.TheVariants.{Spawn, Command};
ghost use Rattle.ent_log.specs.Logs.{first_unreserved, refused_in, spawned_in};
ghost use Rattle.ent_log.specs.Spawning.{refused_by, returned};

use crate::entry::Entry;
use crate::reserves::Reserves;
use ent_alloc::{Entities, ReserveError, Source, State};
use ent_handle::{Handle, Memory};
use std::alloc::Global;
use std::fmt;
use std::marker::Model;
use std::vec::IntoIter;

/// The spawns and commands of one system, in the order of issue. `C` is the caller's type of
/// commands.
///
/// A [`SyncPoint`](crate::SyncPoint) brings to life what was spawned, and passes on the entries. A
/// log can go to another thread. If a worker runs several systems, each has a log.
///
/// ```
/// use forgeni::{Entities, Log};
///
/// let mut entities = Entities::new();
/// let mut logs = vec![Log::new(), Log::new()];
/// entities.phase(2, |_, reservers| {
///     std::thread::scope(|scope| {
///         for (log, reserver) in logs.iter_mut().zip(reservers) {
///             scope.spawn(|| {
///                 let cart = log.spawn(reserver)?;
///                 log.push((cart, "cart"))?;
///                 Ok::<(), forgeni::ReserveError>(())
///             });
///         }
///     });
/// })?;
/// assert!(logs.iter().all(|log| log.len() == 2 && log.refused() == 0));
/// # Ok::<(), Box<dyn std::error::Error>>(())
/// ```
#[must_use]
#[derive(Drop)]
pub struct Log<C> {
    entries: Vec<Entry<C>>,
}

impl<C> Model for Log<C> {
    ghost use Rattle.std.specs.Prelude.{List};
    ghost use Rattle.ent_log.specs.declared.entry.Entry.{Entry};

    ghost Value = { List (Entry C) };

    ghost view = { λ l. l.entries.items };
}

impl<C> Log<C> {
    /// Creates a log without entries. It doesn't allocate.
    ///
    /// ```
    /// use forgeni::Log;
    ///
    /// // One for each system.
    /// let mut logs: Vec<Log<String>> = (0..8).map(|_| Log::new()).collect();
    /// logs[3].push("despawn".into())?;
    /// assert_eq!(logs.iter().map(|log| log.len()).sum::<usize>(), 1);
    /// # Ok::<(), Box<dyn std::error::Error>>(())
    /// ```
    #[must_use]
    pub fn new(alloc: Global) -> Self
        ensures { result ≡ [] }
    {
        Log {
            entries: Vec::new(alloc),
        }
    }

    /// Returns the entries, in the order of issue.
    ///
    /// ```
    /// use forgeni::{Entry, Log};
    ///
    /// let mut log = Log::new();
    /// log.push("aim")?;
    /// log.push("fire")?;
    /// let said = log.entries().iter().filter_map(|it| match it {
    ///     Entry::Command(word) => Some(*word),
    ///     _ => None,
    /// });
    /// assert_eq!(said.collect::<Vec<_>>(), ["aim", "fire"]);
    /// # Ok::<(), Box<dyn std::error::Error>>(())
    /// ```
    #[must_use]
    pub fn entries(&self) -> &[Entry<C>]
        ensures { result.now ≡ self.now }
    {
        &self.entries
    }

    /// Returns the number of entries.
    ///
    /// ```
    /// use forgeni::Log;
    ///
    /// let mut log = Log::new();
    /// log.push('a')?;
    /// log.push('b')?;
    /// assert_eq!(log.len(), 2);
    /// # Ok::<(), Box<dyn std::error::Error>>(())
    /// ```
    #[must_use]
    pub fn len(&self) -> usize
        ensures { result ≡ length self.now }
    {
        self.entries.len()
    }

    /// Returns `true` if there are no entries.
    ///
    /// ```
    /// use forgeni::Log;
    ///
    /// // A frame in which nothing happened needs no sync point.
    /// let logs = [Log::<String>::new(), Log::new()];
    /// assert!(logs.iter().all(|log| log.is_empty()));
    /// ```
    #[must_use]
    pub fn is_empty(&self) -> bool
        ensures { IsTrue result ↔ (self.now ≡ []) }
    {
        self.entries.is_empty()
    }

    /// Returns the number of its spawns that were refused.
    ///
    /// ```
    /// use forgeni::{Entities, Limits, Log};
    ///
    /// let entities = Entities::with_limits(Limits::new(2, 1).unwrap());
    /// let (_shared, mut reservers) = entities.share(1)?;
    /// let mut log: Log<()> = Log::new();
    /// for _ in 0..5 {
    ///     let _handle = log.spawn(&mut reservers[0]);
    /// }
    /// assert_eq!((log.len(), log.refused()), (5, 3));
    /// # Ok::<(), Box<dyn std::error::Error>>(())
    /// ```
    #[must_use]
    pub fn refused(&self) -> usize
        ensures { result ≡ length (refused_in self.now) }
    {
        let mut refused = 0;
        let mut rest = self.entries.as_slice();
        while let Some((entry, behind)) = rest.split_first() {
            if let Entry::Refused(_) = entry {
                refused += 1;
            }
            rest = behind;
        }
        refused
    }

    /// Reserves a handle at once, and adds its entry, or that of the refusal. Room for the entry is
    /// allocated first, so each reservation has one.
    ///
    /// ```
    /// use forgeni::{Entities, Entry, Log};
    ///
    /// let (shared, mut reservers) = Entities::new().share(1)?;
    /// let mut log: Log<()> = Log::new();
    /// let cart = log.spawn(&mut reservers[0])?;
    /// assert_eq!(log.entries(), [Entry::Spawn(cart)]);
    /// assert_eq!(log.refused(), 0);
    /// # drop(shared);
    /// # Ok::<(), Box<dyn std::error::Error + Send + Sync>>(())
    /// ```
    ///
    /// # Errors
    ///
    /// - [`ReserveError::Memory`] if there is no room for the entry. The log is as it was, and
    ///   nothing was reserved.
    /// - [`ReserveError::Space`] and [`ReserveError::Quota`] as the reservation returns them. The
    ///   log has an entry for the [refusal](Entry::Refused), which the sync point passes on in its
    ///   turn. [`ReserveError::or_memory`] lets the system go on.
    pub fn spawn<S: Reserves>(&mut self, source: &mut S) -> Result<Handle, ReserveError>
        ensures ok { IfOk result (λ handle. self.new ≡ self.old ++ Spawn handle ∷ []) }
        ensures refused { IfErr result (λ error. self.new ≡ self.old ++ refused_by error) }

        // Anything but Memory is the result of one reservation.
        ensures replies { (reply : Result HandleValue Refusal) → result ≡ returned reply
            → S.may_reserve source.old reply source.new }
        ensures memory { IsErrOf result ReserveError.Memory → source.new ≡ source.old }
    {
        self.entries.reserve(1)?;
        match source.reserve_one() {
            Ok(handle) => {
                self.entries.push_reserved(Entry::Spawn(handle));
                Ok(handle)
            }
            Err(why) => {
                self.entries.push_reserved(Entry::Refused(why));
                Err(ReserveError::from(why))
            }
        }
    }

    /// Reserves a handle at once, of a source that serves this reserver, and adds its entry, or
    /// that of the refusal. Room for the entry is allocated first, so each reservation has one.
    ///
    /// # Errors
    ///
    /// - [`ReserveError::Memory`] if there is no room for the entry. The log is as it was, and
    ///   nothing was reserved.
    /// - [`ReserveError::Space`] and [`ReserveError::Quota`] as the source returns them. The log
    ///   has an entry for the [refusal](Entry::Refused), which the sync point passes on in its
    ///   turn.
    pub fn spawn_from<S: Source>(
        &mut self,
        source: &S,
        reserver: &mut S::Reserver,
    ) -> Result<Handle, ReserveError>
        requires { S.serves source.now reserver.old }
        ensures stays { S.serves source.now reserver.new }
        ensures ok { IfOk result (λ handle. self.new ≡ self.old ++ Spawn handle ∷ []) }
        ensures refused { IfErr result (λ error. self.new ≡ self.old ++ refused_by error) }

        // Anything but Memory is the result of one reservation.
        ensures replies { (reply : Result HandleValue Refusal) → result ≡ returned reply
            → S.may_reply source.now reserver.old reserver.new 1 (listed_alone reply) }
        ensures memory { IsErrOf result ReserveError.Memory → reserver.new ≡ reserver.old }
    {
        self.entries.reserve(1)?;
        match source.serve_one(reserver) {
            Ok(handle) => {
                self.entries.push_reserved(Entry::Spawn(handle));
                Ok(handle)
            }
            Err(why) => {
                self.entries.push_reserved(Entry::Refused(why));
                Err(ReserveError::from(why))
            }
        }
    }

    /// The entries, to be removed one by one.
    pub(crate) fn into_entries(self) -> IntoIter<Entry<C>, Global>
        ensures { into_iter_items result ≡ self }
    {
        self.entries.into_iter()
    }

    /// The first handle of a spawn that isn't reserved.
    pub(crate) fn unreserved(&self, entities: &Entities) -> Option<Handle>
        ensures { result ≡ first_unreserved entities.now.allocator (spawned_in self.now) }
    {
        let mut rest = self.entries.as_slice();
        while let Some((entry, behind)) = rest.split_first() {
            if let Entry::Spawn(handle) = entry {
                if entities.state(*handle) != State::Reserved {
                    return Some(*handle);
                }
            }
            rest = behind;
        }
        None
    }
}

impl<C: Drop> Log<C> {
    /// Adds a command, which the sync point passes on in its turn.
    ///
    /// ```
    /// use forgeni::{Handle, Log};
    ///
    /// enum Command {
    ///     Heal(Handle, u32),
    ///     Despawn(Handle),
    /// }
    ///
    /// let oak = "0v1".parse()?;
    /// let mut log = Log::new();
    /// log.push(Command::Heal(oak, 20))?;
    /// log.push(Command::Despawn(oak))?;
    /// assert_eq!(log.len(), 2);
    /// # Ok::<(), Box<dyn std::error::Error>>(())
    /// ```
    ///
    /// # Errors
    ///
    /// [`OutOfMemory`](Memory) if there is no room for it. The log is as it was, and the command is
    /// dropped.
    pub fn push(&mut self, command: C) -> Result<(), Memory>
        ensures ok { OnOk result (self.new ≡ self.old ++ Command command ∷ []) }
        ensures err { OnErr result (self.new ≡ self.old) }
    {
        self.entries.reserve(1)?;
        self.entries.push_reserved(Entry::Command(command));
        Ok(())
    }

    /// Drops all entries, and keeps their room. So adding as many entries again doesn't allocate.
    ///
    /// ```
    /// use forgeni::Log;
    ///
    /// let mut log = Log::new();
    /// for frame in 0..3 {
    ///     // From the second frame on it doesn't allocate.
    ///     log.clear();
    ///     log.push(frame)?;
    /// }
    /// assert_eq!(log.len(), 1);
    /// # Ok::<(), Box<dyn std::error::Error>>(())
    /// ```
    pub fn clear(&mut self)
        ensures { self.new ≡ [] }
    {
        self.entries.clear();
    }
}

/// Its entries.
impl<C: fmt::Debug> fmt::Debug for Log<C> {
    fn fmt<W: fmt::Write>(&self, f: &mut fmt::Formatter<W>) -> fmt::Result {
        let entries = self.entries();
        write!(f, "{entries:?}")
    }
}
