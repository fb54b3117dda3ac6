//! The calls of a system that fills a log.
ghost use Rattle.std.specs.Prelude.{◌≡◌, ◌++◌, ◌∷◌, [], Result, IfOk, IfErr, IsErrOf};
ghost use Rattle.std.specs.Prelude.{OnOk, OnErr};
ghost use Rattle.ent_handle.specs.Handle.{Handle as HandleValue};
ghost use Rattle.ent_alloc.specs.declared.refused.Refused.{Refused as Refusal};
ghost use Rattle.ent_alloc.specs.Sequential.{listed_alone};
ghost use Rattle.ent_log.specs.declared.entry.Entry.TheVariants.{Spawn, Command};
ghost use Rattle.ent_log.specs.Spawning.{refused_by, returned};
ghost use Rattle.ent_queue.specs.Commands.{IsReady, Extends, output_of, reserver_of, source_of};
ghost use Rattle.ent_queue.specs.Logging.{Logs};

use crate::commands::Commands;
use ent_alloc::{ReserveError, Source};
use ent_handle::{Handle, Memory};
use ent_log::{Entry, Log};
use std::fmt;

impl<C, S: Source> Commands<'_, Log<C>, S> {
    /// Returns the entries so far, in the order of issue.
    ///
    /// ```
    /// use forgeni::{run_logs, Entities, Entry, LogCommands, OutOfMemory, StdThreads};
    ///
    /// /// Two enemies are seen, but the guard shouts once.
    /// fn guard(commands: &mut LogCommands<'_, &'static str>) -> Result<(), OutOfMemory> {
    ///     for _enemy in 0..2 {
    ///         if !commands.entries().contains(&Entry::Command("halt")) {
    ///             commands.push("halt")?;
    ///         }
    ///     }
    ///     Ok(())
    /// }
    ///
    /// assert_eq!(run_logs(&StdThreads, &mut Entities::new(), &[guard], 1)?[0].len(), 1);
    /// # Ok::<(), Box<dyn std::error::Error>>(())
    /// ```
    #[must_use]
    pub fn entries(&self) -> &[Entry<C>]
        ensures { result.now ≡ output_of self.now }
    {
        self.output.entries()
    }

    /// Reserves a handle at once, and adds its entry, or that of the refusal. Room for the entry is
    /// allocated first, so each reservation has one.
    ///
    /// ```
    /// use forgeni::{run_logs, Entities, Handle, LogCommands, OutOfMemory, StdThreads};
    ///
    /// fn launch(commands: &mut LogCommands<'_, (Handle, u32)>) -> Result<(), OutOfMemory> {
    ///     match commands.spawn() {
    ///         Ok(drone) => commands.push((drone, 100)),
    ///         // The log has it, and the sync point hands it on.
    ///         Err(refused) => refused.or_memory(),
    ///     }
    /// }
    ///
    /// let logs = run_logs(&StdThreads, &mut Entities::new(), &[launch; 2], 2)?;
    /// assert!(logs.iter().all(|log| log.len() == 2 && log.refused() == 0));
    /// # Ok::<(), Box<dyn std::error::Error>>(())
    /// ```
    ///
    /// # Errors
    ///
    /// - [`ReserveError::Memory`] if there is no room for the entry. The log is as it was, and
    ///   nothing was reserved.
    /// - [`ReserveError::Space`] and [`ReserveError::Quota`] as the source returns them. The log
    ///   has an entry for the [refusal](Entry::Refused), which the sync point passes on in its
    ///   turn. [`ReserveError::or_memory`] lets the system go on.
    pub fn spawn(&mut self) -> Result<Handle, ReserveError>
        requires { IsReady S.serves self.old }
        ensures extends { Extends Logs S.serves S.may_reply self.old self.new }
        ensures ok { IfOk result (λ handle.
            output_of self.new ≡ output_of self.old ++ Spawn handle ∷ []) }
        ensures refused { IfErr result (λ error.
            output_of self.new ≡ output_of self.old ++ refused_by error) }

        // Anything but Memory is the result of a reservation.
        ensures replies { (reply : Result HandleValue Refusal) → result ≡ returned reply
            → S.may_reply (source_of self.old) (reserver_of self.old) (reserver_of self.new) 1
            (listed_alone reply) }
        ensures memory { IsErrOf result ReserveError.Memory
            → reserver_of self.new ≡ reserver_of self.old }
    {
        self.output.spawn_from(self.source, self.reserver)
    }
}

impl<C: Drop, S: Source> Commands<'_, Log<C>, S> {
    /// Adds a command, which the sync point passes on in its turn.
    ///
    /// ```
    /// use forgeni::{run_logs, Entities, Entry, LogCommands, StdThreads, SyncPoint};
    ///
    /// let mut entities = Entities::new();
    /// let say = |commands: &mut LogCommands<'_, String>| commands.push("halt".into());
    /// let mut logs = run_logs(&StdThreads, &mut entities, &[say; 2], 2)?;
    /// let mut sync = SyncPoint::begin(&mut entities, &mut logs, &mut Vec::new())?;
    /// assert_eq!(sync.take_next(), Some(Entry::Command("halt".into())));
    /// # Ok::<(), Box<dyn std::error::Error>>(())
    /// ```
    ///
    /// # Errors
    ///
    /// [`OutOfMemory`](Memory) if there is no room for it. The log is as it was, and the command is
    /// dropped.
    pub fn push(&mut self, command: C) -> Result<(), Memory>
        requires { IsReady S.serves self.old }
        ensures extends { Extends Logs S.serves S.may_reply self.old self.new }
        ensures reserver { reserver_of self.new ≡ reserver_of self.old }
        ensures ok { OnOk result (output_of self.new ≡ output_of self.old ++ Command command ∷ []) }
        ensures err { OnErr result (output_of self.new ≡ output_of self.old) }
    {
        Log::push(&mut self.output, command)
    }
}

/// The log so far.
impl<C: fmt::Debug, S: Source> fmt::Debug for Commands<'_, Log<C>, S> {
    fn fmt<W: fmt::Write>(&self, f: &mut fmt::Formatter<W>) -> fmt::Result {
        let log = &self.output;
        write!(f, "{log:?}")
    }
}
