ghost use Rattle.std.specs.Prelude.{◌≡◌, [], List, OnOk, IfErr};
ghost use Rattle.ent_log.specs.declared.entry.Entry.{Entry as LogEntry};
ghost use Rattle.ent_queue.specs.Commands.{IsReady, Extends, output_of};
ghost use Rattle.ent_queue.specs.Logging.{Logs};

use ent_alloc::Source;
use ent_log::Log;
use ent_queue::Commands;
use std::alloc::Global;

/// A system that fills a log. `C` is the caller's type of commands, `S` is the source of the
/// handles, a shared allocator or blocks, and `E` is the system's error. If `E` is
/// `From<OutOfMemory>` and `From<ReserveError>`, `?` converts what the calls of `commands` return.
///
/// One value may run on any worker.
///
/// ```
/// use forgeni::{run_logs, Entities, Entry, LogCommands, LogSystem, OutOfMemory, StdThreads};
///
/// struct Says(&'static str);
///
/// impl LogSystem<&'static str> for Says {
///     fn run(&self, commands: &mut LogCommands<'_, &'static str>) -> Result<(), OutOfMemory> {
///         commands.push(self.0)
///     }
/// }
///
/// let logs = run_logs(&StdThreads, &mut Entities::new(), &[Says("one"), Says("two")], 2)?;
/// assert_eq!(logs[1].entries(), [Entry::Command("two")]);
/// # Ok::<(), Box<dyn std::error::Error>>(())
/// ```
pub trait LogSystem<C, S: Source, E> {
    /// What it may enter in its log. A run without a fault, from an empty log on, leaves a log of
    /// this kind.
    ghost may_log: { Self → List (LogEntry C) → Type 0 };

    /// What it may leave in its log if it returns this error. The default allows anything.
    ghost may_leave: { Self → List (LogEntry C) → E → Type 0 } = { λ _ _ _. Unit {0} };

    /// Runs it once.
    ///
    /// ```
    /// use forgeni::{run_logs, Entities, Handle, LogCommands, OutOfMemory, StdThreads};
    ///
    /// fn launch(commands: &mut LogCommands<'_, (Handle, String)>) -> Result<(), OutOfMemory> {
    ///     match commands.spawn() {
    ///         Ok(drone) => commands.push((drone, String::from("drone"))),
    ///         Err(refused) => refused.or_memory(),
    ///     }
    /// }
    ///
    /// let logs = run_logs(&StdThreads, &mut Entities::new(), &[launch; 3], 2)?;
    /// assert!(logs.iter().all(|log| log.len() == 2));
    /// # Ok::<(), Box<dyn std::error::Error>>(())
    /// ```
    ///
    /// # Errors
    ///
    /// The error of the system. All logs are then dropped. In a shared allocator, what the systems
    /// had reserved stays reserved; in blocks, all reservers are dropped.
    fn run(&self, alloc: Global, commands: &mut Commands<'_, Log<C>, S>) -> Result<(), E>
        requires { IsReady S.serves commands.old }
        ensures extends { Extends Logs S.serves S.may_reply commands.old commands.new }
        ensures may { output_of commands.old ≡ []
            → OnOk result (may_log self.now (output_of commands.new)) }
        ensures leaves { output_of commands.old ≡ []
            → IfErr result (λ error. may_leave self.now (output_of commands.new) error) };
}
