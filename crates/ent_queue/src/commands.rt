ghost use Rattle.std.specs.Prelude.{◌≡◌, OnSome, true};
ghost use Rattle.std.specs.FinSet as set;
ghost use Rattle.std.specs.FinMap as map;

use crate::output::Output;
use crate::queue::CommandQueue;
use ent_alloc::Source;
use ent_handle::Handle;
use ent_shared::Shared;
use std::alloc::Global;

/// What one system fills, with a reserver that is lent to it: the commands of a world, which take
/// effect when their queue is applied (in a frame, at its sync point), or the entries of a log.
///
/// A spawn reserves its handle at once, so a system knows the handles of what it spawns. `O` is
/// what is filled, and `S` the source of the handles.
///
/// ```
/// use forgeni::{run_frame, ComponentId, OutOfMemory, StdThreads, SystemCommands, View, World};
///
/// const HEAT: ComponentId = ComponentId(0);
///
/// fn sparks(_: &View<'_>, commands: &mut SystemCommands<'_>) -> Result<(), OutOfMemory> {
///     match commands.spawn_with(&[(HEAT, 900)]) {
///         // It has a handle at once, and lives from the sync point on.
///         Ok(spark) => commands.insert_with(spark, &[(HEAT, 899)]),
///         Err(refused) => refused.or_memory(),
///     }
/// }
///
/// let mut world = World::new();
/// let report = run_frame(&StdThreads, &mut world, &[sparks; 2], 2)?;
/// assert!(report.born.iter().all(|one| world.get(*one, HEAT) == Some(899)));
/// # Ok::<(), Box<dyn std::error::Error>>(())
/// ```
#[derive(Drop)]
pub struct Commands<'a, O = CommandQueue, S: Source = Shared> {
    pub(crate) reserver: &'a mut S::Reserver,
    pub(crate) source: &'a S,
    pub(crate) output: O,
    pub(crate) alloc: Global,
}

impl<'a, O: Output, S: Source> Commands<'a, O, S> {
    ghost use Rattle.ent_queue.specs.Commands.{output_of, reserver_of, source_of};

    /// Begins with nothing. The reserver is one of the source's.
    pub fn new(alloc: Global, source: &'a S, reserver: &'a mut S::Reserver) -> Self
        requires { S.serves source.now reserver.old }
        ensures same { result.reserver.ghost_name ≡ reserver.entry.ghost_name }
        ensures reserver { reserver_of result ≡ reserver.old }
        ensures source { source_of result ≡ source.now }
        ensures output { output_of result ≡ O.empty }
    {
        Commands::resume(alloc, source, reserver, O::unfilled(alloc))
    }
}

impl<'a, O, S: Source> Commands<'a, O, S> {
    ghost use Rattle.ent_queue.specs.Commands.{output_of, reserver_of, source_of};

    /// Goes on with what was begun before, whose entries stay in front. The reserver may be another
    /// one of the source than before.
    pub fn resume(alloc: Global, source: &'a S, reserver: &'a mut S::Reserver, output: O) -> Self
        requires { S.serves source.now reserver.old }
        ensures same { result.reserver.ghost_name ≡ reserver.entry.ghost_name }
        ensures reserver { reserver_of result ≡ reserver.old }
        ensures source { source_of result ≡ source.now }
        ensures output { output_of result ≡ output }
    {
        Commands {
            reserver,
            source,
            output,
            alloc,
        }
    }

    /// Returns `true` if the entity was alive when the phase was opened. It takes constant time.
    ///
    /// ```
    /// use forgeni::{run_logs, Entities, Handle, LogCommands, StdThreads};
    ///
    /// let mut entities = Entities::new();
    /// let target = entities.alloc()?;
    /// let aim = |commands: &mut LogCommands<'_, (&str, Handle)>| {
    ///     if commands.is_alive(target) { commands.push(("aim", target)) } else { Ok(()) }
    /// };
    /// assert_eq!(run_logs(&StdThreads, &mut entities, &[aim], 1)?[0].len(), 1);
    /// # Ok::<(), Box<dyn std::error::Error>>(())
    /// ```
    #[must_use]
    pub fn is_alive(&self, handle: Handle) -> bool
        ensures { result ≡ set.contains (S.start (source_of self.now)).live handle }
    {
        self.source.was_alive(handle)
    }

    /// Returns the row that the entity had when the phase was opened, or `None` if it wasn't alive
    /// then or had no row. It takes constant time.
    ///
    /// ```
    /// use forgeni::{run_logs, Entities, Entry, LogCommands, StdThreads};
    ///
    /// let mut entities = Entities::new();
    /// let cart = entities.alloc()?;
    /// entities.try_set_row(cart, 7)?;
    /// let look = |commands: &mut LogCommands<'_, u32>| match commands.row(cart) {
    ///     Some(row) => commands.push(row),
    ///     None => Ok(()),
    /// };
    /// let logs = run_logs(&StdThreads, &mut entities, &[look], 1)?;
    /// assert_eq!(logs[0].entries(), [Entry::Command(7)]);
    /// # Ok::<(), Box<dyn std::error::Error>>(())
    /// ```
    #[must_use]
    pub fn row(&self, handle: Handle) -> Option<u32>
        ensures value { result ≡ map.get (S.rows (source_of self.now)) handle }
        ensures alive { OnSome result
            (set.contains (S.start (source_of self.now)).live handle ≡ true) }
    {
        self.source.had_row(handle)
    }
}

impl<O, S: Source> Commands<'_, O, S> {
    /// Returns what was filled, and gives the reserver back to its owner.
    pub fn finish(self) -> O
        ensures reserver { self.exit.0.now ≡ self.entry.reserver.now }
        ensures output { result ≡ self.entry.output }
    {
        let Commands {
            reserver: _,
            source: _,
            output,
            alloc: _,
        } = self;
        output
    }
}
