use ent_handle::Memory;
use std::error::Error;
use std::fmt;

/// Why a run of systems returned no logs, or filled no queues.
///
/// ```
/// use forgeni::{run_logs, Entities, LogCommands, OutOfMemory, RunError, StdThreads};
///
/// fn idle(_: &mut LogCommands<'_, ()>) -> Result<(), OutOfMemory> {
///     Ok(())
/// }
///
/// let mut entities = Entities::new();
/// entities.request()?;
/// assert_eq!(run_logs(&StdThreads, &mut entities, &[idle], 2).err(), Some(RunError::NeedsFlush));
/// entities.flush(&mut Vec::new())?;
/// assert_eq!(run_logs(&StdThreads, &mut entities, &[idle], 65).err(), Some(RunError::Workers));
/// assert!(run_logs(&StdThreads, &mut entities, &[idle], 2).is_ok());
/// # Ok::<(), Box<dyn std::error::Error>>(())
/// ```
///
/// In blocks each system has a reserver of its own:
///
/// ```
/// # #[cfg(feature = "std")] {
/// use forgeni::{run_in_blocks, Blocks, Entities, LogCommands, OutOfMemory, RunError, StdThreads};
///
/// fn idle(_: &mut LogCommands<'_, (), Blocks>) -> Result<(), OutOfMemory> {
///     Ok(())
/// }
///
/// let (phase, mut reservers) = Entities::new().share_in::<Blocks>(&[10])?;
/// let refused = run_in_blocks(&StdThreads, &phase, &mut reservers, &[idle; 2], 4);
/// assert_eq!(refused.err(), Some(RunError::Reservers));
/// # }
/// # Ok::<(), Box<dyn std::error::Error>>(())
/// ```
#[non_exhaustive]
#[derive(Clone, Copy, Debug, PartialEq, Eq, Hash, Drop)]
pub enum RunError<E = Memory> {
    /// Handles were requested since the last flush. No system ran, and the allocator is as it was.
    /// Only a run over an allocator returns it.
    NeedsFlush,
    /// The number of workers isn't one from 1 to 64. No system ran, and nothing has changed.
    Workers,
    /// There are more than 65,536 systems. None of them ran.
    Systems,
    /// There isn't one reserver for each system. Only a run in blocks returns it.
    Reservers,
    /// One of the reservers is of another phase. Only a run in blocks returns it.
    OtherPhase,
    /// Memory ran out before any system ran. The allocator and the reservers are as they were.
    Memory,
    /// A system returned an error, and this is the first one in the order of the systems. Without
    /// one, some systems didn't run, since no worker has memory for another one. The logs or
    /// queues are dropped.
    ///
    /// Over an allocator, the handles that the systems reserved stay reserved, and no others: the
    /// next flush brings them to life. In blocks, what is left of the blocks counts as used.
    Lost(Option<E>),
    /// All systems ran, and there isn't enough memory for what is born. The handles that they
    /// reserved stay reserved, and no others. Only `run_to_sync_point` returns it.
    Unborn,
}

impl<E: fmt::Display> fmt::Display for RunError<E> {
    fn fmt<W: fmt::Write>(&self, f: &mut fmt::Formatter<W>) -> fmt::Result {
        match self {
            RunError::NeedsFlush => f.write_str("a flush is needed first"),
            RunError::Workers => f.write_str("systems have 1 to 64 workers"),
            RunError::Systems => f.write_str("at most 65,536 systems run together"),
            RunError::Reservers => f.write_str("each system has one reserver"),
            RunError::OtherPhase => f.write_str("a reserver is of another phase"),
            RunError::Memory => f.write_str("out of memory before any system ran"),
            RunError::Lost(None) => f.write_str("out of memory while the systems ran"),
            RunError::Lost(Some(error)) => write!(f, "a system stopped: {error}"),
            RunError::Unborn => f.write_str("out of memory for what is born"),
        }
    }
}

impl<E: fmt::Debug + fmt::Display + Drop> Error for RunError<E> {}
