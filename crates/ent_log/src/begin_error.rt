use ent_handle::Handle;
use thiserror::Error;

/// Why a sync point of logs didn't begin. Nothing has changed.
///
/// ```
/// use forgeni::{BeginError, Entities, Log, SyncPoint};
///
/// let (mut entities, mut others) = (Entities::new(), Entities::new());
/// let mut log: Log<()> = Log::new();
/// let one = others.phase(1, |_, reservers| log.spawn(&mut reservers[0]))??;
/// // The log is of another allocator, which would give the same handle again.
/// let begun = SyncPoint::begin(&mut entities, &mut vec![log], &mut Vec::new());
/// assert_eq!(begun.err(), Some(BeginError::NotReserved { handle: one }));
/// # Ok::<(), Box<dyn std::error::Error>>(())
/// ```
#[derive(Clone, Copy, Debug, PartialEq, Eq, Hash, Error)]
#[non_exhaustive]
pub enum BeginError {
    /// The allocator has not reserved this handle, which a spawn returned. It is the first such
    /// handle of the logs. The log is of another allocator, or of an earlier phase, or the phase
    /// isn't closed yet.
    #[error("{handle} is not reserved")]
    NotReserved {
        /// That handle.
        handle: Handle,
    },
    /// Out of memory.
    #[error("out of memory")]
    Memory,
}
