ghost use Rattle.std.specs.Prelude.{◌≡◌, ◌≢◌, OnOk, OnErr};
ghost use Rattle.ent_alloc.specs.declared.reserve_error.ReserveError.TheVariants as failed;
ghost use Rattle.ent_alloc.specs.Fault.{as_reserve_error};

use crate::refused::Refused;
use crate::space::Space;
use ent_handle::Memory;
use std::alloc::AllocError;
use thiserror::Error;

/// Why a call that reserves handles, and keeps them in a list or a queue, gave none.
///
/// ```
/// use forgeni::{Entities, Limits, ReserveError};
///
/// let mut entities = Entities::with_limits(Limits::new(100, 1).unwrap());
/// let sparks = match entities.request_many(150) {
///     // A smaller burst, after the flush.
///     Err(ReserveError::Space { left, .. }) => {
///         entities.flush(&mut Vec::new())?;
///         entities.request_many(left)?
///     }
///     other => other?,
/// };
/// assert_eq!(sparks.len(), 100);
/// # Ok::<(), Box<dyn std::error::Error>>(())
/// ```
#[derive(Clone, Copy, Debug, PartialEq, Eq, Hash, Error)]
pub enum ReserveError {
    /// Fewer handles were left than were requested. The request counts all the same, and no handle
    /// is given until the next flush. A queue or a log of commands keeps the refusal.
    #[error("{wanted} wanted and {left} left")]
    Space {
        /// How many handles were requested.
        wanted: u32,
        /// How many were left.
        left: u32,
    },
    /// More handles were requested than the quota still allows: that of a reserver, or that of an
    /// allocator, which is 2^50 between two flushes. No handle was requested. A queue or a log of
    /// commands keeps the refusal.
    #[error("the quota left is {left}")]
    Quota {
        /// How many the quota still allows.
        left: u64,
    },
    /// Out of memory. Nothing has changed.
    #[error("out of memory")]
    Memory,
}

impl ReserveError {
    /// Returns the error as a system should return it. A refusal doesn't end the system: its queue
    /// or its log keeps it, and the sync point reports it or passes it on. Only running out of
    /// memory ends the system:
    ///
    /// ```
    /// use forgeni::{OutOfMemory, ReserveError};
    ///
    /// let refused = ReserveError::Space { wanted: 2, left: 1 };
    /// assert_eq!(refused.or_memory(), Ok(()));
    /// assert_eq!(ReserveError::Memory.or_memory(), Err(OutOfMemory));
    /// ```
    ///
    /// # Errors
    ///
    /// `Memory`, if that is the error.
    pub fn or_memory(self) -> Result<(), Memory>
        ensures ok { OnOk result (self ≢ ReserveError.Memory) }
        ensures err { OnErr result (self ≡ ReserveError.Memory) }
    {
        match self {
            ReserveError::Space { .. } | ReserveError::Quota { .. } => Ok(()),
            ReserveError::Memory => Err(Memory),
        }
    }
}

impl From<AllocError> for ReserveError {
    ghost from_gives = { λ _ error. error ≡ failed.Memory };

    fn from(_refused: AllocError) -> Self {
        ReserveError::Memory
    }
}

impl From<Memory> for ReserveError {
    ghost from_gives = { λ _ error. error ≡ failed.Memory };

    fn from(_refused: Memory) -> Self {
        ReserveError::Memory
    }
}

impl From<Refused> for ReserveError {
    ghost from_gives = { λ why error. error ≡ as_reserve_error why };

    fn from(why: Refused) -> Self {
        match why {
            Refused::Space { wanted, left } => ReserveError::Space { wanted, left },
            Refused::Quota { left } => ReserveError::Quota { left },
        }
    }
}

impl From<Space> for ReserveError {
    ghost from_gives = { λ space error. error ≡ failed.Space space.wanted space.left };

    fn from(space: Space) -> Self {
        let Space { wanted, left } = space;
        ReserveError::Space { wanted, left }
    }
}
