ghost use Rattle.std.specs.Prelude.{◌≡◌};
ghost use Rattle.ent_alloc.specs.declared.refused.Refused.TheVariants.{Space as OutOfSpace};

use crate::space::Space;
use thiserror::Error;

/// Why a request or a reservation gave no handle.
///
/// ```
/// use forgeni::{Entities, Limits, Refused};
///
/// let entities = Entities::with_limits(Limits::new(1, 1).unwrap());
/// let (shared, mut reservers) = entities.share(1)?;
/// reservers[0].reserve()?;
/// // The pool is empty until the next flush.
/// assert_eq!(reservers[0].reserve(), Err(Refused::Space { wanted: 1, left: 0 }));
/// assert_eq!(shared.close(reservers)?.reserved(), 1);
/// # Ok::<(), Box<dyn std::error::Error>>(())
/// ```
#[derive(Clone, Copy, Debug, PartialEq, Eq, Hash, Error)]
pub enum Refused {
    /// Fewer handles were left than were requested. The request counts all the same, and no handle
    /// is given until the next flush.
    #[error("{wanted} wanted and {left} left")]
    Space {
        /// How many handles were requested.
        wanted: u32,
        /// How many were left.
        left: u32,
    },
    /// More handles were requested than the quota still allows: that of a reserver, or that of an
    /// allocator, which is 2^50 between two flushes. Nothing has changed.
    #[error("the quota left is {left}")]
    Quota {
        /// How many the quota still allows.
        left: u64,
    },
}

impl From<Space> for Refused {
    ghost from_gives = { λ space refused. refused ≡ OutOfSpace space.wanted space.left };

    fn from(space: Space) -> Self {
        let Space { wanted, left } = space;
        Refused::Space { wanted, left }
    }
}
