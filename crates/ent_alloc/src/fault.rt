ghost use Rattle.std.specs.Prelude.{◌≡◌};
ghost use Rattle.ent_alloc.specs.declared.fault.AllocFault.TheVariants.{Memory as AllocMemory};
ghost use Rattle.ent_alloc.specs.declared.fault.FreeFault.TheVariants.{Memory as FreeMemory};

use ent_handle::{Handle, Memory};
use thiserror::Error;

/// Why [`Entities::alloc`](crate::Entities::alloc) gave no handle. Nothing has changed.
///
/// ```
/// use forgeni::{AllocError, Entities};
///
/// let mut entities = Entities::new();
/// entities.request()?;
/// let spawned = match entities.alloc() {
///     Err(AllocError::NeedsFlush) => {
///         entities.flush(&mut Vec::new())?;
///         entities.alloc()?
///     }
///     other => other?,
/// };
/// assert!(entities.is_alive(spawned));
/// # Ok::<(), Box<dyn std::error::Error>>(())
/// ```
#[derive(Clone, Copy, Debug, PartialEq, Eq, Hash, Error)]
pub enum AllocFault {
    /// Handles were requested since the last flush, even if the request was refused.
    #[error("a flush is needed first")]
    NeedsFlush,
    /// Every slot has a living entity or is retired.
    #[error("no slot is free")]
    Space,
    /// Out of memory.
    #[error("out of memory")]
    Memory,
}

impl From<Memory> for AllocFault {
    ghost from_gives = { λ _ fault. fault ≡ AllocMemory };

    fn from(_refused: Memory) -> Self {
        AllocFault::Memory
    }
}

/// Why [`Entities::free`](crate::Entities::free) freed nothing. Nothing has changed.
///
/// ```
/// use forgeni::{Entities, FreeError};
///
/// let mut entities = Entities::new();
/// let cart = entities.alloc()?;
/// entities.free(cart)?;
/// // A second system despawns it too, which is no reason to end the game.
/// match entities.free(cart) {
///     Ok(_) | Err(FreeError::NotAlive) => {}
///     Err(other) => return Err(other.into()),
/// }
/// # Ok::<(), Box<dyn std::error::Error>>(())
/// ```
#[derive(Clone, Copy, Debug, PartialEq, Eq, Hash, Error)]
pub enum FreeFault {
    /// Handles were requested since the last flush, even if the request was refused.
    #[error("a flush is needed first")]
    NeedsFlush,
    /// The handle isn't alive.
    #[error("the entity is not alive")]
    NotAlive,
    /// Out of memory.
    #[error("out of memory")]
    Memory,
}

impl From<Memory> for FreeFault {
    ghost from_gives = { λ _ fault. fault ≡ FreeMemory };

    fn from(_refused: Memory) -> Self {
        FreeFault::Memory
    }
}

/// What [`Entities::free`](crate::Entities::free) returns.
///
/// ```
/// use forgeni::{Entities, Freed};
///
/// let mut entities = Entities::new();
/// let old = entities.alloc()?;
/// // The slot's next handle is known before it is given.
/// let Freed { next } = entities.free(old)?;
/// assert_eq!(next, Some(entities.alloc()?));
/// # Ok::<(), Box<dyn std::error::Error>>(())
/// ```
#[derive(Clone, Copy, Debug, PartialEq, Eq, Hash)]
pub struct Freed {
    /// The handle that the slot gives next. `None` if the freed one was of the last generation: the
    /// slot is retired then, and gives no more handles.
    pub next: Option<Handle>,
}
