use thiserror::Error;

/// Why an allocator or a world was not shared.
///
/// ```
/// use forgeni::{Entities, ShareError};
///
/// let refused = Entities::new().share(5_000).err().ok_or("it was shared")?;
/// let (entities, error) = refused.into_parts();
/// assert_eq!(error, ShareError::Count);
/// let (_shared, reservers) = entities.share(1_000)?;
/// assert_eq!(reservers.len(), 1_000);
/// # Ok::<(), Box<dyn std::error::Error>>(())
/// ```
#[derive(Clone, Copy, Debug, PartialEq, Eq, Hash, Error)]
#[non_exhaustive]
pub enum ShareError {
    /// Handles were requested since the last flush, even if the request was refused.
    #[error("a flush is needed first")]
    NeedsFlush,
    /// The number of callers isn't one from 1 to 1,024, or there are more than 1,023 blocks whose
    /// callers go on.
    #[error("a phase has 1 to 1,024 callers")]
    Count,
    /// Out of memory.
    #[error("out of memory")]
    Memory,
}
