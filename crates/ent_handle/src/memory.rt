use std::alloc::{AllocError, AllocFailed};
use thiserror::Error;

/// Out of memory: an allocation failed, or something else happened that the call counts as such. A
/// call without any other error returns this one.
///
/// ```
/// use forgeni::{Entities, OutOfMemory};
///
/// fn save(entities: &Entities) -> Result<Vec<u8>, OutOfMemory> {
///     let mut image = Vec::new();
///     image.try_reserve(1_000).map_err(|_| OutOfMemory)?;
///     entities.write_image(&mut image)?;
///     Ok(image)
/// }
///
/// assert_eq!(save(&Entities::new())?.len(), 40);
/// # Ok::<(), Box<dyn std::error::Error>>(())
/// ```
#[derive(Clone, Copy, Debug, PartialEq, Eq, Hash, Error)]
#[error("out of memory")]
pub struct Memory;

impl From<AllocError> for Memory {
    fn from(_refused: AllocError) -> Self {
        Memory
    }
}

impl<T: Drop> From<AllocFailed<T>> for Memory {
    fn from(_refused: AllocFailed<T>) -> Self {
        Memory
    }
}
