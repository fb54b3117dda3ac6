use thiserror::Error;

/// No entity has that handle. Nothing has changed.
///
/// ```
/// use forgeni::{Absent, Entities};
///
/// let mut entities = Entities::new();
/// let gone = entities.alloc()?;
/// entities.free(gone)?;
/// // Nothing is kept for the dead.
/// assert_eq!(entities.try_set_row(gone, 7), Err(Absent));
/// # Ok::<(), Box<dyn std::error::Error>>(())
/// ```
#[derive(Clone, Copy, Debug, PartialEq, Eq, Hash, Error)]
#[error("no such entity")]
pub struct Absent;
