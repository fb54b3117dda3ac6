use thiserror::Error;

/// Why [`HandleMap::insert`](super::HandleMap::insert) inserted nothing. The map is as it was.
///
/// ```
/// use forgeni::{HandleMap, InsertError};
///
/// let mut names = HandleMap::new();
/// let (old, new) = ("7v1".parse()?, "7v2".parse()?);
/// names.insert(new, "Ada")?;
/// // A late message names who had the slot before. It can't take the place of Ada.
/// let refused = names.insert(old, "Bob").err().ok_or("it was inserted")?;
/// assert_eq!(*refused.error(), InsertError::Later);
/// # Ok::<(), Box<dyn std::error::Error>>(())
/// ```
#[derive(Clone, Copy, Debug, PartialEq, Eq, Hash, Error)]
#[non_exhaustive]
pub enum InsertError {
    /// The handle's slot is at or above the map's limit, or the handle is the placeholder.
    #[error("the handle is above the map's limit")]
    Limit,
    /// A later occupant of the slot has a value.
    #[error("a later occupant of the slot has a value")]
    Later,
    /// Memory ran out.
    #[error("out of memory")]
    Memory,
}
