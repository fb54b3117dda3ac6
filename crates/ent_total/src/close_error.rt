use thiserror::Error;

/// Why a phase of an allocator or of a world was not closed. A caller of a phase has a
/// [`Reserver`](crate::Reserver) of its own.
///
/// ```
/// use forgeni::{CloseError, Entities};
///
/// let (shared, mut reservers) = Entities::new().share(2)?;
/// let late = reservers.pop();
/// let refused = shared.close(reservers).err().ok_or("it was closed")?;
/// let ((shared, mut reservers), error) = refused.into_parts();
/// assert_eq!(error, CloseError::Missing { count: 1 });
/// reservers.extend(late);
/// let _entities = shared.close(reservers)?;
/// # Ok::<(), Box<dyn std::error::Error>>(())
/// ```
#[derive(Clone, Copy, Debug, PartialEq, Eq, Hash, Error)]
#[non_exhaustive]
pub enum CloseError {
    /// One of the callers is of another phase, or there are more of them than the phase has. All of
    /// them are handed back.
    #[error("a caller is of another phase")]
    OtherPhase,
    /// Callers are missing. Those that came are handed back.
    #[error("missing callers: {count}")]
    Missing {
        /// How many.
        count: usize,
    },
    /// A caller that was not handed in still exists. The phase keeps those that came, and the next
    /// close has them.
    #[error("a caller is still in use")]
    InUse,
    /// The callers aren't in the order in which they were made, which this phase requires. It keeps
    /// those that came.
    #[error("the callers aren't in the order in which they were made")]
    Order,
}
