//! Why a checker stops.
ghost use Rattle.std.specs.Prelude.{◌≡◌, option_copied};
ghost use Rattle.ent_replay.specs.Recording.{IsCopyOf, difference_of};
ghost use Rattle.ent_replay.specs.declared.trace.check_error.CheckError.TheVariants.{Memory as ErrorMemory};

use crate::trace::difference::Difference;
use ent_handle::Memory;
use std::alloc::{AllocError, AllocFailed, Global};

/// Why a [`Checker`](crate::trace::Checker) takes no more calls.
///
/// ```
/// use forgeni::trace::{CheckError, Checker};
/// use forgeni::{Handle, Limits};
///
/// let mut checker = Checker::new(Limits::GREATEST);
/// // The first handle of all is 0v1.
/// match checker.alloc("1v1".parse::<Handle>()?) {
///     Err(CheckError::Differs(it)) => assert_eq!(it.expected.to_string(), "alloc => 0v1"),
///     other => other?,
/// }
/// # Ok::<(), Box<dyn std::error::Error>>(())
/// ```
#[non_exhaustive]
#[derive(Debug, Drop)]
pub enum CheckError {
    /// An answer isn't the allocator's.
    Differs(Difference),
    /// More than 2^50 handles were requested since the last flush, which is more than an allocator
    /// here can count.
    TooMany,
    /// Out of memory.
    Memory,
}

impl CheckError {
    /// Returns the difference, if it is one.
    ///
    /// ```
    /// use forgeni::{trace, Limits};
    ///
    /// let mut checker = trace::Checker::new(Limits::GREATEST);
    /// let wrong = checker.len(3).err().ok_or("it agrees")?;
    /// let difference = wrong.difference().ok_or("out of memory")?;
    /// assert_eq!((difference.number, difference.cursor), (1, 0));
    /// # Ok::<(), Box<dyn std::error::Error>>(())
    /// ```
    #[must_use]
    pub fn difference(&self) -> Option<&Difference>
        ensures { option_copied result ≡ difference_of self.now }
    {
        match self {
            CheckError::Differs(difference) => Some(difference),
            _ => None,
        }
    }

    /// A copy, or `Memory` if there isn't enough memory for one.
    pub(super) fn copied(&self, alloc: Global) -> Self
        ensures { IsCopyOf self.now result }
    {
        match self {
            CheckError::Differs(difference) => match difference.try_copy(alloc) {
                Ok(copy) => CheckError::Differs(copy),
                Err(Memory) => CheckError::Memory,
            },
            CheckError::TooMany => CheckError::TooMany,
            CheckError::Memory => CheckError::Memory,
        }
    }
}

impl From<Memory> for CheckError {
    ghost from_gives = { λ _ error. error ≡ ErrorMemory };

    fn from(_refused: Memory) -> Self {
        CheckError::Memory
    }
}

impl From<AllocError> for CheckError {
    ghost from_gives = { λ _ error. error ≡ ErrorMemory };

    fn from(_refused: AllocError) -> Self {
        CheckError::Memory
    }
}

impl<T: Drop> From<AllocFailed<T>> for CheckError {
    ghost from_gives = { λ _ error. error ≡ ErrorMemory };

    fn from(_refused: AllocFailed<T>) -> Self {
        CheckError::Memory
    }
}
