ghost use Rattle.std.specs.Prelude.{◌≡◌, ◌↔◌, ◌≤◌, ℕ, List, All, IsTrue, length};
ghost use Rattle.ent_alloc.specs.Entities.{Entities as EntitiesValue};

use crate::entities::Entities;
use crate::source::Source;

/// A source whose phase ends when its reservers come back.
///
/// Phases, and how they end, depend only on this trait, whatever their source is.
///
/// ```
/// use forgeni::{Entities, Overflow, Phase, Phased, Reserver};
///
/// /// Ends a phase of either kind, if all of its reservers are there.
/// fn end<S: Phased>(phase: Phase<S>, all: Vec<Reserver<S>>) -> Option<S::Closed> {
///     phase.close(all).ok()
/// }
///
/// let (shared, reservers) = Entities::new().share(2)?;
/// assert!(end(shared, reservers).is_some());
/// let (in_blocks, reservers) = Entities::new().share_in::<Overflow>(&[10])?;
/// assert!(end(in_blocks, reservers).is_some());
/// # Ok::<(), Box<dyn std::error::Error + Send + Sync>>(())
/// ```
pub trait Phased: Source + Drop {
    /// What the phase ends with.
    type Closed;

    /// The number of its reservers.
    ghost count: { Self → ℕ };

    /// Whether these reservers come in an order in which it takes them back.
    ghost takes: { Self → List Self.Reserver → Type 0 };

    /// What it ends with, if all its reservers are here.
    ghost closes: { Self → List Self.Reserver → Self.Closed → Type 0 };

    /// What it ends with, if some of its reservers are here.
    ghost closes_lost: { Self → List Self.Reserver → Self.Closed → Type 0 };

    /// Returns the number of reservers.
    fn callers(&self) -> usize
        ensures { result ≡ count self.now };

    /// Returns the allocator as it was when the phase was opened.
    fn as_opened(&self) -> &Entities
        ensures { result.now ≡ record {
          allocator = Self.start self.now;
          rows = Self.rows self.now;
        } };

    /// Returns `true` if these reservers, which are of this phase, are in an order in which the
    /// source takes them back.
    fn may_take(&self, reservers: &[Self::Reserver]) -> bool
        ensures { IsTrue result ↔ takes self.now reservers.now };

    /// Ends the phase with all its reservers. It doesn't allocate.
    fn end_with_all(self, reservers: Vec<Self::Reserver>) -> Self::Closed
        requires own { All (Self.serves self) reservers.items }
        requires takes { takes self reservers.items }
        requires all { length reservers.items ≡ count self }
        ensures { closes self reservers.items result };

    /// Ends the phase although some reservers may be lost. It doesn't allocate.
    fn end_with_some(self, reservers: Vec<Self::Reserver>) -> Self::Closed
        requires own { All (Self.serves self) reservers.items }
        requires takes { takes self reservers.items }
        requires few { length reservers.items ≤ count self }
        ensures { closes_lost self reservers.items result };
}
