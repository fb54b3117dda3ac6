ghost use Rattle.std.specs.Prelude.{◌≡◌, ◌↔◌, IsTrue};

use crate::numbering::Numbering;
use crate::phase::Phase;
use ent_alloc::{Entities, Phased};
use ent_shared::Shared;
use std::alloc::Global;
use std::marker::{Model, PhantomData};
use std::sync::Arc;

/// One caller's right to reserve in a phase of an allocator or of a world. `S` is the source of its
/// handles. In an [`OpenWorld`](crate::OpenWorld) it issues commands too.
///
/// It can go to a thread of its own. A reservation never waits, and in a shared allocator it is one
/// atomic step: the handle is what the allocator would have given to one caller at that moment. No
/// two callers are given the same one. It comes to life after the phase, by the next flush.
///
/// ```
/// use forgeni::Entities;
///
/// let (shared, mut reservers) = Entities::new().share(4)?;
/// std::thread::scope(|scope| {
///     for mine in &mut reservers {
///         scope.spawn(|| mine.reserve_many(10));
///     }
/// });
/// assert_eq!(shared.close(reservers)?.reserved(), 40);
/// # Ok::<(), Box<dyn std::error::Error>>(())
/// ```
///
/// Two threads can't use one reserver at the same time:
///
/// ```compile_fail
/// let (shared, mut reservers) = forgeni::Entities::new().share(1).unwrap();
/// let only = &mut reservers[0];
/// std::thread::scope(|scope| {
///     scope.spawn(|| only.reserve());
///     scope.spawn(|| only.reserve());
/// });
/// ```
#[must_use]
#[derive(Drop)]
pub struct Reserver<J: Numbering, S: Phased = Shared> {
    pub(crate) alloc: Global,
    pub(crate) source: Arc<S, Global>,
    pub(crate) reserver: S::Reserver,
    pub(crate) number: u64,
    pub(crate) of: PhantomData<J>,
}

impl<J: Numbering, S: Phased> Model for Reserver<J, S> {
    ghost use Rattle.std.specs.Prelude.{◌≡◌, Some};
    ghost use Rattle.std.specs.Arc.{arc_value};
    ghost use Rattle.ent_total.specs.Phases.{Reserver, reserver_code};

    ghost Value = { Reserver S S.Reserver };

    ghost coded = { reserver_code S.code S.Reserver.code };

    ghost view = { λ r. record {
      number = r.number;
      source = arc_value r.source;
      reserver = r.reserver;
    } };

    // The number means the source, and the reserver came with it.
    ghost invariant = { λ r. (J.phase_of S r.number ≡ Some (arc_value r.source))
        × S.serves (arc_value r.source) r.reserver };
}

impl<J: Numbering, S: Phased> Reserver<J, S> {
    /// Returns the number of reservers of the phase.
    ///
    /// ```
    /// use forgeni::Entities;
    ///
    /// let (_shared, reservers) = Entities::new().share(4)?;
    /// // A quarter of the work for each.
    /// let shares = reservers.iter().map(|one| 1_000 / one.count());
    /// assert_eq!(shares.sum::<usize>(), 1_000);
    /// # Ok::<(), Box<dyn std::error::Error>>(())
    /// ```
    #[must_use]
    pub fn count(&self) -> usize
        ensures { result ≡ S.count self.now.source }
    {
        self.source.callers()
    }

    /// Returns `true` if it belongs to this phase.
    ///
    /// ```
    /// use forgeni::Entities;
    ///
    /// let (one, reservers) = Entities::new().share(1)?;
    /// let (other, _) = Entities::new().share(1)?;
    /// assert!(reservers[0].is_of(&one) && !reservers[0].is_of(&other));
    /// # Ok::<(), Box<dyn std::error::Error>>(())
    /// ```
    #[must_use]
    pub fn is_of(&self, phase: &Phase<J, S>) -> bool
        ensures number { IsTrue result ↔ (self.now.number ≡ phase.now.number) }
        ensures source { IsTrue result → self.now.source ≡ phase.now.source }
    {
        self.number == phase.number()
    }

    /// Returns the allocator as it was when the phase was opened, like [`Phase::entities`].
    ///
    /// ```
    /// use forgeni::Entities;
    ///
    /// let mut entities = Entities::new();
    /// let old = entities.alloc()?;
    /// let (_shared, mut reservers) = entities.share(1)?;
    /// let new = reservers[0].reserve()?;
    /// let before = reservers[0].entities();
    /// assert!(before.is_alive(old) && !before.is_alive(new));
    /// # Ok::<(), Box<dyn std::error::Error>>(())
    /// ```
    #[must_use]
    pub fn entities(&self) -> &Entities
        ensures { result.now ≡ record {
          allocator = S.start self.now.source;
          rows = S.rows self.now.source;
        } }
    {
        self.source.as_opened()
    }
}
