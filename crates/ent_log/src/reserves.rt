ghost use Rattle.std.specs.Prelude.{Result};
ghost use Rattle.ent_handle.specs.Handle.{Handle as HandleValue};
ghost use Rattle.ent_alloc.specs.declared.refused.Refused.{Refused as Refusal};

use ent_alloc::{Entities, Refused};
use ent_handle::Handle;

/// Reserves handles for a [`Log`](crate::Log), one at a time.
///
/// ```
/// use forgeni::{Entities, Handle, Log, Refused, Reserver, Reserves};
///
/// /// Reserves by a log as by hand, and counts.
/// struct Counted<'a>(&'a mut Reserver, u32);
///
/// impl Reserves for Counted<'_> {
///     fn reserve_one(&mut self) -> Result<Handle, Refused> {
///         self.1 += 1;
///         self.0.reserve_one()
///     }
/// }
///
/// let (_shared, mut reservers) = Entities::new().share(1)?;
/// let mut counted = Counted(&mut reservers[0], 0);
/// Log::<()>::new().spawn(&mut counted)?;
/// assert_eq!(counted.1, 1);
/// # Ok::<(), Box<dyn std::error::Error>>(())
/// ```
pub trait Reserves {
    /// What a reservation may return, and what it leaves.
    ghost may_reserve: { Self → Result HandleValue Refusal → Self → Type 0 };

    /// Reserves one handle. The next flush brings it to life.
    ///
    /// ```
    /// use forgeni::{Entities, Handle, Refused, Reserves};
    ///
    /// /// A squad, from whatever reserves.
    /// fn squad(source: &mut impl Reserves) -> Result<[Handle; 2], Refused> {
    ///     Ok([source.reserve_one()?, source.reserve_one()?])
    /// }
    ///
    /// let (_shared, mut reservers) = Entities::new().share(1)?;
    /// assert_eq!(squad(&mut reservers[0])?.map(|one| one.index()), [0, 1]);
    /// # Ok::<(), Box<dyn std::error::Error>>(())
    /// ```
    ///
    /// # Errors
    ///
    /// [`Refused`], if there is none.
    fn reserve_one(&mut self) -> Result<Handle, Refused>
        ensures { may_reserve self.old result self.new };
}

/// It [requests](Entities::request) the handle, so a single caller can fill a log too.
impl Reserves for Entities {
    ghost use Rattle.ent_log.specs.Spawning.{Requests};

    ghost may_reserve = { λ before reply after. Requests before reply after };

    fn reserve_one(&mut self) -> Result<Handle, Refused> {
        self.request()
    }
}
