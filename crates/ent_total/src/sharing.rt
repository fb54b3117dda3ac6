//! An allocator is shared: its reservers reserve from one cursor, each by one atomic step.
ghost use Rattle.std.specs.Prelude.{◌≡◌, ◌≢◌, ◌<◌, ◌⊎◌, IfOk, IfErr, IsErrAnd, OnOk, OnErr};
ghost use Rattle.ent_shared.specs.Moves.{after_meeting};
ghost use Rattle.ent_shared.specs.Phase.{IsBelow, records_of};
ghost use Rattle.ent_shared.specs.Record.{opened_records};
ghost use Rattle.ent_total.specs.Opening.{IsUnopened};

use crate::numbering::Numbering;
use crate::opening::{Opening, begin};
use crate::other_phase::OtherPhase;
use crate::reserver::Reserver;
use crate::share_error::ShareError;
use ent_alloc::Entities;
use ent_handle::HandedBack;
use ent_shared::Shared;
use std::alloc::Global;

/// How many callers a phase may have.
pub(crate) const CALLERS: usize = 1024;

/// Shares an allocator among `count` callers, 1 to 1,024.
///
/// # Errors
///
/// [`HandedBack`] has the allocator as it was, and the first of these errors that applies:
/// [`ShareError::NeedsFlush`], [`ShareError::Count`], [`ShareError::Memory`].
pub fn share<J: Numbering>(
    alloc: Global,
    entities: Entities,
    count: usize,
) -> Result<Opening<J, Shared>, HandedBack<Entities, ShareError>>
    ensures start { IfOk result (λ o. o.source.start ≡ entities.allocator) }
    ensures rows { IfOk result (λ o. o.source.rows ≡ entities.rows) }
    ensures count { IfOk result (λ o. o.source.count ≡ count) }
    ensures may_return { IfOk result (λ o.
        records_of o.returned ≡ opened_records entities.allocator 0 count) }
    ensures refused { IsUnopened entities.allocator.asked ((count ≡ 0) ⊎ (1024 < count))
        (λ why. IsErrAnd result (λ h. h.error ≡ why)) }
    ensures handed_back { IfErr result (λ h. h.value ≡ entities) }
{
    if entities.needs_flush() {
        return Err(HandedBack::new(entities, ShareError::NeedsFlush));
    }
    if count == 0 || count > CALLERS {
        return Err(HandedBack::new(entities, ShareError::Count));
    }
    let Ok(reservers) = Vec::with_capacity(alloc, count) else {
        return Err(HandedBack::new(entities, ShareError::Memory));
    };
    let (shared, returned) = match ent_shared::share(alloc, entities, count) {
        Ok(made) => made,
        Err((entities, _)) => return Err(HandedBack::new(entities, ShareError::Memory)),
    };
    match begin(alloc, shared, returned, reservers) {
        Ok(opening) => Ok(opening),
        Err((shared, returned)) => {
            let entities = shared.close(returned);
            Err(HandedBack::new(entities, ShareError::Memory))
        }
    }
}

impl<J: Numbering> Reserver<J, Shared> {
    /// Each later reservation of this one comes after everything that the other one has reserved or
    /// learned of so far. Without a meeting nothing is promised on the order of two reservers. It
    /// neither allocates nor waits.
    ///
    /// ```
    /// use forgeni::Entities;
    ///
    /// let (shared, mut reservers) = Entities::new().share(2)?;
    /// let [one, other] = &mut reservers[..] else { unreachable!() };
    /// let first = other.reserve()?;
    /// one.meet(other)?;
    /// let second = one.reserve()?;
    /// assert_eq!((first.index(), second.index()), (0, 1));
    /// let _entities = shared.close(reservers)?;
    /// # Ok::<(), Box<dyn std::error::Error + Send + Sync>>(())
    /// ```
    ///
    /// # Errors
    ///
    /// [`OtherPhase`] if they are not of one phase. Nothing has changed then.
    pub fn meet(&mut self, other: &mut Reserver<J, Shared>) -> Result<(), OtherPhase>
        ensures same_phase { OnOk result (self.old.number ≡ other.old.number) }
        ensures other_phase { OnErr result (self.old.number ≢ other.old.number) }
        ensures meets { OnOk result (self.new ≡ record self.old {
          reserver = record self.old.reserver {
            own = after_meeting self.old.reserver.own other.old.reserver.own;
          };
        }) }
        ensures met { other.new ≡ other.old }
        ensures unchanged { OnErr result (self.new ≡ self.old) }

        // Every reservation that the other one has made or learned of ends above where the next
        // one of this one may begin.
        ensures mark { OnOk result
            (IsBelow self.new.reserver.own.mark other.old.reserver.own.entries) }
    {
        if self.number != other.number {
            return Err(OtherPhase);
        }
        self.source.meet(&mut self.reserver, &mut other.reserver);
        Ok(())
    }

    /// Returns its number: its position in the list in which the reservers were given out, counted
    /// from 0.
    ///
    /// ```
    /// use forgeni::Entities;
    ///
    /// let (_shared, reservers) = Entities::new().share(3)?;
    /// // Each thread writes into a list of its own.
    /// let mut lists = vec![Vec::new(); 3];
    /// for mut reserver in reservers.into_iter().rev() {
    ///     lists[reserver.number()] = reserver.reserve_many(2)?;
    /// }
    /// assert_eq!(lists[2][0].index(), 0);
    /// # Ok::<(), Box<dyn std::error::Error>>(())
    /// ```
    #[must_use]
    pub fn number(&self) -> usize
        ensures { result ≡ self.now.reserver.own.number }
    {
        self.reserver.number()
    }

    /// Returns the number of handles that it can still request in this phase: 2^40 minus those that
    /// it has requested, served or not.
    ///
    /// ```
    /// use forgeni::Entities;
    ///
    /// let (_shared, mut reservers) = Entities::new().share(1)?;
    /// reservers[0].reserve_many(1_000)?;
    /// assert_eq!(reservers[0].quota_left(), (1 << 40) - 1_000);
    /// # Ok::<(), Box<dyn std::error::Error>>(())
    /// ```
    #[must_use]
    pub fn quota_left(&self) -> u64
        ensures { result ≡ self.now.reserver.own.left }
    {
        self.reserver.left()
    }
}
