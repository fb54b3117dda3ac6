//! An allocator is dealt in blocks, one for each reserver.
ghost use Rattle.std.specs.Prelude.{◌≡◌, ◌-◌, ◌<◌, ◌≤◌, length};
ghost use Rattle.std.specs.Prelude.{IfOk, IfErr, IsErrAnd};
ghost use Rattle.ent_shared.specs.Record.{requested_by};
ghost use Rattle.ent_total.specs.InBlocks.{HasDealt};
ghost use Rattle.ent_total.specs.Opening.{IsUnopened};

use crate::numbering::Numbering;
use crate::opening::{Opening, begin};
use crate::reserver::Reserver;
use crate::share_error::ShareError;
use ent_alloc::{Entities, Phased};
use ent_blocks::{Deals, InBlocks, OverflowReserver};
use ent_handle::HandedBack;
use std::alloc::Global;

/// Deals the pool's front in blocks of these sizes, one after the other: a block is smaller where
/// the pool ends. The reservers are in the order of the sizes.
///
/// No slot is made, and no list of handles. It takes time and memory for each block, however large
/// they are.
///
/// # Errors
///
/// [`HandedBack`] has the allocator as it was, and the first of these errors that applies:
/// [`ShareError::NeedsFlush`], [`ShareError::Count`] if the source has no form for so many blocks,
/// [`ShareError::Memory`].
pub fn share_in<J: Numbering, S: Deals>(
    alloc: Global,
    entities: Entities,
    sizes: &[u32],
) -> Result<Opening<J, S>, HandedBack<Entities, ShareError>>
    ensures start { IfOk result (λ o. S.start o.source ≡ entities.allocator) }
    ensures rows { IfOk result (λ o. S.rows o.source ≡ entities.rows) }
    ensures dealt { IfOk result (λ o. HasDealt S.blocks S.block S.takes S.fresh
        (length entities.allocator.pool) sizes.now o.source o.returned) }
    ensures refused { IsUnopened entities.allocator.asked (¬ (S.may_have (length sizes.now)))
        (λ why. IsErrAnd result (λ h. h.error ≡ why)) }
    ensures handed_back { IfErr result (λ h. h.value ≡ entities) }
{
    if entities.needs_flush() {
        return Err(HandedBack::new(entities, ShareError::NeedsFlush));
    }
    if !S::fits(sizes.len()) {
        return Err(HandedBack::new(entities, ShareError::Count));
    }
    let Ok(reservers) = Vec::with_capacity(alloc, sizes.len()) else {
        return Err(HandedBack::new(entities, ShareError::Memory));
    };
    let (source, callers) = match S::deal(alloc, entities, sizes) {
        Ok(made) => made,
        Err((entities, _)) => return Err(HandedBack::new(entities, ShareError::Memory)),
    };
    match begin(alloc, source, callers, reservers) {
        Ok(opening) => Ok(opening),
        Err((source, callers)) => {
            let entities = source.end_with_all(callers).cancel();
            Err(HandedBack::new(entities, ShareError::Memory))
        }
    }
}

impl<J: Numbering, S: InBlocks> Reserver<J, S> {
    /// Returns the number of handles in its block. It is less than the requested size if the pool
    /// had no more.
    ///
    /// ```
    /// use forgeni::{Entities, Limits, Overflow};
    ///
    /// let entities = Entities::with_limits(Limits::new(100, 1).unwrap());
    /// let (_phase, reservers) = entities.share_in::<Overflow>(&[64, 64])?;
    /// // The pool ends within the second block.
    /// assert_eq!((reservers[0].size(), reservers[1].size()), (64, 36));
    /// # Ok::<(), Box<dyn std::error::Error + Send + Sync>>(())
    /// ```
    #[must_use]
    pub fn size(&self) -> u32
        ensures { result ≡ (S.block self.now.reserver).size }
    {
        S::size_of(&self.reserver)
    }

    /// Returns the number of handles of the block that are used.
    ///
    /// ```
    /// use forgeni::{Entities, Overflow};
    ///
    /// let (_phase, mut reservers) = Entities::new().share_in::<Overflow>(&[10])?;
    /// reservers[0].reserve_many(7)?;
    /// // Three are left of the block, so these five come from past it.
    /// reservers[0].reserve_many(5)?;
    /// assert_eq!(reservers[0].used(), 7);
    /// # Ok::<(), Box<dyn std::error::Error + Send + Sync>>(())
    /// ```
    #[must_use]
    pub fn used(&self) -> u32
        ensures value { result ≡ (S.block self.now.reserver).used }
        ensures within { result ≤ (S.block self.now.reserver).size }
    {
        S::used_of(&self.reserver)
    }

    /// Returns the number of handles that are left of the block.
    ///
    /// ```
    /// use forgeni::{Entities, Overflow};
    ///
    /// let (phase, mut reservers) = Entities::new().share_in::<Overflow>(&[10])?;
    /// let mine = &mut reservers[0];
    /// mine.reserve_many(7)?;
    /// // As many sparks as the block still has, so that none depends on another thread.
    /// mine.reserve_many(mine.left())?;
    /// assert_eq!(phase.close(reservers)?.requested_past(), 0);
    /// # Ok::<(), Box<dyn std::error::Error + Send + Sync>>(())
    /// ```
    #[must_use]
    pub fn left(&self) -> u32
        ensures { result ≡ (S.block self.now.reserver).size - (S.block self.now.reserver).used }
    {
        S::size_of(&self.reserver) - S::used_of(&self.reserver)
    }

    /// Returns how large its block should have been: the handles that it used, and those that it
    /// requested past the block. At most 4,294,967,295.
    /// [`BlockSize::adapt`](forgeni::BlockSize::adapt) takes it.
    ///
    /// ```
    /// use forgeni::{BlockSize, Entities, Overflow};
    ///
    /// let mut size = BlockSize::new(1 << 16);
    /// let (_phase, mut reservers) = Entities::new().share_in::<Overflow>(&[size.size()])?;
    /// reservers[0].reserve_many(1_000)?;
    /// // In the next frame the block is large enough.
    /// size.adapt(reservers[0].wanted());
    /// assert!(size.size() >= 1_000);
    /// # Ok::<(), Box<dyn std::error::Error>>(())
    /// ```
    #[must_use]
    pub fn wanted(&self) -> u32
        ensures { result ≡ S.wants self.now.reserver }
    {
        S::wanted_of(&self.reserver)
    }
}

impl<J: Numbering, S: Phased<Reserver = OverflowReserver>> Reserver<J, S> {
    /// Returns the number of handles that it has requested past its block, served or refused.
    ///
    /// ```
    /// use forgeni::{Entities, Overflow};
    ///
    /// let (_phase, mut reservers) = Entities::new().share_in::<Overflow>(&[10, 10])?;
    /// reservers[0].reserve_many(8)?;
    /// // The block has only two left, so all three come from the shared handles.
    /// reservers[0].reserve_many(3)?;
    /// assert_eq!((reservers[0].used(), reservers[0].requested_past()), (8, 3));
    /// # Ok::<(), Box<dyn std::error::Error>>(())
    /// ```
    #[must_use]
    pub fn requested_past(&self) -> u64
        ensures { result ≡ requested_by self.now.reserver.past.own }
    {
        self.reserver.requested_past()
    }
}
