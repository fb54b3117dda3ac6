ghost use Rattle.std.specs.Prelude.{◌≡◌, ◌≢◌, ◌<◌, ◌⊎◌, ◌↔◌, IfOk, IfErr, OnErr, All, AllPairs};
ghost use Rattle.std.specs.Prelude.{◌≤◌, Contains, length, max};
ghost use Rattle.ent_handle.specs.Handle.{Handle as HandleValue};
ghost use Rattle.ent_alloc.specs.Sequential.{after_flush, top};
ghost use Rattle.ent_alloc.specs.Sound.{IsLive};
ghost use Rattle.ent_alloc.specs.Entities.{HasRowsOfLiving};
ghost use Rattle.ent_blocks.specs.Blocks.{AreUsedOf, after_blocks, dealt};

use crate::closing::take_used;
use crate::part::{Part, dealt};
use ent_alloc::Entities;
use ent_handle::{HandedBack, Memory};
use std::alloc::Global;
use std::marker::Model;

/// A phase that has ended: the allocator, in which what was used is not yet reserved.
///
/// ```
/// use forgeni::{Entities, Overflow};
///
/// let (phase, mut reservers) = Entities::new().share_in::<Overflow>(&[10])?;
/// reservers[0].reserve_many(10)?;
/// let ended = phase.close(reservers)?;
/// // Nothing was requested past the block, so no handle depends on a thread.
/// assert_eq!(ended.requested_past(), 0);
/// let entities = ended.into_entities()?;
/// assert_eq!(entities.reserved(), 10);
/// # Ok::<(), Box<dyn std::error::Error + Send + Sync>>(())
/// ```
#[derive(Drop)]
pub struct Ended {
    entities: Entities,
    parts: Vec<Part>,
    requested: u64,
}

impl Model for Ended {
    ghost use Rattle.ent_blocks.specs.Blocks.{Ended, ended_code, AreUsedOf};

    ghost Value = { Ended };

    ghost coded = { ended_code };

    ghost view = { λ e. record {
      phase = record {
        start = e.entities.allocator;
        rows = e.entities.rows;
        blocks = e.parts.items;
      };
      requested = e.requested;
    } };

    ghost invariant = { λ e. AreUsedOf (record {
      start = e.entities.allocator;
      rows = e.entities.rows;
      blocks = e.parts.items;
    }) };
}

impl Ended {
    pub(crate) fn new(entities: Entities, parts: Vec<Part>, requested: u64) -> Self
        requires { AreUsedOf (record {
          start = entities.allocator;
          rows = entities.rows;
          blocks = parts.items;
        }) }
        ensures { result ≡ record {
          phase = record {
            start = entities.allocator;
            rows = entities.rows;
            blocks = parts.items;
          };
          requested = requested;
        } }
    {
        Ended {
            entities,
            parts,
            requested,
        }
    }

    /// Returns the number of handles that were requested past a block, whether served or refused.
    /// If it is 0, the handles that each caller got don't depend on the threads.
    ///
    /// ```
    /// use forgeni::{Entities, Overflow};
    ///
    /// let (phase, mut reservers) = Entities::new().share_in::<Overflow>(&[2, 2])?;
    /// reservers[1].reserve_many(2)?;
    /// reservers[1].reserve_many(3)?;
    /// // The block was used up, so three came from the shared handles.
    /// assert_eq!(phase.close(reservers)?.requested_past(), 3);
    /// # Ok::<(), Box<dyn std::error::Error + Send + Sync>>(())
    /// ```
    pub fn requested_past(&self) -> u64
        ensures { result ≡ self.now.requested }
    {
        self.requested
    }

    /// Returns the number of handles in all blocks: no handle behind them was used.
    pub fn dealt(&self) -> u32
        ensures { result ≡ dealt self.now.phase.blocks }
    {
        // Its contract says that the state is sound, and has at most so many handles.
        let _left = self.entities.left();
        dealt(&self.parts)
    }

    /// Returns the allocator as it was when the phase was opened: nothing is reserved.
    ///
    /// ```
    /// use forgeni::{Entities, Overflow};
    ///
    /// let (phase, mut reservers) = Entities::new().share_in::<Overflow>(&[2])?;
    /// let first = reservers[0].reserve()?;
    /// // The frame is done again, without what it reserved.
    /// let mut entities = phase.close(reservers)?.cancel();
    /// assert_eq!(entities.alloc()?, first);
    /// # Ok::<(), Box<dyn std::error::Error + Send + Sync>>(())
    /// ```
    pub fn cancel(self) -> Entities
        ensures allocator { result.allocator ≡ self.phase.start }
        ensures rows { result.rows ≡ self.phase.rows }
    {
        self.entities
    }

    /// Returns the allocator, in which what was used is reserved: a flush brings it to life. What
    /// is left of the blocks can be given again, and comes before the rest of the pool.
    ///
    /// It takes time and memory as the gaps among the handles that were used ask for.
    ///
    /// ```
    /// use forgeni::{Entities, Overflow};
    ///
    /// let (phase, mut reservers) = Entities::new().share_in::<Overflow>(&[2, 2])?;
    /// let one = reservers[1].reserve()?;
    /// let mut entities = phase.close(reservers)?.into_entities()?;
    /// entities.flush(&mut Vec::new())?;
    /// assert!(entities.is_alive(one));
    /// // What is left of the blocks is given next.
    /// assert_eq!(entities.alloc()?.index(), 0);
    /// # Ok::<(), Box<dyn std::error::Error + Send + Sync>>(())
    /// ```
    ///
    /// # Errors
    ///
    /// [`HandedBack`] has this value, if an allocation fails, and for no other reason. The call can
    /// be tried again. It doesn't allocate for a phase without blocks in which nothing came from
    /// the shared cursor.
    pub fn into_entities(self, alloc: Global) -> Result<Entities, HandedBack<Self, Memory>>
        ensures after { IfOk result (λ entities. entities.allocator
            ≡ after_blocks self.phase.start self.phase.blocks) }
        ensures rows { IfOk result (λ entities. entities.rows ≡ self.phase.rows) }
        ensures rows_of_living { IfOk result HasRowsOfLiving }
        ensures waiting { IfOk result (λ entities.
            top entities.allocator ≤ max (top self.phase.start) (dealt self.phase.blocks)) }

        // No handle was given twice, and none was alive.
        ensures distinct { IfOk result (λ entities.
            AllPairs (λ g h. g ≢ h) entities.allocator.taken) }
        ensures not_live { IfOk result (λ entities.
            All (λ h. ¬ (IsLive self.phase.start h)) entities.allocator.taken) }

        // A flush brings to life exactly what was used.
        ensures brings_to_life { IfOk result (λ entities. (h : HandleValue) →
            IsLive (after_flush entities.allocator) h
            ↔ (IsLive self.phase.start h ⊎ Contains entities.allocator.taken h)) }
        ensures handed_back { IfErr result (λ h. h.value ≡ self) }

        // Without a block there is nothing to allocate. If there is one, only a test shows that
        // ending succeeds.
        ensures memory { OnErr result (0 < length self.phase.blocks) }
    {
        let Ended {
            mut entities,
            parts,
            requested,
        } = self;
        let Ok(()) = take_used(alloc, &mut entities, &parts) else {
            let ended = Ended::new(entities, parts, requested);
            return Err(HandedBack::new(ended, Memory));
        };
        Ok(entities)
    }
}
