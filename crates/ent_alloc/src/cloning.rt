//! Clones of an allocator, as snapshots that a program goes back to.
ghost use Rattle.std.specs.Prelude.{◌≡◌, ◌<◌, ◌≤◌, ◌⊎◌, IfOk, OnOk, OnErr};
ghost use Rattle.std.specs.Prelude.{length, vec_len, vec_capacity};
ghost use Rattle.ent_alloc.specs.Sequential.{top};
ghost use Rattle.ent_alloc.specs.Entities.{HasRowsOfLiving};

use crate::entities::Entities;
use ent_handle::Memory;
use std::alloc::Global;

impl Entities {
    /// Returns another allocator in the same state: the same entities are alive, with the same
    /// rows, the same handles are reserved, and the limits are the same. So the same calls return
    /// the same results on both. From then on they are independent.
    ///
    /// It copies the slots as bytes: 8 for each slot that was made, and 4 for each that waits. It
    /// doesn't allocate if no slot was made.
    ///
    /// ```
    /// use forgeni::Entities;
    ///
    /// let mut entities = Entities::new();
    /// let one = entities.alloc()?;
    /// let mut clone = entities.try_clone()?;
    /// clone.free(one)?;
    /// assert!(entities.is_alive(one) && !clone.is_alive(one));
    /// # Ok::<(), Box<dyn std::error::Error>>(())
    /// ```
    ///
    /// # Errors
    ///
    /// [`OutOfMemory`](Memory) if there isn't enough memory for the slots.
    pub fn try_clone(&self, alloc: Global) -> Result<Entities, Memory>
        ensures ok { IfOk result (λ clone. clone ≡ self.now) }
        ensures rows_of_living { IfOk result HasRowsOfLiving }
        ensures memory { OnErr result (0 < self.now.allocator.made) }
    {
        Ok(Entities {
            slots: self.slots.try_clone(alloc)?,
            requests: self.requests,
        })
    }

    /// Copies the state of another allocator into this one, like [`try_clone`](Self::try_clone).
    /// What this one had before is gone.
    ///
    /// It uses the room that this one has, and doesn't allocate if this one had as many slots
    /// before. This is how a game that predicts goes back to a frame that the server has confirmed:
    ///
    /// ```
    /// use forgeni::Entities;
    ///
    /// let mut entities = Entities::new();
    /// let one = entities.alloc()?;
    /// let mut confirmed = Entities::new();
    /// confirmed.try_clone_from(&entities)?;
    /// entities.free(one)?;
    /// entities.try_clone_from(&confirmed)?;
    /// assert!(entities.is_alive(one));
    /// # Ok::<(), Box<dyn std::error::Error>>(())
    /// ```
    ///
    /// Handles that were given since the clone was made will be given again. Keep none of them.
    ///
    /// # Errors
    ///
    /// [`OutOfMemory`](Memory) if there isn't enough memory for slots that the source has beyond
    /// those of this allocator. Nothing has changed then: all memory is allocated first.
    pub fn try_clone_from(&mut self, source: &Entities) -> Result<(), Memory>
        ensures ok { OnOk result (self.new ≡ source.now) }
        ensures rows_of_living { HasRowsOfLiving self.new }
        ensures err { OnErr result (self.new ≡ self.old) }

        // It succeeds if the source has made no more slots, and no more of them wait.
        ensures memory { OnErr result ((self.old.allocator.made < source.now.allocator.made)
            ⊎ (top self.old.allocator < top source.now.allocator)) }
    {
        self.slots.try_clone_from(&source.slots)?;
        self.requests = source.requests;
        Ok(())
    }
}

/// Makes room for so many items in all.
pub(crate) fn reserve_for<T>(list: &mut Vec<T>, count: usize) -> Result<(), Memory>
    ensures ok { OnOk result (count ≤ vec_capacity list.new) }
    ensures items { list.new.items ≡ list.old.items }
    ensures memory { OnErr result (vec_len list.old < count) }
{
    list.reserve(count.saturating_sub(list.len()))?;
    Ok(())
}

/// Makes a list one of these items. There is room for them.
pub(crate) fn overwrite<T: Copy + Drop>(list: &mut Vec<T>, items: &[T])
    requires { length items.now ≤ vec_capacity list.old }
    ensures { list.new.items ≡ items.now }
{
    list.clear();
    list.extend_from_slice(items).unwrap();
}
