//! Many handles that are alive at once.
ghost use Rattle.std.specs.Prelude.{◌≡◌, ◌<◌, ◌≤◌, ◌↔◌, ◌++◌, All};
ghost use Rattle.std.specs.Prelude.{IfOk, OnOk, OnErr, IsErrOf, None, length, take, drop, reverse};
ghost use Rattle.std.specs.FinMap as map;
ghost use Rattle.ent_alloc.specs.Sequential.{after_take, after_flush, after_allocs};
ghost use Rattle.ent_alloc.specs.Sound.{IsWithin};
ghost use Rattle.ent_alloc.specs.Entities.{HasRowsOfLiving};

use crate::entities::Entities;
use crate::fault::AllocFault;
use crate::requests::Requests;
use ent_handle::Handle;
use std::alloc::Global;

impl Entities {
    /// Allocates `n` handles, all of them or none: those of `n` calls of [`alloc`](Self::alloc), in
    /// their order. They are alive at once. It is faster than these calls.
    ///
    /// ```
    /// use forgeni::Entities;
    ///
    /// let mut entities = Entities::new();
    /// let wave = entities.alloc_many(1000)?;
    /// assert_eq!((wave.len(), entities.len()), (1000, 1000));
    /// # Ok::<(), forgeni::AllocError>(())
    /// ```
    ///
    /// # Errors
    ///
    /// In each case nothing has changed, and no handle was given.
    ///
    /// - [`AllocError::NeedsFlush`](AllocFault::NeedsFlush) if handles were requested since the
    ///   last flush, even if the request was refused.
    /// - [`AllocError::Space`](AllocFault::Space) if fewer than `n` handles can be given.
    /// - [`AllocError::Memory`](AllocFault::Memory) if there isn't enough memory for the list or
    ///   for new slots.
    pub fn alloc_many(&mut self, alloc: Global, n: u32) -> Result<Vec<Handle>, AllocFault>
        ensures handles { IfOk result (λ handles. handles.items ≡ take n self.old.allocator.pool) }
        ensures within { IfOk result (λ handles.
            All (IsWithin self.old.allocator.limits) handles.items) }
        ensures enough { OnOk result (n ≤ length self.old.allocator.pool) }

        // The state is that after as many single calls, and also that after a request for `n`
        // handles and a flush.
        ensures calls { OnOk result (self.new.allocator
            ≡ after_allocs self.old.allocator (take n self.old.allocator.pool)) }
        ensures ok { OnOk result
            (self.new.allocator ≡ after_flush (after_take self.old.allocator n)) }
        ensures rows { self.new.rows ≡ self.old.rows }
        ensures no_rows { OnOk result
            (All (λ h. map.get self.new.rows h ≡ None) (take n self.old.allocator.pool)) }
        ensures rows_of_living { HasRowsOfLiving self.new }
        ensures needs_flush { IsErrOf result AllocFault.NeedsFlush
            ↔ (0 < self.old.allocator.asked) }
        ensures space { IsErrOf result AllocFault.Space
            ↔ ((self.old.allocator.asked ≡ 0) × (length self.old.allocator.pool < n)) }
        ensures memory { IsErrOf result AllocFault.Memory → 0 < n }
        ensures err { OnErr result (self.new ≡ self.old) }
    {
        if self.needs_flush() {
            return Err(AllocFault::NeedsFlush);
        }
        if n > self.left() {
            return Err(AllocFault::Space);
        }
        let wanted = Requests {
            asked: u64::from(n),
            served: n,
        };
        let waiting = self.slots.waiting();
        let kept = wanted.kept(waiting);
        let fresh = wanted.fresh(waiting);
        let mut handles = Vec::new(alloc);
        self.slots.bring_to_life(kept, fresh, &mut handles)?;
        in_order(&mut handles, fresh as usize);
        Ok(handles)
    }
}

/// Of a list that has the fresh handles first and then the old ones as they wait, the order in
/// which single calls give them: the old one that was freed last, .., then the fresh ones.
fn in_order(handles: &mut [Handle], fresh: usize)
    requires { fresh ≤ length handles.old }
    ensures { handles.new ≡ reverse (drop fresh handles.old) ++ take fresh handles.old }
{
    let old = handles.len() - fresh;
    handles.reverse();
    handles[old..].reverse();
}
