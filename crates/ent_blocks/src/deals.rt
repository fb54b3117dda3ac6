ghost use Rattle.std.specs.Prelude.{◌≡◌, ◌↔◌, ℕ, List, All, IfOk, IfErr, IsTrue, length, map};
ghost use Rattle.ent_blocks.specs.Blocks.{Ended as EndedValue, blocks_from};

use crate::ended::Ended;
use crate::in_blocks::InBlocks;
use ent_alloc::Entities;
use ent_handle::Memory;
use std::alloc::Global;

/// A source that deals the front of an allocator's pool in blocks, one to each of its reservers.
///
/// There are two: [`Blocks`](forgeni::Blocks), which refuses a request for more than is left of a
/// block, and [`Overflow`](forgeni::Overflow), whose reservers go on to handles that all share.
///
/// ```
/// use forgeni::{Blocks, Deals, Entities, Phase, Reserver};
///
/// /// Ends a phase in blocks of either kind, if all of its reservers are there.
/// fn end<S: Deals>(phase: Phase<S>, all: Vec<Reserver<S>>) -> Option<Entities> {
///     phase.close(all).ok()?.into_entities().ok()
/// }
///
/// let (phase, reservers) = Entities::new().share_in::<Blocks>(&[10])?;
/// assert!(end(phase, reservers).is_some());
/// # Ok::<(), Box<dyn std::error::Error + Send + Sync>>(())
/// ```
pub trait Deals: InBlocks<Closed = Ended> {
    /// Whether there may be so many blocks.
    ghost may_have: { ℕ → Type 0 };

    /// Returns `true` if there may be so many blocks.
    fn fits(count: usize) -> bool
        ensures { IsTrue result ↔ may_have count };

    /// Deals the pool's front in blocks of these sizes, one after the other: a block is smaller
    /// where the pool ends. The reservers are in the order of the sizes.
    ///
    /// # Errors
    ///
    /// [`Memory`], with the allocator as it was, if an allocation fails, and for no other reason.
    fn deal(
        alloc: Global,
        entities: Entities,
        sizes: &[u32],
    ) -> Result<(Self, Vec<Self::Reserver>), (Entities, Memory)>
    where
        Self: Sized,
        requires flushed { entities.allocator.asked ≡ 0 }
        requires few { may_have (length sizes.now) }
        ensures start { IfOk result (λ made. Self.start made.0 ≡ entities.allocator) }
        ensures rows { IfOk result (λ made. Self.rows made.0 ≡ entities.rows) }
        ensures blocks { IfOk result (λ made. Self.blocks made.0
            ≡ blocks_from 0 (length entities.allocator.pool) sizes.now) }
        ensures reservers { IfOk result (λ made. map Self.block made.1.items ≡ Self.blocks made.0) }
        ensures own { IfOk result (λ made. All (Self.serves made.0) made.1.items) }
        ensures takes { IfOk result (λ made. Self.takes made.0 made.1.items) }
        ensures count { IfOk result (λ made. length made.1.items ≡ Self.count made.0) }
        ensures many { IfOk result (λ made. length made.1.items ≡ length sizes.now) }
        ensures fresh { IfOk result (λ made. All Self.fresh made.1.items) }
        ensures err { IfErr result (λ refused. refused.0 ≡ entities) };

    // A phase that has ended began with the same allocator.
    ghost start_is: { (s : Self) (all : List Self.Reserver) (c : EndedValue)
        → Self.Phased.closes s all c → c.phase.start ≡ Self.Source.start s };

    ghost start_lost_is: { (s : Self) (all : List Self.Reserver) (c : EndedValue)
        → Self.Phased.closes_lost s all c → c.phase.start ≡ Self.Source.start s };

    ghost rows_lost_are: { (s : Self) (all : List Self.Reserver) (c : EndedValue)
        → Self.Phased.closes_lost s all c → c.phase.rows ≡ Self.Source.rows s };

    ghost rows_are: { (s : Self) (all : List Self.Reserver) (c : EndedValue)
        → Self.Phased.closes s all c → c.phase.rows ≡ Self.Source.rows s };
}
