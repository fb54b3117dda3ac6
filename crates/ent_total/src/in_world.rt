//! A world in a phase in blocks.
ghost use Rattle.std.specs.Prelude.{◌≡◌, ◌<◌, All, IfOk, IfErr, IsErrAnd, length};
ghost use Rattle.ent_blocks.specs.Ending.{TakesAnew};
ghost use Rattle.ent_total.specs.InBlocks.{HasDealt};
ghost use Rattle.ent_total.specs.InWorld.{view_in};
ghost use Rattle.ent_total.specs.Opening.{IsUnopened};
ghost use Rattle.ent_world.specs.InBlocks.{world_with, world_after};
ghost use Rattle.ent_world.specs.World.{IsWorld};

use crate::numbering::Numbering;
use crate::opening::{Opening, begin};
use crate::phase::Phase;
use crate::share_error::ShareError;
use crate::world::World;
use ent_alloc::{Entities, Phased, Refused, Reserved, Source};
use ent_blocks::{Deals, Ended, InBlocks};
use ent_handle::{HandedBack, Handle, Memory};
use ent_world::{Dealt, View, WorldRest};
use std::alloc::Global;
use std::marker::Model;

/// The source of a world's phase: it serves as `S` does, and has the rest of the world.
///
/// ```
/// use forgeni::{Blocks, World};
///
/// let (phase, mut reservers) = World::new().open_in::<Blocks>(&[10; 4])?;
/// std::thread::scope(|scope| {
///     for mine in &mut reservers {
///         scope.spawn(|| mine.reserve_many(10));
///     }
/// });
/// let mut world = phase.close(reservers)?.into_world()?;
/// world.flush()?;
/// assert_eq!(world.len(), 40);
/// # Ok::<(), Box<dyn std::error::Error + Send + Sync>>(())
/// ```
#[derive(Drop)]
pub struct InWorld<S: Deals> {
    pub(crate) dealt: Dealt<S>,
    pub(crate) of_world: u64,
    pub(crate) spawned: u32,
}

impl<S: Deals> Model for InWorld<S> {
    ghost use Rattle.ent_total.specs.InWorld.{InWorld, in_world_code};

    ghost Value = { InWorld S };

    ghost coded = { in_world_code S.code };

    ghost view = { λ w. record {
      source = w.dealt.source;
      rest = w.dealt.rest;
      of_world = w.of_world;
      spawned = w.spawned;
    } };
}

impl<S: Deals> Source for InWorld<S> {
    type Reserver = S::Reserver;

    ghost serves = { λ w reserver. S.serves w.source reserver };

    ghost may_reply = { λ w before after n reply. S.may_reply w.source before after n reply };

    ghost may_give = { λ w reserver n. S.may_give w.source reserver n };

    ghost start = { λ w. S.start w.source };

    ghost rows = { λ w. S.rows w.source };

    fn was_alive(&self, handle: Handle) -> bool {
        self.dealt.dealer().was_alive(handle)
    }

    fn had_row(&self, handle: Handle) -> Option<u32> {
        self.dealt.dealer().had_row(handle)
    }

    fn may_serve(&self, reserver: &S::Reserver, n: u32) -> bool {
        self.dealt.dealer().may_serve(reserver, n)
    }

    #[inline(always)]
    fn serve_one(&self, reserver: &mut S::Reserver) -> Result<Handle, Refused> {
        self.dealt.dealer().serve_one(reserver)
    }

    #[inline(always)]
    fn serve_many(&self, reserver: &mut S::Reserver, n: u32) -> Result<Reserved<'_>, Refused> {
        self.dealt.dealer().serve_many(reserver, n)
    }
}

impl<S: Deals> Phased for InWorld<S> {
    ghost use Rattle.std.specs.Prelude.{◌≡◌, ◌≤◌, All, length};
    ghost use Rattle.ent_total.specs.InWorld.{IsEndOf};

    type Closed = EndedWorld;

    ghost count = { λ w. S.count w.source };

    ghost takes = { λ w reservers. S.takes w.source reservers };

    ghost closes = { λ w reservers end.
        IsEndOf w end (S.closes w.source reservers) };

    ghost closes_lost = { λ w reservers end.
        IsEndOf w end (S.closes_lost w.source reservers) };

    fn callers(&self) -> usize {
        self.dealt.dealer().callers()
    }

    fn as_opened(&self) -> &Entities {
        self.dealt.dealer().as_opened()
    }

    fn may_take(&self, reservers: &[S::Reserver]) -> bool {
        self.dealt.dealer().may_take(reservers)
    }

    fn end_with_all(self, reservers: Vec<S::Reserver>) -> EndedWorld
        requires own { All (S.serves self.source) reservers.items }
        requires takes { S.takes self.source reservers.items }
        requires all { length reservers.items ≡ S.count self.source }
        ensures { IsEndOf self result (S.closes self.source reservers.items) }
    {
        let InWorld {
            dealt,
            of_world,
            spawned,
        } = self;
        let (source, rest) = dealt.into_parts();
        EndedWorld {
            ended: source.end_with_all(reservers),
            rest,
            of_world,
            spawned,
        }
    }

    fn end_with_some(self, reservers: Vec<S::Reserver>) -> EndedWorld
        requires own { All (S.serves self.source) reservers.items }
        requires takes { S.takes self.source reservers.items }
        requires few { length reservers.items ≤ S.count self.source }
        ensures { IsEndOf self result (S.closes_lost self.source reservers.items) }
    {
        let InWorld {
            dealt,
            of_world,
            spawned,
        } = self;
        let (source, rest) = dealt.into_parts();
        EndedWorld {
            ended: source.end_with_some(reservers),
            rest,
            of_world,
            spawned,
        }
    }
}

impl<J: Numbering, S: Deals> Phase<J, InWorld<S>> {
    /// Returns a view of the world, like the one that a system of a frame gets.
    ///
    /// ```
    /// use forgeni::{Blocks, ComponentId, World};
    ///
    /// const AGE: ComponentId = ComponentId(0);
    ///
    /// let mut world = World::new();
    /// let oak = world.spawn(&[(AGE, 80)])?;
    /// let (phase, _reservers) = world.open_in::<Blocks>(&[10])?;
    /// assert_eq!(phase.view().get(oak, AGE), Some(80));
    /// # Ok::<(), Box<dyn std::error::Error>>(())
    /// ```
    #[must_use]
    pub fn view(&self) -> View<'_>
        ensures { result ≡ view_in self.now.source }
    {
        self.server().view()
    }
}

impl<S: Deals> InWorld<S> {
    /// The world as it was when the phase was opened.
    pub(crate) fn view(&self) -> View<'_>
        ensures { result ≡ view_in self.now }
    {
        self.dealt.view()
    }
}

impl<S: Deals> InBlocks for InWorld<S> {
    ghost blocks = { λ w. S.blocks w.source };

    ghost block = { S.block };

    ghost wants = { S.wants };

    ghost fresh = { S.fresh };

    fn size_of(reserver: &S::Reserver) -> u32 {
        S::size_of(reserver)
    }

    fn used_of(reserver: &S::Reserver) -> u32 {
        S::used_of(reserver)
    }

    fn wanted_of(reserver: &S::Reserver) -> u32 {
        S::wanted_of(reserver)
    }
}

/// Deals the front of the world's pool in blocks of these sizes, one after the other: a block is
/// smaller where the pool ends. The reservers are in the order of the sizes.
///
/// # Errors
///
/// [`HandedBack`] has the world as it was, and the first of these errors that applies:
/// [`ShareError::NeedsFlush`], [`ShareError::Count`] if the source has no form for so many blocks,
/// [`ShareError::Memory`].
pub fn open_in<J: Numbering, S: Deals>(
    alloc: Global,
    world: World,
    sizes: &[u32],
) -> Result<Opening<J, InWorld<S>>, HandedBack<World, ShareError>>
    ensures world { IfOk result (λ o.
        world_with (S.start o.source.source) o.source.rest ≡ world.world) }
    ensures same { IfOk result (λ o.
        (o.source.of_world ≡ world.number) × (o.source.spawned ≡ world.spawned)) }
    ensures dealt { IfOk result (λ o. HasDealt S.blocks S.block S.takes S.fresh
        (length world.world.allocator.pool) sizes.now o.source.source o.returned) }
    ensures refused { IsUnopened world.world.allocator.asked (¬ (S.may_have (length sizes.now)))
        (λ why. IsErrAnd result (λ h. h.error ≡ why)) }
    ensures handed_back { IfErr result (λ h. h.value ≡ world) }
{
    if world.needs_flush() {
        return Err(HandedBack::new(world, ShareError::NeedsFlush));
    }
    if !S::fits(sizes.len()) {
        return Err(HandedBack::new(world, ShareError::Count));
    }
    let Ok(reservers) = Vec::with_capacity(alloc, sizes.len()) else {
        return Err(HandedBack::new(world, ShareError::Memory));
    };
    let World {
        world,
        number: of_world,
        spawned,
    } = world;
    let (dealt, callers) = match world.deal_blocks(alloc, sizes) {
        Ok(made) => made,
        Err(back) => {
            let (world, _) = back.into_parts();
            let world = World {
                world,
                number: of_world,
                spawned,
            };
            return Err(HandedBack::new(world, ShareError::Memory));
        }
    };
    let source = InWorld {
        dealt,
        of_world,
        spawned,
    };
    match begin(alloc, source, callers, reservers) {
        Ok(opening) => Ok(opening),
        Err((source, callers)) => {
            let world = source.end_with_all(callers).cancel();
            Err(HandedBack::new(world, ShareError::Memory))
        }
    }
}

/// A world whose phase in blocks has ended, in which what was used is not yet reserved.
///
/// ```
/// use forgeni::{Overflow, World};
///
/// let (phase, mut reservers) = World::new().open_in::<Overflow>(&[10])?;
/// reservers[0].reserve_many(10)?;
/// let ended = phase.close(reservers)?;
/// // Nothing was requested past the block, so no handle depends on a thread.
/// assert_eq!(ended.requested_past(), 0);
/// let mut world = ended.into_world()?;
/// world.flush()?;
/// assert_eq!(world.len(), 10);
/// # Ok::<(), Box<dyn std::error::Error + Send + Sync>>(())
/// ```
#[must_use]
#[derive(Drop)]
pub struct EndedWorld {
    ended: Ended,
    rest: WorldRest,
    of_world: u64,
    spawned: u32,
}

impl Model for EndedWorld {
    ghost use Rattle.ent_total.specs.InWorld.{EndedWorld, ended_world_code};
    ghost use Rattle.ent_world.specs.InBlocks.{BelongTogether};

    ghost Value = { EndedWorld };

    ghost coded = { ended_world_code };

    ghost view = { λ w. record {
      ended = w.ended;
      rest = w.rest;
      of_world = w.of_world;
      spawned = w.spawned;
    } };

    ghost invariant = { λ w. BelongTogether w.ended.phase.start w.ended.phase.rows w.rest };
}

impl EndedWorld {
    /// Returns the number of handles that were requested past a block, as
    /// [`Ended::requested_past`](ent_blocks::Ended::requested_past) does.
    ///
    /// ```
    /// use forgeni::{Overflow, World};
    ///
    /// let (phase, mut reservers) = World::new().open_in::<Overflow>(&[10, 10])?;
    /// reservers[0].reserve_many(10)?;
    /// reservers[0].reserve_many(5)?;
    /// assert_eq!(phase.close(reservers)?.requested_past(), 5);
    /// # Ok::<(), Box<dyn std::error::Error + Send + Sync>>(())
    /// ```
    pub fn requested_past(&self) -> u64
        ensures { result ≡ self.now.ended.requested }
    {
        self.ended.requested_past()
    }

    /// Returns the world as it was when the phase was opened: nothing is reserved.
    ///
    /// ```
    /// use forgeni::{Blocks, World};
    ///
    /// let (phase, mut reservers) = World::new().open_in::<Blocks>(&[10])?;
    /// let first = reservers[0].reserve()?;
    /// let mut world = phase.close(reservers)?.cancel();
    /// // The handle is given again, so it must not be used any more.
    /// assert_eq!(world.spawn(&[])?, first);
    /// # Ok::<(), Box<dyn std::error::Error + Send + Sync>>(())
    /// ```
    pub fn cancel(self) -> World
        ensures world { result.world ≡ world_with self.ended.phase.start self.rest }
        ensures same { (result.number ≡ self.of_world) × (result.spawned ≡ self.spawned) }
    {
        World {
            world: self.rest.with(self.ended.cancel()),
            number: self.of_world,
            spawned: self.spawned,
        }
    }

    /// Returns the world, in which what was used is reserved: a flush or a sync point brings it to
    /// life. What is left of the blocks is given next, in the same order.
    ///
    /// ```
    /// use forgeni::{Blocks, World};
    ///
    /// let (phase, mut reservers) = World::new().open_in::<Blocks>(&[10, 10])?;
    /// let one = reservers[1].reserve()?;
    /// let mut world = phase.close(reservers)?.into_world()?;
    /// world.flush()?;
    /// assert!(world.contains(one) && world.len() == 1);
    /// # Ok::<(), Box<dyn std::error::Error + Send + Sync>>(())
    /// ```
    ///
    /// # Errors
    ///
    /// [`HandedBack`] has this value, if an allocation fails, and for no other reason. The call can
    /// be tried again.
    pub fn into_world(self) -> Result<World, HandedBack<Self, Memory>>
        ensures after { IfOk result (λ w. w.world
            ≡ world_after (world_with self.ended.phase.start self.rest) self.ended.phase.blocks) }
        ensures world { IfOk result (λ w. IsWorld w.world
            × TakesAnew self.ended.phase.start w.world.allocator) }
        ensures same { IfOk result (λ w.
            (w.number ≡ self.of_world) × (w.spawned ≡ self.spawned)) }
        ensures ended { IfErr result (λ h. (h.value.ended ≡ self.ended)
            × (h.value.of_world ≡ self.of_world) × (h.value.spawned ≡ self.spawned)) }
        ensures rest { IfErr result (λ h. (h.value.rest.phase ≡ self.rest.phase)
            × (h.value.rest.store.entities ≡ self.rest.store.entities)) }
    {
        let EndedWorld {
            ended,
            rest,
            of_world,
            spawned,
        } = self;
        match rest.settle(ended) {
            Ok(world) => Ok(World {
                world,
                number: of_world,
                spawned,
            }),
            Err(back) => {
                let ((rest, ended), error) = back.into_parts();
                let world = EndedWorld {
                    ended,
                    rest,
                    of_world,
                    spawned,
                };
                Err(HandedBack::new(world, error))
            }
        }
    }
}
