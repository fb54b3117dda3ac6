//! A world whose allocator is in a phase in blocks.
ghost use Rattle.std.specs.Prelude.{◌≡◌, All, IfOk, IfErr, length, map};
ghost use Rattle.ent_blocks.specs.Blocks.{blocks_from};
ghost use Rattle.ent_world.specs.InBlocks.{BelongTogether, world_with};

use crate::view::View;
use crate::world::World;
use crate::world_rest::WorldRest;
use ent_blocks::Deals;
use ent_handle::{HandedBack, Memory};
use std::alloc::Global;
use std::marker::Model;

/// What deals the handles of a world, and the rest of the world.
#[derive(Drop)]
pub struct Dealt<S: Deals> {
    source: S,
    rest: WorldRest,
}

impl<S: Deals> Model for Dealt<S> {
    ghost use Rattle.ent_world.specs.InBlocks.{Dealt, dealt_code, BelongTogether};

    ghost Value = { Dealt S };

    ghost coded = { dealt_code S.code };

    ghost view = { λ d. record { source = d.source; rest = d.rest } };

    ghost invariant = { λ d. BelongTogether (S.start d.source) (S.rows d.source) d.rest };
}

impl World {
    /// Deals the front of the allocator's pool in blocks of these sizes, as [`Deals::deal`] does.
    ///
    /// # Errors
    ///
    /// [`HandedBack`] has the world as it was, if an allocation fails, and for no other reason.
    pub fn deal_blocks<S: Deals>(
        self,
        alloc: Global,
        sizes: &[u32],
    ) -> Result<(Dealt<S>, Vec<S::Reserver>), HandedBack<Self, Memory>>
        requires flushed { self.allocator.asked ≡ 0 }
        requires few { S.may_have (length sizes.now) }
        ensures world { IfOk result (λ made.
            world_with (S.start made.0.source) made.0.rest ≡ self) }
        ensures blocks { IfOk result (λ made. S.blocks made.0.source
            ≡ blocks_from 0 (length self.allocator.pool) sizes.now) }
        ensures reservers { IfOk result (λ made.
            map S.block made.1.items ≡ S.blocks made.0.source) }
        ensures own { IfOk result (λ made. All (S.serves made.0.source) made.1.items) }
        ensures takes { IfOk result (λ made. S.takes made.0.source made.1.items) }
        ensures count { IfOk result (λ made. length made.1.items ≡ S.count made.0.source) }
        ensures many { IfOk result (λ made. length made.1.items ≡ length sizes.now) }
        ensures fresh { IfOk result (λ made. All S.fresh made.1.items) }
        ensures err { IfErr result (λ h. h.value ≡ self) }
    {
        let (entities, rest) = self.apart();
        match S::deal(alloc, entities, sizes) {
            Ok((source, callers)) => Ok((Dealt { source, rest }, callers)),
            Err((entities, error)) => Err(HandedBack::new(rest.with(entities), error)),
        }
    }
}

impl<S: Deals> Dealt<S> {
    /// What deals the handles.
    #[inline(always)]
    pub fn dealer(&self) -> &S
        ensures { result.now ≡ self.now.source }
    {
        &self.source
    }

    /// The world as it was when the phase was opened.
    pub fn view(&self) -> View<'_>
        ensures phase { result.phase ≡ self.now.rest.phase }
        ensures entities { result.entities ≡ self.now.rest.store.entities }
    {
        self.rest.view(self.source.as_opened())
    }

    /// What deals the handles, and the rest of the world.
    pub fn into_parts(self) -> (S, WorldRest)
        ensures source { result.0 ≡ self.source }
        ensures rest { result.1 ≡ self.rest }
        ensures parts { BelongTogether (S.start result.0) (S.rows result.0) result.1 }
    {
        let Dealt { source, rest } = self;
        (source, rest)
    }
}
