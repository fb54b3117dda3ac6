use crate::block_reserver::BlockReserver;
use crate::blocks::Blocks;
use crate::deals::Deals;
use crate::ended::Ended;
use crate::in_blocks::InBlocks;
use crate::opening::open_in_blocks;
use ent_alloc::{Entities, Phased, Refused, Reserved, Source};
use ent_handle::{Handle, Memory};
use std::alloc::Global;

/// A reservation takes the next handles of the reserver's own block.
impl Source for Blocks {
    ghost use Rattle.std.specs.Prelude.{◌≤◌};
    ghost use Rattle.ent_blocks.specs.Drawing.{IsDrawn, IsOfPhase, left_of};

    type Reserver = BlockReserver;

    ghost serves = { λ blocks reserver. IsOfPhase blocks reserver };

    ghost may_reply = { λ blocks before after n reply. IsDrawn blocks before after n reply };

    ghost may_give = { λ blocks reserver n. n ≤ left_of reserver.block };

    ghost start = { λ blocks. blocks.start };

    ghost rows = { λ blocks. blocks.rows };

    fn was_alive(&self, handle: Handle) -> bool {
        self.opened().is_alive(handle)
    }

    fn had_row(&self, handle: Handle) -> Option<u32> {
        self.opened().row(handle)
    }

    fn may_serve(&self, reserver: &BlockReserver, n: u32) -> bool {
        n <= reserver.left()
    }

    #[inline(always)]
    fn serve_one(&self, reserver: &mut BlockReserver) -> Result<Handle, Refused> {
        self.reserve(reserver)
    }

    #[inline(always)]
    fn serve_many(&self, reserver: &mut BlockReserver, n: u32) -> Result<Reserved<'_>, Refused> {
        self.reserve_many(reserver, n)
    }
}

/// Phases in which no handle depends on a thread.
impl Phased for Blocks {
    ghost use Rattle.std.specs.Prelude.{◌≡◌, All, IsTrue, length};
    ghost use Rattle.ent_blocks.specs.Blocks.{IsOf, are_among, blocks_of};
    ghost use Rattle.ent_blocks.specs.Ending.{EndsWithAll, EndsWithSome};

    type Closed = Ended;

    ghost count = { λ phase. length phase.blocks };

    ghost takes = { λ phase reservers. IsTrue (are_among phase.blocks (blocks_of reservers)) };

    ghost closes = { λ phase reservers ended. EndsWithAll phase reservers ended };

    ghost closes_lost = { λ phase reservers ended. EndsWithSome phase reservers ended };

    fn callers(&self) -> usize {
        self.count()
    }

    fn as_opened(&self) -> &Entities {
        self.opened()
    }

    fn may_take(&self, reservers: &[BlockReserver]) -> bool {
        self.has_in_order(reservers)
    }

    fn end_with_all(self, reservers: Vec<BlockReserver>) -> Ended
        requires own { All (λ r. IsOf self r.block) reservers.items }
        requires among { IsTrue (are_among self.blocks (blocks_of reservers.items)) }
        requires all { length reservers.items ≡ length self.blocks }
        ensures { EndsWithAll self reservers.items result }
    {
        self.close(reservers)
    }

    fn end_with_some(self, reservers: Vec<BlockReserver>) -> Ended
        requires own { All (λ r. IsOf self r.block) reservers.items }
        requires among { IsTrue (are_among self.blocks (blocks_of reservers.items)) }
        ensures { EndsWithSome self reservers.items result }
    {
        self.close_lost(reservers)
    }
}

impl InBlocks for Blocks {
    ghost use Rattle.ent_blocks.specs.Blocks.{IsUnused, wanted_by};

    ghost blocks = { λ phase. phase.blocks };

    ghost block = { λ reserver. reserver.block };

    ghost wants = { λ reserver. wanted_by reserver };

    ghost fresh = { λ reserver. IsUnused reserver };

    fn size_of(reserver: &BlockReserver) -> u32 {
        reserver.size()
    }

    fn used_of(reserver: &BlockReserver) -> u32 {
        reserver.used()
    }

    fn wanted_of(reserver: &BlockReserver) -> u32 {
        reserver.wanted()
    }
}

/// Blocks that refuse a request for more than they have left: any number of them.
impl Deals for Blocks {
    ghost use Rattle.std.specs.Prelude.{◌≡◌, refl};

    ghost may_have = { λ _. Unit {0} };

    ghost start_is = { λ phase reservers ended is. rw is.is refl };

    ghost start_lost_is = { λ phase reservers ended is. rw is refl };

    ghost rows_lost_are = { λ phase reservers ended is. rw is refl };

    ghost rows_are = { λ phase reservers ended is. rw is.is refl };

    fn fits(_count: usize) -> bool {
        true
    }

    fn deal(
        alloc: Global,
        entities: Entities,
        sizes: &[u32],
    ) -> Result<(Self, Vec<BlockReserver>), (Entities, Memory)> {
        open_in_blocks(alloc, entities, sizes)
    }
}
