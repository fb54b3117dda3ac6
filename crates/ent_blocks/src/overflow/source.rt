use crate::deals::Deals;
use crate::ended::Ended;
use crate::in_blocks::InBlocks;
use crate::overflow::opening::open_with_overflow;
use crate::overflow::phase::Overflow;
use crate::overflow::reserver::OverflowReserver;
use ent_alloc::{Entities, Phased, Refused, Reserved, Source};
use ent_handle::{Handle, Memory};
use std::alloc::Global;

/// A reservation takes the next handles of the reserver's own block as long as it lasts. Past it,
/// it is one atomic step of the cursor that all reservers share.
impl Source for Overflow {
    ghost use Rattle.ent_blocks.specs.Overflow.{IsCallerOf, IsServed, MayBeServed};

    type Reserver = OverflowReserver;

    ghost serves = { λ phase caller. IsCallerOf phase caller };

    ghost may_reply = { λ phase before after n reply. IsServed phase before after n reply };

    ghost may_give = { λ phase caller n. MayBeServed phase caller n };

    ghost start = { λ phase. phase.shared.start };

    ghost rows = { λ phase. phase.shared.rows };

    fn was_alive(&self, handle: Handle) -> bool {
        self.is_alive(handle)
    }

    fn had_row(&self, handle: Handle) -> Option<u32> {
        self.row(handle)
    }

    fn may_serve(&self, caller: &OverflowReserver, n: u32) -> bool {
        n <= caller.left() || self.may_be_served_past(caller, n)
    }

    #[inline(always)]
    fn serve_one(&self, caller: &mut OverflowReserver) -> Result<Handle, Refused> {
        self.reserve(caller)
    }

    #[inline(always)]
    fn serve_many(&self, caller: &mut OverflowReserver, n: u32) -> Result<Reserved<'_>, Refused> {
        self.reserve_many(caller, n)
    }
}

/// It [ends](Ended) without memory, and takes its callers back in the order in which they were made.
impl Phased for Overflow {
    ghost use Rattle.std.specs.Prelude.{◌≡◌, All, IsTrue, length};
    ghost use Rattle.ent_blocks.specs.Blocks.{are_among};
    ghost use Rattle.ent_blocks.specs.Overflow.{IsCallerOf, own_blocks};
    ghost use Rattle.ent_blocks.specs.PastEnding.{EndsWithAll, EndsWithSome};

    type Closed = Ended;

    ghost count = { λ phase. length phase.blocks };

    ghost takes = { λ phase callers. IsTrue (are_among phase.blocks (own_blocks callers)) };

    ghost closes = { λ phase callers ended. EndsWithAll phase callers ended };

    ghost closes_lost = { λ phase callers ended. EndsWithSome phase callers ended };

    fn callers(&self) -> usize {
        self.count()
    }

    fn as_opened(&self) -> &Entities {
        self.opened()
    }

    fn may_take(&self, callers: &[OverflowReserver]) -> bool {
        self.has_in_order(callers)
    }

    fn end_with_all(self, callers: Vec<OverflowReserver>) -> Ended
        requires own { All (IsCallerOf self) callers.items }
        requires among { IsTrue (are_among self.blocks (own_blocks callers.items)) }
        requires all { length callers.items ≡ length self.blocks }
        ensures { EndsWithAll self callers.items result }
    {
        self.close(callers)
    }

    fn end_with_some(self, callers: Vec<OverflowReserver>) -> Ended
        requires own { All (IsCallerOf self) callers.items }
        requires among { IsTrue (are_among self.blocks (own_blocks callers.items)) }
        ensures { EndsWithSome self callers.items result }
    {
        self.close_lost(callers)
    }
}

impl InBlocks for Overflow {
    ghost use Rattle.std.specs.Prelude.{◌+◌, ◌-◌, ◌^◌, min};
    ghost use Rattle.ent_blocks.specs.Overflow.{IsUnused};
    ghost use Rattle.ent_shared.specs.Record.{requested_by};

    ghost blocks = { λ phase. phase.blocks };

    ghost block = { λ caller. caller.block };

    ghost wants = { λ caller. min (caller.block.used + requested_by caller.past.own) (2 ^ 32 - 1) };

    ghost fresh = { λ caller. IsUnused caller };

    fn size_of(caller: &OverflowReserver) -> u32 {
        caller.size()
    }

    fn used_of(caller: &OverflowReserver) -> u32 {
        caller.used()
    }

    fn wanted_of(caller: &OverflowReserver) -> u32 {
        caller.wanted()
    }
}

/// Blocks whose reservers go on to one cursor that all share: at most 1,023 of them.
impl Deals for Overflow {
    ghost use Rattle.std.specs.Prelude.{◌≡◌, ◌<◌};

    ghost may_have = { λ count. count < 1024 };

    ghost start_is = { λ phase callers ended is. is.start };

    ghost start_lost_is = { λ phase callers ended is. is.start };

    ghost rows_lost_are = { λ phase callers ended is. is.rows };

    ghost rows_are = { λ phase callers ended is. is.rows };

    fn fits(count: usize) -> bool {
        count < 1024
    }

    fn deal(
        alloc: Global,
        entities: Entities,
        sizes: &[u32],
    ) -> Result<(Self, Vec<OverflowReserver>), (Entities, Memory)> {
        open_with_overflow(alloc, entities, sizes)
    }
}
