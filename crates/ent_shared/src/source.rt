use crate::reserver::Reserver;
use crate::shared::Shared;
use ent_alloc::{Entities, Phased, Refused, Reserved, Source};
use ent_handle::Handle;

/// A reservation is one atomic step of the cursor that all reservers share.
impl Source for Shared {
    ghost use Rattle.std.specs.Prelude.{◌≤◌, length};
    ghost use Rattle.ent_shared.specs.Phase.{IsOf};
    ghost use Rattle.ent_shared.specs.Replies.{IsReturned};

    type Reserver = Reserver;

    ghost serves = { λ shared reserver. IsOf shared reserver };

    ghost may_reply = { λ shared before after n reply. IsReturned shared before after n reply };

    // The quota has so many handles, and the pool had so many when the phase was opened.
    ghost may_give = { λ shared reserver n.
        (n ≤ reserver.own.left) × (n ≤ length shared.start.pool) };

    ghost start = { λ shared. shared.start };

    ghost rows = { λ shared. shared.rows };

    fn was_alive(&self, handle: Handle) -> bool {
        self.is_alive(handle)
    }

    fn had_row(&self, handle: Handle) -> Option<u32> {
        self.row(handle)
    }

    fn may_serve(&self, reserver: &Reserver, n: u32) -> bool {
        let n = u64::from(n);
        n <= reserver.left() && n <= self.pool()
    }

    #[inline(always)]
    fn serve_one(&self, reserver: &mut Reserver) -> Result<Handle, Refused> {
        self.reserve(reserver)
    }

    #[inline(always)]
    fn serve_many(&self, reserver: &mut Reserver, n: u32) -> Result<Reserved<'_>, Refused> {
        self.reserve_many(reserver, n)
    }
}

/// It ends with the allocator, and takes its reservers back in any order.
impl Phased for Shared {
    ghost use Rattle.std.specs.Prelude.{◌≡◌, All, length};
    ghost use Rattle.ent_alloc.specs.Entities.{HasRowsOfLiving};
    ghost use Rattle.ent_shared.specs.Ending.{EndsWithAll, EndsWithSome};
    ghost use Rattle.ent_shared.specs.Phase.{IsOf};

    type Closed = Entities;

    ghost count = { λ shared. shared.count };

    ghost takes = { λ shared reservers. Unit {0} };

    ghost closes = { λ shared reservers entities.
        EndsWithAll shared reservers entities.allocator
        × (entities.rows ≡ shared.rows) × HasRowsOfLiving entities };

    ghost closes_lost = { λ shared reservers entities.
        EndsWithSome shared reservers entities.allocator
        × (entities.rows ≡ shared.rows) × HasRowsOfLiving entities };

    fn callers(&self) -> usize {
        self.count()
    }

    fn as_opened(&self) -> &Entities {
        self.opened()
    }

    fn may_take(&self, _reservers: &[Reserver]) -> bool {
        true
    }

    fn end_with_all(self, reservers: Vec<Reserver>) -> Entities
        requires own { All (IsOf self) reservers.items }
        requires all { length reservers.items ≡ self.count }
        ensures { EndsWithAll self reservers.items result.allocator
            × (result.rows ≡ self.rows) × HasRowsOfLiving result }
    {
        self.close(reservers)
    }

    fn end_with_some(self, reservers: Vec<Reserver>) -> Entities
        requires { All (IsOf self) reservers.items }
        ensures { EndsWithSome self reservers.items result.allocator
            × (result.rows ≡ self.rows) × HasRowsOfLiving result }
    {
        self.close_lost(reservers)
    }
}
