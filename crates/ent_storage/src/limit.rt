ghost use Rattle.std.specs.Prelude.{◌≡◌, ◌↔◌, IsTrue};
ghost use Rattle.ent_storage.specs.HandleMap.{IsBeyond};

use ent_handle::Handle;
use std::marker::Model;

/// For how many slots a map may have values, from slot 0 on.
///
/// It is kept as the first handle, in the order of handles, that the map refuses.
#[derive(Drop)]
pub(crate) struct Limit {
    end: Handle,
}

impl Model for Limit {
    ghost use Rattle.std.specs.Prelude.{ℕ};
    ghost use Rattle.std.specs.Coded.{coded_ℕ};
    ghost use Rattle.ent_storage.specs.Limit.{limit_of, IsEnd};

    ghost Value = { ℕ };

    ghost coded = { coded_ℕ };

    ghost view = { λ l. limit_of l.end };

    ghost invariant = { λ l. IsEnd l.end };
}

impl Limit {
    /// The limit of that many slots. The greatest number is no limit: there are no more slots.
    pub(crate) fn of(slots: u32) -> Self
        ensures { result ≡ slots }
    {
        let end = match Handle::new(slots, 1) {
            Some(first) => first,
            None => Handle::from_parts(u32::MAX - 1, (1 << 31) - 1),
        };
        Limit { end }
    }

    /// How many slots it is.
    pub(crate) fn slots(&self) -> u32
        ensures { result ≡ self.now }
    {
        if self.end.generation() == 1 {
            self.end.index()
        } else {
            u32::MAX
        }
    }

    /// Whether the map takes no value for the handle.
    pub(crate) fn refuses(&self, handle: Handle) -> bool
        ensures { IsTrue result ↔ IsBeyond self.now handle }
    {
        // The second comparison implies the first one. But that one costs less, and for most
        // handles it is the only one made.
        handle.index() >= self.end.index() && handle >= self.end
    }
}
