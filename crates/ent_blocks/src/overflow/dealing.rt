//! The dealer reserves all blocks, and every other reserver comes after it.
ghost use Rattle.std.specs.Prelude.{pos, ◌-ℤ◌, ◌≤ℤ◌};
ghost use Rattle.ent_alloc.specs.Sequential.{cursor};
ghost use Rattle.ent_shared.specs.Phase.{IsOf as IsReserverOf};
ghost use Rattle.ent_blocks.specs.Overflow.{IsDealer, IsFresh};

use ent_shared::{Reserver, Shared};

/// Reserves that many handles, as the first reservation of the phase if no other reserver has
/// begun.
pub(super) fn deal(shared: &Shared, dealer: &mut Reserver, count: u32)
    requires { IsFresh shared.now dealer.old }
    ensures of { IsReserverOf shared.now dealer.new }
    ensures dealt { IsDealer count dealer.new.own }
    ensures mark { dealer.new.own.mark ≤ℤ (cursor shared.now.start -ℤ pos count) }
{
    if count > 0 {
        let _blocks = shared.reserve_many(dealer, count);
    }
}
