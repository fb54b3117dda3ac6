//! A reserver reserves for logs of any commands.

use crate::numbering::Numbering;
use crate::reserver::Reserver;
use ent_alloc::{Phased, Refused};
use ent_handle::Handle;
use ent_log::Reserves;

/// It [reserves](Reserver::reserve) the handle.
impl<J: Numbering, S: Phased> Reserves for Reserver<J, S> {
    ghost use Rattle.ent_alloc.specs.Sequential.{listed_alone};
    ghost use Rattle.ent_total.specs.Reserving.{Replies};

    ghost may_reserve = { λ before reply after.
        Replies S.may_reply before after 1 (listed_alone reply) };

    fn reserve_one(&mut self) -> Result<Handle, Refused> {
        self.reserve()
    }
}
