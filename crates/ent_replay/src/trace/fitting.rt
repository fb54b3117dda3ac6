//! Whether what a line says was answered is what the allocator answers.
ghost use Rattle.std.specs.Prelude.{◌≡◌, ◌↔◌, IsTrue};
ghost use Rattle.ent_replay.specs.Trace.{FitsFreed, FitsBorn, FitsReserved};

use crate::handle_list::HandleList;
use crate::trace::reply::{FlushReply, FreeReply, ReserveReply};
use ent_alloc::Space;
use ent_handle::Handle;

/// Whether the lists are the same.
fn same(told: &[Handle], given: &[Handle]) -> bool
    ensures { IsTrue result ↔ (told.now ≡ given.now) }
{
    told == given
}

pub(super) fn fits_freed(told: FreeReply, given: FreeReply) -> bool
    ensures { IsTrue result ↔ FitsFreed told given }
{
    if told == FreeReply::Freed {
        matches!(given, FreeReply::Next(_) | FreeReply::Retired)
    } else {
        told == given
    }
}

pub(super) fn fits_born(told: &FlushReply, given: &HandleList) -> bool
    ensures { IsTrue result ↔ FitsBorn told.now given.now }
{
    match told {
        FlushReply::Born(told) => same(told.as_slice(), given.as_slice()),
        FlushReply::Count(told) => *told as usize == given.len(),
    }
}

pub(super) fn fits_reserved(told: &ReserveReply, given: &Result<HandleList, Space>) -> bool
    ensures { IsTrue result ↔ FitsReserved told.now given.now }
{
    match (told, given) {
        (ReserveReply::Handles(told), Ok(given)) => same(told.as_slice(), given.as_slice()),
        (ReserveReply::Space, Err(_)) => true,
        (ReserveReply::SpaceLeft(told), Err(space)) => *told == space.left,
        _ => false,
    }
}
