//! An allocator is dealt in blocks, and the rest of it is shared.
ghost use Rattle.std.specs.Prelude.{◌≡◌, ◌+◌, ◌<◌, ◌≤◌, ◌++◌, [], IfOk, IfErr, IsTrue, All, length};
ghost use Rattle.std.specs.Prelude.{vec_len};
ghost use Rattle.std.specs.Vec.{vec_capacity};
ghost use Rattle.ent_blocks.specs.Blocks.{are_among, blocks_from};
ghost use Rattle.ent_shared.specs.Phase.{IsOf as IsReserverOf};
ghost use Rattle.ent_blocks.specs.Overflow.{IsCallerOf, IsFresh, IsPhase, IsUnused, Overflow};
ghost use Rattle.ent_blocks.specs.Overflow.{own_blocks, past_history};

use crate::opening::parts_of;
use crate::overflow::dealing::deal;
use crate::overflow::phase::Overflow;
use crate::overflow::reserver::OverflowReserver;
use crate::part::{Part, dealt};
use ent_alloc::Entities;
use ent_handle::Memory;
use ent_shared::{Reserver, Shared, share};
use std::alloc::Global;

/// Deals the pool's front in blocks of these sizes, one after the other, and shares the rest of it:
/// at most 1,023 blocks. A block is smaller where the pool ends.
///
/// No slot is made, and no list of handles. It takes time and memory for each block, however large
/// they are.
///
/// # Errors
///
/// [`Memory`], with the allocator as it was, if an allocation fails, and for no other reason. Some
/// memory is for the cursor, so it may run out without blocks too.
pub fn open_with_overflow(
    alloc: Global,
    entities: Entities,
    sizes: &[u32],
) -> Result<(Overflow, Vec<OverflowReserver>), (Entities, Memory)>
    requires flushed { entities.allocator.asked ≡ 0 }
    requires few { length sizes.now < 1024 }
    ensures start { IfOk result (λ made. made.0.shared.start ≡ entities.allocator) }
    ensures rows { IfOk result (λ made. made.0.shared.rows ≡ entities.rows) }
    ensures blocks { IfOk result (λ made. made.0.blocks
        ≡ blocks_from 0 (length entities.allocator.pool) sizes.now) }
    ensures reservers { IfOk result (λ made. own_blocks made.1.items ≡ made.0.blocks) }
    ensures own { IfOk result (λ made. All (IsCallerOf made.0) made.1.items) }
    ensures count { IfOk result (λ made. length made.1.items ≡ length made.0.blocks) }
    ensures many { IfOk result (λ made. length made.1.items ≡ length sizes.now) }
    ensures among { IfOk result (λ made.
        IsTrue (are_among made.0.blocks (own_blocks made.1.items))) }
    ensures nothing { IfOk result (λ made. past_history made.1.items ≡ []) }
    ensures unused { IfOk result (λ made. All IsUnused made.1.items) }
    ensures err { IfErr result (λ refused. refused.0 ≡ entities) }
{
    let count = sizes.len();
    let Ok(parts) = parts_of(alloc, &entities, sizes) else {
        return Err((entities, Memory));
    };
    let Ok(mut callers) = Vec::with_capacity(alloc, count) else {
        return Err((entities, Memory));
    };
    let Ok(ends) = Vec::with_capacity(alloc, count + 1) else {
        return Err((entities, Memory));
    };
    let Ok(returned) = Vec::with_capacity(alloc, count + 1) else {
        return Err((entities, Memory));
    };
    let (shared, mut reservers) = share(alloc, entities, count + 1)?;
    let Some(mut dealer) = reservers.pop() else {
        unreachable!()
    };
    deal(&shared, &mut dealer, dealt(&parts));
    hand_out(&shared, &mut dealer, &parts, &mut reservers, &mut callers);
    Ok((
        Overflow::new(shared, dealer, parts, ends, returned),
        callers,
    ))
}

/// Gives each block one of the reservers, which comes after the dealer from then on.
fn hand_out(
    shared: &Shared,
    dealer: &mut Reserver,
    parts: &[Part],
    reservers: &mut Vec<Reserver>,
    callers: &mut Vec<OverflowReserver>,
)
    requires phase { IsPhase shared.now dealer.old parts.now }
    requires fresh { All (IsFresh shared.now) reservers.old.items }
    requires many { length reservers.old.items ≡ length parts.now }
    requires none { callers.old.items ≡ [] }
    requires room { length parts.now ≤ vec_capacity callers.old }
    ensures dealer { dealer.new ≡ dealer.old }
    ensures blocks { own_blocks callers.new.items ≡ parts.now }
    ensures own { All (IsCallerOf (record {
      shared = shared.now;
      dealer = dealer.old;
      blocks = parts.now;
    })) callers.new.items }
    ensures nothing { past_history callers.new.items ≡ [] }
    ensures unused { All IsUnused callers.new.items }
{
    for part in parts {
        let Some(mut past) = reservers.pop() else {
            unreachable!()
        };
        shared.meet(&mut past, dealer);
        callers.push_reserved(OverflowReserver {
            part: part.with_used(0),
            past,
        });
    }
}
