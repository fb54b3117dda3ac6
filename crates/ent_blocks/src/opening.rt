//! An allocator is dealt in blocks.
ghost use Rattle.std.specs.Prelude.{◌≡◌, ◌^◌, ◌<◌, ◌≤◌, IfOk, IfErr, OnErr, All, IsTrue, [], length};
ghost use Rattle.std.specs.Vec.{vec_capacity};
ghost use Rattle.ent_blocks.specs.Blocks.{IsOf, IsUnused, are_among, blocks_from, blocks_of};
ghost use Rattle.ent_blocks.specs.Blocks.{dealt, lesser};

use crate::block_reserver::BlockReserver;
use crate::blocks::Blocks;
use crate::part::Part;
use ent_alloc::Entities;
use ent_handle::Memory;
use std::alloc::Global;

/// Deals the pool's front in blocks of these sizes, one after the other: a block is smaller where
/// the pool ends. The reservers are in the order of the sizes.
///
/// The allocator is as it was: no slot is made, and no list of handles. It takes time and memory
/// for each block, however large they are.
///
/// # Errors
///
/// [`Memory`], with the allocator as it was, if an allocation fails, and for no other reason. With
/// no sizes, it doesn't allocate.
pub fn open_in_blocks(
    alloc: Global,
    entities: Entities,
    sizes: &[u32],
) -> Result<(Blocks, Vec<BlockReserver>), (Entities, Memory)>
    requires flushed { entities.allocator.asked ≡ 0 }
    ensures start { IfOk result (λ made. made.0.start ≡ entities.allocator) }
    ensures rows { IfOk result (λ made. made.0.rows ≡ entities.rows) }
    ensures blocks { IfOk result (λ made. made.0.blocks
        ≡ blocks_from 0 (length entities.allocator.pool) sizes.now) }
    ensures reservers { IfOk result (λ made. blocks_of made.1.items ≡ made.0.blocks) }
    ensures own { IfOk result (λ made. All (λ r. IsOf made.0 r.block) made.1.items) }
    ensures unused { IfOk result (λ made. All IsUnused made.1.items) }
    ensures many { IfOk result (λ made. length made.1.items ≡ length sizes.now) }
    ensures among { IfOk result (λ made.
        IsTrue (are_among made.0.blocks (blocks_of made.1.items))) }
    ensures memory { OnErr result (0 < length sizes.now) }
    ensures err { IfErr result (λ refused. refused.0 ≡ entities) }
{
    // Its contract says that the state is sound.
    let _top = entities.cursor();
    let Ok(mut reservers) = Vec::with_capacity(alloc, sizes.len()) else {
        return Err((entities, Memory));
    };
    let Ok(ends) = Vec::with_capacity(alloc, sizes.len()) else {
        return Err((entities, Memory));
    };
    let Ok(parts) = parts_of(alloc, &entities, sizes) else {
        return Err((entities, Memory));
    };
    hand_out(&parts, &mut reservers);
    Ok((Blocks::new(entities, parts, ends), reservers))
}

/// Appends a reserver of each block. There is room for them.
fn hand_out(parts: &[Part], reservers: &mut Vec<BlockReserver>)
    requires unused { All (λ b. b.used ≡ 0) parts.now }
    requires none { reservers.old.items ≡ [] }
    requires room { length parts.now ≤ vec_capacity reservers.old }
    ensures reservers { blocks_of reservers.new.items ≡ parts.now }
    ensures unused { All IsUnused reservers.new.items }
{
    for part in parts {
        reservers.push_reserved(BlockReserver {
            part: part.with_used(0),
            refused: 0,
        });
    }
}

/// Blocks of these sizes.
pub(crate) fn parts_of(
    alloc: Global,
    entities: &Entities,
    sizes: &[u32],
) -> Result<Vec<Part>, Memory>
    requires flushed { entities.now.allocator.asked ≡ 0 }
    ensures blocks { IfOk result (λ parts. parts.items
        ≡ blocks_from 0 (length entities.now.allocator.pool) sizes.now) }
    ensures few { IfOk result (λ parts. dealt parts.items < 2 ^ 32) }
    ensures memory { OnErr result (0 < length sizes.now) }
{
    let mut parts = Vec::with_capacity(alloc, sizes.len())?;
    let mut before = 0;
    let mut left = entities.left();
    for size in sizes {
        let given = lesser(*size, left);
        parts.push_reserved(Part::new(before, given));
        before += given;
        left -= given;
    }
    Ok(parts)
}

pub(crate) fn lesser(n: u32, left: u32) -> u32
    ensures value { result ≡ lesser n left }
    ensures within { result ≤ left }
{
    if n <= left { n } else { left }
}
