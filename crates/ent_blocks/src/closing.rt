ghost use Rattle.std.specs.Prelude.{◌≡◌, ◌<◌, ◌≤◌, IfOk, OnOk, OnErr, length, map};
ghost use Rattle.ent_alloc.specs.Entities.{HasRowsOfLiving};
ghost use Rattle.ent_alloc.specs.Portions.{AreUsed};
ghost use Rattle.ent_blocks.specs.Blocks.{AreLaid, dealt, unused, portions_of, after_blocks};

use crate::part::Part;
use ent_alloc::{Entities, Portion};
use ent_handle::Memory;
use std::alloc::Global;

/// Takes what was used of these blocks, and leaves what is left of them in the pool.
pub(crate) fn take_used(
    alloc: Global,
    entities: &mut Entities,
    blocks: &[Part],
) -> Result<(), Memory>
    requires flushed { entities.old.allocator.asked ≡ 0 }
    requires laid { AreLaid 0 (map unused blocks.now) }
    requires within { dealt blocks.now ≤ length entities.old.allocator.pool }
    ensures ok { OnOk result
        (entities.new.allocator ≡ after_blocks entities.old.allocator blocks.now) }
    ensures used { OnOk result (AreUsed (portions_of blocks.now)) }
    ensures rows { entities.new.rows ≡ entities.old.rows }
    ensures rows_of_living { HasRowsOfLiving entities.new }
    ensures err { OnErr result (entities.new ≡ entities.old) }
    ensures memory { OnErr result (0 < length blocks.now) }
{
    let _cursor = entities.cursor();
    let portions = portions_of(alloc, blocks)?;
    entities.take_portions(alloc, &portions)?;
    Ok(())
}

/// The blocks as portions of the pool's front, one after the other.
fn portions_of(alloc: Global, blocks: &[Part]) -> Result<Vec<Portion>, Memory>
    ensures portions { IfOk result (λ portions. portions.items ≡ portions_of blocks.now) }
    ensures used { OnOk result (AreUsed (portions_of blocks.now)) }
    ensures memory { OnErr result (0 < length blocks.now) }
{
    let mut portions = Vec::with_capacity(alloc, blocks.len())?;
    for block in blocks {
        portions.push_reserved(block.portion());
    }
    Ok(portions)
}
