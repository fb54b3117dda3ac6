//! What one spawn needs: the handle that the allocator gives next, and an entity that is made whole
//! or not at all.
ghost use Rattle.std.specs.Prelude.{◌≡◌, ◌<◌, ◌≤◌, ◌+◌, ◌⊎◌, ◌↔◌, [], ◌∷◌, ◌++◌, length, Some};
ghost use Rattle.std.specs.Prelude.{None, slice_get};
ghost use Rattle.std.specs.Prelude.{IfOk, OnOk, OnErr, IsErrOf, false};
ghost use Rattle.std.specs.FinSet as set;
ghost use Rattle.std.specs.FinMap as map;
ghost use Rattle.ent_world.specs.Effects.{spawned};

use ent_alloc::{AllocFault, Entities};
use ent_handle::{Birth, ComponentId, Handle, Memory};
use ent_storage::Rows;

/// The handle that `alloc` gives next.
#[inline(always)]
pub(crate) fn next_handle(entities: &Entities) -> Result<Handle, AllocFault>
    ensures front { IfOk result (λ handle. slice_get entities.now.allocator.pool 0 ≡ Some handle) }
    ensures new { IfOk result (λ handle. set.contains entities.now.allocator.live handle ≡ false) }
    ensures flushed { OnOk result (entities.now.allocator.asked ≡ 0) }
    ensures needs_flush { IsErrOf result AllocFault.NeedsFlush ↔ (0 < entities.now.allocator.asked) }
    ensures no_memory { ¬ (IsErrOf result AllocFault.Memory) }
    ensures space { IsErrOf result AllocFault.Space
        ↔ ((entities.now.allocator.asked ≡ 0) × (entities.now.allocator.pool ≡ [])) }
{
    let top = i64::from(entities.top());
    if entities.cursor() != top {
        return Err(AllocFault::NeedsFlush);
    }
    match entities.reply_one(top) {
        Ok(handle) => Ok(handle),
        Err(_) => Err(AllocFault::Space),
    }
}

/// Makes an entity that is not there, with all its components, at the next place. After an `Err` it
/// is not there.
#[inline(always)]
pub(crate) fn make(
    storage: &mut Rows,
    place: usize,
    handle: Handle,
    birth: Birth,
    items: &[(ComponentId, i64)],
) -> Result<(), Memory>
    requires new { map.get storage.old.entities handle ≡ None }
    requires next { place ≡ length storage.old.places }
    ensures ok { OnOk result (storage.new.entities
        ≡ map.insert storage.old.entities handle (spawned birth items.now)) }
    ensures placed { OnOk result (storage.new.places ≡ storage.old.places ++ handle ∷ []) }
    ensures less { OnOk result (0 < storage.old.spare → storage.new.spare + 1 ≡ storage.old.spare) }
    ensures no_less { OnErr result (storage.old.spare ≤ storage.new.spare) }
    ensures memory { OnErr result ((storage.old.spare ≡ 0) ⊎ (0 < length items.now)) }
    ensures err { OnErr result (storage.new.entities ≡ storage.old.entities) }
    ensures unplaced { OnErr result (storage.new.places ≡ storage.old.places) }
{
    storage.reserve(1)?;
    storage.push(handle, birth);
    if storage.insert_at(place, handle, items).is_err() {
        let _ = storage.despawn_at(place, handle);
        return Err(Memory);
    }
    Ok(())
}
