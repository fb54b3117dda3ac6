ghost use Rattle.std.specs.Prelude.{◌≡◌, ◌+◌, ◌<◌, T, IsTrue, IfOk, IfErr, IfSome, length, ℕ};
ghost use Rattle.std.specs.declared.cmp.Ordering.TheVariants.{Less, Greater};
ghost use Rattle.std.specs.FinMap.{is_sorted};
ghost use Rattle.std.specs.List.{HoldsAt};
ghost use Rattle.ent_handle.specs.Handle.{handle_cmp};
ghost use Rattle.ent_storage.specs.Position.{IsAt, IsGapFor};

use super::key::Key;
use ent_handle::Handle;

/// The position of the handle, or the position where it would go. It is looked for at its slot's
/// number first, and only then by a binary search.
#[inline(always)]
pub fn search_slot(pairs: &[(Key, u32)], handle: Handle) -> Result<usize, usize>
    requires { T (is_sorted handle_cmp pairs.now) }
    ensures found { IfOk result (IsAt handle_cmp pairs.now handle) }
    ensures absent { IfErr result (IsGapFor handle_cmp pairs.now handle) }
{
    let slot = handle.index() as usize;
    if slot < pairs.len() {
        if pairs[slot].0.is_of(handle) {
            return Ok(slot);
        }
        // The next occupant of the slot goes behind the pair that stands there.
        if is_gap(pairs, slot + 1, handle) {
            return Err(slot + 1);
        }
    }
    if is_gap(pairs, slot, handle) {
        return Err(slot);
    }
    search(pairs, handle)
}

/// The position of the handle, or the position where it would go, by a binary search.
fn search(pairs: &[(Key, u32)], handle: Handle) -> Result<usize, usize>
    requires { T (is_sorted handle_cmp pairs.now) }
    ensures found { IfOk result (IsAt handle_cmp pairs.now handle) }
    ensures absent { IfErr result (IsGapFor handle_cmp pairs.now handle) }
{
    pairs.binary_search_by_key(&handle, |pair| pair.0.handle())
}

/// The slot's number, if the handle is there.
#[inline(always)]
pub fn at_slot(pairs: &[(Key, u32)], handle: Handle) -> Option<usize>
    ensures { IfSome result (IsAt handle_cmp pairs.now handle) }
{
    let slot = handle.index() as usize;
    if slot < pairs.len() && pairs[slot].0.is_of(handle) {
        Some(slot)
    } else {
        None
    }
}

/// Returns `true` if the handle would go to that position.
#[inline(always)]
pub fn is_gap(pairs: &[(Key, u32)], position: usize, handle: Handle) -> bool
    requires { T (is_sorted handle_cmp pairs.now) }
    ensures { IsTrue result → IsGapFor handle_cmp pairs.now handle position }
{
    if position > pairs.len() {
        return false;
    }
    is_after(pairs, position, handle) && is_before(pairs, position, handle)
}

/// Whether the handle comes after the pair before the position, if there is one.
fn is_after(pairs: &[(Key, u32)], position: usize, handle: Handle) -> bool
    ensures { IsTrue result → (k : ℕ) → k + 1 ≡ position
        → HoldsAt (λ pair. handle_cmp pair.0 handle ≡ Less) pairs.now k }
{
    match position.checked_sub(1) {
        Some(before) => before < pairs.len() && pairs[before].0.is_before(handle),
        None => true,
    }
}

/// Whether the handle comes before the pair at the position, if there is one.
fn is_before(pairs: &[(Key, u32)], position: usize, handle: Handle) -> bool
    ensures { IsTrue result → position < length pairs.now
        → HoldsAt (λ pair. handle_cmp pair.0 handle ≡ Greater) pairs.now position }
{
    position >= pairs.len() || pairs[position].0.is_after(handle)
}
