ghost use Rattle.std.specs.Prelude.{◌≡◌, ◌≢◌, ◌⊎◌, ◌<◌, IfOk, IfSome, OnErr, Some, map, length, true};
ghost use Rattle.std.specs.Prelude.{◌^◌};
ghost use Rattle.std.specs.List.Sorted.{IsPermutation, IsSorted};
ghost use Rattle.std.specs.declared.cmp.Ordering.TheVariants.{Greater};
ghost use Rattle.ent_handle.specs.Handle.{handle_cmp};
ghost use Rattle.ent_storage.specs.BirthOrder.{IsInOrder, IsLeastOf, packed_birth, pair_cmp};

use super::living::Resident;
use ent_handle::{Birth, Handle};
use std::alloc::{AllocError, Global};

/// The handles of the residents, by birth and then by handle. Without residents it doesn't allocate.
/// It takes no time of a sort, and no memory but for the handles, if each was born before the next.
pub fn handles_by_birth(alloc: Global, residents: &[Resident]) -> Result<Vec<Handle>, AllocError>
    ensures ok { IfOk result (λ handles. IsInOrder
        (map (λ resident. (resident.birth, resident.handle)) residents.now) handles.items) }
    ensures memory { OnErr result (0 < length residents.now) }
{
    if residents.is_empty() {
        return Ok(Vec::new(alloc));
    }
    if are_rising(residents) {
        return handles_of(alloc, residents);
    }
    handles_in_order(alloc, births(alloc, residents)?)
}

/// The handle of each resident.
fn handles_of(alloc: Global, residents: &[Resident]) -> Result<Vec<Handle>, AllocError>
    ensures { IfOk result (λ handles.
        handles.items ≡ map (λ resident. resident.handle) residents.now) }
{
    residents
        .iter()
        .map(|resident| resident.handle)
        .collect(alloc)
}

/// Returns `true` if each resident was born before the next one.
fn are_rising(residents: &[Resident]) -> bool
    ensures { result ≡ true → IsSorted pair_cmp
        (map (λ resident. (resident.birth, resident.handle)) residents.now) }
{
    if residents.is_empty() {
        return true;
    }
    let mut last = packed(residents[0].birth);
    for i in 1..residents.len() {
        let birth = packed(residents[i].birth);
        if birth <= last {
            return false;
        }
        last = birth;
    }
    true
}

/// The birth and the handle of each resident.
fn births(alloc: Global, residents: &[Resident]) -> Result<Vec<(Birth, Handle)>, AllocError>
    ensures { IfOk result (λ births.
        births.items ≡ map (λ resident. (resident.birth, resident.handle)) residents.now) }
{
    residents
        .iter()
        .map(|resident| (resident.birth, resident.handle))
        .collect(alloc)
}

/// The handles, by birth and then by handle. Without entities it doesn't allocate.
pub fn handles_in_order(
    alloc: Global,
    mut births: Vec<(Birth, Handle)>,
) -> Result<Vec<Handle>, AllocError>
    ensures ok { IfOk result (λ handles. IsInOrder births.items handles.items) }
    ensures memory { OnErr result (0 < length births.items) }
{
    if births.is_empty() {
        return Ok(Vec::new(alloc));
    }
    if rise(&births) {
        return handles(alloc, &births);
    }
    sort_births(&mut births);
    births.sort_unstable();
    handles(alloc, &births)
}

/// Returns `true` if each birth comes before the next one.
fn rise(births: &[(Birth, Handle)]) -> bool
    ensures { result ≡ true → IsSorted pair_cmp births.now }
{
    if births.is_empty() {
        return true;
    }
    let mut last = packed(births[0].0);
    for i in 1..births.len() {
        let birth = packed(births[i].0);
        if birth <= last {
            return false;
        }
        last = birth;
    }
    true
}

/// Sorts by birth alone. What is left for the sort that follows are entities of one birth, so it
/// mostly makes one pass. This one takes its memory, and is quicker: the slots of one system rise,
/// even if other systems reserved between them, and it merges what rises already.
///
/// Without memory for its buffer it changes nothing.
fn sort_births(births: &mut Vec<(Birth, Handle)>)
    ensures { IsPermutation births.old.items births.new.items }
{
    let _ = births.sort_by_key(|pair| packed(pair.0));
}

/// One number that has the order of the births: it is compared at once.
fn packed(birth: Birth) -> u128
    ensures number { result ≡ packed_birth birth }
    ensures system { birth.system < 2 ^ 32 }
    ensures ordinal { birth.ordinal < 2 ^ 32 }
{
    ((birth.frame as u128) << 64) + ((birth.system as u128) << 32) + birth.ordinal as u128
}

fn handles(alloc: Global, births: &[(Birth, Handle)]) -> Result<Vec<Handle>, AllocError>
    ensures ok { IfOk result (λ handles. handles.items ≡ map (λ pair. pair.1) births.now) }
{
    births.iter().map(|pair| pair.1).collect(alloc)
}

/// The least handle of a resident with that birth, if there is one.
pub fn least_of_birth(residents: &[Resident], birth: Birth) -> Option<Handle>
    ensures { IsLeastOf birth (map (λ resident. (resident.birth, resident.handle)) residents.now)
        result }
{
    let mut least = None;
    for resident in residents {
        if resident.birth == birth {
            least = Some(lesser(least, resident.handle));
        }
    }
    least
}

/// The lesser of the two handles, or the one if there is no other.
fn lesser(other: Option<Handle>, handle: Handle) -> Handle
    ensures one { (result ≡ handle) ⊎ (other ≡ Some result) }
    ensures handle { handle_cmp result handle ≢ Greater }
    ensures other { IfSome other (λ h. handle_cmp result h ≢ Greater) }
{
    match other {
        Some(least) if least < handle => least,
        _ => handle,
    }
}
