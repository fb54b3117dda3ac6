//! Threads of the caller's own that reserve handles from one allocator, side by side. `phase`
//! ensures that they were given 1,024 handles, no two of them the same.
ghost use Rattle.std.specs.Prelude.{◌≡◌, ◌≢◌, ◌+◌, [], ◌∷◌, vec_len, All, AllPairs, OnOk, IfOk};
ghost use Rattle.ent_shared.specs.Phase.{IsOf};

use crate::examples::caller::Caller;
use anyhow::{Result, anyhow};
use ent_alloc::{Entities, Limits};
use ent_handle::{Handle, Memory};
use ent_shared::{Reserver, Shared, share};
use std::alloc::Global;
use std::thread::{Threads, join_mut};

/// Runs a phase of two threads, and prints how many handles they were given.
pub fn show<R: Threads + Sync + Print + AllocGlobal>(rt: &R) -> Result<()> {
    let entities = Entities::new(rt.alloc(), Limits::default_limits());
    match share(rt.alloc(), entities, 2) {
        Ok((shared, reservers)) => {
            let given = with_both(rt, shared, reservers)?;
            tell(rt, given.len(), "handles, none of them twice")
        }
        Err((_, memory)) => Err(memory.into()),
    }
}

/// Runs the phase, with a reserver for each thread.
fn with_both<R>(rt: &R, shared: Shared, mut reservers: Vec<Reserver>) -> Result<Vec<Handle>>
where
    R: Threads + Sync + Print + AllocGlobal,
    requires two { shared.count ≡ 2 }
    requires own { All (IsOf shared) reservers.items }
    requires unused { All (λ r. r.own.entries ≡ []) reservers.items }
{
    match (reservers.pop(), reservers.pop()) {
        (Some(b), Some(a)) => phase(rt, shared, a, b),
        _ => Err(anyhow!("a thread has no reserver")),
    }
}

/// A whole phase: two threads reserve, one of them meets the other and reserves again, and a flush
/// brings to life what they were given. Returns all handles that they were given.
fn phase<R>(rt: &R, shared: Shared, a: Reserver, b: Reserver) -> Result<Vec<Handle>>
where
    R: Threads + Sync + Print + AllocGlobal,
    requires two { shared.count ≡ 2 }
    requires first { IsOf shared a }
    requires second { IsOf shared b }
    requires unused { (a.own.entries ≡ []) × (b.own.entries ≡ []) }
    ensures count { IfOk result (λ given. vec_len given ≡ 1024) }
    ensures distinct { IfOk result (λ given. AllPairs (λ g h. g ≢ h) given.items) }
{
    let mut a = Caller {
        reserver: a,
        given: Vec::new(rt.alloc()),
    };
    let mut b = Caller {
        reserver: b,
        given: Vec::new(rt.alloc()),
    };
    reserve(rt, &shared, &mut a, &mut b)?;
    end(rt, shared, a, b)
}

/// The threads reserve side by side. Then one of them meets the other, and reserves again.
fn reserve<R>(rt: &R, shared: &Shared, a: &mut Caller, b: &mut Caller) -> Result<()>
where
    R: Threads + Print,
    requires first { IsOf shared.now a.old.reserver }
    requires second { IsOf shared.now b.old.reserver }
    ensures first { IsOf shared.now a.new.reserver }
    ensures second { IsOf shared.now b.new.reserver }
    ensures given { OnOk result ((vec_len a.new.given ≡ vec_len a.old.given + 624)
        × (vec_len b.new.given ≡ vec_len b.old.given + 400)) }
{
    side_by_side(rt, shared, a, b)?;

    // From now on a reserves after all that b has reserved.
    a.meet(shared, b);
    a.at_once(shared, 24)
}

/// The phase ends with all its reservers, and a flush brings to life what they were given. Returns
/// all these handles.
fn end<R: Print + AllocGlobal>(rt: &R, shared: Shared, a: Caller, b: Caller) -> Result<Vec<Handle>>
    requires two { shared.count ≡ 2 }
    requires first { IsOf shared a.reserver }
    requires second { IsOf shared b.reserver }
    ensures count { IfOk result (λ given. vec_len given ≡ vec_len a.given + vec_len b.given) }
    ensures distinct { IfOk result (λ given. AllPairs (λ g h. g ≢ h) given.items) }
{
    let Caller {
        reserver: first,
        given: mut given,
        ..
    } = a;
    let Caller {
        reserver: second,
        given: mut others,
        ..
    } = b;
    let entities = shared.close(both(rt.alloc(), first, second)?);
    flush(rt, entities)?;
    given.append(&mut others)?;
    Ok(given)
}

/// Both reservers as one list.
fn both(alloc: Global, first: Reserver, second: Reserver) -> Result<Vec<Reserver>, Memory>
    ensures items { IfOk result (λ list. list.items ≡ first ∷ second ∷ []) }
{
    let mut list = Vec::new(alloc);
    list.push(first)?;
    list.push(second)?;
    Ok(list)
}

/// Brings to life what was reserved, and prints how many handles that were.
fn flush<R: Print + AllocGlobal>(rt: &R, mut entities: Entities) -> Result<()> {
    let mut born = Vec::new(rt.alloc());
    entities.flush(&mut born)?;
    tell(rt, born.len(), "born")
}

/// Prints a count of handles, and what it counts.
fn tell(rt: &impl Print, count: usize, what: &str) -> Result<()> {
    println!(rt; "{count} {what}")?;
    Ok(())
}

/// One thread reserves one by one, the other at once.
fn side_by_side<R>(rt: &R, shared: &Shared, a: &mut Caller, b: &mut Caller) -> Result<()>
where
    R: Threads + Print,
    requires first { IsOf shared.now a.old.reserver }
    requires second { IsOf shared.now b.old.reserver }
    ensures first { IsOf shared.now a.new.reserver }
    ensures second { IsOf shared.now b.new.reserver }
    ensures given { OnOk result ((vec_len a.new.given ≡ vec_len a.old.given + 600)
        × (vec_len b.new.given ≡ vec_len b.old.given + 400)) }
{
    let (singles, bulk) = join_mut(
        rt,
        &mut || a.one_by_one(shared, 600),
        &mut || b.at_once(shared, 400),
    );
    singles?;
    bulk
}
