//! The beginning and the end of a phase of threads.
ghost use Rattle.std.specs.Prelude.{◌≡◌, ◌<◌, ◌≤◌, All};
ghost use Rattle.ent_shared.specs.Phase.{IsOf};

use crate::caller::{Caller, Refusals, Requests};
use crate::frames::first;
use crate::meeting::Meeting;
use ent_alloc::{Entities, Limits};
use ent_handle::Handle;
use ent_shared::{Reserver, Shared, share};
use std::alloc::Global;
use std::process::Abort;
use std::thread::{Threads, map_vec};

/// What is there after a phase.
#[derive(Drop)]
pub struct Ended {
    pub entities: Entities,
    /// What all callers were given, in the order of handles.
    pub given: Vec<Handle>,
    pub refusals: Refusals,
}

/// An allocator that may make `slots` slots.
pub fn with_slots(rt: &impl Abort, alloc: Global, slots: u32) -> Entities
    ensures { result.allocator.asked ≡ 0 }
{
    Entities::new(alloc, Limits::new(slots, 7).expect(rt, "limits"))
}

/// An allocator with `n` slots, whose first occupants are gone: 0 was freed first.
pub fn with_freed(rt: &impl Abort, alloc: Global, n: u32) -> Entities
    ensures { result.allocator.asked ≡ 0 }
{
    let mut entities = Entities::new(alloc, Limits::default_limits());
    make_and_free(rt, &mut entities, n);
    assert!(rt; !entities.needs_flush());
    entities
}

fn make_and_free(rt: &impl Abort, entities: &mut Entities, n: u32) {
    for _ in 0..n {
        entities.alloc().expect(rt, "memory for a slot");
    }
    for index in 0..n {
        entities
            .free(first(rt, index))
            .expect(rt, "memory for a slot");
    }
}

/// A shared allocator, and a caller for each of these requests.
pub fn opened(
    rt: &impl Abort,
    alloc: Global,
    entities: Entities,
    requests: &[Requests],
) -> (Shared, Vec<Caller>)
    requires { entities.allocator.asked ≡ 0 }
    ensures { All (λ c. IsOf result.0 c.reserver) result.1.items }
{
    assert!(rt; 0 < requests.len() && requests.len() <= 1024);
    match share(alloc, entities, requests.len()) {
        Ok((shared, reservers)) => {
            let callers = callers(rt, alloc, &shared, reservers, requests);
            (shared, callers)
        }
        Err(_) => panic!(rt; "memory for the reservers"),
    }
}

fn callers(
    rt: &impl Abort,
    alloc: Global,
    shared: &Shared,
    mut reservers: Vec<Reserver>,
    requests: &[Requests],
) -> Vec<Caller>
    requires { All (IsOf shared.now) reservers.items }
    ensures { All (λ c. IsOf shared.now c.reserver) result.items }
{
    let mut callers = Vec::new(alloc);
    for some in requests {
        let reserver = last(rt, shared, &mut reservers);
        push(
            rt,
            shared,
            &mut callers,
            Caller::new(alloc, reserver, *some),
        );
    }
    callers
}

/// The last reserver of a list.
fn last(rt: &impl Abort, shared: &Shared, reservers: &mut Vec<Reserver>) -> Reserver
    requires { All (IsOf shared.now) reservers.old.items }
    ensures rest { All (IsOf shared.now) reservers.new.items }
    ensures last { IsOf shared.now result }
{
    let _ = shared.count();
    reservers.pop().expect(rt, "a reserver for each")
}

fn push(rt: &impl Abort, shared: &Shared, callers: &mut Vec<Caller>, caller: Caller)
    requires all { All (λ c. IsOf shared.now c.reserver) callers.old.items }
    requires one { IsOf shared.now caller.reserver }
    ensures { All (λ c. IsOf shared.now c.reserver) callers.new.items }
{
    let _ = shared.count();
    callers.push(caller).expect(rt, "memory for the callers")
}

/// The last caller of a list.
fn pop(rt: &impl Abort, shared: &Shared, callers: &mut Vec<Caller>) -> Caller
    requires { All (λ c. IsOf shared.now c.reserver) callers.old.items }
    ensures rest { All (λ c. IsOf shared.now c.reserver) callers.new.items }
    ensures last { IsOf shared.now result.reserver }
{
    let _ = shared.count();
    callers.pop().expect(rt, "a caller")
}

/// All make their requests side by side, each in a thread of its own.
pub fn all_beside<R: Threads + Sync + Abort>(
    rt: &R,
    shared: &Shared,
    callers: Vec<Caller>,
) -> Vec<Caller>
    requires { All (λ c. IsOf shared.now c.reserver) callers.items }
    ensures { All (λ c. IsOf shared.now c.reserver) result.items }
{
    let meeting = Meeting::new(u32::try_from(callers.len()).unwrap_or(0));
    let callers = beside(rt, shared, &meeting, callers);
    assert_saw_all(rt, &callers);
    callers
}

fn beside<R: Threads + Sync + Abort>(
    rt: &R,
    shared: &Shared,
    meeting: &Meeting,
    callers: Vec<Caller>,
) -> Vec<Caller>
    requires { All (λ c. IsOf shared.now c.reserver) callers.items }
    ensures { All (λ c. IsOf shared.now c.reserver) result.items }
{
    map_vec(rt, callers, &|caller| caller.beside(shared, meeting)).expect(
        rt,
        "memory for the callers",
    )
}

fn assert_saw_all(rt: &impl Abort, callers: &[Caller]) {
    for caller in callers {
        assert!(rt; caller.saw_all);
    }
}

/// From now on the last caller reserves after all that the one before it has reserved. Then it
/// reserves so many handles at once.
pub fn last_meets(rt: &impl Abort, shared: &Shared, mut callers: Vec<Caller>, n: u32) -> Vec<Caller>
    requires { All (λ c. IsOf shared.now c.reserver) callers.items }
    ensures { All (λ c. IsOf shared.now c.reserver) result.items }
{
    let mut a = pop(rt, shared, &mut callers);
    let mut b = pop(rt, shared, &mut callers);
    shared.meet(&mut a.reserver, &mut b.reserver);
    a.many(shared, n);
    push(rt, shared, &mut callers, b);
    push(rt, shared, &mut callers, a);
    callers
}

/// Moves the last caller's reserver, and what it was given, into these lists.
fn take(
    rt: &impl Abort,
    shared: &Shared,
    callers: &mut Vec<Caller>,
    reservers: &mut Vec<Reserver>,
    given: &mut Vec<Handle>,
) -> Refusals
    requires left { All (λ c. IsOf shared.now c.reserver) callers.old.items }
    requires own { All (IsOf shared.now) reservers.old.items }
    ensures left { All (λ c. IsOf shared.now c.reserver) callers.new.items }
    ensures own { All (IsOf shared.now) reservers.new.items }
{
    let caller = pop(rt, shared, callers);
    given
        .extend_from_slice(&caller.given)
        .expect(rt, "memory for a list");
    reservers
        .push(caller.reserver)
        .expect(rt, "memory for the reservers");
    caller.refusals
}

/// The end of the phase, with all callers.
pub fn closed(rt: &impl Abort, alloc: Global, shared: Shared, mut callers: Vec<Caller>) -> Ended
    requires { All (λ c. IsOf shared c.reserver) callers.items }
{
    let mut reservers = Vec::new(alloc);
    let mut given = Vec::new(alloc);
    let mut refusals = Refusals::new();
    for _ in 0..callers.len() {
        refusals.add(take(rt, &shared, &mut callers, &mut reservers, &mut given));
    }
    given.sort().expect(rt, "memory to sort");
    let count = shared.count();
    assert!(rt; reservers.len() == count);
    Ended {
        entities: shared.close(reservers),
        given,
        refusals,
    }
}
