//! Threads that reserve side by side. In the last two tests they want more handles than there are:
//! some are served, each other one gets what was left, and the requests of all count.
ghost use Rattle.std.specs.Prelude.{◌≡◌, All};
ghost use Rattle.ent_shared.specs.Phase.{IsOf};

use crate::caller::{Caller, Refusals, Requests};
use crate::phase::{Ended, all_beside, closed, last_meets, opened, with_freed, with_slots};
use ent_alloc::{Entities, Limits, State};
use ent_handle::Handle;
use ent_shared::Shared;
use std::alloc::Global;
use std::process::Abort;
use std::thread::Threads;

/// A phase of callers that make these requests side by side.
fn phase<R>(rt: &R, alloc: Global, entities: Entities, requests: &[Requests]) -> Ended
where
    R: Threads + Sync + Abort,
    requires { entities.allocator.asked ≡ 0 }
{
    let (shared, callers) = opened(rt, alloc, entities, requests);
    let callers = all_beside(rt, &shared, callers);
    closed(rt, alloc, shared, callers)
}

/// Whether a flush brings to life these handles, which rise.
fn flush_bears(rt: &impl Abort, alloc: Global, entities: &mut Entities, given: &[Handle]) -> bool {
    let mut born = Vec::new(alloc);
    entities.flush(&mut born).expect(rt, "memory for the born");
    born.sort().expect(rt, "memory to sort");
    born.as_slice() == given
}

/// Compares the cursor, and how many handles were given. They are brought to life, all of them.
fn assert_ends(rt: &impl Abort, alloc: Global, ended: &mut Ended, cursor: i64, total: u32) {
    assert!(rt; ended.entities.cursor() == cursor);
    assert!(rt; ended.given.len() == total as usize);
    assert!(rt; flush_bears(rt, alloc, &mut ended.entities, &ended.given));
    assert!(rt; ended.entities.len() == total);
    assert!(rt; ended.entities.total() == total);
}

/// Each handle is above the one before it, so none stands twice. All of them are alive.
fn assert_rises(rt: &impl Abort, entities: &Entities, handles: &[Handle]) {
    let mut before = None;
    for handle in handles {
        assert!(rt; before < Some(*handle));
        assert!(rt; entities.state(*handle) == State::Alive);
        before = Some(*handle);
    }
}

/// How many of them are the second of their slot.
fn count_seconds(handles: &[Handle]) -> u32 {
    let mut count: u32 = 0;
    for handle in handles {
        if handle.generation() == 2 {
            count = count.wrapping_add(1);
        }
    }
    count
}

/// The greatest index among them, if there is one.
fn greatest_index(handles: &[Handle]) -> Option<u32> {
    let mut greatest = None;
    for handle in handles {
        greatest = greatest.max(Some(handle.index()));
    }
    greatest
}

/// Each of their indexes is above that one.
fn assert_above(rt: &impl Abort, handles: &[Handle], index: Option<u32>) {
    for handle in handles {
        assert!(rt; Some(handle.index()) > index);
    }
}

/// What the caller of this number was given.
fn given_to(callers: &[Caller], number: usize) -> &[Handle] {
    match callers.get(number) {
        Some(caller) => caller.given.as_slice(),
        None => &[],
    }
}

#[test]
fn four_threads_side_by_side(rt: HostRuntime) {
    let alloc = rt.alloc();
    let requests = [Requests { times: 1_000, n: 1 }; 4];
    let mut ended = phase(&rt, alloc, with_freed(&rt, alloc, 100), &requests);
    assert!(rt; count_seconds(&ended.given) == 100);
    assert_ends(&rt, alloc, &mut ended, -3_900, 4_000);
    assert_rises(&rt, &ended.entities, &ended.given);
}

#[test]
fn flush_brings_to_life_what_was_given(rt: HostRuntime) {
    let alloc = rt.alloc();
    let requests = [Requests { times: 10, n: 64 }, Requests { times: 640, n: 1 }];
    let (shared, callers) = opened(&rt, alloc, with_freed(&rt, alloc, 100), &requests);
    let callers = all_beside(&rt, &shared, callers);
    let callers = last_meets(&rt, &shared, callers, 64);
    let mut ended = closed(&rt, alloc, shared, callers);
    assert_ends(&rt, alloc, &mut ended, -1_244, 1_344);
}

#[test]
fn what_comes_after_a_meeting_is_above(rt: HostRuntime) {
    let alloc = rt.alloc();
    let entities = Entities::new(alloc, Limits::default_limits());
    let requests = [Requests { times: 500, n: 1 }; 3];
    let (shared, callers) = opened(&rt, alloc, entities, &requests);
    let callers = two_rounds(&rt, &shared, callers);
    let mut ended = closed(&rt, alloc, shared, callers);
    assert_ends(&rt, alloc, &mut ended, -3_000, 3_000);
}

/// All make their requests, 500 each. Then the last caller meets the one before it, and all make
/// them again.
fn two_rounds<R>(rt: &R, shared: &Shared, callers: Vec<Caller>) -> Vec<Caller>
where
    R: Threads + Sync + Abort,
    requires { All (λ c. IsOf shared.now c.reserver) callers.items }
    ensures { All (λ c. IsOf shared.now c.reserver) result.items }
{
    let callers = all_beside(rt, shared, callers);
    let met = greatest_index(given_to(&callers, 1));
    let callers = all_beside(rt, shared, last_meets(rt, shared, callers, 0));
    assert_later_above(rt, given_to(&callers, 2), met);
    callers
}

/// Of 1,000 handles the later 500 are above that index.
fn assert_later_above(rt: &impl Abort, given: &[Handle], met: Option<u32>) {
    assert!(rt; met.is_some());
    assert!(rt; given.len() == 1_000);
    assert_above(rt, &given[500..], met);
}

/// Four threads make these requests over ten slots. Compares the cursor after the phase, and how
/// many handles were given. A flush brings to life what was served. Returns what was refused.
fn refusals_of_four<R>(
    rt: &R,
    alloc: Global,
    requests: Requests,
    cursor: i64,
    served: u32,
) -> Refusals
where
    R: Threads + Sync + Abort,
{
    let mut ended = phase(rt, alloc, with_slots(rt, alloc, 10), &[requests; 4]);
    assert_ends(rt, alloc, &mut ended, cursor, served);
    ended.refusals
}

/// Ten requests are served in all, whichever they are.
#[test]
fn four_threads_request_singly(rt: HostRuntime) {
    let requests = Requests { times: 10, n: 1 };
    let refusals = refusals_of_four(&rt, rt.alloc(), requests, -40, 10);
    refusals.assert_are(&rt, 30, 0);
}

/// Two bulks are served, one is refused with what is left, and from then on nothing is left.
#[test]
fn four_threads_request_in_bulks(rt: HostRuntime) {
    let requests = Requests { times: 3, n: 4 };
    let refusals = refusals_of_four(&rt, rt.alloc(), requests, -48, 8);
    refusals.assert_are(&rt, 9, 1);
}
