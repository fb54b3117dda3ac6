//! Maps by handle at size: no clause says that a call succeeds if there is memory.

use crate::frames::first;
use ent_storage::handle_map::HandleMap;
use std::alloc::Global;
use std::process::Abort;

const MANY: u32 = 200_000;

// Each call that takes memory, once with more than any caller asks for.
#[test]
fn a_map_of_a_million_slots(rt: HostRuntime) {
    let mut numbers = with_a_million(&rt, rt.alloc());
    assert!(rt; numbers.reserve(3_000_000).is_ok());
    assert!(rt; numbers.capacity() >= 3_000_000 && numbers.is_empty());
    fill(&rt, &mut numbers);
    assert_is_full(&rt, &numbers);
}

// A map that is made empty grows with each value that needs it.
#[test]
fn a_map_that_grows(rt: HostRuntime) {
    let mut numbers = HandleMap::new(rt.alloc());
    fill(&rt, &mut numbers);
    assert_is_full(&rt, &numbers);
    assert!(rt; numbers.insert(first(&rt, 1_000_000), 7).is_ok());
    assert!(rt; numbers.get(first(&rt, 1_000_000)) == Some(&7));
}

fn with_a_million(rt: &impl Abort, alloc: Global) -> HandleMap<u32> {
    let numbers = HandleMap::with_capacity(alloc, 1_000_000).expect(rt, "memory for a million");
    assert!(rt; numbers.capacity() >= 1_000_000);
    numbers
}

fn fill(rt: &impl Abort, numbers: &mut HandleMap<u32>) {
    for index in 0..MANY {
        assert!(rt; numbers.insert(first(rt, index), index).is_ok());
    }
}

fn assert_is_full(rt: &impl Abort, numbers: &HandleMap<u32>) {
    assert!(rt; numbers.len() == MANY as usize);
    assert!(rt; numbers.get(first(rt, MANY - 1)) == Some(&(MANY - 1)));
    assert!(rt; numbers.get(first(rt, 0)) == Some(&0));
}
