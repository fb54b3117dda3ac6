//! Maps by handle that run out of memory.

use ent_handle::Handle;
use ent_storage::handle_map::{HandleMap, InsertError};
use std::alloc::Global;
use std::process::Abort;

const INDEXES: &[u32] = &[0, 5, 100];

// Passes whichever one allocation is refused: the refused call changes nothing, and is made again.
// `rt try --test --fail-alloc N -- out_of_memory` refuses the Nth.
#[test]
fn out_of_memory_changes_nothing(rt: HostRuntime) {
    let mut numbers = with_capacity_at_last(&rt, rt.alloc());
    for index in INDEXES {
        insert_at_last(&rt, &mut numbers, *index);
    }
    reserve_at_last(&rt, &mut numbers);
    assert_has_all(&rt, &numbers);
}

fn assert_has_all(rt: &impl Abort, numbers: &HandleMap<u32>) {
    for index in INDEXES {
        assert!(rt; numbers.get(handle(rt, *index)) == Some(index));
    }
}

fn handle(rt: &impl Abort, index: u32) -> Handle {
    Handle::new(index, 1).expect(rt, "a handle")
}

fn with_capacity_at_last(rt: &impl Abort, alloc: Global) -> HandleMap<u32> {
    match HandleMap::with_capacity(alloc, 2) {
        Ok(map) => map,
        Err(_) => HandleMap::with_capacity(alloc, 2).expect(rt, "memory for two"),
    }
}

fn insert_at_last(rt: &impl Abort, numbers: &mut HandleMap<u32>, index: u32) {
    let (len, capacity) = (numbers.len(), numbers.capacity());
    if let Err(refused) = numbers.insert(handle(rt, index), index) {
        let (value, error) = refused.into_parts();
        assert!(rt; error == InsertError::Memory && value == index);
        assert!(rt; numbers.len() == len && numbers.capacity() == capacity);
        assert!(rt; numbers.insert(handle(rt, index), index).is_ok());
    }
}

fn reserve_at_last(rt: &impl Abort, numbers: &mut HandleMap<u32>) {
    if numbers.reserve(1000).is_err() {
        assert!(rt; numbers.capacity() < 1101 && numbers.slots() == 101 && numbers.len() == 3);
        assert!(rt; numbers.reserve(1000).is_ok());
    }
    assert!(rt; numbers.capacity() >= 1101);
}
