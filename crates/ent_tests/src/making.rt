//! What is made without memory.

use ent_alloc::{Entities, Limits};
use ent_world::World;
use std::alloc::Global;

// `examples/refuse_each_allocation.sh` lets this test ask for fewer than 1,000 pieces of memory. It
// makes 2,000 worlds, each with an allocator and a storage of its own, and 2,000 allocators.
#[test]
fn making_takes_no_memory(rt: HostRuntime) {
    for _ in 0..2000 {
        assert!(rt; are_made_empty(rt.alloc()));
    }
}

fn are_made_empty(alloc: Global) -> bool {
    let limits = Limits::default_limits();
    World::new(alloc, limits).is_empty() && Entities::new(alloc, limits).is_empty()
}
