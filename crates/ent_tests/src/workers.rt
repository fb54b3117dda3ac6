//! Frames of each number of workers.
use crate::frames::assert_saw_all;
use crate::rendezvous::Rendezvous;
use ent_alloc::Limits;
use ent_world::World;

/// One frame after the other in the same world, by one worker more each time. There are as many
/// systems as workers, and all wait for one another. Each worker has a thread of its own: else its
/// system waits in vain.
#[test]
fn each_number_of_workers(rt: HostRuntime) {
    let alloc = rt.alloc();
    let mut world = World::new(alloc, Limits::default_limits());
    for workers in 1..=64 {
        let gate = Rendezvous::new(workers, 64);
        assert_saw_all(&rt, alloc, &mut world, workers as usize, &gate, workers);
    }
}
