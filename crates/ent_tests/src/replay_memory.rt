//! Runs of a schedule that run out of memory.

use ent_alloc::Limits;
use ent_handle::Memory;
use ent_replay::{Event, Machine, RunMemory};
use std::alloc::Global;
use std::test::Fail;

const BULK: [Event; 4] = [
    Event::Begin { caller: 1, n: 2 },
    Event::Step(1),
    Event::Answer(1),
    Event::Flush,
];

// Passes whichever single allocation is refused: a second run goes on after the events that are
// done. `rt try --test --fail-alloc N -- out_of_memory` refuses the Nth.
#[test]
fn out_of_memory_cuts_a_run(rt: HostRuntime) -> Result<(), Fail> {
    assert!(rt; is_run_at_last(rt.alloc())?);
    Ok(())
}

fn is_run_at_last(alloc: Global) -> Result<bool, Memory> {
    let mut machine = Machine::new(alloc, Limits::default_limits())?;
    let done = events_done(&mut machine, &BULK);
    Ok(has_done_rest(&mut machine, done))
}

// Whether a run does all events but so many first ones.
fn has_done_rest(machine: &mut Machine, done: usize) -> bool {
    match BULK.get(done..) {
        Some(left) => events_done(machine, left) == left.len(),
        None => false,
    }
}

// How many of the events a run has done.
fn events_done(machine: &mut Machine, events: &[Event]) -> usize {
    match machine.run(events) {
        Ok(outcomes) => outcomes.len(),
        Err(RunMemory { done }) => done,
    }
}
