//! Schedules, run at once and event by event.
use ent_alloc::Limits;
use ent_handle::Memory;
use ent_replay::{Event, Machine, Outcome, ReplayFault, read_schedule, write_outcome};
use std::alloc::Global;
use std::process::Abort;
use std::test::Fail;

// The generation limit, a schedule over 3 slots, and its lines. They have each outcome and fault at
// least once, except `Quota`: it takes hundreds of calls, and the cases of the program have it.
const SCHEDULES: &[(u32, &[u8], &[u8])] = &[
    // It begins with the events of a call that was never begun.
    (
        9,
        b"answer 1\nstep 1\nbegin 1024 1\nbegin 1 1\nanswer 1\nbegin 1 1\nstep 1\nstep 1\n\
        answer 1\nanswer 1\n",
        b"not open\nnot open\ncaller\nopen\nnot stepped\nalready open\ncursor -1\n\
        already stepped\n0v1\nnot open\n",
    ),
    // Exclusive events while a call is open, and while a flush is needed.
    (
        9,
        b"begin 0 2\nalloc\nfree 0v1\nflush\nstep 0\nanswer 0\nalloc\nfree 0v1\nflush\n\
        free 0v1\nfree 0v1\n",
        b"open\nbusy\nbusy\nbusy\ncursor -2\n0v1 1v1\nneeds flush\nneeds flush\nborn 0v1 1v1\n\
        freed 0v1 next 0v2\nnot alive\n",
    ),
    // Too few slots, for a call, for the same caller's next one and for `alloc`.
    (
        9,
        b"begin 7 4\nstep 7\nanswer 7\nbegin 7 1\nstep 7\nanswer 7\nflush\nalloc\nalloc\n\
        alloc\nalloc\n",
        b"open\ncursor -4\nspace wanted 4 left 3\nopen\ncursor -5\nspace wanted 1 left 0\n\
        born\n0v1\n1v1\n2v1\nspace wanted 1 left 0\n",
    ),
    // With a limit of one generation each slot is given once.
    (
        1,
        b"alloc\nfree 0v1\nalloc\nfree 0v1\nfree 1v1\nbegin 1 1\nstep 1\nanswer 1\nflush\n\
        free 2v1\nalloc\n",
        b"0v1\nfreed 0v1 retired\n1v1\nnot alive\nfreed 1v1 retired\nopen\ncursor -1\n2v1\n\
        born 2v1\nfreed 2v1 retired\nspace wanted 1 left 0\n",
    ),
    // The first caller and the last one; their answers come in another order than their steps.
    (
        9,
        b"begin 0 1\nbegin 1023 1\nstep 1023\nfree 0v1\nstep 0\nanswer 0\nanswer 1023\nflush\n",
        b"open\nopen\ncursor -1\nbusy\ncursor -2\n1v1\n0v1\nborn 0v1 1v1\n",
    ),
    // A call may stay open at the end.
    (9, b"begin 1 1\nstep 1\n", b"open\ncursor -1\n"),
];

#[test]
fn schedules_step_by_step(rt: HostRuntime) -> Result<(), Fail> {
    for (generations, schedule, lines) in SCHEDULES {
        let limits = Limits::new(3, *generations).expect(&rt, "limits");
        let events = read_schedule(rt.alloc(), schedule)?;
        assert!(rt; lines_of_run(&rt, rt.alloc(), limits, &events)?.as_slice() == *lines);
        assert!(rt; lines_of_steps(&rt, rt.alloc(), limits, &events)?.as_slice() == *lines);
    }
    Ok(())
}

// What `run` gives, in lines.
fn lines_of_run(
    rt: &impl Abort,
    alloc: Global,
    limits: Limits,
    events: &[Event],
) -> Result<Vec<u8>, Memory> {
    let mut machine = Machine::new(alloc, limits)?;
    let Ok(outcomes) = machine.run(events) else {
        return Err(Memory);
    };
    let mut lines = Vec::new(alloc);
    for outcome in &outcomes {
        append(rt, outcome, &mut lines)?;
    }
    Ok(lines)
}

// What `step` gives, in lines.
fn lines_of_steps(
    rt: &impl Abort,
    alloc: Global,
    limits: Limits,
    events: &[Event],
) -> Result<Vec<u8>, Memory> {
    let mut machine = Machine::new(alloc, limits)?;
    let mut lines = Vec::new(alloc);
    for event in events {
        append(rt, &machine.step(*event), &mut lines)?;
    }
    Ok(lines)
}

fn append(
    rt: &impl Abort,
    outcome: &Result<Outcome, ReplayFault>,
    lines: &mut Vec<u8>,
) -> Result<(), Memory> {
    match outcome {
        Err(ReplayFault::Memory) => panic!(rt; "memory is ample"),
        outcome => write_outcome(outcome, lines),
    }
}
