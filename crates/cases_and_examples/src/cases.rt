//! Files of calls, each with what it has to return.
//!
//! If an allocation of the driver itself fails, the driver asks once more. A call is made again
//! only if its file expects that (`refusals`).

mod allocating;
mod call;
mod case;
mod conditions;
mod ended;
mod filling;
mod frames;
mod layer;
mod numbers;
mod phase;
mod queues;
mod refusals;
mod sharing;
mod storing;
mod synced;
mod viewing;
mod worlding;
mod writing;

use anyhow::Result;
use case::Case;
use layer::Layer;
use std::rt::Files;
use std::thread::Threads;

/// Runs the calls of one file, and tells how many of them return something else than it says.
pub fn compare<R>(rt: &R, name: &str) -> Result<u64>
where
    R: Files + Print + Threads + Sync + AllocGlobal,
{
    let text = match std::fs::read_to_string(rt, name) {
        Err(_) => std::fs::read_to_string(rt, name),
        text => text,
    }?;
    run(rt, name, text.as_str())
}

fn run<R>(rt: &R, name: &str, text: &str) -> Result<u64>
where
    R: Print + Threads + Sync + AllocGlobal,
{
    let mut case = Case::new(rt.alloc(), name)?;
    make_calls(rt, &mut case, name, text);
    case.report(rt)
}

fn make_calls<R>(rt: &R, case: &mut Case<'_>, name: &str, text: &str)
where
    R: Threads + Sync + AllocGlobal,
{
    case.run(rt, &mut Layer::new(rt.alloc(), name), text);
}
