//! How the libraries are used, from one thread to frames. Each example is a module, which stands
//! for itself.

mod by_hand;
mod caller;
mod frames;
mod game;
mod going_on;
mod logs;
mod meadow;
mod one_thread;
mod orders;
mod two_threads;

use anyhow::Result;
use std::thread::Threads;

/// Shows them all.
pub fn show<R: Threads + Sync + Print + AllocGlobal>(rt: &R) -> Result<()> {
    head(rt, "One thread")?;
    one_thread::show(rt)?;
    head(rt, "Orders")?;
    orders::show(rt)?;
    head(rt, "Two threads")?;
    two_threads::show(rt)?;
    head(rt, "Logs")?;
    logs::show(rt)?;
    head(rt, "The meadow")?;
    frames::show(rt)?;
    head(rt, "The game")?;
    game::show(rt)
}

/// Prints the head of an example.
fn head(rt: &impl Print, name: &str) -> Result<()> {
    println!(rt; "{name}:")?;
    Ok(())
}
