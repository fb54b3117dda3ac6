//! Systems that fill logs side by side, over an allocator of the program's own. Each waits for the
//! other one, so both workers need a thread.
use anyhow::Result;
use ent_alloc::{Entities, Limits};
use ent_handle::Memory;
use ent_log::{Entry, Log, SyncPoint};
use ent_queue::Commands;
use ent_runner::{LogSystem, run_logs};
use ent_shared::Shared;
use std::alloc::Global;
use std::sync::atomic::{AtomicU32, Ordering};
use std::thread;
use std::thread::Threads;

/// How often a system looks for the other one before it goes on without it.
const TURNS: u32 = 200_000_000;

/// What a system has to say at the sync point: it met the other one.
#[derive(Clone, Copy, Drop)]
struct Met;

/// Waits for the other system, and sows a plant.
#[derive(Clone, Copy)]
struct Sow<'a> {
    /// How many systems have begun.
    begun: &'a AtomicU32,
}

impl Sow<'_> {
    /// Waits until both have begun, though not for ever. Returns whether it saw that.
    fn meets(&self) -> bool {
        self.begun.fetch_add(1, Ordering::SeqCst);
        for _ in 0..TURNS {
            if self.begun.load(Ordering::SeqCst) == 2 {
                return true;
            }
            thread::yield_now();
        }
        false
    }
}

impl LogSystem<Met, Shared, Memory> for Sow<'_> {
    ghost may_log = { λ _ _. Unit {0} };

    #[tactic(auto, using(ent_queue::proofs::Extending::log_extends_then))]
    fn run(&self, _alloc: Global, commands: &mut Commands<'_, Log<Met>>) -> Result<(), Memory> {
        if self.meets() {
            commands.push(Met)?;
        }
        match commands.spawn() {
            Ok(_) => Ok(()),
            Err(refused) => refused.or_memory(),
        }
    }
}

/// Two systems on two workers, and their sync point.
pub fn show<R: Threads + Sync + Print + AllocGlobal>(rt: &R) -> Result<()> {
    let mut entities = Entities::new(rt.alloc(), Limits::default_limits());
    let begun = AtomicU32::new(0);
    let systems = [Sow { begun: &begun }; 2];
    let mut logs = run_logs(rt, rt.alloc(), &mut entities, &systems, 2)?;
    let met = count(&logs);
    let mut born = Vec::new(rt.alloc());
    let _ = SyncPoint::begin(rt.alloc(), &mut entities, &mut logs, &mut born)?;
    println!(rt; "{met} systems met, and {} plants are sown", born.len())?;
    Ok(())
}

/// How many systems met the other one.
fn count(logs: &[Log<Met>]) -> u32 {
    let mut met: u32 = 0;
    for log in logs {
        if let Some(Entry::Command(Met)) = log.entries().first() {
            met = met.saturating_add(1);
        }
    }
    met
}
