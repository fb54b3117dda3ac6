use std::sync::atomic::{AtomicU32, Ordering};
use std::thread;

/// How often a thread looks for the others before it goes on without them. It lets another thread
/// run each time, so that all get on also if the processors are busy.
const TURNS: u32 = 200_000_000;

/// Where threads look for one another before they begin, so that they do overlap.
#[derive(Drop)]
pub struct Meeting {
    entered: AtomicU32,
    threads: u32,
}

impl Meeting {
    /// For that many threads.
    pub fn new(threads: u32) -> Self {
        Meeting {
            entered: AtomicU32::new(0),
            threads,
        }
    }

    /// Enters, and waits until all have entered, though not for ever. Returns whether it saw them.
    pub fn enter(&self) -> bool {
        self.entered.fetch_add(1, Ordering::SeqCst);
        for _ in 0..TURNS {
            if self.entered.load(Ordering::SeqCst) == self.threads {
                return true;
            }
            thread::yield_now();
        }
        false
    }
}
