use ent_runner::Gate;
use std::sync::atomic::{AtomicBool, AtomicU32, Ordering};
use std::thread;

/// How often a system looks for the others before it goes on without them. It lets another thread
/// run each time, so that all get on also if they are more than the processors.
const TURNS: u32 = 200_000_000;

/// A gate at which the first systems of a frame wait until all have entered, though not for ever.
#[derive(Drop)]
pub struct Rendezvous {
    /// How many systems the frame has.
    systems: u32,
    /// How many of them wait.
    waiting: usize,
    entered: AtomicU32,
    saw_all: AtomicU32,
    /// A system has waited in vain, so no other one waits for long.
    in_vain: AtomicBool,
}

impl Rendezvous {
    pub fn new(systems: u32, waiting: usize) -> Self {
        Rendezvous {
            systems,
            waiting,
            entered: AtomicU32::new(0),
            saw_all: AtomicU32::new(0),
            in_vain: AtomicBool::new(false),
        }
    }

    /// How many systems the frame has.
    pub fn systems(&self) -> u32 {
        self.systems
    }

    /// How many systems have entered.
    pub fn entered(&self) -> u32 {
        self.entered.load(Ordering::SeqCst)
    }

    /// How many systems that waited saw that all had entered.
    pub fn saw_all(&self) -> u32 {
        self.saw_all.load(Ordering::SeqCst)
    }

    /// Waits until all have entered. Returns whether it saw that.
    fn sees_all(&self) -> bool {
        for _ in 0..TURNS {
            if self.entered() == self.systems {
                return true;
            }
            if self.in_vain.load(Ordering::SeqCst) {
                return false;
            }
            thread::yield_now();
        }
        self.in_vain.store(true, Ordering::SeqCst);
        false
    }
}

impl Gate for Rendezvous {
    fn entered(&self, system: usize) {
        self.entered.fetch_add(1, Ordering::SeqCst);
        if system < self.waiting && self.sees_all() {
            self.saw_all.fetch_add(1, Ordering::SeqCst);
        }
    }
}
