use ent_runner::Gate;
use std::alloc::Global;
use std::process::Abort;
use std::sync::atomic::{AtomicU32, Ordering};

/// A gate that counts for each system how often it was told of it, and how often the system ran.
#[derive(Drop)]
pub struct Counts {
    lines: Vec<Line>,
    /// How often a system ran of which the gate was not told just before, or the gate was told of
    /// a system that there is not.
    wrong: AtomicU32,
}

/// The counts of one system.
#[derive(Drop)]
struct Line {
    told: AtomicU32,
    ran: AtomicU32,
}

impl Counts {
    pub fn new(rt: &impl Abort, alloc: Global, systems: usize) -> Self {
        let mut lines = room(rt, alloc, systems);
        for _ in 0..systems {
            let line = Line {
                told: AtomicU32::new(0),
                ran: AtomicU32::new(0),
            };
            lines.push(line).expect(rt, "room");
        }
        Counts {
            lines,
            wrong: AtomicU32::new(0),
        }
    }

    /// The system of this number runs.
    pub fn runs(&self, system: usize) {
        if let Some(line) = self.lines.get(system) {
            let before = line.ran.fetch_add(1, Ordering::SeqCst);
            if line.told.load(Ordering::SeqCst) == before.wrapping_add(1) {
                return;
            }
        }
        self.wrong.fetch_add(1, Ordering::SeqCst);
    }

    /// The first systems, that many, were entered and ran that often, and the others did not.
    pub fn assert_first(&self, rt: &impl Abort, first: usize, times: u32) {
        assert!(rt; self.wrong.load(Ordering::SeqCst) == 0);
        for (number, line) in self.lines.iter().enumerate() {
            line.assert_counts(rt, if number < first { times } else { 0 });
        }
    }
}

impl Line {
    /// The system was entered and ran that often.
    fn assert_counts(&self, rt: &impl Abort, times: u32) {
        assert!(rt; self.told.load(Ordering::SeqCst) == times);
        assert!(rt; self.ran.load(Ordering::SeqCst) == times);
    }
}

/// An empty list with room for so many. An allocation that fails once is tried again.
pub fn room<T: Drop>(rt: &impl Abort, alloc: Global, len: usize) -> Vec<T> {
    let made = match Vec::with_capacity(alloc, len) {
        Err(_) => Vec::with_capacity(alloc, len),
        made => made,
    };
    made.expect(rt, "memory for a list")
}

impl Gate for Counts {
    fn entered(&self, system: usize) {
        match self.lines.get(system) {
            Some(line) => line.told.fetch_add(1, Ordering::SeqCst),
            None => self.wrong.fetch_add(1, Ordering::SeqCst),
        };
    }
}
