//! What a sync point reported.

use crate::cases::ended::Ended;
use ent_world::{SyncFault, SyncReport};
use std::alloc::Global;

/// What the last sync point reported, even if it stopped.
#[derive(Drop)]
pub struct Synced {
    pub report: SyncReport,
}

impl Synced {
    /// Before the first sync point.
    pub fn new(alloc: Global) -> Self {
        Synced {
            report: SyncReport {
                born: Vec::new(alloc),
                faults: Vec::new(alloc),
            },
        }
    }

    /// Keeps the report of a sync point.
    pub fn keep(&mut self, applied: Result<SyncReport, SyncFault>) -> Ended {
        match applied {
            Ok(report) => {
                self.report = report;
                Ended::Done
            }
            Err(
                SyncFault::Memory {
                    system,
                    command,
                    done,
                    so_far,
                },
            ) => {
                self.report = so_far;
                Ended::Stopped(system, command, done)
            }
            Err(SyncFault::FlushMemory) => Ended::Refused("out of memory"),
        }
    }

    /// Nobody more is born, and there may be more faults.
    pub fn keep_rest(&mut self, rest: &SyncReport) -> &'static str {
        if !rest.born.is_empty() {
            return "more are born";
        }
        match self.report.faults.extend_from_slice(&rest.faults) {
            Ok(()) => "done",
            Err(_) => "out of memory",
        }
    }
}
