//! A sink in memory. It can fail once, at a call that is set.
ghost use Rattle.std.specs.Prelude.{◌≡◌, ◌==◌, if◌then◌else◌, [], None, Some};

use spawnrun_lib::{Failed, Sink};
use std::alloc::Global;

/// For a device that never fails.
pub const NEVER: u64 = u64::MAX;

/// Keeps what it is given, and fails once, after `calls` calls that succeed. From then on it tells
/// nothing and keeps nothing.
#[derive(Drop)]
pub struct MemorySink {
    pub bytes: Vec<u8>,
    calls: u64,
    failures: u64,
}

impl MemorySink {
    pub fn new(alloc: Global, calls: u64) -> Self
        ensures tells { result.bytes.items ≡ [] }
        ensures fails_at { (result.failures ≡ 0) × (result.calls ≡ calls) }
    {
        MemorySink {
            bytes: Vec::new(alloc),
            calls,
            failures: 0,
        }
    }
}

impl Sink for MemorySink {
    ghost written = { λ sink. if sink.failures == 0 then Some sink.bytes.items else None };

    ghost failures = { λ sink. sink.failures };

    fn put(&mut self, piece: &[u8]) -> Result<(), Failed> {
        if self.failures > 0 {
            return Ok(());
        }
        if self.calls == 0 || self.bytes.extend_from_slice(piece).is_err() {
            self.failures = 1;
            return Err(Failed);
        }
        self.calls -= 1;
        Ok(())
    }
}
