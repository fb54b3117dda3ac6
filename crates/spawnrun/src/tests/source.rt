//! Sources in memory.
ghost use Rattle.std.specs.Prelude.{None};

use spawnrun_lib::{Failed, Source};

/// Gives a text, and fails once, after `calls` successful calls. It doesn't tell its bytes.
#[derive(Drop)]
pub struct MemorySource<'a> {
    rest: &'a [u8],
    calls: u64,
    failures: u64,
}

impl<'a> MemorySource<'a> {
    pub fn new(text: &'a [u8], calls: u64) -> Self {
        MemorySource {
            rest: text,
            calls,
            failures: 0,
        }
    }
}

impl Source for MemorySource<'_> {
    ghost remaining = { λ _. None };

    ghost failures = { λ source. source.failures };

    fn take(&mut self, buffer: &mut [u8]) -> Result<usize, Failed> {
        if self.calls == 0 && self.failures == 0 {
            self.failures = 1;
            return Err(Failed);
        }
        self.calls = self.calls.saturating_sub(1);
        let count = self.rest.len().min(buffer.len());
        buffer[..count].copy_from_slice(&self.rest[..count]);
        self.rest = &self.rest[count..];
        Ok(count)
    }
}

/// Gives line feeds without end, and counts them. It doesn't tell its bytes, and never fails.
#[derive(Drop)]
pub struct LineFeeds {
    pub taken: usize,
}

impl Source for LineFeeds {
    ghost remaining = { λ _. None };

    ghost failures = { λ _. 0 };

    fn take(&mut self, buffer: &mut [u8]) -> Result<usize, Failed> {
        buffer.fill(b'\n');
        self.taken = self.taken.saturating_add(buffer.len());
        Ok(buffer.len())
    }
}
