//! A task on devices in memory, and what it must write.
use super::memory::{MemorySink, NEVER};
use super::source::MemorySource;
use spawnrun_lib::{Sink, Source, Status, Task, command_line, do_task};
use std::alloc::Global;
use std::process::Abort;
use std::thread::Threads;

/// What the words after the program's name make of an input.
pub struct Row {
    pub words: &'static [&'static str],
    pub input: &'static str,
    pub status: Status,
    pub output: &'static str,
}

/// Does what the words ask for, and writes to the error stream only if the input is refused.
pub fn ended<R, I: Source, O: Sink>(
    rt: &R,
    alloc: Global,
    words: &[&str],
    input: &mut I,
    output: &mut O,
) -> Status
where
    R: Abort + Threads + Sync,
{
    let mut errors = MemorySink::new(alloc, NEVER);
    let Ok(task) = command_line(alloc, words) else {
        panic!(rt; "words that are taken")
    };
    if let Task::Run { workers, .. } | Task::RunInBlocks { workers, .. } = task {
        assert!(rt; 1 <= workers && workers <= 64);
    }
    let status = do_task(rt, alloc, task, input, output, &mut errors, &mut ());
    assert!(rt; errors.bytes.is_empty() == (status != Status::Refused));
    status
}

/// Whether the words make this output from the input, and end with this status.
pub fn gives<R>(
    rt: &R,
    alloc: Global,
    words: &[&str],
    input: &[u8],
    status: Status,
    output: &[u8],
) -> bool
where
    R: Abort + Threads + Sync,
{
    let mut source = MemorySource::new(input, NEVER);
    let mut sink = MemorySink::new(alloc, NEVER);
    ended(rt, alloc, words, &mut source, &mut sink) == status && sink.bytes.as_slice() == output
}
