//! The program, run on its arguments.
ghost use Rattle.std.specs.Prelude.{◌≤◌};

use crate::program::execute;
use crate::progress::Teller;
use crate::task::is_task;
use cli::{Counted, Muted, Noting, begin};
use std::cell::Cell;
use std::env::Env;
use std::io::{Read, Write};
use std::rt::Files;
use std::thread::Threads;
use std::time::Clock;

/// Runs the program on its arguments, and returns its exit status: that of `execute`, or of
/// [`cli::begin`], which also opens an input file that they name. If `tells`, the terminal shows how
/// far a task is.
///
/// If the output is a pipe whose reader has left, the status is 4, and nothing is written to the
/// error stream.
pub fn start<R, I: Read + Drop, O: Write + Drop, E: Write + Drop, T: Write + Drop>(
    rt: &R,
    input: I,
    output: O,
    errors: E,
    terminal: T,
    tells: bool,
) -> u8
where
    R: Threads + Sync + Env + Clock + Files + AllocGlobal,
    ensures { result ≤ 4 }
{
    let has_left = Cell::new(false);
    let mut output = Counted::new(Noting::new(output, &has_left));
    let mut errors = Counted::new(Muted::new(errors, &has_left));
    let mut progress = Teller::new(rt, Counted::new(terminal), tells);
    let is_line = |words: &[String]| is_task(rt.alloc(), words);
    let (words, file) = match begin(rt, "spawnrun", is_line, &mut errors) {
        Ok(begun) => begun,
        Err(status) => return status,
    };
    let alloc = rt.alloc();
    let Some(file) = file else {
        let mut input = Counted::new(input);
        return execute(
            rt,
            alloc,
            &words,
            &mut input,
            &mut output,
            &mut errors,
            &mut progress,
        );
    };
    let mut input = Counted::new(file);
    execute(
        rt,
        alloc,
        &words,
        &mut input,
        &mut output,
        &mut errors,
        &mut progress,
    )
}
