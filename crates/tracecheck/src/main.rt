//! Compares a recorded trace of an entity allocator with the proved one: `tracecheck` reads it on
//! standard input, and writes whether it agrees, or the first line that doesn't.
#![tactic(auto, using(crate::proofs::Laws::laws))]

mod checking;
mod command_line;
mod image;
mod lines;
mod program;
mod progress;
mod running;
mod status;
mod verdict;

use program::start;
use std::io::IsTerminal;
use std::process::ExitCode;

fn main(rt: HostRuntime) -> ExitCode {
    let terminal = rt.stderr();
    let tells = terminal.is_terminal();
    let errors = rt.stderr();
    ExitCode::from(start(&rt, rt.stdin(), rt.stdout(), errors, terminal, tells))
}
