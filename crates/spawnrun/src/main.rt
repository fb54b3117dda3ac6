//! Runs schedules of allocator events and scripts of frames: `spawnrun replay` and `spawnrun run`
//! read one on standard input, and write what it gave.
#![tactic(auto)]

#[cfg(test)]
mod tests;

use spawnrun_lib::start;
use std::io::IsTerminal;
use std::process::ExitCode;

fn main(rt: HostRuntime) -> ExitCode {
    let terminal = rt.stderr();
    let tells = terminal.is_terminal();
    let errors = rt.stderr();
    ExitCode::from(start(&rt, rt.stdin(), rt.stdout(), errors, terminal, tells))
}
