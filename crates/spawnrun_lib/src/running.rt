//! The run of a script: bytes in, bytes out.
ghost use Rattle.std.specs.Prelude.{◌≡◌, ◌≢◌, ◌<◌, ◌≤◌, Err, IfOk, OnOk};
ghost use Rattle.ent_script.specs.Reading.{ReadsAs, script_of_text};
ghost use Rattle.ent_script.specs.Refusal.{refusal_line};
ghost use Rattle.spawnrun_lib.specs.Running.{MeansNone, Runs, RunsInBlocks};
ghost use Rattle.spawnrun_lib.specs.Work.{IsProductOf, refusal_of};

use crate::product::{Product, Refusal};
use crate::progress::Progress;
use crate::script_run::run_script;
use crate::script_run_in_blocks::run_script_in_blocks;
use crate::show::Show;
use crate::wants::script_wants;
use ent_handle::Memory;
use ent_script::found::script_found;
use ent_script::{ReadFault, read_script, write_refusal};
use std::alloc::Global;
use std::thread::Threads;

/// Reads the script that the input means and runs it over an empty world, on 1 to 64 workers, and
/// gives its report, or says why the input means no script. No frame runs before the whole input is
/// read.
///
/// # Errors
///
/// [`Memory`], if there isn't enough memory for it.
pub(crate) fn run<R, P: Progress>(
    rt: &R,
    alloc: Global,
    input: Vec<u8>,
    workers: usize,
    show: Show,
    progress: &mut P,
) -> Result<Product, Memory>
where
    R: Threads + Sync,
    requires some { 0 < workers }
    requires few { workers ≤ 64 }
    ensures { IfOk result (IsProductOf (Runs workers show) MeansNone input.items) }
{
    match read_script(rt, alloc, &input, workers) {
        Ok(script) => {
            // The text is given back before the frames run.
            drop(input);
            let report = run_script(rt, alloc, script, workers, show, progress)?;
            Ok(Product::Output(report))
        }
        Err(fault) => Ok(Product::Refusal(no_script(alloc, &input, fault)?)),
    }
}

/// The same with a block of `size` handles for each system of a frame. The report doesn't depend on
/// the number of workers.
///
/// # Errors
///
/// [`Memory`], if there isn't enough memory for it.
pub(crate) fn run_in_blocks<R, P: Progress>(
    rt: &R,
    alloc: Global,
    input: Vec<u8>,
    size: u32,
    workers: usize,
    show: Show,
    progress: &mut P,
) -> Result<Product, Memory>
where
    R: Threads + Sync,
    requires some { 0 < workers }
    requires few { workers ≤ 64 }
    ensures { IfOk result (IsProductOf (RunsInBlocks size show) MeansNone input.items) }
{
    match read_script(rt, alloc, &input, workers) {
        Ok(script) => {
            // The text is given back before the frames run.
            drop(input);
            let report = run_script_in_blocks(rt, alloc, script, size, workers, show, progress)?;
            Ok(Product::Output(report))
        }
        Err(fault) => Ok(Product::Refusal(no_script(alloc, &input, fault)?)),
    }
}

// What is said of a text that is no script, for this fault that reading it has found.
// It is `Memory` also if that is the fault: want of memory is no refusal.
fn no_script(alloc: Global, input: &[u8], fault: ReadFault) -> Result<Refusal, Memory>
    requires { ReadsAs (Err fault) (script_of_text input.now) }
    ensures { IfOk result (λ refusal. MeansNone input.now (refusal_of refusal)) }
{
    Ok(Refusal {
        line: refusal_line(alloc, fault)?,
        wants: script_wants(fault),
        found: script_found(alloc, input, fault),
    })
}

// The line that refuses a text that is no script. Want of memory is no refusal.
fn refusal_line(alloc: Global, fault: ReadFault) -> Result<Vec<u8>, Memory>
    ensures refused { OnOk result (fault ≢ ReadFault.Memory) }
    ensures line { IfOk result (λ line. line.items ≡ refusal_line fault) }
{
    if fault == ReadFault::Memory {
        return Err(Memory);
    }
    let mut line = Vec::new(alloc);
    write_refusal(fault, &mut line)?;
    Ok(line)
}
