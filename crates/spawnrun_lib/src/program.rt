//! The program: it does what its arguments ask for between two devices, and writes to the error
//! stream.
ghost use Rattle.std.specs.Prelude.{◌≡◌, ◌≢◌, ◌≤◌, ◌+◌, [], min, map, length, codes, true};
ghost use Rattle.std.specs.Prelude.{IfSome};
ghost use Rattle.std.specs.Io.KnownBytes.{Appends};
ghost use Rattle.clap.specs.Words.{fault_of, takes};
ghost use Rattle.spawnrun_lib.specs.CommandLine.{IsFaulty, program};
ghost use Rattle.cli.specs.Device.{OneFails, Takes, TakesAtMost};
ghost use Rattle.spawnrun_lib.specs.Program.{AsksTo, Fails, Gives};
ghost use Rattle.spawnrun_lib.specs.Work.{HasAdvised, HasDone, HasRefused, input_limit};

use crate::progress::Progress;
use crate::status::Status;
use crate::task::command_line;
use crate::work::do_task;
use cli::{LineFault, Sink, Source, finish, refuse_line};
use std::alloc::Global;
use std::convert::AsStr;
use std::thread::Threads;

/// Does what the program's arguments ask for, and returns the exit status.
///
/// | Status | Meaning | On the error stream |
/// |---|---|---|
/// | 0 | The task was done. | nothing |
/// | 1 | The input was refused. One line of output names the test. | what the test wants and finds |
/// | 2 | The words are no command line, or ask for help. No device is used. | clap's text |
/// | 3 | Memory ran out. Nothing was written. | `memory` |
/// | 4 | A call of the input or the output failed. | `device` |
///
/// A failure of the error stream changes no status. `progress` gets how far the task is.
pub fn execute<R, S: AsStr, I: Source, O: Sink, E: Sink, P: Progress>(
    rt: &R,
    alloc: Global,
    words: &[S],
    input: &mut I,
    output: &mut O,
    errors: &mut E,
    progress: &mut P,
) -> u8
where
    R: Threads + Sync,
    ensures statuses { result ≤ 4 }

    // A replay or a run was done, or its input refused.
    ensures done { result ≡ 0 → AsksTo (map S.text words.now) (λ task. HasDone (Gives task)
        (I.remaining input.old) (O.written output.old) (O.written output.new)) }
    ensures refused { result ≡ 1 → AsksTo (map S.text words.now) (λ task. HasRefused (Fails task)
        (I.remaining input.old) (O.written output.old) (O.written output.new)) }

    // The words are no command line, or ask for help. They have no other status, but 3 for lack of
    // memory.
    ensures faulty { result ≡ 2 → IsFaulty (map S.text words.now) }
    ensures taken { takes program (map S.text words.now) ≡ true → result ≢ 2 }
    ensures unfaulty { result ≢ 2 → result ≢ 3 → fault_of program (map S.text words.now) ≡ [] }
    ensures unused_input { result ≡ 2 → input.new ≡ input.old }
    ensures unused_output { result ≡ 2 → output.new ≡ output.old }

    ensures memory { result ≡ 3 → output.new ≡ output.old }
    ensures device { result ≡ 4 → OneFails
        (I.failures input.old) (I.failures input.new)
        (O.failures output.old) (O.failures output.new) }
    ensures input_unfailed { result ≢ 4 → I.failures input.new ≡ I.failures input.old }
    ensures output_unfailed { result ≢ 4 → O.failures output.new ≡ O.failures output.old }
    ensures unread { I.failures input.new ≢ I.failures input.old → output.new ≡ output.old }

    // How much of the input is taken.
    ensures reads { I.failures input.new ≡ I.failures input.old → result ≢ 2 → result ≢ 3
        → IfSome (I.remaining input.old) (λ all.
        Takes (I.remaining input.old) (I.remaining input.new)
        (min (length all) (input_limit + 1))) }
    ensures stops { I.failures input.new ≡ I.failures input.old
        → TakesAtMost (I.remaining input.old) (I.remaining input.new) (input_limit + 1) }

    // What the error stream tells.
    ensures quiet { result ≡ 0 → errors.new ≡ errors.old }
    ensures advised { result ≡ 1 → E.failures errors.new ≡ E.failures errors.old
        → AsksTo (map S.text words.now) (λ task. HasAdvised (Fails task)
        (I.remaining input.old) (E.written errors.old) (E.written errors.new)) }
    ensures memory_said { result ≡ 3 → E.failures errors.new ≡ E.failures errors.old
        → Appends (E.written errors.old) (E.written errors.new) (codes "memory\n") }
    ensures device_said { result ≡ 4 → E.failures errors.new ≡ E.failures errors.old
        → Appends (E.written errors.old) (E.written errors.new) (codes "device\n") }
{
    match command_line(alloc, words) {
        Ok(task) => {
            let status = do_task(rt, alloc, task, input, output, errors, progress);
            finish(errors, status.number())
        }
        Err(LineFault::Line(error)) => refuse_line(format!(in alloc; "{error}"), errors),
        Err(LineFault::Memory) => finish(errors, Status::Memory.number()),
    }
}
