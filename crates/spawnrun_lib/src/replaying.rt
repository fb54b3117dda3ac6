//! The run of a schedule: bytes in, bytes out.
ghost use Rattle.std.specs.Prelude.{◌≡◌, ◌≢◌, Err, IfOk, OnOk};
ghost use Rattle.ent_replay.specs.Schedule.{after_event, outcome_of, outcomes_of, starting};
ghost use Rattle.spawnrun_lib.specs.Replay.{Replays, SpellsNone, outcome_lines, refused_line};
ghost use Rattle.spawnrun_lib.specs.Work.{IsProductOf};

use crate::product::{Product, Refusal};
use crate::progress::Progress;
use crate::schedule::schedule_found;
use crate::text::Text;
use crate::wants::line_wants;
use ent_alloc::Limits;
use ent_handle::Memory;
use ent_replay::{
    Cause, Event, Machine, Outcome, ReadFault, ReplayFault, read_schedule, write_outcome,
};
use std::alloc::Global;

// The events between two reports of how far a run is.
const STEP: usize = 65_536;

/// Runs the schedule that the input spells over an empty allocator of these limits, and returns a
/// line for each event, or says why the input spells no schedule.
///
/// # Errors
///
/// [`Memory`], if there isn't enough memory for it.
pub(crate) fn replay<P: Progress>(
    alloc: Global,
    input: Vec<u8>,
    limits: Limits,
    progress: &mut P,
) -> Result<Product, Memory>
    ensures { IfOk result (IsProductOf (Replays limits) SpellsNone input.items) }
{
    match read_schedule(alloc, &input) {
        Ok(events) => {
            let text = outcome_text(alloc, limits, &events, progress);
            progress.end();
            Ok(Product::Output(Text::one(alloc, text?)?))
        }
        Err(ReadFault::Line { line, cause }) => Ok(Product::Refusal(Refusal {
            line: refused_line(alloc, line, cause)?,
            wants: line_wants(cause),
            found: schedule_found(&input, line),
        })),
        Err(ReadFault::Memory) => Err(Memory),
    }
}

// The lines of what the events give, from an empty allocator.
fn outcome_text<P: Progress>(
    alloc: Global,
    limits: Limits,
    events: &[Event],
    progress: &mut P,
) -> Result<Vec<u8>, Memory>
    ensures { IfOk result (λ text.
        text.items ≡ outcome_lines (outcomes_of (starting limits) events.now)) }
{
    let mut machine = Machine::new(alloc, limits)?;
    let mut text = Vec::new(alloc);
    for (done, event) in events.iter().enumerate() {
        if done % STEP == 0 {
            progress.tell(done, events.len());
        }
        let outcome = apply(&mut machine, *event)?;
        write_outcome(&outcome, &mut text)?;
    }
    Ok(text)
}

// Applies one event, if there is memory for it.
fn apply(machine: &mut Machine, event: Event) -> Result<Result<Outcome, ReplayFault>, Memory>
    ensures outcome { IfOk result (λ outcome. outcome ≡ outcome_of machine.old event) }
    ensures memory { IfOk result (λ outcome. outcome ≢ Err ReplayFault.Memory) }
    ensures state { OnOk result (machine.new ≡ after_event machine.old event) }
{
    match machine.step(event) {
        Err(ReplayFault::Memory) => Err(Memory),
        outcome => Ok(outcome),
    }
}

// The line that refuses a text, whose line of this number names no event.
fn refused_line(alloc: Global, line: usize, cause: Cause) -> Result<Vec<u8>, Memory>
    ensures { IfOk result (λ text. text.items ≡ refused_line line cause) }
{
    let cause = cause.text();
    let text = format!(in alloc; "refused line {line} {cause}\n")?;
    Ok(text.into_bytes())
}
