//! The run of a whole script.
ghost use Rattle.std.specs.Prelude.{◌≡◌, ◌<◌, ◌≤◌, ℕ, List, IfOk};
ghost use Rattle.ent_script.specs.Ranges.{IsScript};
ghost use Rattle.spawnrun_lib.specs.Course.{AreFew, HaveGone};
ghost use Rattle.spawnrun_lib.specs.Given.{handles_in_run};
ghost use Rattle.ent_alloc.specs.History.{AreGivenOnce};
ghost use Rattle.spawnrun_lib.specs.Report.{Execution, IsReport, IsReportOf};
ghost use Rattle.spawnrun_lib.specs.SameReport.{HasEnoughSlots, IsWithoutHandles, TellsNoRefusal};
ghost use Rattle.spawnrun_lib.specs.ScriptAlone.{text_alone};

use crate::frame;
use crate::frame_text::write_frame;
use crate::progress::Progress;
use crate::show::Show;
use crate::text::Text;
use crate::world_parts::with_world;
use ent_handle::Memory;
use ent_script::{Frame, Script};
use ent_world::World;
use std::alloc::Global;
use std::thread::Threads;

/// Runs the frames one after the other, and appends the text of each. The memory of a frame is
/// freed before the next one runs.
fn run_frames<R, P: Progress>(
    rt: &R,
    alloc: Global,
    world: &mut World,
    frames: Vec<Frame>,
    workers: usize,
    show: Show,
    progress: &mut P,
) -> Result<Vec<u8>, Memory>
where
    R: Threads + Sync,
    requires flushed { world.old.allocator.asked ≡ 0 }
    requires systems { AreFew frames.items }
    requires some { 0 < workers }
    requires few { workers ≤ 64 }
    ensures went { IfOk result (λ text. HaveGone frames.items workers show world.old world.new
        text.items) }
{
    let count = frames.len();
    let mut text = Vec::new(alloc);
    let mut number = 0;
    for current in frames {
        progress.tell(number, count);
        let report = frame::run(rt, alloc, world, current.systems(), workers)?;
        write_frame(number as u64, &report, show, &mut text)?;
        number += 1;
    }
    Ok(text)
}

/// Runs the frames over a world that begins empty, and appends the text of the world that they
/// leave.
fn report<R, P: Progress>(
    rt: &R,
    alloc: Global,
    script: Script,
    workers: usize,
    show: Show,
    progress: &mut P,
) -> Result<Text, Memory>
where
    R: Threads + Sync,
    requires ranges { IsScript script }
    requires some { 0 < workers }
    requires few { workers ≤ 64 }
    ensures { IfOk result (λ text. IsReport script workers show text) }
{
    let (limits, components, frames) = script.into_parts();
    let mut world = World::new(alloc, limits);
    let text = run_frames(rt, alloc, &mut world, frames, workers, show, progress)?;
    with_world(rt, alloc, text, &world, &components, show, workers)
}

/// Runs a script over a world that begins empty, on 1 to 64 workers, and returns the report: the
/// text of each frame and of the world that the last one leaves. The script is one that
/// `ent_script` has read. One worker runs a frame of few commands, and writes the lines of few
/// entities.
///
/// With several workers, which entity gets which handle may differ from run to run. If the script
/// names no handle and no request is refused, the text by births is the same in each run. No
/// request is refused if the script spawns no more entities in all than it has slots. What a frame
/// has done is kept as text alone, and its operations are freed after it has run, so beside the
/// script memory grows with the world, the text and the longest frame.
///
/// Before each frame `progress` gets how many are done; `()` ignores it.
///
/// # Errors
///
/// `Memory` if memory ran out at any point of the run.
pub fn run_script<R, P: Progress>(
    rt: &R,
    alloc: Global,
    script: Script,
    workers: usize,
    show: Show,
    progress: &mut P,
) -> Result<Text, Memory>
where
    R: Threads + Sync,
    requires ranges { IsScript script }
    requires some { 0 < workers }
    requires few { workers ≤ 64 }
    ensures report { IfOk result (λ text. IsReport script workers show text) }

    // The others are laws of the definitions: they follow from `report` and `ranges`, so a body
    // that meets `report` meets them. One worker has no other report.
    ensures only { workers ≡ 1 → IfOk result (λ text. (other : List ℕ)
        → IsReport script workers show other → text ≡ other) }

    // However the frames went, and whatever the limits are.
    ensures given_once { IfOk result (λ text. (executions : List Execution)
        → IsReportOf script workers show executions text
        → AreGivenOnce (handles_in_run executions)) }

    // A script that names no handle has one text by births, however many workers run it, if no line
    // of the text tells of a refused request.
    ensures same { show ≡ Show.Births → IsWithoutHandles script → IfOk result (λ text.
        TellsNoRefusal text → text ≡ text_alone script) }

    // And in any case, if all its operations request no more handles than it has slots: then no
    // request is refused.
    ensures enough { show ≡ Show.Births → IsWithoutHandles script → HasEnoughSlots script
        → IfOk result (λ text. text ≡ text_alone script) }
{
    let report = report(rt, alloc, script, workers, show, progress);
    progress.end();
    report
}
