//! A frame that goes on after its sync point stopped.
ghost use Rattle.std.specs.Prelude.{◌≡◌, ◌≤◌, ◌^◌, length, IfOk};
ghost use Rattle.ent_runner.specs.Frame.{Ends};

use anyhow::Result;
use ent_handle::Memory;
use ent_runner::{FrameFault, FrameReport, NoGate, System, run_frame};
use ent_shared::Shared;
use ent_world::{SyncFault, SyncReport, World};
use std::thread::Threads;

/// A frame of these systems on two workers. If its sync point stops at a command, it goes on there,
/// and then ends as if it had not stopped.
pub fn frame_that_goes_on<R, S>(rt: &R, world: &mut World, systems: &[S]) -> Result<FrameReport>
where
    R: Threads + Sync + AllocGlobal,
    S: System<Shared, Memory> + Sync,
    requires flushed { world.old.allocator.asked ≡ 0 }
    requires systems { length systems.now ≤ 2 ^ 16 }
    ensures ends { IfOk result (λ report. Ends S.may_issue systems.now 2 world.old
        report.queues.items world.new report.sync.born.items report.sync.faults.items) }
    ensures flushed { IfOk result (λ _. world.new.allocator.asked ≡ 0) }
{
    match run_frame(rt, rt.alloc(), world, systems, 2, &NoGate) {
        Err(FrameFault::Sync { fault, queues }) => match fault {
            SyncFault::Memory {
                system,
                command,
                done,
                so_far,
            } => {
                // Whatever can be spared should be given back here.
                let rest = world.apply_from(&queues, system, command, done)?;
                let SyncReport { born, mut faults } = so_far;
                faults.extend_from_slice(&rest.faults)?;
                let sync = SyncReport { born, faults };
                Ok(FrameReport { queues, sync })
            }
            refused => Err(refused.into()),
        },
        ended => Ok(ended?),
    }
}
