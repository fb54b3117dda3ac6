ghost use Rattle.std.specs.Prelude.{◌≡◌, IfOk};
ghost use Rattle.spawnrun_lib.specs.Issuing.{MayIssue, MayStop};

use crate::issuing::issue_all;
use ent_alloc::Source;
use ent_handle::Memory;
use ent_queue::{CommandQueue, Commands};
use ent_runner::System;
use ent_world::View;
use std::alloc::Global;
use std::marker::Model;

/// A system of a script, as a frame runs it. Contracts see the list of its operations.
#[derive(Drop)]
pub struct ScriptSystem<'a> {
    system: &'a ent_script::System,
}

impl<'a> Model for ScriptSystem<'a> {
    ghost use Rattle.std.specs.Prelude.{List};
    ghost use Rattle.ent_script.specs.declared.operation.Operation.{Operation};

    ghost Value = { List Operation };

    ghost view = { λ s. s.system.now };
}

impl<'a> ScriptSystem<'a> {
    /// The system of these operations. It doesn't allocate.
    pub fn new(system: &'a ent_script::System) -> Self
        ensures { result ≡ system.now }
    {
        ScriptSystem { system }
    }
}

impl<S: Source> System<S, Memory> for ScriptSystem<'_> {
    ghost may_issue = { MayIssue };

    ghost may_leave = { λ system view queue _. MayStop system view queue };

    /// # Errors
    ///
    /// `Memory`, if one of the operations ran out of memory, and for no other reason. A spawn
    /// that is refused is a command of the queue, and the run goes on.
    fn run(
        &self,
        alloc: Global,
        view: &View<'_>,
        commands: &mut Commands<'_, CommandQueue, S>,
    ) -> Result<(), Memory> {
        issue_all(alloc, view, self.system.operations(), commands)
    }
}

/// The systems of a script, as a frame runs them.
pub(crate) fn runnable<'a>(
    alloc: Global,
    systems: &'a [ent_script::System],
) -> Result<Vec<ScriptSystem<'a>>, Memory>
    ensures { IfOk result (λ runnable. runnable.items ≡ systems.now) }
{
    let mut runnable = Vec::with_capacity(alloc, systems.len())?;
    for system in systems {
        runnable.push_reserved(ScriptSystem::new(system));
    }
    Ok(runnable)
}
