//! What the operations of a system issue.
ghost use Rattle.std.specs.Prelude.{◌≡◌, [], OnOk, OnErr};
ghost use Rattle.ent_queue.specs.Commands.{IsReady, Extends, output_of};
ghost use Rattle.ent_queue.specs.Issuing.{Issues};
ghost use Rattle.spawnrun_lib.specs.Issuing.{MayIssue, MayStop};
ghost use Rattle.spawnrun_lib.specs.Parts.{HasIssued, HasStopped};
ghost use Rattle.spawnrun_lib.specs.Rolls.{IsRollOf};

use crate::bindings::Bindings;
use crate::change::Change;
use crate::roll::Roll;
use crate::spawning::{spawn, spawn_many};
use ent_alloc::Source;
use ent_handle::Memory;
use ent_queue::{CommandQueue, Commands};
use ent_script::Operation;
use ent_world::View;
use std::alloc::Global;

/// Issues the commands of all operations, one after the other.
///
/// # Errors
///
/// `Memory`, if one of the operations ran out of memory, and for no other reason. A spawn that is
/// refused is a command, and the run goes on.
pub(crate) fn issue_all<S: Source>(
    alloc: Global,
    view: &View<'_>,
    operations: &[Operation],
    commands: &mut Commands<'_, CommandQueue, S>,
) -> Result<(), Memory>
    requires { IsReady S.serves commands.old }
    ensures extends { Extends Issues S.serves S.may_reply commands.old commands.new }
    ensures may { output_of commands.old ≡ []
        → OnOk result (MayIssue operations.now view.now (output_of commands.new)) }
    ensures leaves { output_of commands.old ≡ []
        → OnErr result (MayStop operations.now view.now (output_of commands.new)) }
{
    let mut names = Bindings::new(alloc);
    let mut roll = Roll::new(alloc);
    for operation in operations {
        issue(alloc, view, operation, &mut names, &mut roll, commands)?;
    }
    Ok(())
}

/// Issues the commands of one operation, and binds its name.
fn issue<S: Source>(
    alloc: Global,
    view: &View<'_>,
    operation: &Operation,
    names: &mut Bindings,
    roll: &mut Roll,
    commands: &mut Commands<'_, CommandQueue, S>,
) -> Result<(), Memory>
    requires ready { IsReady S.serves commands.old }
    requires roll { IsRollOf view.now roll.old }
    ensures roll { IsRollOf view.now roll.new }
    ensures extends { Extends Issues S.serves S.may_reply commands.old commands.new }
    ensures issued { OnOk result (HasIssued view.now operation.now
        (output_of commands.old) (output_of commands.new) names.old names.new) }
    ensures stopped { OnErr result (HasStopped view.now operation.now
        (output_of commands.old) (output_of commands.new) names.old) }
{
    match operation {
        Operation::Spawn { bundle, binds } => spawn(alloc, bundle, *binds, names, commands),
        Operation::SpawnMany {
            count,
            bundle,
            binds,
        } => spawn_many(*count, bundle, *binds, names, commands),
        Operation::Insert { bundle, target } => {
            Change::Insert(bundle).on_target(view, *target, names, roll, commands)
        }
        Operation::Remove { component, target } => {
            Change::Remove(*component).on_target(view, *target, names, roll, commands)
        }
        Operation::Despawn { target } => {
            Change::Despawn.on_target(view, *target, names, roll, commands)
        }
    }
}
