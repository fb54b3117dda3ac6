ghost use Rattle.std.specs.Prelude.{◌≡◌, OnOk, OnErr, Some};
ghost use Rattle.ent_world.specs.OpenWorld.{View};
ghost use Rattle.ent_script.specs.declared.operation.Operation.TheVariants.{Spawn, SpawnMany};
ghost use Rattle.ent_queue.specs.Commands.{IsReady, Extends, output_of};
ghost use Rattle.ent_queue.specs.Issuing.{Issues};
ghost use Rattle.spawnrun_lib.specs.Parts.{HasIssued};

use crate::bindings::Bindings;
use ent_alloc::Source;
use ent_handle::Memory;
use ent_queue::{CommandQueue, Commands, QueueFault};
use ent_script::Bundle;
use std::alloc::Global;

/// Spawns one entity, and binds the name to the list of its handle. After a refusal, which the
/// queue keeps, nothing is bound.
///
/// # Errors
///
/// `Memory`: nothing was issued.
pub(crate) fn spawn<S: Source>(
    alloc: Global,
    bundle: &Bundle,
    binds: Option<usize>,
    names: &mut Bindings,
    commands: &mut Commands<'_, CommandQueue, S>,
) -> Result<(), Memory>
    requires { IsReady S.serves commands.old }
    ensures extends { Extends Issues S.serves S.may_reply commands.old commands.new }
    ensures issued { OnOk result ((view : View) → HasIssued view (Spawn bundle.now binds)
        (output_of commands.old) (output_of commands.new) names.old names.new) }
    ensures err { OnErr result (output_of commands.new ≡ output_of commands.old) }
{
    match binds {
        Some(name) => spawn_named(alloc, bundle, name, names, commands),
        None => match commands.spawn(bundle) {
            Err(QueueFault::Memory) => Err(Memory),
            _ => Ok(()),
        },
    }
}

fn spawn_named<S: Source>(
    alloc: Global,
    bundle: &Bundle,
    name: usize,
    names: &mut Bindings,
    commands: &mut Commands<'_, CommandQueue, S>,
) -> Result<(), Memory>
    requires { IsReady S.serves commands.old }
    ensures extends { Extends Issues S.serves S.may_reply commands.old commands.new }
    ensures issued { OnOk result ((view : View) → HasIssued view (Spawn bundle.now (Some name))
        (output_of commands.old) (output_of commands.new) names.old names.new) }
    ensures err { OnErr result (output_of commands.new ≡ output_of commands.old) }
{
    names.reach(name)?;
    let mut list = Vec::with_capacity(alloc, 1)?;
    match commands.spawn(bundle) {
        Ok(handle) => {
            list.push_reserved(handle);
            names.bind(name, list);
            Ok(())
        }
        Err(QueueFault::Memory) => Err(Memory),
        Err(_) => Ok(()),
    }
}

/// Spawns so many entities, and binds the name to their handles. After a refusal, which the queue
/// keeps, nothing is bound.
///
/// # Errors
///
/// `Memory`: nothing was issued.
pub(crate) fn spawn_many<S: Source>(
    count: u32,
    bundle: &Bundle,
    binds: Option<usize>,
    names: &mut Bindings,
    commands: &mut Commands<'_, CommandQueue, S>,
) -> Result<(), Memory>
    requires { IsReady S.serves commands.old }
    ensures extends { Extends Issues S.serves S.may_reply commands.old commands.new }
    ensures issued { OnOk result ((view : View) → HasIssued view (SpawnMany count bundle.now binds)
        (output_of commands.old) (output_of commands.new) names.old names.new) }
    ensures err { OnErr result (output_of commands.new ≡ output_of commands.old) }
{
    match binds {
        Some(name) => spawn_many_named(count, bundle, name, names, commands),
        None => match commands.spawn_many(count, bundle) {
            Err(QueueFault::Memory) => Err(Memory),
            _ => Ok(()),
        },
    }
}

fn spawn_many_named<S: Source>(
    count: u32,
    bundle: &Bundle,
    name: usize,
    names: &mut Bindings,
    commands: &mut Commands<'_, CommandQueue, S>,
) -> Result<(), Memory>
    requires { IsReady S.serves commands.old }
    ensures extends { Extends Issues S.serves S.may_reply commands.old commands.new }
    ensures issued { OnOk result ((view : View)
        → HasIssued view (SpawnMany count bundle.now (Some name))
        (output_of commands.old) (output_of commands.new) names.old names.new) }
    ensures err { OnErr result (output_of commands.new ≡ output_of commands.old) }
{
    names.reach(name)?;
    match commands.spawn_many(count, bundle) {
        Ok(handles) => {
            names.bind(name, handles);
            Ok(())
        }
        Err(QueueFault::Memory) => Err(Memory),
        Err(_) => Ok(()),
    }
}
