//! Systems that issue what a case lists.
ghost use Rattle.ent_queue.specs.OfShared.{IsReady, Extends};

use crate::cases::call::{Call, component};
use crate::cases::phase::issue;
use crate::cases::writing::Out;
use ent_handle::{ComponentId, Handle, Memory};
use ent_queue::{Bundle, Commands};
use ent_runner::System;
use ent_shared::Shared;
use ent_world::View;
use std::alloc::Global;

/// A system that issues these calls, with `;` between them.
///
/// It has two calls that `Commands` has not: `copy 0 1` gives each entity that has component 0 as
/// much of component 1, and `stop` returns that memory ran out.
#[derive(Drop)]
pub struct Listed {
    pub calls: String,
}

impl System<Shared, Memory> for Listed {
    ghost may_issue = { λ system view queue. Unit {0} };

    #[tactic(auto, using(ent_queue::proofs::Extending::extends_nothing, ent_queue::proofs::Extending::extends_then))]
    fn run(
        &self,
        alloc: Global,
        view: &View<'_>,
        commands: &mut Commands<'_>,
    ) -> Result<(), Memory> {
        for call in self.calls.split(';') {
            run(alloc, view, commands, call)?;
        }
        Ok(())
    }
}

#[tactic(auto, using(ent_queue::proofs::Extending::extends_nothing, ent_queue::proofs::Extending::extends_then))]
fn run(
    alloc: Global,
    view: &View<'_>,
    commands: &mut Commands<'_>,
    line: &str,
) -> Result<(), Memory>
    requires { IsReady commands.old }
    ensures { Extends commands.old commands.new }
{
    let call = Call::read(alloc, line);
    if call.is_cut {
        return Err(Memory);
    }
    make(alloc, view, commands, &call)
}

#[tactic(auto, using(ent_queue::proofs::Extending::extends_nothing, ent_queue::proofs::Extending::extends_then))]
fn make(
    alloc: Global,
    view: &View<'_>,
    commands: &mut Commands<'_>,
    call: &Call<'_>,
) -> Result<(), Memory>
    requires { IsReady commands.old }
    ensures { Extends commands.old commands.new }
{
    match call.name {
        "" => Ok(()),
        "stop" => Err(Memory),
        "copy" => {
            let [from, to, _] = call.numbers;
            copy(alloc, view, commands, component(from), component(to))
        }
        _ => issue_listed(alloc, commands, call),
    }
}

fn issue_listed(alloc: Global, commands: &mut Commands<'_>, call: &Call<'_>) -> Result<(), Memory>
    requires { IsReady commands.old }
    ensures { Extends commands.old commands.new }
{
    let mut out = Out::new(alloc);
    issue(alloc, commands, call, &mut out);
    if out.text.as_str() == "out of memory" {
        return Err(Memory);
    }
    Ok(())
}

#[tactic(auto, using(ent_queue::proofs::Extending::extends_nothing, ent_queue::proofs::Extending::extends_then))]
fn copy(
    alloc: Global,
    view: &View<'_>,
    commands: &mut Commands<'_>,
    from: ComponentId,
    to: ComponentId,
) -> Result<(), Memory>
    requires { IsReady commands.old }
    ensures { Extends commands.old commands.new }
{
    for handle in view.with(from)? {
        if let Some(value) = view.get(handle, from) {
            insert(alloc, commands, handle, (to, value))?;
        }
    }
    Ok(())
}

fn insert(
    alloc: Global,
    commands: &mut Commands<'_>,
    handle: Handle,
    item: (ComponentId, i64),
) -> Result<(), Memory>
    requires { IsReady commands.old }
    ensures { Extends commands.old commands.new }
{
    let bundle = Bundle::of(alloc, &[item])?;
    commands.insert(handle, &bundle)
}
