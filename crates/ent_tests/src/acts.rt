//! Systems as types of their own.
ghost use Rattle.std.specs.Prelude.{List};
ghost use Rattle.ent_queue.specs.OfShared.{IsReady, Extends};

use crate::counts::{Counts, room};
use crate::rendezvous::Rendezvous;
use ent_handle::{ComponentId, Handle, Memory};
use ent_queue::{Bundle, Commands};
use ent_runner::System;
use ent_shared::Shared;
use ent_world::View;
use std::alloc::Global;
use std::process::Abort;

pub const HP: ComponentId = ComponentId(0);

/// A system that does one thing.
#[derive(Clone, Copy)]
pub enum Act {
    Nothing,
    /// Spawns one entity with this `HP`.
    Spawn(i64),
    /// Spawns one entity with this `HP`, also if its first allocation fails.
    SpawnSurely(i64),
    /// Spawns one entity with this `HP`, and then returns that memory ran out.
    SpawnAndStop(i64),
    Despawn(Handle),
    /// Gives the entity this `HP`.
    Insert(Handle, i64),
}

impl System<Shared, Memory> for Act {
    ghost may_issue = { λ system view queue. Unit {0} };

    #[tactic(auto, using(ent_queue::proofs::Extending::extends_nothing, ent_queue::proofs::Extending::extends_then))]
    fn run(
        &self,
        alloc: Global,
        _view: &View<'_>,
        commands: &mut Commands<'_>,
    ) -> Result<(), Memory> {
        match self {
            Act::Nothing => Ok(()),
            Act::Spawn(value) => spawn(alloc, commands, *value),
            Act::SpawnSurely(value) => spawn_surely(alloc, commands, *value),
            Act::SpawnAndStop(value) => {
                spawn(alloc, commands, *value)?;
                Err(Memory)
            }
            Act::Despawn(handle) => commands.despawn(*handle),
            Act::Insert(handle, value) => insert(alloc, commands, *handle, *value),
        }
    }
}

/// A system that spawns one entity, whose `HP` is how many systems the gate was told of.
#[derive(Clone, Copy)]
pub struct Count<'a> {
    pub gate: &'a Rendezvous,
}

impl System<Shared, Memory> for Count<'_> {
    ghost may_issue = { λ system view queue. Unit {0} };

    #[tactic(auto, using(ent_queue::proofs::Extending::extends_then))]
    fn run(
        &self,
        alloc: Global,
        _view: &View<'_>,
        commands: &mut Commands<'_>,
    ) -> Result<(), Memory> {
        spawn(alloc, commands, i64::from(self.gate.entered()))
    }
}

/// A system that is counted each time that it runs.
#[derive(Clone, Copy)]
pub struct Counted<'a> {
    counts: &'a Counts,
    number: usize,
    act: Act,
}

impl System<Shared, Memory> for Counted<'_> {
    ghost may_issue = { λ system view queue. Unit {0} };

    fn run(
        &self,
        alloc: Global,
        view: &View<'_>,
        commands: &mut Commands<'_>,
    ) -> Result<(), Memory> {
        self.counts.runs(self.number);
        self.act.run(alloc, view, commands)
    }
}

/// So many systems. Each spawns one entity, which has the system's number as `HP`.
pub fn spawns(rt: &impl Abort, alloc: Global, count: u32) -> Vec<Act> {
    let mut systems = Vec::new(alloc);
    for number in 0..count {
        systems
            .push(Act::Spawn(i64::from(number)))
            .expect(rt, "memory for the systems");
    }
    systems
}

/// These systems, counted.
pub fn all_counted<'a>(
    rt: &impl Abort,
    alloc: Global,
    counts: &'a Counts,
    acts: &[Act],
) -> Vec<Counted<'a>> {
    let mut systems = room(rt, alloc, acts.len());
    for (number, act) in acts.iter().enumerate() {
        let act = *act;
        let counted = Counted {
            counts,
            number,
            act,
        };
        let pushed = systems.push(counted);
        assert!(rt; pushed.is_ok());
    }
    systems
}

fn one(alloc: Global, value: i64) -> Result<Bundle, Memory> {
    Bundle::of(alloc, &[(HP, value)])
}

fn spawn(alloc: Global, commands: &mut Commands<'_>, value: i64) -> Result<(), Memory>
    requires { IsReady commands.old }
    ensures { Extends commands.old commands.new }
{
    let bundle = one(alloc, value)?;
    match commands.spawn(&bundle) {
        Ok(_) => Ok(()),
        Err(fault) => fault.or_memory(),
    }
}

#[tactic(auto, using(ent_queue::proofs::Extending::extends_then))]
fn spawn_surely(alloc: Global, commands: &mut Commands<'_>, value: i64) -> Result<(), Memory>
    requires { IsReady commands.old }
    ensures { Extends commands.old commands.new }
{
    match spawn(alloc, commands, value) {
        Err(Memory) => spawn(alloc, commands, value),
        done => done,
    }
}

fn insert(
    alloc: Global,
    commands: &mut Commands<'_>,
    handle: Handle,
    value: i64,
) -> Result<(), Memory>
    requires { IsReady commands.old }
    ensures { Extends commands.old commands.new }
{
    let bundle = one(alloc, value)?;
    commands.insert(handle, &bundle)
}
