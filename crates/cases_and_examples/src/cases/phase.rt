//! A phase of a world, and what its systems issue.
ghost use Rattle.std.specs.Prelude.{◌≡◌, ◌<◌, ◌≤◌};
ghost use Rattle.ent_queue.specs.OfShared.{IsReady, Extends};
ghost use Rattle.ent_shared.specs.Phase.{IsOf};

use crate::cases::call::Call;
use crate::cases::writing::Out;
use ent_queue::{Bundle, CommandQueue, Commands};
use ent_shared::{Reserver, Shared};
use ent_world::{OpenWorld, View, World};
use std::alloc::Global;
use std::marker::Model;

/// A world in a phase, with all its reservers: each system has one.
#[derive(Drop)]
pub struct Phase {
    open: OpenWorld,
    reservers: Vec<Reserver>,
}

impl Model for Phase {
    ghost use Rattle.std.specs.Prelude.{◌≡◌, All, length};
    ghost use Rattle.ent_shared.specs.Phase.{IsOf};

    ghost Value = { Unit {0} };

    ghost view = { λ _. tt };

    // They are all that came with this world.
    ghost invariant = { λ p. All (IsOf p.open.shared) p.reservers.items
        × (length p.reservers.items ≡ p.open.shared.count) };
}

impl Phase {
    /// If none can be opened, the world comes back, and why.
    pub fn open(world: World, reservers: usize) -> Result<Self, (World, &'static str)> {
        if world.needs_flush() || reservers < 1 || reservers > 1024 {
            return Err((world, "refused"));
        }
        match world.open(reservers) {
            Ok((open, reservers)) => Ok(Phase { open, reservers }),
            Err((world, _)) => Err((world, "out of memory")),
        }
    }

    pub fn close(self, is_lost: bool) -> World {
        let Phase { open, reservers } = self;
        if is_lost {
            open.close_lost(reservers)
        } else {
            open.close(reservers)
        }
    }

    pub fn view(&self) -> View<'_> {
        self.open.view()
    }

    /// Writes the quota that is left to each system.
    pub fn write_state(&self, out: &mut Out) {
        for reserver in &self.reservers {
            out.next(&reserver.left());
        }
    }

    /// A call of that system.
    pub fn answer(
        &mut self,
        alloc: Global,
        queues: &mut Vec<CommandQueue>,
        system: usize,
        call: &Call<'_>,
        out: &mut Out,
    ) {
        match self.reservers.get_mut(system) {
            Some(reserver) => {
                answer(
                    alloc,
                    self.open.shared(),
                    reserver,
                    queues,
                    system,
                    call,
                    out,
                );
            }
            None => out.word("no such system"),
        }
    }
}

fn answer(
    alloc: Global,
    shared: &Shared,
    reserver: &mut Reserver,
    queues: &mut Vec<CommandQueue>,
    system: usize,
    call: &Call<'_>,
    out: &mut Out,
)
    requires { IsOf shared.now reserver.old }
    ensures { IsOf shared.now reserver.new }
{
    match call.name {
        "begin" => begin(alloc, shared, reserver, queues, out),
        "left" => out.show(&reserver.left()),
        "reserve" => out.given(shared.reserve(reserver)),
        "reserve_many" => match shared.reserve_many(reserver, call.number()) {
            Ok(_) => out.word("done"),
            Err(why) => out.show(&why),
        },
        _ if system < queues.len() => {
            let queue = go_on(alloc, shared, reserver, queues.remove(system), call, out);
            if queues.insert(system, queue).is_err() {
                out.word(" and the queue is lost");
            }
        }
        _ => out.word("no queue"),
    }
}

/// One more queue, in which nothing is issued yet.
fn begin(
    alloc: Global,
    shared: &Shared,
    reserver: &mut Reserver,
    queues: &mut Vec<CommandQueue>,
    out: &mut Out,
)
    requires { IsOf shared.now reserver.old }
    ensures { IsOf shared.now reserver.new }
{
    match queues.push(Commands::new(alloc, shared, reserver).finish()) {
        Ok(()) => out.word("done"),
        Err(_) => out.word("out of memory"),
    }
}

/// Goes on with this queue, and issues a call into it.
fn go_on(
    alloc: Global,
    shared: &Shared,
    reserver: &mut Reserver,
    queue: CommandQueue,
    call: &Call<'_>,
    out: &mut Out,
) -> CommandQueue
    requires { IsOf shared.now reserver.old }
    ensures { IsOf shared.now reserver.new }
{
    let mut commands = Commands::resume(alloc, shared, reserver, queue);
    issue(alloc, &mut commands, call, out);
    commands.finish()
}

/// Issues a call of `Commands`.
#[tactic(auto, using(ent_queue::proofs::Extending::extends_nothing, ent_queue::proofs::Extending::extends_then))]
pub fn issue(alloc: Global, commands: &mut Commands<'_>, call: &Call<'_>, out: &mut Out)
    requires { IsReady commands.old }
    ensures { Extends commands.old commands.new }
{
    match Bundle::of(alloc, &call.items) {
        Ok(bundle) => issue_with(commands, call, &bundle, out),
        Err(_) => out.word("out of memory"),
    }
}

#[tactic(auto, using(ent_queue::proofs::Extending::extends_nothing, ent_queue::proofs::Extending::extends_then))]
fn issue_with(commands: &mut Commands<'_>, call: &Call<'_>, bundle: &Bundle, out: &mut Out)
    requires { IsReady commands.old }
    ensures { Extends commands.old commands.new }
{
    match call.name {
        "spawn" => out.given(commands.spawn(bundle)),
        "spawn_many" => out.list(commands.spawn_many(call.number(), bundle)),
        "insert" => out.done(commands.insert(call.handle, bundle)),
        "remove" => out.done(commands.remove(call.handle, call.id())),
        "despawn" => out.done(commands.despawn(call.handle)),
        _ => out.word("no such call"),
    }
}
