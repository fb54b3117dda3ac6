//! A phase of a world has ended: its callers are taken apart, and the world is closed.
ghost use Rattle.std.specs.Prelude.{◌≡◌, ◌≤◌, ◌+◌, ◌++◌, All, length};
ghost use Rattle.std.specs.Vec.{vec_capacity, vec_len};
ghost use Rattle.ent_shared.specs.Phase.{IsOf};
ghost use Rattle.ent_total.specs.Issuing.{IsClosed, IsClosedLost, reservers_in, queues_in};

use crate::open_world::OpenWorld;
use crate::queues::Queues;
use crate::world::World;
use ent_queue::CommandQueue;
use ent_shared::Reserver;

/// What a phase of a world has when it ends, besides its world and the rights to reserve.
#[derive(Drop)]
pub(crate) struct Rest {
    queues: Queues,
    spawned: u32,
}

impl Rest {
    /// The closed world, with its number and its count of spawns, and the queues.
    pub(crate) fn with(self, closed: ent_world::World) -> (World, Queues)
        ensures world { result.0 ≡ record {
          world = closed;
          number = self.queues.world;
          spawned = self.spawned;
        } }
        ensures queues { result.1 ≡ self.queues }
    {
        let Rest { queues, spawned } = self;
        let world = World {
            world: closed,
            number: queues.world(),
            spawned,
        };
        (world, queues)
    }
}

/// Takes the phase and its callers apart. It doesn't allocate.
pub(crate) fn parts_of(
    opened: OpenWorld,
    callers: Vec<(Reserver, CommandQueue)>,
) -> (ent_world::OpenWorld, Vec<Reserver>, Rest)
    requires own { All (λ c. IsOf opened.world.shared c.0) callers.items }
    requires few { length callers.items ≤ opened.world.shared.count }
    ensures world { result.0 ≡ opened.world }
    ensures reservers { result.1.items ≡ reservers_in callers.items }
    ensures own { All (IsOf opened.world.shared) result.1.items }
    ensures queues { result.2.queues
        ≡ record { world = opened.of_world; queues = queues_in callers.items } }
    ensures spawned { result.2.spawned ≡ opened.spawned }
{
    let OpenWorld {
        world,
        of_world,
        spawned,
        returned: mut reservers,
        mut queues,
    } = opened;
    take_apart(callers, &mut reservers, &mut queues);
    let rest = Rest {
        queues: Queues::new(of_world, queues),
        spawned,
    };
    (world, reservers, rest)
}

/// Puts what the callers reserve with, and their queues, behind two lists that have room for them.
fn take_apart(
    callers: Vec<(Reserver, CommandQueue)>,
    reservers: &mut Vec<Reserver>,
    queues: &mut Vec<CommandQueue>,
)
    requires room { vec_len reservers.old + length callers.items ≤ vec_capacity reservers.old }
    requires queue_room { vec_len queues.old + length callers.items ≤ vec_capacity queues.old }
    ensures reservers { reservers.new.items ≡ reservers.old.items ++ reservers_in callers.items }
    ensures queues { queues.new.items ≡ queues.old.items ++ queues_in callers.items }
{
    for (reserver, queue) in callers {
        reservers.push_reserved(reserver);
        queues.push_reserved(queue);
    }
}

/// `OpenWorld::close`, with all that it ensures as one fact.
pub(crate) fn closed_world(
    opened: ent_world::OpenWorld,
    returned: Vec<Reserver>,
) -> ent_world::World
    requires all { length returned.items ≡ opened.shared.count }
    requires own { All (IsOf opened.shared) returned.items }
    ensures { IsClosed opened returned.items result }
{
    opened.close(returned)
}

/// `OpenWorld::close_lost`, with all that it ensures as one fact.
pub(crate) fn lost_world(opened: ent_world::OpenWorld, returned: Vec<Reserver>) -> ent_world::World
    requires { All (IsOf opened.shared) returned.items }
    ensures { IsClosedLost opened returned.items result }
{
    opened.close_lost(returned)
}
