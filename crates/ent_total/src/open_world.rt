//! A world in a phase.
ghost use Rattle.std.specs.Prelude.{◌≡◌, ◌≤◌, [], length};
ghost use Rattle.std.specs.Vec.{vec_capacity};
ghost use Rattle.ent_total.specs.Issuing.{view_of};

use crate::ending::{closed_world, lost_world, parts_of};
use crate::numbering::Numbering;
use crate::phase::Phase;
use crate::queues::Queues;
use crate::world::World;
use ent_alloc::{Entities, Phased, Refused, Reserved, Source};
use ent_handle::Handle;
use ent_queue::CommandQueue;
use ent_shared::{Reserver, Shared};
use ent_world::View;
use std::marker::Model;

/// The source of a phase of a world. Its reservers reserve from the shared allocator of the world,
/// and each issues commands too. They take effect when the phase is closed, and their queues are
/// applied.
///
/// The order of the reservers at the close is the order in which their queues take effect, and
/// numbers the systems in births and faults. What a lost one has issued is gone, and what it has
/// reserved comes to life without components.
///
/// The world can be read, as it was when it was opened.
///
/// ```
/// use forgeni::World;
///
/// let mut world = World::new();
/// let oak = world.spawn(&[])?;
/// let (open, mut systems) = world.open(2)?;
/// std::thread::scope(|scope| {
///     for commands in &mut systems {
///         let view = open.view();
///         scope.spawn(move || {
///             if view.contains(oak) { commands.despawn(oak) } else { Ok(()) }
///         });
///     }
/// });
/// let (mut world, queues) = open.close(systems)?;
/// assert_eq!((world.apply(queues)?.faults.len(), world.len()), (1, 0));
/// # Ok::<(), Box<dyn std::error::Error>>(())
/// ```
///
/// The phase also ends without a system whose thread has panicked:
///
/// ```
/// use forgeni::World;
///
/// let (open, mut systems) = World::new().open(2)?;
/// systems[0].spawn(&[])?;
/// drop(systems.pop());
/// let (mut world, queues) = open.close_lost(systems)?;
/// assert_eq!(world.apply(queues)?.born.len(), 1);
/// # Ok::<(), Box<dyn std::error::Error>>(())
/// ```
#[derive(Drop)]
pub struct OpenWorld {
    pub(crate) world: ent_world::OpenWorld,
    pub(crate) of_world: u64,
    pub(crate) spawned: u32,
    /// Lists without elements, which have room for what all callers bring back.
    pub(crate) returned: Vec<Reserver>,
    pub(crate) queues: Vec<CommandQueue>,
}

impl Model for OpenWorld {
    ghost use Rattle.std.specs.Prelude.{◌≡◌, ◌≤◌, []};
    ghost use Rattle.std.specs.Vec.{vec_capacity};
    ghost use Rattle.ent_total.specs.Issuing.{OpenWorld, open_world_code};

    ghost Value = { OpenWorld };

    ghost coded = { open_world_code };

    ghost view = { λ w. record {
      world = w.world;
      of_world = w.of_world;
      spawned = w.spawned;
    } };

    ghost invariant = { λ w. record {
      few : w.world.shared.count ≤ 1024;
      none : w.returned.items ≡ [];
      room : w.world.shared.count ≤ vec_capacity w.returned;
      no_queue : w.queues.items ≡ [];
      queue_room : w.world.shared.count ≤ vec_capacity w.queues;
    } };
}

impl Source for OpenWorld {
    ghost use Rattle.std.specs.Prelude.{◌≡◌, ◌≤◌, length};
    ghost use Rattle.ent_shared.specs.Phase.{IsOf};
    ghost use Rattle.ent_shared.specs.Replies.{IsReturned};

    // A right to reserve, and the commands that were issued.
    type Reserver = (Reserver, CommandQueue);

    ghost serves = { λ w caller. IsOf w.world.shared caller.0 };

    // A reservation issues no command.
    ghost may_reply = { λ w before after n reply.
        IsReturned w.world.shared before.0 after.0 n reply × (after.1 ≡ before.1) };

    ghost may_give = { λ w caller n.
        (n ≤ caller.0.own.left) × (n ≤ length w.world.shared.start.pool) };

    ghost start = { λ w. w.world.shared.start };

    ghost rows = { λ w. w.world.shared.rows };

    fn was_alive(&self, handle: Handle) -> bool {
        self.shared().was_alive(handle)
    }

    fn had_row(&self, handle: Handle) -> Option<u32> {
        self.shared().had_row(handle)
    }

    fn may_serve(&self, caller: &(Reserver, CommandQueue), n: u32) -> bool {
        self.shared().may_serve(&caller.0, n)
    }

    #[inline(always)]
    fn serve_one(&self, caller: &mut (Reserver, CommandQueue)) -> Result<Handle, Refused> {
        self.shared().serve_one(&mut caller.0)
    }

    #[inline(always)]
    fn serve_many(
        &self,
        caller: &mut (Reserver, CommandQueue),
        n: u32,
    ) -> Result<Reserved<'_>, Refused> {
        self.shared().serve_many(&mut caller.0, n)
    }
}

/// It ends with the world and the queues, and takes its callers back in any order, which is that of
/// their queues.
impl Phased for OpenWorld {
    ghost use Rattle.std.specs.Prelude.{◌≡◌, ◌≤◌, All, length};
    ghost use Rattle.ent_shared.specs.Phase.{IsOf};
    ghost use Rattle.ent_total.specs.Issuing.{EndsWith, IsClosed, IsClosedLost};

    type Closed = (World, Queues);

    ghost count = { λ w. w.world.shared.count };

    ghost takes = { λ w callers. Unit {0} };

    ghost closes = { λ w callers closed. EndsWith IsClosed w callers closed };

    ghost closes_lost = { λ w callers closed. EndsWith IsClosedLost w callers closed };

    fn callers(&self) -> usize {
        self.shared().callers()
    }

    fn as_opened(&self) -> &Entities {
        self.shared().as_opened()
    }

    fn may_take(&self, _callers: &[(Reserver, CommandQueue)]) -> bool {
        true
    }

    fn end_with_all(self, callers: Vec<(Reserver, CommandQueue)>) -> (World, Queues)
        requires own { All (λ c. IsOf self.world.shared c.0) callers.items }
        requires all { length callers.items ≡ self.world.shared.count }
        ensures { EndsWith IsClosed self callers.items result }
    {
        let (world, reservers, rest) = parts_of(self, callers);
        rest.with(closed_world(world, reservers))
    }

    fn end_with_some(self, callers: Vec<(Reserver, CommandQueue)>) -> (World, Queues)
        requires own { All (λ c. IsOf self.world.shared c.0) callers.items }
        requires few { length callers.items ≤ self.world.shared.count }
        ensures { EndsWith IsClosedLost self callers.items result }
    {
        let (world, reservers, rest) = parts_of(self, callers);
        rest.with(lost_world(world, reservers))
    }
}

impl OpenWorld {
    /// The allocator from which its callers reserve.
    pub(crate) fn shared(&self) -> &Shared
        ensures { result.now ≡ self.now.world.shared }
    {
        self.world.shared()
    }

    /// The world as it was when it was opened.
    pub(crate) fn view(&self) -> View<'_>
        ensures { result ≡ view_of self.now }
    {
        self.world.view()
    }
}

impl<J: Numbering> Phase<J, OpenWorld> {
    /// Returns a view of the world, like the one that a system of a frame gets.
    ///
    /// ```
    /// use forgeni::{ComponentId, World};
    ///
    /// const AGE: ComponentId = ComponentId(0);
    ///
    /// let mut world = World::new();
    /// world.spawn(&[])?;
    /// let oak = world.spawn(&[(AGE, 80)])?;
    /// let (open, _systems) = world.open(1)?;
    /// assert_eq!(open.view().with(AGE)?, [oak]);
    /// # Ok::<(), Box<dyn std::error::Error>>(())
    /// ```
    #[must_use]
    pub fn view(&self) -> View<'_>
        ensures { result ≡ view_of self.now.source }
    {
        self.server().view()
    }
}
