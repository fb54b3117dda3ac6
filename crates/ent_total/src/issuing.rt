//! The commands that a reserver of a world's phase issues.
ghost use Rattle.std.specs.Prelude.{◌≡◌, ◌++◌, ◌∷◌, [], length, IfOk, IfErr, IsErrOf};
ghost use Rattle.std.specs.Prelude.{OnOk, OnErr, Ok};
ghost use Rattle.ent_shared.specs.Order.{handles_given};
ghost use Rattle.ent_shared.specs.Replies.{IsReturned};
ghost use Rattle.ent_storage.specs.Bundle.{bundle_of};
ghost use Rattle.ent_queue.specs.Command.{Spawn, SpawnMany, Insert, Remove, Despawn};
ghost use Rattle.ent_queue.specs.Reserving.{refused_by};
ghost use Rattle.ent_total.specs.Issuing.{Extends, IsRefused, handle_in, handles_in, issued};
ghost use Rattle.ent_total.specs.Issuing.{queue_of, with_queue};
ghost use Rattle.ent_total.specs.Issuing.{reserver_of, shared_of, view_of};

use crate::numbering::Numbering;
use crate::open_world::OpenWorld;
use crate::reserver::Reserver;
use ent_alloc::ReserveError;
use ent_handle::{ComponentId, Handle, Memory};
use ent_queue::{CommandQueue, Commands, Output};
use ent_world::View;
use std::alloc::Global;
use std::mem;

impl<J: Numbering> Reserver<J, OpenWorld> {
    /// Reserves a handle at once, by one atomic step. Its entity gets these components, in any
    /// order, when the queue is applied. If a component is listed twice, its last value counts.
    ///
    /// # Errors
    ///
    /// `Memory`. Nothing has changed then. With `Space` and `Quota` the queue keeps the refusal,
    /// which is a fault of the sync point's report, and the system may go on.
    ///
    /// ```
    /// use forgeni::{ComponentId, World};
    ///
    /// let (open, mut systems) = World::new().open(1)?;
    /// let cart = systems[0].spawn(&[(ComponentId(0), 5)])?;
    /// assert!(!open.view().contains(cart));
    /// let (mut world, queues) = open.close(systems)?;
    /// world.apply(queues)?;
    /// assert_eq!(world.get(cart, ComponentId(0)), Some(5));
    /// # Ok::<(), Box<dyn std::error::Error>>(())
    /// ```
    pub fn spawn(
        &mut self,
        alloc: Global,
        components: &[(ComponentId, i64)],
    ) -> Result<Handle, ReserveError>
        ensures extends { Extends self.old self.new }
        ensures ok { IfOk result (λ handle. queue_of self.new
            ≡ queue_of self.old ++ Spawn handle (bundle_of components.now) ∷ []) }
        ensures refused { IfErr result (λ fault.
            queue_of self.new ≡ queue_of self.old ++ refused_by 1 fault) }
        ensures memory { IsErrOf result ReserveError.Memory → self.new ≡ self.old }
        ensures given { IfOk result (λ handle.
            IsReturned (shared_of self.old) (reserver_of self.old) (reserver_of self.new) 1
            (Ok (handle ∷ []))) }
        ensures refusal { IfErr result
            (IsRefused (shared_of self.old) (reserver_of self.old) (reserver_of self.new) 1) }

        // What was given is recorded, and nothing else.
        ensures recorded { handles_given (reserver_of self.new).own
            ≡ handles_given (reserver_of self.old).own ++ handle_in result }
    {
        let queue = self.take_queue(alloc);
        let shared = self.source.shared();
        let mut commands = Commands::resume(alloc, shared, &mut self.reserver.0, queue);
        let spawned = commands.spawn_with(components);
        self.reserver.1 = commands.finish();
        spawned
    }

    /// Reserves `n` handles at once, by one atomic step. Each of their entities gets these
    /// components when the queue is applied. It takes time for each handle, which goes into the
    /// list and into the queue.
    ///
    /// ```
    /// use forgeni::{ComponentId, World};
    ///
    /// const HEAT: ComponentId = ComponentId(0);
    ///
    /// let mut world = World::new();
    /// let (sparks, queues) = world.phase(1, |_open, systems| {
    ///     systems[0].spawn_many(100, &[(HEAT, 900)])
    /// })?;
    /// world.apply(queues)?;
    /// assert!(sparks?.into_iter().all(|one| world.get(one, HEAT) == Some(900)));
    /// # Ok::<(), Box<dyn std::error::Error>>(())
    /// ```
    ///
    /// # Errors
    ///
    /// The same as for [`spawn`](Self::spawn).
    pub fn spawn_many(
        &mut self,
        alloc: Global,
        n: u32,
        components: &[(ComponentId, i64)],
    ) -> Result<Vec<Handle>, ReserveError>
        ensures extends { Extends self.old self.new }
        ensures ok { IfOk result (λ handles. queue_of self.new
            ≡ queue_of self.old ++ SpawnMany handles.items (bundle_of components.now) ∷ []) }
        ensures length { IfOk result (λ handles. length handles.items ≡ n) }
        ensures refused { IfErr result (λ fault.
            queue_of self.new ≡ queue_of self.old ++ refused_by n fault) }
        ensures memory { IsErrOf result ReserveError.Memory → self.new ≡ self.old }
        ensures given { IfOk result (λ handles.
            IsReturned (shared_of self.old) (reserver_of self.old) (reserver_of self.new) n
            (Ok handles.items)) }
        ensures refusal { IfErr result
            (IsRefused (shared_of self.old) (reserver_of self.old) (reserver_of self.new) n) }

        // What was given is recorded, and nothing else.
        ensures recorded { handles_given (reserver_of self.new).own
            ≡ handles_given (reserver_of self.old).own ++ handles_in result }
    {
        let queue = self.take_queue(alloc);
        let shared = self.source.shared();
        let mut commands = Commands::resume(alloc, shared, &mut self.reserver.0, queue);
        let spawned = commands.spawn_many_with(n, components);
        self.reserver.1 = commands.finish();
        spawned
    }

    /// Gives the entity these components, instead of those that it has under the same numbers. If a
    /// component is listed twice, its last value counts.
    ///
    /// ```
    /// use forgeni::{ComponentId, World};
    ///
    /// const AGE: ComponentId = ComponentId(0);
    ///
    /// let mut world = World::new();
    /// let oak = world.spawn(&[(AGE, 80)])?;
    /// let (open, mut systems) = world.open(1)?;
    /// systems[0].insert(oak, &[(AGE, 81)])?;
    ///
    /// // It takes effect when the queue is applied.
    /// assert_eq!(systems[0].view().get(oak, AGE), Some(80));
    /// let (mut world, queues) = open.close(systems)?;
    /// world.apply(queues)?;
    /// assert_eq!(world.get(oak, AGE), Some(81));
    /// # Ok::<(), Box<dyn std::error::Error>>(())
    /// ```
    ///
    /// # Errors
    ///
    /// `OutOfMemory`. Nothing has changed then.
    pub fn insert(
        &mut self,
        alloc: Global,
        handle: Handle,
        components: &[(ComponentId, i64)],
    ) -> Result<(), Memory>
        ensures ok { OnOk result
            (self.new ≡ issued self.old (Insert handle (bundle_of components.now))) }
        ensures memory { OnErr result (self.new ≡ self.old) }
    {
        let queue = self.take_queue(alloc);
        let shared = self.source.shared();
        let mut commands = Commands::resume(alloc, shared, &mut self.reserver.0, queue);
        let issued = commands.insert_with(handle, components);
        self.reserver.1 = commands.finish();
        issued
    }

    /// Removes the component from the entity, if it has it.
    ///
    /// ```
    /// use forgeni::{ComponentId, World};
    ///
    /// const LIT: ComponentId = ComponentId(0);
    ///
    /// let mut world = World::new();
    /// let lamp = world.spawn(&[(LIT, 1)])?;
    /// let (done, queues) = world.phase(1, |_open, systems| systems[0].remove(lamp, LIT))?;
    /// done?;
    /// world.apply(queues)?;
    /// assert!(world.contains(lamp) && world.get(lamp, LIT).is_none());
    /// # Ok::<(), Box<dyn std::error::Error>>(())
    /// ```
    ///
    /// # Errors
    ///
    /// `OutOfMemory`. Nothing has changed then.
    pub fn remove(&mut self, alloc: Global, handle: Handle, id: ComponentId) -> Result<(), Memory>
        ensures ok { OnOk result (self.new ≡ issued self.old (Remove handle id)) }
        ensures memory { OnErr result (self.new ≡ self.old) }
    {
        let queue = self.take_queue(alloc);
        let shared = self.source.shared();
        let mut commands = Commands::resume(alloc, shared, &mut self.reserver.0, queue);
        let issued = commands.remove(handle, id);
        self.reserver.1 = commands.finish();
        issued
    }

    /// Removes the entity from the world. If it isn't alive when the command takes effect, that is
    /// a fault of the sync point's report.
    ///
    /// ```
    /// use forgeni::{FaultKind, World};
    ///
    /// let mut world = World::new();
    /// let oak = world.spawn(&[])?;
    /// let (open, mut systems) = world.open(2)?;
    /// for commands in &mut systems {
    ///     commands.despawn(oak)?;
    /// }
    /// let (mut world, queues) = open.close(systems)?;
    /// let report = world.apply(queues)?;
    /// assert_eq!(report.faults.len(), 1);
    /// assert_eq!((report.faults[0].system, report.faults[0].kind), (1, FaultKind::NotAlive(oak)));
    /// # Ok::<(), Box<dyn std::error::Error>>(())
    /// ```
    ///
    /// # Errors
    ///
    /// `OutOfMemory`. Nothing has changed then.
    pub fn despawn(&mut self, alloc: Global, handle: Handle) -> Result<(), Memory>
        ensures ok { OnOk result (self.new ≡ issued self.old (Despawn handle)) }
        ensures memory { OnErr result (self.new ≡ self.old) }
    {
        let queue = self.take_queue(alloc);
        let shared = self.source.shared();
        let mut commands = Commands::resume(alloc, shared, &mut self.reserver.0, queue);
        let issued = commands.despawn(handle);
        self.reserver.1 = commands.finish();
        issued
    }

    /// The queue, and leaves an empty one, which takes no memory.
    fn take_queue(&mut self, alloc: Global) -> CommandQueue
        ensures queue { result ≡ queue_of self.old }
        ensures rest { self.new ≡ with_queue self.old [] }
    {
        mem::replace(&mut self.reserver.1, CommandQueue::unfilled(alloc))
    }

    /// Returns a view of the world, like the one that a system of a frame gets.
    ///
    /// ```
    /// use forgeni::{Handle, View, World};
    ///
    /// fn oldest(view: &View<'_>) -> Option<Handle> {
    ///     view.by_birth().ok()?.first().copied()
    /// }
    ///
    /// let mut world = World::new();
    /// let oak = world.spawn(&[])?;
    /// let (_open, systems) = world.open(1)?;
    /// assert_eq!(oldest(&systems[0].view()), Some(oak));
    /// # Ok::<(), Box<dyn std::error::Error>>(())
    /// ```
    #[must_use]
    pub fn view(&self) -> View<'_>
        ensures { result ≡ view_of self.now.source }
    {
        self.source.view()
    }

    /// Returns the number of the system: its position in the list that the phase began with,
    /// counted from 0. Births and faults number systems by the order of their queues at the close
    /// instead.
    ///
    /// ```
    /// use forgeni::World;
    ///
    /// // The systems run in any order, and each has a name by its number.
    /// const NAMES: [&str; 2] = ["move", "burn"];
    ///
    /// let (_open, systems) = World::new().open(2)?;
    /// let names = systems.iter().rev().map(|one| NAMES[one.number()]);
    /// assert_eq!(names.collect::<Vec<_>>(), ["burn", "move"]);
    /// # Ok::<(), Box<dyn std::error::Error>>(())
    /// ```
    ///
    /// Systems that came back in any order can be sorted by it:
    ///
    /// ```
    /// use forgeni::World;
    ///
    /// let (open, systems) = World::new().open(3)?;
    /// // Threads have ended in some order.
    /// let mut ended: Vec<_> = systems.into_iter().rev().collect();
    /// ended.sort_by_key(|one| one.number());
    /// assert_eq!(ended.iter().map(|one| one.number()).collect::<Vec<_>>(), [0, 1, 2]);
    /// let _closed = open.close(ended)?;
    /// # Ok::<(), Box<dyn std::error::Error>>(())
    /// ```
    #[must_use]
    pub fn number(&self) -> usize
        ensures { result ≡ (reserver_of self.now).own.number }
    {
        self.reserver.0.number()
    }
}
