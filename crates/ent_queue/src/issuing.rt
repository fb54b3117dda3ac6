//! The calls of a system that fills a queue.
ghost use Rattle.std.specs.Prelude.{◌≡◌, ◌++◌, ◌∷◌, [], length, IfOk, IfErr, IsErrOf, OnOk, OnErr};
ghost use Rattle.std.specs.Prelude.{Result, List, map};
ghost use Rattle.ent_handle.specs.Handle.{Handle as HandleValue};
ghost use Rattle.ent_alloc.specs.declared.refused.Refused.{Refused as Refusal};
ghost use Rattle.ent_alloc.specs.Sequential.{listed_alone};
ghost use Rattle.ent_storage.specs.Bundle.{bundle_of};
ghost use Rattle.ent_queue.specs.Command.{Spawn, SpawnMany, Insert, Remove, Despawn};
ghost use Rattle.ent_queue.specs.Commands.{IsReady, Extends, output_of, reserver_of, source_of};
ghost use Rattle.ent_queue.specs.Issuing.{Issues};
ghost use Rattle.ent_queue.specs.Reserving.{refused_by, queued, as_list};

use crate::bundle::Bundle as OwnBundle;
use crate::commands::Commands;
use crate::queue::CommandQueue;
use ent_alloc::{ReserveError as QueueFault, Source};
use ent_handle::{ComponentId, Handle, Memory};
use ent_storage::Bundle;

impl<S: Source> Commands<'_, CommandQueue, S> {
    /// Reserves a handle. Its entity gets the components when the queue is applied.
    ///
    /// ```
    /// use forgeni::{run_frame, system, Bundle, ComponentId, StdThreads, World};
    ///
    /// const HEAT: ComponentId = ComponentId(0);
    ///
    /// let spark = Bundle::of(&[(HEAT, 900)])?;
    /// let burn = system(|_, commands| match commands.spawn(&spark) {
    ///     Ok(_) => Ok(()),
    ///     Err(refused) => refused.or_memory(),
    /// });
    /// let mut world = World::new();
    /// let report = run_frame(&StdThreads, &mut world, &[burn], 1)?;
    /// assert_eq!(world.get(report.born[0], HEAT), Some(900));
    /// # Ok::<(), Box<dyn std::error::Error>>(())
    /// ```
    ///
    /// # Errors
    ///
    /// [`QueueFault::Memory`]: nothing has changed. With [`QueueFault::Space`] and
    /// [`QueueFault::Quota`] the queue keeps the refusal, which is a fault of the sync point's
    /// report, and [`QueueFault::or_memory`] lets the system go on.
    pub fn spawn<const INLINE: usize>(
        &mut self,
        bundle: &Bundle<INLINE>,
    ) -> Result<Handle, QueueFault>
        requires { IsReady S.serves self.old }
        ensures extends { Extends Issues S.serves S.may_reply self.old self.new }
        ensures ok { IfOk result (λ handle.
            output_of self.new ≡ output_of self.old ++ Spawn handle bundle.now ∷ []) }
        ensures refused { IfErr result (λ fault.
            output_of self.new ≡ output_of self.old ++ refused_by 1 fault) }
        ensures memory { IsErrOf result QueueFault.Memory
            → reserver_of self.new ≡ reserver_of self.old }

        // Anything but Memory is the result of a reservation.
        ensures replies { (reply : Result HandleValue Refusal) → result ≡ queued reply
            → S.may_reply (source_of self.old) (reserver_of self.old) (reserver_of self.new) 1
            (listed_alone reply) }
    {
        self.output
            .spawn(self.source, self.reserver, bundle.items())
    }

    /// Reserves a handle. Its entity gets these components when the queue is applied. They may be
    /// in any order; if a component is listed twice, its last value counts.
    ///
    /// ```
    /// use forgeni::{run_frame, system, ComponentId, StdThreads, World};
    ///
    /// const HEAT: ComponentId = ComponentId(0);
    ///
    /// let burn = system(|_, commands| match commands.spawn_with(&[(HEAT, 900)]) {
    ///     Ok(_) => Ok(()),
    ///     Err(refused) => refused.or_memory(),
    /// });
    /// let mut world = World::new();
    /// let report = run_frame(&StdThreads, &mut world, &[burn], 1)?;
    /// assert_eq!(world.get(report.born[0], HEAT), Some(900));
    /// # Ok::<(), Box<dyn std::error::Error>>(())
    /// ```
    ///
    /// # Errors
    ///
    /// The same as for [`Commands::spawn`].
    #[tactic(auto, using(crate::proofs::Extending::extends_nothing))]
    pub fn spawn_with(&mut self, components: &[(ComponentId, i64)]) -> Result<Handle, QueueFault>
        requires { IsReady S.serves self.old }
        ensures extends { Extends Issues S.serves S.may_reply self.old self.new }
        ensures ok { IfOk result (λ handle. output_of self.new
            ≡ output_of self.old ++ Spawn handle (bundle_of components.now) ∷ []) }
        ensures refused { IfErr result (λ fault.
            output_of self.new ≡ output_of self.old ++ refused_by 1 fault) }
        ensures memory { IsErrOf result QueueFault.Memory
            → reserver_of self.new ≡ reserver_of self.old }

        // Anything but Memory is the result of a reservation.
        ensures replies { (reply : Result HandleValue Refusal) → result ≡ queued reply
            → S.may_reply (source_of self.old) (reserver_of self.old) (reserver_of self.new) 1
            (listed_alone reply) }
    {
        let Ok(bundle) = OwnBundle::of(self.alloc, components) else {
            return Err(QueueFault::Memory);
        };
        self.spawn(&bundle)
    }

    /// Reserves `n` handles at once. Each of their entities gets the components when the queue is
    /// applied. It takes time for each handle, which goes into the list and into the queue.
    ///
    /// ```
    /// use forgeni::{run_frame, system, Bundle, ComponentId, StdThreads, World};
    ///
    /// const HEAT: ComponentId = ComponentId(0);
    ///
    /// let spark = Bundle::of(&[(HEAT, 900)])?;
    /// let burst = system(|_, commands| match commands.spawn_many(50, &spark) {
    ///     Ok(_) => Ok(()),
    ///     Err(refused) => refused.or_memory(),
    /// });
    /// let mut world = World::new();
    /// assert_eq!(run_frame(&StdThreads, &mut world, &[burst], 1)?.born.len(), 50);
    /// # Ok::<(), Box<dyn std::error::Error>>(())
    /// ```
    ///
    /// # Errors
    ///
    /// The same as for [`Commands::spawn`].
    pub fn spawn_many<const INLINE: usize>(
        &mut self,
        n: u32,
        bundle: &Bundle<INLINE>,
    ) -> Result<Vec<Handle>, QueueFault>
        requires { IsReady S.serves self.old }
        ensures extends { Extends Issues S.serves S.may_reply self.old self.new }
        ensures ok { IfOk result (λ handles.
            output_of self.new ≡ output_of self.old ++ SpawnMany handles.items bundle.now ∷ []) }
        ensures length { IfOk result (λ handles. length handles.items ≡ n) }
        ensures refused { IfErr result (λ fault.
            output_of self.new ≡ output_of self.old ++ refused_by n fault) }
        ensures memory { IsErrOf result QueueFault.Memory
            → reserver_of self.new ≡ reserver_of self.old }

        // Anything but Memory is the result of a reservation.
        ensures replies { (reply : Result (List HandleValue) Refusal)
            → as_list result ≡ queued reply
            → S.may_reply (source_of self.old) (reserver_of self.old) (reserver_of self.new) n
            reply }
    {
        self.output
            .spawn_many(self.alloc, self.source, self.reserver, n, bundle.items())
    }

    /// Reserves `n` handles at once. Each of their entities gets these components when the queue is
    /// applied. They may be in any order; if a component is listed twice, its last value counts.
    ///
    /// ```
    /// use forgeni::{run_frame, system, Limits, StdThreads, World};
    ///
    /// let burst = system(|_, commands| match commands.spawn_many_with(50, &[]) {
    ///     Ok(_) => Ok(()),
    ///     // The report has it as a fault, and the other systems go on.
    ///     Err(refused) => refused.or_memory(),
    /// });
    /// let mut world = World::with_limits(Limits::new(10, 1).unwrap());
    /// let report = run_frame(&StdThreads, &mut world, &[burst], 1)?;
    /// assert_eq!((report.born.len(), report.faults.len()), (0, 1));
    /// # Ok::<(), Box<dyn std::error::Error>>(())
    /// ```
    ///
    /// # Errors
    ///
    /// The same as for [`Commands::spawn_many`].
    #[tactic(auto, using(crate::proofs::Extending::extends_nothing))]
    pub fn spawn_many_with(
        &mut self,
        n: u32,
        components: &[(ComponentId, i64)],
    ) -> Result<Vec<Handle>, QueueFault>
        requires { IsReady S.serves self.old }
        ensures extends { Extends Issues S.serves S.may_reply self.old self.new }
        ensures ok { IfOk result (λ handles. output_of self.new
            ≡ output_of self.old ++ SpawnMany handles.items (bundle_of components.now) ∷ []) }
        ensures length { IfOk result (λ handles. length handles.items ≡ n) }
        ensures refused { IfErr result (λ fault.
            output_of self.new ≡ output_of self.old ++ refused_by n fault) }
        ensures memory { IsErrOf result QueueFault.Memory
            → reserver_of self.new ≡ reserver_of self.old }

        // Anything but Memory is the result of a reservation.
        ensures replies { (reply : Result (List HandleValue) Refusal)
            → as_list result ≡ queued reply
            → S.may_reply (source_of self.old) (reserver_of self.old) (reserver_of self.new) n
            reply }
    {
        let Ok(bundle) = OwnBundle::of(self.alloc, components) else {
            return Err(QueueFault::Memory);
        };
        self.spawn_many(n, &bundle)
    }

    /// Gives the entity the components, in place of those that it has under the same numbers.
    ///
    /// ```
    /// use forgeni::{run_frame, system, Bundle, ComponentId, StdThreads, World};
    ///
    /// const SPEED: ComponentId = ComponentId(0);
    ///
    /// let mut world = World::new();
    /// let cart = world.spawn(&[])?;
    /// let fast = Bundle::of(&[(SPEED, 40)])?;
    /// run_frame(&StdThreads, &mut world, &[system(|_, commands| commands.insert(cart, &fast))], 1)?;
    /// assert_eq!(world.get(cart, SPEED), Some(40));
    /// # Ok::<(), Box<dyn std::error::Error>>(())
    /// ```
    ///
    /// # Errors
    ///
    /// `Memory`. Nothing has changed then.
    pub fn insert<const INLINE: usize>(
        &mut self,
        handle: Handle,
        bundle: &Bundle<INLINE>,
    ) -> Result<(), Memory>
        requires { IsReady S.serves self.old }
        ensures extends { Extends Issues S.serves S.may_reply self.old self.new }
        ensures reserver { reserver_of self.new ≡ reserver_of self.old }
        ensures ok { OnOk result
            (output_of self.new ≡ output_of self.old ++ Insert handle bundle.now ∷ []) }
        ensures err { OnErr result (output_of self.new ≡ output_of self.old) }
    {
        CommandQueue::insert(&mut self.output, handle, bundle.items())
    }

    /// Gives each of the entities the components, by a command for each handle in their order. It
    /// takes less time than as many calls of `insert`, if there are more than a few handles.
    ///
    /// # Errors
    ///
    /// `Memory`. Nothing has changed then.
    pub fn insert_each<const INLINE: usize>(
        &mut self,
        handles: &[Handle],
        bundle: &Bundle<INLINE>,
    ) -> Result<(), Memory>
        requires { IsReady S.serves self.old }
        ensures extends { Extends Issues S.serves S.may_reply self.old self.new }
        ensures reserver { reserver_of self.new ≡ reserver_of self.old }
        ensures ok { OnOk result (output_of self.new
            ≡ output_of self.old ++ map (λ handle. Insert handle bundle.now) handles.now) }
        ensures err { OnErr result (output_of self.new ≡ output_of self.old) }
    {
        CommandQueue::insert_each(&mut self.output, self.alloc, handles, bundle.items())
    }

    /// Gives the entity these components, in place of those that it has under the same numbers.
    /// They may be in any order; if a component is listed twice, its last value counts.
    ///
    /// ```
    /// use forgeni::{run_frame, ComponentId, OutOfMemory, StdThreads, SystemCommands, View, World};
    ///
    /// const SPEED: ComponentId = ComponentId(0);
    ///
    /// fn brake(view: &View<'_>, commands: &mut SystemCommands<'_>) -> Result<(), OutOfMemory> {
    ///     let all = view.with(SPEED)?;
    ///     all.into_iter().try_for_each(|one| commands.insert_with(one, &[(SPEED, 0)]))
    /// }
    ///
    /// let mut world = World::new();
    /// let cart = world.spawn(&[(SPEED, 40)])?;
    /// run_frame(&StdThreads, &mut world, &[brake], 1)?;
    /// assert_eq!(world.get(cart, SPEED), Some(0));
    /// # Ok::<(), Box<dyn std::error::Error>>(())
    /// ```
    ///
    /// # Errors
    ///
    /// `Memory`. Nothing has changed then.
    #[tactic(auto, using(crate::proofs::Extending::extends_nothing))]
    pub fn insert_with(
        &mut self,
        handle: Handle,
        components: &[(ComponentId, i64)],
    ) -> Result<(), Memory>
        requires { IsReady S.serves self.old }
        ensures extends { Extends Issues S.serves S.may_reply self.old self.new }
        ensures reserver { reserver_of self.new ≡ reserver_of self.old }
        ensures ok { OnOk result (output_of self.new
            ≡ output_of self.old ++ Insert handle (bundle_of components.now) ∷ []) }
        ensures err { OnErr result (output_of self.new ≡ output_of self.old) }
    {
        let bundle = OwnBundle::of(self.alloc, components)?;
        self.insert(handle, &bundle)
    }

    /// Removes the component from the entity, if it has it.
    ///
    /// ```
    /// use forgeni::{run_frame, system, ComponentId, StdThreads, World};
    ///
    /// const LIT: ComponentId = ComponentId(0);
    ///
    /// let mut world = World::new();
    /// let lamp = world.spawn(&[(LIT, 1)])?;
    /// run_frame(&StdThreads, &mut world, &[system(|_, commands| commands.remove(lamp, LIT))], 1)?;
    /// assert!(world.contains(lamp) && world.get(lamp, LIT).is_none());
    /// # Ok::<(), Box<dyn std::error::Error>>(())
    /// ```
    ///
    /// # Errors
    ///
    /// `Memory`. Nothing has changed then.
    pub fn remove(&mut self, handle: Handle, id: ComponentId) -> Result<(), Memory>
        requires { IsReady S.serves self.old }
        ensures extends { Extends Issues S.serves S.may_reply self.old self.new }
        ensures reserver { reserver_of self.new ≡ reserver_of self.old }
        ensures ok { OnOk result (output_of self.new ≡ output_of self.old ++ Remove handle id ∷ []) }
        ensures err { OnErr result (output_of self.new ≡ output_of self.old) }
    {
        self.output.remove(handle, id)
    }

    /// Despawns the entity.
    ///
    /// ```
    /// use forgeni::{run_frame, ComponentId, OutOfMemory, StdThreads, SystemCommands, View, World};
    ///
    /// const AGE: ComponentId = ComponentId(0);
    ///
    /// fn wither(view: &View<'_>, commands: &mut SystemCommands<'_>) -> Result<(), OutOfMemory> {
    ///     let old = view.with(AGE)?.into_iter().filter(|one| view.get(*one, AGE) > Some(100));
    ///     old.map(|one| commands.despawn(one)).collect()
    /// }
    ///
    /// let mut world = World::new();
    /// world.spawn(&[(AGE, 80)])?;
    /// world.spawn(&[(AGE, 300)])?;
    /// run_frame(&StdThreads, &mut world, &[wither], 1)?;
    /// assert_eq!(world.len(), 1);
    /// # Ok::<(), Box<dyn std::error::Error>>(())
    /// ```
    ///
    /// # Errors
    ///
    /// `Memory`. Nothing has changed then.
    pub fn despawn(&mut self, handle: Handle) -> Result<(), Memory>
        requires { IsReady S.serves self.old }
        ensures extends { Extends Issues S.serves S.may_reply self.old self.new }
        ensures reserver { reserver_of self.new ≡ reserver_of self.old }
        ensures ok { OnOk result (output_of self.new ≡ output_of self.old ++ Despawn handle ∷ []) }
        ensures err { OnErr result (output_of self.new ≡ output_of self.old) }
    {
        self.output.despawn(handle)
    }
}
