ghost use Rattle.std.specs.Prelude.{◌≡◌, [], List, OnOk, IfErr};
ghost use Rattle.ent_queue.specs.Command.{Command};
ghost use Rattle.ent_queue.specs.Commands.{IsReady, Extends, output_of};
ghost use Rattle.ent_queue.specs.Issuing.{Issues};
ghost use Rattle.ent_world.specs.OpenWorld.{View as Viewed};

use ent_alloc::Source;
use ent_queue::{CommandQueue, Commands};
use ent_world::View;
use std::alloc::Global;

/// A system: it reads the world as it was when the frame began, and issues commands that take
/// effect at the frame's sync point. `S` is the source of its handles: a shared allocator, or
/// blocks. `E` is its error.
///
/// One value may run on any worker, so all that it knows of the world is what the view says. In
/// plain Rust a function is a system, and so is a closure: `system` tells Rust the types of its
/// parameters. Systems of several types go into one list in boxes, or behind `&dyn System<S, E>`.
///
/// `S` is the source of its handles, and `E` is its error. If `E` is `From<OutOfMemory>` and
/// `From<ReserveError>`, `?` converts what the calls of `commands` return.
///
/// ```
/// use forgeni::{run_frame, Handle, OutOfMemory, StdThreads, System, SystemCommands, View, World};
///
/// struct Despawn(Handle);
///
/// impl System for Despawn {
///     fn run(&self, view: &View<'_>, out: &mut SystemCommands<'_>) -> Result<(), OutOfMemory> {
///         if view.contains(self.0) { out.despawn(self.0) } else { Ok(()) }
///     }
/// }
///
/// let mut world = World::new();
/// let cart = world.spawn(&[])?;
/// run_frame(&StdThreads, &mut world, &[Despawn(cart)], 1)?;
/// assert!(world.is_empty());
/// # Ok::<(), Box<dyn std::error::Error>>(())
/// ```
pub trait System<S: Source, E> {
    /// What it may issue in a frame that begins with this world. A run without a fault, from an
    /// empty queue on, leaves a queue of this kind.
    ghost may_issue: { Self → Viewed → List Command → Type 0 };

    /// What it may leave in its queue if it returns this error: anything, unless the system says
    /// more.
    ghost may_leave: { Self → Viewed → List Command → E → Type 0 } = { λ _ _ _ _. Unit {0} };

    /// Runs it once.
    ///
    /// ```
    /// use forgeni::{run_frame, ComponentId, OutOfMemory, StdThreads, SystemCommands, View, World};
    ///
    /// const AGE: ComponentId = ComponentId(0);
    ///
    /// fn grow(view: &View<'_>, commands: &mut SystemCommands<'_>) -> Result<(), OutOfMemory> {
    ///     for one in view.with(AGE)? {
    ///         let age = view.get(one, AGE).unwrap_or(0);
    ///         commands.insert_with(one, &[(AGE, age + 1)])?;
    ///     }
    ///     Ok(())
    /// }
    ///
    /// let mut world = World::new();
    /// let oak = world.spawn(&[(AGE, 80)])?;
    /// run_frame(&StdThreads, &mut world, &[grow], 1)?;
    /// assert_eq!(world.get(oak, AGE), Some(81));
    /// # Ok::<(), Box<dyn std::error::Error>>(())
    /// ```
    ///
    /// # Errors
    ///
    /// The error of the system. The whole frame is then lost. In a shared allocator, what the
    /// system had reserved stays reserved; in blocks, all reservers are dropped.
    fn run(
        &self,
        alloc: Global,
        view: &View<'_>,
        commands: &mut Commands<'_, CommandQueue, S>,
    ) -> Result<(), E>
        requires { IsReady S.serves commands.old }
        ensures extends { Extends Issues S.serves S.may_reply commands.old commands.new }
        ensures may { output_of commands.old ≡ []
            → OnOk result (may_issue self.now view.now (output_of commands.new)) }
        ensures leaves { output_of commands.old ≡ []
            → IfErr result (λ error.
            may_leave self.now view.now (output_of commands.new) error) };
}
