//! What a system whose handles come from a block may ask.
ghost use Rattle.std.specs.Prelude.{◌≡◌};
ghost use Rattle.ent_blocks.specs.Drawing.{left_of};
ghost use Rattle.ent_queue.specs.Commands.{reserver_of};

use crate::commands::Commands;
use ent_blocks::Blocks;

impl<O> Commands<'_, O, Blocks> {
    /// Returns the number of handles that are left of the block.
    ///
    /// ```
    /// # #[cfg(feature = "std")] {
    /// use forgeni::{fill_in_blocks, Blocks, OutOfMemory, StdThreads, View, World, WorldCommands};
    ///
    /// /// A burst of what the block still has.
    /// fn burst(_: &View<'_>, out: &mut WorldCommands<'_, Blocks>) -> Result<(), OutOfMemory> {
    ///     let n = out.left();
    ///     out.spawn_many_with(n, &[]).map_or_else(|refused| refused.or_memory(), |_| Ok(()))
    /// }
    ///
    /// let (phase, mut reservers) = World::new().open_in::<Blocks>(&[10, 30])?;
    /// let queues = fill_in_blocks(&StdThreads, &phase, &mut reservers, &[burst; 2], 2)?;
    /// let mut world = phase.close(reservers)?.into_world()?;
    /// world.apply(queues)?;
    /// assert_eq!(world.len(), 40);
    /// # }
    /// # Ok::<(), Box<dyn std::error::Error>>(())
    /// ```
    #[must_use]
    pub fn left(&self) -> u32
        ensures { result ≡ left_of (reserver_of self.now).block }
    {
        self.reserver.left()
    }
}
