//! The systems of a run are the jobs of a crew.
ghost use Rattle.ent_shared.specs.Phase.{IsOf};
ghost use Rattle.ent_shared.specs.Replies.{IsReturned};
ghost use Rattle.ent_runner.specs.Filling.{IsFilled};
ghost use Rattle.ent_runner.specs.Stage.{IsDealt, AreReady};

use crate::crew::Jobs;
use crate::systems::Systems;
use ent_blocks::{BlockReserver, Blocks, again};
use ent_queue::{Commands, Output};
use ent_shared::{Reserver, Shared};
use std::alloc::Global;

/// Systems over a shared allocator. A worker lends each of its systems its one reserver.
#[derive(Drop)]
pub(crate) struct SharedStage<'a, 's, T> {
    pub(crate) alloc: Global,
    pub(crate) shared: &'a Shared,
    pub(crate) systems: &'s T,
}

impl<O: Output, E, T: Systems<O, Shared, E>> Jobs<O, Reserver, E> for SharedStage<'_, '_, T> {
    ghost count = { λ stage. T.count stage.systems.now };

    ghost may_have = { λ stage reserver. IsOf stage.shared.now reserver };

    ghost may_do = { λ stage number before output after.
        IsFilled O.adds O.empty (IsReturned stage.shared.now) before output after
        × T.may_fill stage.systems.now number output };

    ghost may_leave = { λ stage number before output error after.
        IsFilled O.adds O.empty (IsReturned stage.shared.now) before output after
        × T.may_leave stage.systems.now number output error };

    /// Runs the system of this number. Its output has what it added, also if it stopped.
    fn run(&self, number: usize, reserver: &mut Reserver) -> (O, Result<(), E>) {
        let mut commands = Commands::new(self.alloc, self.shared, reserver);
        let ran = self.systems.run_at(number, self.alloc, &mut commands);
        (commands.finish(), ran)
    }
}

/// Systems in blocks, each with the reserver at its number.
#[derive(Drop)]
pub(crate) struct BlockStage<'b, 'r, 's, T> {
    pub(crate) alloc: Global,
    pub(crate) blocks: &'b Blocks,
    pub(crate) reservers: &'r [BlockReserver],
    pub(crate) systems: &'s T,
}

/// Nothing is lent to them: each has its own reserver. So there is nothing that workers share but
/// the claims.
impl<O: Output, E, T: Systems<O, Blocks, E>> Jobs<(O, BlockReserver), (), E>
    for BlockStage<'_, '_, '_, T> {
    ghost count = { λ stage. T.count stage.systems.now };

    ghost may_have = { λ stage nothing.
        AreReady stage.blocks.now (T.count stage.systems.now) stage.reservers.now };

    ghost may_do = { λ stage number before done after. IsDealt O.adds O.empty
        (T.may_fill stage.systems.now) stage.blocks.now stage.reservers.now number done };

    ghost may_leave = { λ stage number before done error after. IsDealt O.adds O.empty
        (λ n output. T.may_leave stage.systems.now n output error)
        stage.blocks.now stage.reservers.now number done };

    /// Runs the system of this number, which is run once. Its output has what it added, also if it
    /// stopped.
    fn run(&self, number: usize, lent: &mut ()) -> ((O, BlockReserver), Result<(), E>) {
        let mut reserver = again(&self.reservers[number]);
        let mut commands = Commands::new(self.alloc, self.blocks, &mut reserver);
        let ran = self.systems.run_at(number, self.alloc, &mut commands);
        let output = commands.finish();
        ((output, reserver), ran)
    }
}
