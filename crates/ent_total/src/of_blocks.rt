ghost use Rattle.std.specs.Prelude.{◌≡◌};
ghost use Rattle.ent_blocks.specs.Blocks.{Blocks as BlocksValue, Reserver as BlockReserverValue};
ghost use Rattle.ent_blocks.specs.Drawing.{IsOfPhase};

use crate::in_world::InWorld;
use ent_alloc::Phased;
use ent_blocks::{BlockReserver, Blocks, InBlocks};

/// A source whose reservers are those of blocks that refuse: an allocator's, or a world's.
///
/// ```
/// # #[cfg(feature = "std")] {
/// use forgeni::{run_in_blocks, Blocks, Log, LogCommands, OfBlocks, OutOfMemory, Phase};
/// use forgeni::{Reserver, RunError, StdThreads};
///
/// fn launch(commands: &mut LogCommands<'_, u8, Blocks>) -> Result<(), OutOfMemory> {
///     commands.spawn().map_or_else(|refused| refused.or_memory(), |_| commands.push(1))
/// }
///
/// /// Ten systems, in the blocks of an allocator or of a world.
/// fn launch_all<S: OfBlocks>(
///     phase: &Phase<S>,
///     reservers: &mut [Reserver<S>],
/// ) -> Result<Vec<Log<u8>>, RunError> {
///     run_in_blocks(&StdThreads, phase, reservers, &[launch; 10], 4)
/// }
/// # }
/// ```
pub trait OfBlocks: InBlocks<Reserver = BlockReserver> {
    ghost of: { Self → BlocksValue };

    /// Returns the blocks.
    fn blocks(&self) -> &Blocks
        ensures { result.now ≡ of self.now };

    // It serves the reservers of the blocks, and no others.
    ghost serves_them: { (s : Self) (r : BlockReserverValue) → IsOfPhase (of s) r
        → Self.Source.serves s r };

    ghost serves_no_others: { (s : Self) (r : BlockReserverValue)
        → Self.Source.serves s r → IsOfPhase (of s) r };
}

impl OfBlocks for Blocks {
    ghost of = { λ s. s };

    fn blocks(&self) -> &Blocks {
        self
    }

    ghost serves_them = { λ s r is. is };

    ghost serves_no_others = { λ s r is. is };
}

impl OfBlocks for InWorld<Blocks> {
    ghost of = { λ s. s.source };

    fn blocks(&self) -> &Blocks {
        self.dealt.dealer()
    }

    ghost serves_them = { λ s r is. is };

    ghost serves_no_others = { λ s r is. is };
}
