ghost use Rattle.std.specs.Prelude.{◌≡◌, ◌≤◌, ℕ, List};
ghost use Rattle.ent_blocks.specs.Blocks.{Block};

use ent_alloc::Phased;

/// A source whose reservers have a block each.
///
/// ```
/// use forgeni::{BlockSize, InBlocks, Reserver};
///
/// /// The sizes of the blocks of the next frame.
/// fn adapt<S: InBlocks>(sizes: &mut [BlockSize], reservers: &[Reserver<S>]) {
///     for (size, reserver) in sizes.iter_mut().zip(reservers) {
///         size.adapt(reserver.wanted());
///     }
/// }
/// ```
pub trait InBlocks: Phased {
    /// The blocks as they were dealt.
    ghost blocks: { Self → List Block };

    /// The block of a reserver, with what is used of it.
    ghost block: { Self.Reserver → Block };

    /// How large the block should have been for all that was requested.
    ghost wants: { Self.Reserver → ℕ };

    /// The reserver has requested nothing yet.
    ghost fresh: { Self.Reserver → Type 0 };

    /// Returns the number of handles in the reserver's block.
    fn size_of(reserver: &Self::Reserver) -> u32
        ensures { result ≡ (block reserver.now).size };

    /// Returns the number of handles of the reserver's block that are used.
    fn used_of(reserver: &Self::Reserver) -> u32
        ensures value { result ≡ (block reserver.now).used }
        ensures within { result ≤ (block reserver.now).size };

    /// Returns how large the reserver's block should have been.
    fn wanted_of(reserver: &Self::Reserver) -> u32
        ensures { result ≡ wants reserver.now };
}
