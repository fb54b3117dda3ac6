ghost use Rattle.std.specs.Prelude.{◌≡◌};
ghost use Rattle.ent_blocks.specs.Blocks.{Block};

use crate::part::Part;

/// Whatever holds a block.
pub(crate) trait Held {
    // The block, with what is used of it.
    ghost block: { Self → Block };

    /// The block.
    fn part(&self) -> &Part
        ensures { result.now ≡ block self.now };
}
