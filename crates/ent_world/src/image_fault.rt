ghost use Rattle.std.specs.Prelude.{◌≡◌};
ghost use Rattle.ent_world.specs.declared.image_fault.WorldImageFault.TheVariants.{Memory as Refused};

use ent_alloc::ImageFault;
use ent_handle::Memory;
use ent_storage::StorageImageFault;
use std::alloc::AllocError;
use thiserror::Error;

/// Why bytes were not read as the image of a world: the first fault that they have, in this order.
/// The version is checked only if there are as many bytes as come before the allocator's part.
///
/// ```
/// use forgeni::{World, WorldImageFault};
///
/// let mut image = Vec::new();
/// World::new().write_image(&mut image)?;
/// // A download that broke off.
/// assert_eq!(World::read_image(&image[..30]).err(), Some(WorldImageFault::Length));
/// # Ok::<(), Box<dyn std::error::Error>>(())
/// ```
#[derive(Clone, Copy, Debug, PartialEq, Eq, Hash, Error)]
#[non_exhaustive]
pub enum WorldImageFault {
    /// The bytes don't begin as the image of a world does.
    #[error("not an image of a world")]
    Magic,
    /// The image is of another version of the format.
    #[error("version {version} is not known")]
    Version {
        /// The version that the image names.
        version: u32,
    },
    /// There are fewer bytes than those before the allocator's part, or than that part has.
    #[error("bytes are missing")]
    Length,
    /// The allocator's part isn't the image of any allocator.
    #[error("the allocator's part is damaged")]
    Entities(ImageFault),
    /// A living entity has a row, which the image of a world never has.
    #[error("slot {index} has a row")]
    Row {
        /// The index of its slot.
        index: u32,
    },
    /// The bytes after the allocator's part aren't those of any entities.
    #[error("the entities' part is damaged")]
    Storage(StorageImageFault),
    /// After its next flush the world would have more slots than the reader allows.
    #[error("{slots} slots are more than are allowed")]
    Bound {
        /// How many slots it would have.
        slots: u32,
    },
    /// Out of memory.
    #[error("out of memory")]
    Memory,
}

impl From<AllocError> for WorldImageFault {
    ghost from_gives = { λ _ fault. fault ≡ Refused };

    fn from(_refused: AllocError) -> Self {
        WorldImageFault::Memory
    }
}

impl From<Memory> for WorldImageFault {
    ghost from_gives = { λ _ fault. fault ≡ Refused };

    fn from(_refused: Memory) -> Self {
        WorldImageFault::Memory
    }
}
