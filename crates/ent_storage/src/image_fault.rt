ghost use Rattle.std.specs.Prelude.{◌≡◌};
ghost use Rattle.ent_storage.specs.declared.image_fault.StorageImageFault.TheVariants.{Memory as Refused};

use ent_handle::Memory;
use thiserror::Error;

/// Why bytes were not read as the entities of a storage.
///
/// ```
/// use forgeni::{StorageImageFault, World, WorldImageFault};
///
/// let mut image = Vec::new();
/// World::new().write_image(&mut image)?;
/// image.push(0);
/// // An image of a world has the entities at its end.
/// let read = World::read_image(&image);
/// assert_eq!(read.err(), Some(WorldImageFault::Storage(StorageImageFault::Length)));
/// # Ok::<(), Box<dyn std::error::Error>>(())
/// ```
#[derive(Clone, Copy, Debug, PartialEq, Eq, Hash, Error)]
pub enum StorageImageFault {
    /// There are fewer or more bytes than the entities have.
    #[error("bytes are missing or left over")]
    Length,
    /// No entity has the last of that many components, or there are no components with such
    /// numbers.
    #[error("{width} components can't be right")]
    Width {
        /// How many components the image has.
        width: u32,
    },
    /// The bytes at this place aren't those of any entity.
    #[error("entity {place} is damaged")]
    Entity {
        /// How many entities come before it.
        place: usize,
    },
    /// Out of memory.
    #[error("out of memory")]
    Memory,
}

impl From<Memory> for StorageImageFault {
    ghost from_gives = { λ _ fault. fault ≡ Refused };

    fn from(_refused: Memory) -> Self {
        StorageImageFault::Memory
    }
}
