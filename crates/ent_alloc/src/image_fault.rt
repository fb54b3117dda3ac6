ghost use Rattle.std.specs.Prelude.{◌≡◌};
ghost use Rattle.ent_alloc.specs.declared.image_fault.ImageFault.TheVariants.{Memory as ImageMemory};

use ent_handle::Memory;
use std::alloc::AllocError;
use thiserror::Error;

/// Why bytes were not read as the image of an allocator: the first fault that they have, in the
/// order that [`Entities::read_image`](crate::Entities::read_image) lists.
///
/// ```
/// use forgeni::{Entities, ImageFault};
///
/// let mut image = Vec::new();
/// Entities::new().write_image(&mut image)?;
/// image.push(0);
/// // A save that has one byte too many isn't read as if it hadn't.
/// assert_eq!(Entities::read_image(&image).err(), Some(ImageFault::Length { expected: 40 }));
/// assert_eq!(Entities::read_image(b"save").err(), Some(ImageFault::Magic));
/// # Ok::<(), Box<dyn std::error::Error>>(())
/// ```
#[derive(Clone, Copy, Debug, PartialEq, Eq, Hash, Error)]
#[non_exhaustive]
pub enum ImageFault {
    /// The bytes don't begin as an image does.
    #[error("not an image of an allocator")]
    Magic,
    /// The image is of another version of the format.
    #[error("version {version} is not known")]
    Version {
        /// The version that the image names.
        version: u32,
    },
    /// No allocator can have these limits.
    #[error("limits out of range")]
    Limits,
    /// More slots were made than the limits allow, or more wait than were made.
    #[error("more slots than there may be")]
    Counts,
    /// There are fewer or more bytes than an image of that many slots has.
    #[error("{expected} bytes expected")]
    Length {
        /// How many bytes the image has to have.
        expected: u64,
    },
    /// The number of reserved handles doesn't fit the number of requested ones.
    #[error("requests that can't have been made")]
    Requests,
    /// No allocator can have this slot: it has a generation out of range, a word that names no kind
    /// of slot, or a position that is past the last one or that a slot before it waits at.
    #[error("slot {index} is damaged")]
    Slot {
        /// The index of the slot.
        index: u32,
    },
    /// No slot waits at a position.
    #[error("no slot waits at position {position}")]
    Position {
        /// The position, counted from that of the slot that is given last.
        position: u32,
    },
    /// After its next flush the allocator would have more slots than
    /// [`read_image_within`](crate::Entities::read_image_within) was allowed.
    #[error("{slots} slots are more than are allowed")]
    Bound {
        /// How many slots it would have.
        slots: u32,
    },
    /// Out of memory.
    #[error("out of memory")]
    Memory,
}

impl From<AllocError> for ImageFault {
    ghost from_gives = { λ _ fault. fault ≡ ImageMemory };

    fn from(_refused: AllocError) -> Self {
        ImageFault::Memory
    }
}

impl From<Memory> for ImageFault {
    ghost from_gives = { λ _ fault. fault ≡ ImageMemory };

    fn from(_refused: Memory) -> Self {
        ImageFault::Memory
    }
}
