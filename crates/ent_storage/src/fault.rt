ghost use Rattle.std.specs.Prelude.{◌≡◌};
ghost use Rattle.ent_storage.specs.declared.fault.StorageFault.TheVariants.{Memory};

use std::error::Error;
use std::fmt;

/// Why a [`Storage`](super::Storage) refused a call. Nothing has changed.
///
/// ```
/// use forgeni::{Birth, Entities, Storage, StorageError};
///
/// const FIRST: Birth = Birth { frame: 0, system: 0, ordinal: 0 };
///
/// let cart = Entities::new().alloc()?;
/// let mut storage = Storage::new();
/// assert_eq!(storage.insert(cart, &[]), Err(StorageError::Absent));
/// storage.born(cart, FIRST)?;
/// assert_eq!(storage.born(cart, FIRST), Err(StorageError::Present));
/// # Ok::<(), Box<dyn std::error::Error>>(())
/// ```
#[derive(Clone, Copy, Debug, PartialEq, Eq, Hash)]
pub enum StorageFault {
    /// No entity has that handle.
    Absent,
    /// An entity has that handle already.
    Present,
    /// Out of memory, or there would be more than 4,294,967,296 entities.
    Memory,
}

impl fmt::Display for StorageFault {
    ghost use Rattle.std.specs.Prelude.{Some};
    ghost use Rattle.ent_storage.specs.Fault.{storage_fault_text};

    ghost output = { λ fault. Some (storage_fault_text fault) };

    fn fmt<W: fmt::Write>(&self, f: &mut fmt::Formatter<W>) -> fmt::Result {
        match self {
            StorageFault::Absent => f.write_str("no such entity"),
            StorageFault::Present => f.write_str("the entity is there already"),
            StorageFault::Memory => f.write_str("out of memory"),
        }
    }
}

impl Error for StorageFault {}

impl From<ent_handle::Memory> for StorageFault {
    ghost from_gives = { λ _ fault. fault ≡ Memory };

    fn from(_refused: ent_handle::Memory) -> Self {
        StorageFault::Memory
    }
}
