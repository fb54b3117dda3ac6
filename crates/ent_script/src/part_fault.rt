ghost use Rattle.std.specs.Prelude.{◌≡◌};
ghost use Rattle.ent_script.specs.declared.part_fault.PartFault.TheVariants as faults;

use crate::cause::Cause;
use ent_handle::Memory;

/// Why an operation could not be read.
#[derive(Clone, Copy)]
pub(crate) enum PartFault {
    /// A test fails.
    Refused(Cause),
    /// Memory ran out.
    Memory,
}

impl From<Cause> for PartFault {
    ghost from_gives = { λ cause fault. fault ≡ faults.Refused cause };

    fn from(cause: Cause) -> Self {
        PartFault::Refused(cause)
    }
}

impl From<Memory> for PartFault {
    ghost from_gives = { λ _ fault. fault ≡ faults.Memory };

    fn from(_refused: Memory) -> Self {
        PartFault::Memory
    }
}
