ghost use Rattle.std.specs.Prelude.{◌≡◌};
ghost use Rattle.ent_script.specs.declared.read_fault.ReadFault.TheVariants as faults;

use crate::cause::{Cause, ScriptCause};
use ent_handle::Memory;
use json::Invalid;
use std::alloc::{AllocError, AllocFailed};
use thiserror::Error;

/// Why a text isn't a script, or could not be read. Frames, systems and operations are numbered
/// from 0.
#[derive(Clone, Copy, Debug, PartialEq, Eq, Hash, Error)]
pub enum ReadFault {
    /// The bytes aren't a JSON text.
    #[error("no JSON text")]
    Json,
    /// A test of the script outside its frames fails.
    #[error("no script")]
    Script(ScriptCause),
    /// A frame isn't a list of at most 256 systems.
    #[error("no frame at {frame}")]
    Frame {
        /// Its number.
        frame: usize,
    },
    /// A system isn't a list of at most 10,000 operations.
    #[error("no system at {frame} {system}")]
    System {
        /// The number of its frame.
        frame: usize,
        /// Its number in the frame.
        system: usize,
    },
    /// An element of a system isn't an operation.
    #[error("no operation at {frame} {system} {operation}")]
    Operation {
        /// The number of its frame.
        frame: usize,
        /// The number of its system in the frame.
        system: usize,
        /// Its number in the system.
        operation: usize,
        /// What is wrong with it.
        cause: Cause,
    },
    /// Memory ran out.
    #[error("out of memory")]
    Memory,
}

impl From<ScriptCause> for ReadFault {
    ghost from_gives = { λ cause fault. fault ≡ faults.Script cause };

    fn from(cause: ScriptCause) -> Self {
        ReadFault::Script(cause)
    }
}

impl From<Memory> for ReadFault {
    ghost from_gives = { λ _ fault. fault ≡ faults.Memory };

    fn from(_refused: Memory) -> Self {
        ReadFault::Memory
    }
}

impl From<AllocError> for ReadFault {
    ghost from_gives = { λ _ fault. fault ≡ faults.Memory };

    fn from(_refused: AllocError) -> Self {
        ReadFault::Memory
    }
}

impl<T: Drop> From<AllocFailed<T>> for ReadFault {
    ghost from_gives = { λ _ fault. fault ≡ faults.Memory };

    fn from(_refused: AllocFailed<T>) -> Self {
        ReadFault::Memory
    }
}

impl From<Invalid> for ReadFault {
    ghost from_gives = { λ _ fault. fault ≡ faults.Json };

    fn from(_refused: Invalid) -> Self {
        ReadFault::Json
    }
}
