//! Why arguments ask for nothing.
ghost use Rattle.std.specs.Prelude.{◌≡◌};

use clap::error::ErrorKind;
use std::alloc::AllocError;

/// Why arguments ask a program for nothing.
#[derive(Debug, Drop)]
pub enum LineFault {
    /// They are no command line of the program, or they ask for help. The error's `Display` is the
    /// text to show.
    Line(clap::Error),
    /// Memory ran out while they were read.
    Memory,
}

impl From<clap::Error> for LineFault {
    ghost use Rattle.cli.specs.Fault.{IsFaultOf};

    ghost from_gives = { IsFaultOf };

    fn from(error: clap::Error) -> Self {
        if error.kind() == ErrorKind::OutOfMemory {
            LineFault::Memory
        } else {
            LineFault::Line(error)
        }
    }
}

impl From<AllocError> for LineFault {
    ghost use Rattle.cli.specs.declared.line_fault.LineFault.TheVariants.{Memory};

    ghost from_gives = { λ _ fault. fault ≡ Memory };

    fn from(_refused: AllocError) -> Self {
        LineFault::Memory
    }
}
