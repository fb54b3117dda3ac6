//! How a run of the program ended.
ghost use Rattle.std.specs.Prelude.{◌≡◌};
ghost use Rattle.spawnrun_lib.specs.Status.{exit_number};

use ent_handle::Memory;

/// How a run of the program ended.
///
/// Its number is the program's exit status. The number 2 is for arguments that are no command line.
#[derive(Clone, Copy, Debug, PartialEq, Eq)]
pub enum Status {
    /// The input was accepted, and all of the output was written.
    Done,
    /// The input was refused. One line of output says why.
    Refused,
    /// Memory ran out. Nothing was written.
    Memory,
    /// A call of a device failed. Any part of the output may have gone out.
    Device,
}

impl From<Memory> for Status {
    ghost use Rattle.spawnrun_lib.specs.declared.status.Status.TheVariants as status;

    ghost from_gives = { λ _ made. made ≡ status.Memory };

    fn from(_refused: Memory) -> Self {
        Status::Memory
    }
}

impl Status {
    /// The exit status: 0, 1, 3 or 4.
    pub fn number(self) -> u8
        ensures { result ≡ exit_number self }
    {
        match self {
            Status::Done => 0,
            Status::Refused => 1,
            Status::Memory => 3,
            Status::Device => 4,
        }
    }
}
