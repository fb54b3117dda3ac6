//! How a run of the program ended.
ghost use Rattle.std.specs.Prelude.{◌≡◌};
ghost use Rattle.tracecheck.specs.Status.{exit_number};

/// How a run of the program ended. Its number is the program's exit status.
#[derive(Clone, Copy)]
pub enum Status {
    /// The trace agrees, and that was written.
    Agrees,
    /// The trace differs, and that was written.
    Differs,
    /// The text is no trace, or the image is none, and that was written. Words that are no command
    /// line end so too.
    Refused,
    /// Memory ran out. Nothing was written.
    Memory,
    /// A call of a device failed. Any part of the output may have gone out.
    Device,
}

impl Status {
    /// The exit status: 0 to 4.
    pub fn number(self) -> u8
        ensures { result ≡ exit_number self }
    {
        match self {
            Status::Agrees => 0,
            Status::Differs => 1,
            Status::Refused => 2,
            Status::Memory => 3,
            Status::Device => 4,
        }
    }
}
