//! Why a line of a trace isn't read.
ghost use Rattle.std.specs.Prelude.{◌≡◌};
ghost use Rattle.ent_replay.specs.Text.{cause_text};
ghost use Rattle.ent_replay.specs.declared.trace.read_fault.ReadFault.TheVariants as fault;

use ent_handle::Memory;
use std::alloc::AllocFailed;
use thiserror::Error;

/// What is wrong with a line. The tests are made in the order of this list, and the first one that
/// fails is the cause.
#[derive(Clone, Copy, Debug, PartialEq, Eq, Hash)]
pub enum Cause {
    /// The first word names no call.
    Word,
    /// There are not as many words before `=>` as that call has.
    Count,
    /// A word for a number is no decimal below 2^32.
    Number,
    /// The word for a handle is not the text of one.
    Handle,
    /// What follows `=>` isn't an answer to that call, or the answer is missing.
    Reply,
}

impl Cause {
    /// The word that names it: `word`, `count`, `number`, `handle` or `reply`.
    pub fn text(self) -> &'static str
        ensures { result.now ≡ cause_text self }
    {
        match self {
            Cause::Word => "word",
            Cause::Count => "count",
            Cause::Number => "number",
            Cause::Handle => "handle",
            Cause::Reply => "reply",
        }
    }
}

/// Why a line isn't read.
#[derive(Clone, Copy, Debug, PartialEq, Eq, Hash, Error)]
pub enum ReadFault {
    /// It is no call with its answer.
    #[error("no call with its answer")]
    Cause(Cause),
    /// Memory ran out.
    #[error("out of memory")]
    Memory,
}

impl From<Cause> for ReadFault {
    ghost from_gives = { λ cause made. made ≡ fault.Cause cause };

    fn from(cause: Cause) -> Self {
        ReadFault::Cause(cause)
    }
}

impl From<Memory> for ReadFault {
    ghost from_gives = { λ _ made. made ≡ fault.Memory };

    fn from(_refused: Memory) -> Self {
        ReadFault::Memory
    }
}

impl<T: Drop> From<AllocFailed<T>> for ReadFault {
    ghost from_gives = { λ _ made. made ≡ fault.Memory };

    fn from(_refused: AllocFailed<T>) -> Self {
        ReadFault::Memory
    }
}
