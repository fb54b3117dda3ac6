ghost use Rattle.std.specs.Prelude.{◌≡◌};
ghost use Rattle.ent_replay.specs.ScheduleText.{line_cause_text};
ghost use Rattle.ent_replay.specs.declared.read_fault.ReadFault.TheVariants.{Memory};

use std::alloc::AllocFailed;
use thiserror::Error;

/// What is wrong with a line. The tests are made in the order of this list, and the first one that
/// fails is the cause.
#[derive(Clone, Copy, Debug, PartialEq, Eq, Hash)]
pub enum Cause {
    /// The first word names no event.
    Word,
    /// There are not as many words as that event has.
    Count,
    /// A word for a number is no decimal below 2^32.
    Number,
    /// The word for a handle is not the text of one.
    Handle,
}

impl Cause {
    /// The word that names it: `word`, `count`, `number` or `handle`.
    pub fn text(self) -> &'static str
        ensures { result.now ≡ line_cause_text self }
    {
        match self {
            Cause::Word => "word",
            Cause::Count => "count",
            Cause::Number => "number",
            Cause::Handle => "handle",
        }
    }
}

/// Why a text is no schedule, or could not be read.
#[derive(Clone, Copy, Debug, PartialEq, Eq, Hash, Error)]
pub enum ReadFault {
    /// The first line that names no event.
    #[error("line {line} names no event")]
    Line {
        /// Its number, from 1.
        line: usize,
        /// What is wrong with it.
        cause: Cause,
    },
    /// Memory ran out.
    #[error("out of memory")]
    Memory,
}

impl<T: Drop> From<AllocFailed<T>> for ReadFault {
    ghost from_gives = { λ _ fault. fault ≡ Memory };

    fn from(_refused: AllocFailed<T>) -> Self {
        ReadFault::Memory
    }
}
