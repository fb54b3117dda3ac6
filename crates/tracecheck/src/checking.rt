//! Lines of a trace, read and compared one after the other.
ghost use Rattle.std.specs.Prelude.{◌≡◌, ◌∷◌, ◌++◌, ◌+◌, [], length, List, ℕ, IfOk, IfErr};
ghost use Rattle.std.specs.Prelude.{Some, Ok};
ghost use Rattle.ent_alloc.specs.Sequential.{Allocator};
ghost use Rattle.ent_replay.specs.Text.{line_of, words_of};
ghost use Rattle.ent_replay.specs.declared.trace.call.Call.{Call as CallValue};
ghost use Rattle.tracecheck.specs.Calls.{given_in, listed_in};
ghost use Rattle.tracecheck.specs.Checking.{HasTaken};
ghost use Rattle.tracecheck.specs.Verdict.{MayEnd, end_of};
ghost use Rattle.tracecheck.specs.declared.checking.End.TheVariants.{Memory as EndMemory};

use crate::verdict::{Refusal, Verdict};
use ent_alloc::Entities;
use ent_replay::trace::{
    AllocReply, Call, CheckError, Comparer, ReadFault, ReserveReply, read_line,
};
use std::alloc::{AllocError, Global};

/// Why the lines of a trace are not taken any further.
#[derive(Drop)]
pub enum End {
    /// The verdict on the trace.
    Verdict(Verdict),
    /// Memory ran out, or no number was left for a line or for the handles given.
    Memory,
}

impl From<AllocError> for End {
    ghost from_gives = { λ _ made. made ≡ EndMemory };

    fn from(_refused: AllocError) -> Self {
        End::Memory
    }
}

/// Takes the lines of a trace as texts, one after the other. It keeps the comparer, and nothing of
/// the lines.
#[derive(Drop)]
pub struct Checking {
    alloc: Global,
    comparer: Comparer,
    lines: u64,
    given: u64,
}

impl Checking {
    /// One that has taken no line. The trace begins in the state of this allocator, with its
    /// requests. It doesn't allocate.
    pub fn new(alloc: Global, entities: Entities) -> Self
        ensures { HasTaken entities.allocator [] result }
    {
        Checking {
            alloc,
            comparer: Comparer::from_entities(alloc, entities),
            lines: 0,
            given: 0,
        }
    }

    /// How many lines were taken.
    pub fn lines(&self) -> u64
        ensures { result ≡ self.now.lines }
    {
        self.lines
    }

    /// Takes the next line, which is given without the bytes that end it.
    ///
    /// # Errors
    ///
    /// `Verdict` if the line is none, or if an answer isn't the allocator's. `Memory` if memory ran
    /// out.
    pub fn take(self, text: &[u8]) -> Result<Self, End>
        ensures taken { IfOk result (λ next. (begin : Allocator) (texts : List (List ℕ))
            → HasTaken begin texts self → HasTaken begin (texts ++ text.now ∷ []) next) }
        ensures ends { IfErr result (λ end. (begin : Allocator)
            (texts after : List (List ℕ)) → HasTaken begin texts self
            → MayEnd begin (texts ++ text.now ∷ after) end) }
    {
        let Some(number) = self.lines.checked_add(1) else {
            return Err(End::Memory);
        };
        match read_line(self.alloc, number, text) {
            Ok(Some(line)) => self.take_call(number, line),
            Ok(None) => Ok(self.take_none(number)),
            Err(ReadFault::Cause(cause)) => Err(End::Verdict(Verdict::Refused {
                line: number,
                refusal: Refusal::Line(cause),
            })),
            Err(ReadFault::Memory) => Err(End::Memory),
        }
    }

    // Takes a line without words.
    fn take_none(self, number: u64) -> Self
        ensures { result ≡ record self { lines = number } }
    {
        let Checking {
            alloc,
            comparer,
            lines: _,
            given,
        } = self;
        Checking {
            alloc,
            comparer,
            lines: number,
            given,
        }
    }

    // Takes the call of the line that has this number.
    fn take_call(self, number: u64, line: Call) -> Result<Self, End>
        requires { number ≡ self.lines + 1 }
        ensures taken { IfOk result (λ next. (begin : Allocator) (texts : List (List ℕ))
            (text : List ℕ) → line_of number (words_of text) ≡ Ok (Some line)
            → HasTaken begin texts self → HasTaken begin (texts ++ text ∷ []) next) }
        ensures ends { IfErr result (λ end. (begin : Allocator)
            (texts after : List (List ℕ)) (text : List ℕ)
            → line_of number (words_of text) ≡ Ok (Some line) → HasTaken begin texts self
            → MayEnd begin (texts ++ text ∷ after) end) }
    {
        let Checking {
            alloc,
            comparer,
            lines: _,
            given,
        } = self;
        let Some(given) = given.checked_add(given_in(&line)) else {
            return Err(End::Memory);
        };
        match comparer.take(number, line) {
            Ok(comparer) => Ok(Checking {
                alloc,
                comparer,
                lines: number,
                given,
            }),
            Err(error) => Err(end_of(number, error)),
        }
    }

    /// The verdict on a trace that ends here.
    pub fn finish(self) -> End
        ensures { (begin : Allocator) (texts : List (List ℕ)) → HasTaken begin texts self
            → MayEnd begin texts result }
    {
        let Checking {
            alloc: _,
            comparer,
            lines,
            given,
        } = self;
        match comparer.finish() {
            Ok(_) => End::Verdict(Verdict::Agrees { lines, given }),
            Err(CheckError::Differs(difference)) => End::Verdict(Verdict::Differs(difference)),
            Err(_) => End::Memory,
        }
    }
}

// What an error at the line of this number says of the trace.
fn end_of(number: u64, error: CheckError) -> End
    ensures { result ≡ end_of number error }
{
    match error {
        CheckError::Differs(difference) => End::Verdict(Verdict::Differs(difference)),
        CheckError::TooMany => End::Verdict(Verdict::Refused {
            line: number,
            refusal: Refusal::Requests,
        }),
        _ => End::Memory,
    }
}

// How many handles a call says were given out.
fn given_in(line: &Call) -> u64
    ensures { result ≡ given_in line.now }
{
    match line {
        Call::Alloc(Some(AllocReply::Handle(_))) => 1,
        Call::Reserve(reservation) => listed_in(&reservation.reply),
        _ => 0,
    }
}

fn listed_in(reply: &ReserveReply) -> u64
    ensures { result ≡ listed_in reply.now }
{
    match reply {
        ReserveReply::Handles(handles) => handles.len() as u64,
        _ => 0,
    }
}
