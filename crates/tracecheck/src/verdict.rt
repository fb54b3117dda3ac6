//! What is said of a trace.
ghost use Rattle.std.specs.Prelude.{◌≡◌, ◌++◌, codes, IfOk, OnOk};
ghost use Rattle.ent_replay.specs.Text.{spaced};
ghost use Rattle.tracecheck.specs.Verdict.{difference_lines, pool_words, refusal_text};
ghost use Rattle.tracecheck.specs.Verdict.{state_text, verdict_text};

use ent_handle::{Handle, Memory};
use ent_replay::trace::{Cause, Difference, append_handles, write_difference};
use std::alloc::Global;

// A difference shows at most this many handles of a pool.
const SHOWN: usize = 8;

/// Why a text is no trace.
#[derive(Clone, Copy)]
pub enum Refusal {
    /// The line is no call with its answer.
    Line(Cause),
    /// With the line, more than 2^50 handles were requested since the last flush.
    Requests,
}

/// What is said of a trace.
#[derive(Drop)]
pub enum Verdict {
    /// It agrees.
    Agrees {
        /// How many lines it has.
        lines: u64,
        /// How many handles it says were given out.
        given: u64,
    },
    /// It differs in this line, as the difference shows.
    Differs(Difference),
    /// The text is no trace.
    Refused {
        /// The number of its first line that is none.
        line: u64,
        /// What is wrong with the line.
        refusal: Refusal,
    },
}

impl Refusal {
    /// The word that names it.
    pub fn text(self) -> &'static str
        ensures { result.now ≡ refusal_text self }
    {
        match self {
            Refusal::Line(cause) => cause.text(),
            Refusal::Requests => "requests",
        }
    }
}

impl Verdict {
    /// The text that says it, with its line feeds: two lines for a difference, or else one.
    ///
    /// # Errors
    ///
    /// `Memory`: there isn't enough memory for the text.
    pub fn text(&self, alloc: Global) -> Result<Vec<u8>, Memory>
        ensures { IfOk result (λ text. text.items ≡ verdict_text self.now) }
    {
        match self {
            Verdict::Agrees { lines, given } => agrees_text(alloc, *lines, *given),
            Verdict::Differs(difference) => difference_lines(alloc, difference),
            Verdict::Refused { line, refusal } => refused_text(alloc, *line, *refusal),
        }
    }
}

fn agrees_text(alloc: Global, lines: u64, given: u64) -> Result<Vec<u8>, Memory>
    ensures { IfOk result (λ text. text.items ≡ verdict_text (Verdict.Agrees lines given)) }
{
    let text = format!(in alloc; "agrees: {lines} lines, {given} handles given\n")?;
    Ok(text.into_bytes())
}

fn refused_text(alloc: Global, line: u64, refusal: Refusal) -> Result<Vec<u8>, Memory>
    ensures { IfOk result (λ text. text.items ≡ verdict_text (Verdict.Refused line refusal)) }
{
    let word = refusal.text();
    let text = format!(in alloc; "refused line {line} {word}\n")?;
    Ok(text.into_bytes())
}

fn difference_lines(alloc: Global, difference: &Difference) -> Result<Vec<u8>, Memory>
    ensures { IfOk result (λ text. text.items ≡ difference_lines difference.now) }
{
    let mut text = Vec::new(alloc);
    write_difference(alloc, &mut text, difference)?;
    text.push(b'\n')?;
    append_state(
        alloc,
        &mut text,
        difference.front.as_slice(),
        difference.cursor,
    )?;
    Ok(text)
}

// Appends the line that shows the state in which a line of the trace differs.
fn append_state(
    alloc: Global,
    out: &mut Vec<u8>,
    front: &[Handle],
    cursor: i64,
) -> Result<(), Memory>
    ensures { OnOk result (out.new.items ≡ out.old.items ++ state_text front.now cursor) }
{
    append_pool(alloc, out, front)?;
    let cursor = format!(in alloc; ", cursor {cursor}\n")?;
    Ok(out.extend_from_slice(cursor.as_bytes())?)
}

fn append_pool(alloc: Global, out: &mut Vec<u8>, front: &[Handle]) -> Result<(), Memory>
    ensures { OnOk result (out.new.items
        ≡ out.old.items ++ codes "pool" ++ spaced (pool_words front.now)) }
{
    if front.is_empty() {
        return Ok(out.extend_from_slice(b"pool empty")?);
    }
    out.extend_from_slice(b"pool")?;
    append_handles(alloc, out, front)?;
    if front.len() == SHOWN {
        out.extend_from_slice(b" ..")?;
    }
    Ok(())
}
