//! Pieces of a text, cut into lines.
ghost use Rattle.std.specs.Prelude.{◌≡◌, ◌≢◌, ◌∷◌, ◌++◌, [], List, ℕ, All, IfOk, IfErr};
ghost use Rattle.ent_alloc.specs.Sequential.{Allocator};
ghost use Rattle.ent_replay.specs.Text.{lines_of, without_return};
ghost use Rattle.tracecheck.specs.Checking.{HasRead};
ghost use Rattle.tracecheck.specs.Verdict.{MayEnd};

use crate::checking::{Checking, End};
use ent_handle::split_once;

// A line without a carriage return at its end, which is part of the line's end.
fn without_return(line: &[u8]) -> &[u8]
    ensures { result.now ≡ without_return line.now }
{
    let Some((last, front)) = line.split_last() else {
        return line;
    };
    if *last == b'\r' { front } else { line }
}

// Takes the line that is pending and ends with these bytes.
fn end_line(checking: Checking, pending: &mut Vec<u8>, bytes: &[u8]) -> Result<Checking, End>
    requires { All (λ byte. byte ≢ 10) bytes.now }
    ensures taken { IfOk result (λ next. (begin : Allocator) (text : List ℕ)
        → HasRead begin text checking pending.old.items
        → HasRead begin (text ++ bytes.now ++ 10 ∷ []) next pending.new.items) }
    ensures ends { IfErr result (λ end. (begin : Allocator) (text more : List ℕ)
        → HasRead begin text checking pending.old.items
        → MayEnd begin (lines_of (text ++ bytes.now ++ 10 ∷ more)) end) }
{
    pending.extend_from_slice(bytes)?;
    let checking = checking.take(without_return(pending))?;
    pending.clear();
    Ok(checking)
}

/// Takes all lines that end in a piece of the text. What follows the last line's end is pending,
/// before and afterwards.
pub fn feed(checking: Checking, pending: &mut Vec<u8>, piece: &[u8]) -> Result<Checking, End>
    ensures taken { IfOk result (λ next. (begin : Allocator) (text : List ℕ)
        → HasRead begin text checking pending.old.items
        → HasRead begin (text ++ piece.now) next pending.new.items) }
    ensures ends { IfErr result (λ end. (begin : Allocator) (text more : List ℕ)
        → HasRead begin text checking pending.old.items
        → MayEnd begin (lines_of (text ++ piece.now ++ more)) end) }
{
    let mut checking = checking;
    let mut rest = piece;
    while let Some((line, others)) = split_once(rest, b'\n') {
        checking = end_line(checking, pending, line)?;
        rest = others;
    }
    pending.extend_from_slice(rest)?;
    Ok(checking)
}

/// Takes the last line if there is one without an end, and says what is to be said of the trace.
pub fn finish(checking: Checking, pending: &[u8]) -> End
    ensures { (begin : Allocator) (text : List ℕ) → HasRead begin text checking pending.now
        → MayEnd begin (lines_of text) result }
{
    if pending.is_empty() {
        return checking.finish();
    }
    match checking.take(pending) {
        Ok(checking) => checking.finish(),
        Err(end) => end,
    }
}
