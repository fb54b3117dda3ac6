//! A line of a trace as text.
ghost use Rattle.std.specs.Prelude.{◌≡◌, ◌++◌, ◌∷◌, [], map, OnOk, OnErr};
ghost use Rattle.ent_handle.specs.Text.{handle_text};
ghost use Rattle.std.specs.Fmt.{decimal};
ghost use Rattle.ent_replay.specs.Text.{alloc_words, free_words, flush_words, reserve_words};
ghost use Rattle.ent_replay.specs.Text.{state_words, spaced, answer_words, line_text};
ghost use Rattle.ent_replay.specs.Text.{difference_text};

use crate::trace::call::Call;
use crate::trace::difference::Difference;
use crate::trace::reply::{AllocReply, FlushReply, FreeReply, ReserveReply};
use crate::trace::reservation::Reservation;
use ent_alloc::State;
use ent_handle::{Handle, Memory};
use itoa::Buffer;
use std::alloc::Global;

fn append(out: &mut Vec<u8>, text: &[u8]) -> Result<(), Memory>
    ensures ok { OnOk result (out.new.items ≡ out.old.items ++ text.now) }
    ensures err { OnErr result (out.new.items ≡ out.old.items) }
{
    Ok(out.extend_from_slice(text)?)
}

fn append_word(out: &mut Vec<u8>, word: &[u8]) -> Result<(), Memory>
    ensures { OnOk result (out.new.items ≡ out.old.items ++ spaced (word.now ∷ [])) }
{
    append(out, b" ")?;
    append(out, word)
}

fn append_number(out: &mut Vec<u8>, number: u32) -> Result<(), Memory>
    ensures { OnOk result (out.new.items ≡ out.old.items ++ spaced (decimal number ∷ [])) }
{
    append_word(out, Buffer::new().format(number).as_bytes())
}

fn append_handle(out: &mut Vec<u8>, handle: Handle) -> Result<(), Memory>
    ensures { OnOk result (out.new.items ≡ out.old.items ++ spaced (handle_text handle ∷ [])) }
{
    append(out, b" ")?;
    handle.write_text(out)
}

/// Appends the texts of handles, with a space before each.
///
/// # Errors
///
/// `Memory`: out of memory. `out` is as it was.
pub fn append_handles(alloc: Global, out: &mut Vec<u8>, handles: &[Handle]) -> Result<(), Memory>
    ensures ok { OnOk result (out.new.items
        ≡ out.old.items ++ spaced (map handle_text handles.now)) }
    ensures err { OnErr result (out.new.items ≡ out.old.items) }
{
    let mut text = Vec::new(alloc);
    put_handles(&mut text, handles)?;
    append(out, &text)
}

fn put_handles(out: &mut Vec<u8>, handles: &[Handle]) -> Result<(), Memory>
    ensures ok { OnOk result (out.new.items
        ≡ out.old.items ++ spaced (map handle_text handles.now)) }
{
    for handle in handles {
        append_handle(out, *handle)?;
    }
    Ok(())
}

fn write_alloc(out: &mut Vec<u8>, reply: AllocReply) -> Result<(), Memory>
    ensures { OnOk result (out.new.items ≡ out.old.items ++ spaced (alloc_words reply)) }
{
    match reply {
        AllocReply::Handle(handle) => append_handle(out, handle),
        AllocReply::Space => append(out, b" space"),
        AllocReply::NeedsFlush => append(out, b" needs flush"),
    }
}

fn write_free(out: &mut Vec<u8>, reply: FreeReply) -> Result<(), Memory>
    ensures { OnOk result (out.new.items ≡ out.old.items ++ spaced (free_words reply)) }
{
    match reply {
        FreeReply::Freed => append(out, b" freed"),
        FreeReply::Next(handle) => {
            append(out, b" freed next")?;
            append_handle(out, handle)
        }
        FreeReply::Retired => append(out, b" freed retired"),
        FreeReply::NotAlive => append(out, b" not alive"),
        FreeReply::NeedsFlush => append(out, b" needs flush"),
    }
}

fn write_flush(out: &mut Vec<u8>, reply: &FlushReply) -> Result<(), Memory>
    ensures { OnOk result (out.new.items ≡ out.old.items ++ spaced (flush_words reply.now)) }
{
    append(out, b" born")?;
    match reply {
        FlushReply::Born(handles) => put_handles(out, handles.as_slice()),
        FlushReply::Count(count) => {
            append(out, b" (")?;
            append(out, Buffer::new().format(*count).as_bytes())?;
            append(out, b")")
        }
    }
}

fn write_reserved(out: &mut Vec<u8>, reply: &ReserveReply) -> Result<(), Memory>
    ensures { OnOk result (out.new.items ≡ out.old.items ++ spaced (reserve_words reply.now)) }
{
    match reply {
        ReserveReply::Handles(handles) => put_handles(out, handles.as_slice()),
        ReserveReply::Space => append(out, b" space"),
        ReserveReply::SpaceLeft(left) => {
            append(out, b" space left")?;
            append_number(out, *left)
        }
    }
}

fn write_state(out: &mut Vec<u8>, state: State) -> Result<(), Memory>
    ensures { OnOk result (out.new.items ≡ out.old.items ++ spaced (state_words state)) }
{
    match state {
        State::Alive => append(out, b" alive"),
        State::Reserved => append(out, b" reserved"),
        State::Gone => append(out, b" gone"),
    }
}

fn write_reserve(out: &mut Vec<u8>, reservation: &Reservation) -> Result<(), Memory>
    ensures { OnOk result (out.new.items
        ≡ out.old.items ++ line_text (Call.Reserve reservation.now)) }
{
    append(out, b"reserve")?;
    append_number(out, reservation.caller)?;
    append_number(out, reservation.requested)?;
    append(out, b" =>")?;
    write_reserved(out, &reservation.reply)
}

/// Appends the words of a line's answer, with a space before each. It appends nothing if the line
/// has no answer.
///
/// # Errors
///
/// `Memory`: out of memory. `out` is as it was.
pub fn append_answer(alloc: Global, out: &mut Vec<u8>, line: &Call) -> Result<(), Memory>
    ensures ok { OnOk result (out.new.items ≡ out.old.items ++ spaced (answer_words line.now)) }
    ensures err { OnErr result (out.new.items ≡ out.old.items) }
{
    let mut text = Vec::new(alloc);
    put_answer(&mut text, line)?;
    append(out, &text)
}

fn put_answer(out: &mut Vec<u8>, line: &Call) -> Result<(), Memory>
    ensures ok { OnOk result (out.new.items ≡ out.old.items ++ spaced (answer_words line.now)) }
{
    match line {
        Call::Alloc(Some(reply)) => write_alloc(out, *reply),
        Call::Free(_, Some(reply)) => write_free(out, *reply),
        Call::Flush(Some(reply)) => write_flush(out, reply),
        Call::Reserve(reservation) => write_reserved(out, &reservation.reply),
        Call::State(_, Some(state)) => write_state(out, *state),
        Call::Len(Some(len)) => append_number(out, *len),
        _ => Ok(()),
    }
}

/// Appends the text of a line: the call, and its answer if the line has one, with one space
/// between words and no line feed.
///
/// # Errors
///
/// `Memory`: out of memory. `out` is as it was.
pub fn write_line(alloc: Global, out: &mut Vec<u8>, line: &Call) -> Result<(), Memory>
    ensures ok { OnOk result (out.new.items ≡ out.old.items ++ line_text line.now) }
    ensures err { OnErr result (out.new.items ≡ out.old.items) }
{
    let mut text = Vec::new(alloc);
    put_line(&mut text, line)?;
    append(out, &text)
}

fn put_line(out: &mut Vec<u8>, line: &Call) -> Result<(), Memory>
    ensures ok { OnOk result (out.new.items ≡ out.old.items ++ line_text line.now) }
{
    match line {
        Call::Alloc(told) => {
            append(out, b"alloc")?;
            match told {
                None => Ok(()),
                Some(reply) => {
                    append(out, b" =>")?;
                    write_alloc(out, *reply)
                }
            }
        }
        Call::Free(handle, told) => {
            append(out, b"free")?;
            append_handle(out, *handle)?;
            match told {
                None => Ok(()),
                Some(reply) => {
                    append(out, b" =>")?;
                    write_free(out, *reply)
                }
            }
        }
        Call::Flush(told) => {
            append(out, b"flush")?;
            match told {
                None => Ok(()),
                Some(reply) => {
                    append(out, b" =>")?;
                    write_flush(out, reply)
                }
            }
        }
        Call::Reserve(reservation) => write_reserve(out, reservation),
        Call::State(handle, told) => {
            append(out, b"state")?;
            append_handle(out, *handle)?;
            match told {
                None => Ok(()),
                Some(state) => {
                    append(out, b" =>")?;
                    write_state(out, *state)
                }
            }
        }
        Call::Len(told) => {
            append(out, b"len")?;
            match told {
                None => Ok(()),
                Some(len) => {
                    append(out, b" =>")?;
                    append_number(out, *len)
                }
            }
        }
    }
}

/// Appends the text of a difference: the number of the call, the call as it was, and what the
/// allocator answers. It is one line, without a line feed.
///
/// # Errors
///
/// `Memory`: out of memory. `out` is as it was.
pub fn write_difference(
    alloc: Global,
    out: &mut Vec<u8>,
    difference: &Difference,
) -> Result<(), Memory>
    ensures ok { OnOk result (out.new.items ≡ out.old.items ++ difference_text difference.now) }
    ensures err { OnErr result (out.new.items ≡ out.old.items) }
{
    let mut text = Vec::new(alloc);
    put_difference(&mut text, difference)?;
    append(out, &text)
}

fn put_difference(out: &mut Vec<u8>, difference: &Difference) -> Result<(), Memory>
    ensures ok { OnOk result (out.new.items ≡ out.old.items ++ difference_text difference.now) }
{
    append(out, b"differs line ")?;
    append(out, Buffer::new().format(difference.number).as_bytes())?;
    append(out, b": ")?;
    put_line(out, &difference.told)?;
    append(out, b", expected")?;
    put_answer(out, &difference.expected)
}
