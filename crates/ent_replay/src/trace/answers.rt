//! What a line says was answered, read from its words.
ghost use Rattle.std.specs.Prelude.{◌≡◌, ◌∷◌, [], ◌&&◌, ◌==◌, codes};
ghost use Rattle.std.specs.List.{slice_split};
ghost use Rattle.std.specs.Str.{bytes_eq};
ghost use Rattle.ent_replay.specs.Text.{number_told, handle_told, handles_told, words_in, ReadsAs};
ghost use Rattle.ent_replay.specs.Text.{alloc_told, free_told, freed_told, unfreed_told};
ghost use Rattle.ent_replay.specs.Text.{state_told};
ghost use Rattle.ent_replay.specs.Text.{len_told, count_in, count_told, born_told, flush_told};
ghost use Rattle.ent_replay.specs.Text.{space_told};
ghost use Rattle.ent_replay.specs.Text.{listed_told, reserve_told};

use crate::handle_list::HandleList;
use crate::trace::read_fault::{Cause, ReadFault};
use crate::trace::reply::{AllocReply, FlushReply, FreeReply, ReserveReply};
use crate::trace::words::{Few, few_words, first_word};
use ent_alloc::State;
use ent_handle::{Handle, read_decimal, split_once};
use std::alloc::Global;

fn read_number(word: &[u8]) -> Result<u32, Cause>
    ensures { result ≡ number_told word.now }
{
    read_decimal(word).map_err(|_| Cause::Reply)
}

fn read_handle(word: &[u8]) -> Result<Handle, Cause>
    ensures { result ≡ handle_told word.now }
{
    Handle::read_text(word).map_err(|_| Cause::Reply)
}

pub(super) fn read_alloc(told: &[u8]) -> Result<AllocReply, Cause>
    ensures { result ≡ alloc_told (words_in told.now) }
{
    match few_words(told) {
        Few::One(word) if word == b"space".as_slice() => Ok(AllocReply::Space),
        Few::One(word) => Ok(AllocReply::Handle(read_handle(word)?)),
        Few::Two(first, second) if is_needs_flush(first, second) => Ok(AllocReply::NeedsFlush),
        _ => Err(Cause::Reply),
    }
}

fn is_needs_flush(first: &[u8], second: &[u8]) -> bool
    ensures { result ≡ (bytes_eq first.now (codes "needs") && bytes_eq second.now (codes "flush")) }
{
    first == b"needs".as_slice() && second == b"flush".as_slice()
}

pub(super) fn read_free(told: &[u8]) -> Result<FreeReply, Cause>
    ensures { result ≡ free_told (words_in told.now) }
{
    match few_words(told) {
        Few::One(word) if word == b"freed".as_slice() => Ok(FreeReply::Freed),
        Few::Two(first, second) => read_short_free(first, second),
        Few::Three(first, second, word)
            if first == b"freed".as_slice() && second == b"next".as_slice() => {
            Ok(FreeReply::Next(read_handle(word)?))
        }
        _ => Err(Cause::Reply),
    }
}

fn read_short_free(first: &[u8], second: &[u8]) -> Result<FreeReply, Cause>
    ensures { result ≡ free_told (first.now ∷ second.now ∷ []) }
{
    if first == b"freed".as_slice() {
        if second == b"retired".as_slice() {
            return Ok(FreeReply::Retired);
        }
        return Err(Cause::Reply);
    }
    if first == b"not".as_slice() && second == b"alive".as_slice() {
        return Ok(FreeReply::NotAlive);
    }
    if is_needs_flush(first, second) {
        return Ok(FreeReply::NeedsFlush);
    }
    Err(Cause::Reply)
}

pub(super) fn read_state(told: &[u8]) -> Result<State, Cause>
    ensures { result ≡ state_told (words_in told.now) }
{
    match few_words(told) {
        Few::One(word) => read_state_word(word),
        _ => Err(Cause::Reply),
    }
}

fn read_state_word(word: &[u8]) -> Result<State, Cause>
    ensures { result ≡ state_told (word.now ∷ []) }
{
    if word == b"alive".as_slice() {
        Ok(State::Alive)
    } else if word == b"reserved".as_slice() {
        Ok(State::Reserved)
    } else if word == b"gone".as_slice() {
        Ok(State::Gone)
    } else {
        Err(Cause::Reply)
    }
}

pub(super) fn read_len(told: &[u8]) -> Result<u32, Cause>
    ensures { result ≡ len_told (words_in told.now) }
{
    match few_words(told) {
        Few::One(word) => read_number(word),
        _ => Err(Cause::Reply),
    }
}

/// All words as handles.
fn read_handles(alloc: Global, told: &[u8]) -> Result<HandleList, ReadFault>
    ensures { ReadsAs result (handles_told (words_in told.now)) }
{
    let mut handles = Vec::new(alloc);
    let mut rest = told;
    while let Some((word, others)) = first_word(rest) {
        handles.push(read_handle(word)?)?;
        rest = others;
    }
    Ok(HandleList::new(handles))
}

/// A decimal in brackets.
fn read_count(word: &[u8]) -> Result<u32, Cause>
    ensures { result ≡ count_told word.now }
{
    let [first, others @ ..] = word else {
        return Err(Cause::Reply);
    };
    if *first != b'(' {
        return Err(Cause::Reply);
    }
    read_closed(others)
}

/// A decimal before a closing bracket.
fn read_closed(text: &[u8]) -> Result<u32, Cause>
    ensures { result ≡ count_in (slice_split (λ byte. byte == 41) text.now) }
{
    let Some((count, others)) = split_once(text, b')') else {
        return Err(Cause::Reply);
    };
    if !others.is_empty() {
        return Err(Cause::Reply);
    }
    read_number(count)
}

pub(super) fn read_flush(alloc: Global, told: &[u8]) -> Result<FlushReply, ReadFault>
    ensures { ReadsAs result (flush_told (words_in told.now)) }
{
    match first_word(told) {
        Some((word, others)) if word == b"born".as_slice() => read_born(alloc, others),
        _ => Err(ReadFault::Cause(Cause::Reply)),
    }
}

fn read_born(alloc: Global, told: &[u8]) -> Result<FlushReply, ReadFault>
    ensures { ReadsAs result (born_told (words_in told.now)) }
{
    if let Few::One(word) = few_words(told) {
        if let Ok(count) = read_count(word) {
            return Ok(FlushReply::Count(count));
        }
    }
    Ok(FlushReply::Born(read_handles(alloc, told)?))
}

pub(super) fn read_reserved(alloc: Global, told: &[u8]) -> Result<ReserveReply, ReadFault>
    ensures { ReadsAs result (reserve_told (words_in told.now)) }
{
    match first_word(told) {
        Some((word, others)) if word == b"space".as_slice() => Ok(read_space(others)?),
        _ => Ok(ReserveReply::Handles(read_handles(alloc, told)?)),
    }
}

fn read_space(told: &[u8]) -> Result<ReserveReply, Cause>
    ensures { result ≡ space_told (words_in told.now) }
{
    match few_words(told) {
        Few::None => Ok(ReserveReply::Space),
        Few::Two(word, left) if word == b"left".as_slice() => {
            Ok(ReserveReply::SpaceLeft(read_number(left)?))
        }
        _ => Err(Cause::Reply),
    }
}
