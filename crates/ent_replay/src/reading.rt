ghost use Rattle.std.specs.Prelude.{◌≡◌, ◌<◌, ◌∷◌, List, length, option_copied, IfOk, IfErr, Ok};
ghost use Rattle.ent_replay.specs.ScheduleText.{lines_of, words_of, words_after, ReadsAsView};
ghost use Rattle.ent_replay.specs.ScheduleText.{number_word};
ghost use Rattle.ent_replay.specs.ScheduleText.{handle_word, none, one, two, begin_of, event_of};
ghost use Rattle.ent_replay.specs.ScheduleText.{AreEvents, Spells, ReadsAsSchedule, ExplainsFault};
ghost use Rattle.ent_replay.specs.ScheduleText.{schedule_of};
ghost use Rattle.ent_replay.specs.declared.event.Event.{Event};

use crate::event::Event;
use crate::read_fault::{Cause, ReadFault};
use ent_handle::{Handle, read_decimal, split_once};
use std::alloc::Global;

/// The first line of a text, and the text after its line feed.
fn first_line(text: &[u8]) -> (&[u8], &[u8])
    requires { 0 < length text.now }
    ensures lines { lines_of text.now ≡ result.0.now ∷ lines_of result.1.now }
    ensures shorter { length result.1.now < length text.now }
{
    split_once(text, b'\n').unwrap_or((text, &[]))
}

/// The first word of a line, and what follows the space that ends it, if there is one.
fn first_word(line: &[u8]) -> (&[u8], Option<&[u8]>)
    ensures { words_of line.now ≡ result.0.now ∷ words_after (option_copied result.1) }
{
    match split_once(line, b' ') {
        Some((word, others)) => (word, Some(others)),
        None => (line, None),
    }
}

fn no_word(event: Event, others: Option<&[u8]>) -> Result<Event, Cause>
    ensures { result ≡ none event (words_after (option_copied others.entry)) }
{
    match others {
        None => Ok(event),
        Some(_) => Err(Cause::Count),
    }
}

fn one_word(others: Option<&[u8]>) -> Result<&[u8], Cause>
    ensures { ReadsAsView (λ word. word.now) result
        (one (words_after (option_copied others.entry))) }
{
    match first_word(others.ok_or(Cause::Count)?) {
        (word, None) => Ok(word),
        (_, Some(_)) => Err(Cause::Count),
    }
}

fn two_words(others: Option<&[u8]>) -> Result<(&[u8], &[u8]), Cause>
    ensures { ReadsAsView (λ words. (words.0.now, words.1.now)) result
        (two (words_after (option_copied others.entry))) }
{
    let (first, others) = first_word(others.ok_or(Cause::Count)?);
    Ok((first, one_word(others)?))
}

fn read_number(word: &[u8]) -> Result<u32, Cause>
    ensures { result ≡ number_word word.now }
{
    read_decimal(word).map_err(|_| Cause::Number)
}

fn read_handle(word: &[u8]) -> Result<Handle, Cause>
    ensures { result ≡ handle_word word.now }
{
    Handle::read_text(word).map_err(|_| Cause::Handle)
}

#[tactic(auto, unfolding(crate::specs::ScheduleText::begin_of))]
fn read_begin(others: Option<&[u8]>) -> Result<Event, Cause>
    ensures { result ≡ begin_of (words_after (option_copied others.entry)) }
{
    let (caller, n) = two_words(others)?;
    Ok(Event::Begin {
        caller: read_number(caller)?,
        n: read_number(n)?,
    })
}

#[tactic(auto, unfolding(crate::specs::ScheduleText::event_with))]
fn read_event(line: &[u8]) -> Result<Event, Cause>
    ensures { result ≡ event_of (words_of line.now) }
{
    let (word, others) = first_word(line);
    if word == b"alloc".as_slice() {
        no_word(Event::Alloc, others)
    } else if word == b"flush".as_slice() {
        no_word(Event::Flush, others)
    } else if word == b"free".as_slice() {
        Ok(Event::Free(read_handle(one_word(others)?)?))
    } else if word == b"begin".as_slice() {
        read_begin(others)
    } else if word == b"step".as_slice() {
        Ok(Event::Step(read_number(one_word(others)?)?))
    } else if word == b"answer".as_slice() {
        Ok(Event::Answer(read_number(one_word(others)?)?))
    } else {
        Err(Cause::Word)
    }
}

/// The events of a schedule's text, one a line.
///
/// A line is `alloc`, `free H`, `flush`, `begin C N`, `step C` or `answer C`, where `H` is a
/// handle's text and `C` and `N` are decimals below 2^32. The lines end with a line feed, which may
/// be missing after the last; any other byte is an ordinary one. It takes time and memory linear
/// in the text.
///
/// # Errors
///
/// `Line` with the first line that is none of these, and the first of the causes that it has;
/// `Memory` if memory ran out.
pub fn read_schedule(alloc: Global, text: &[u8]) -> Result<Vec<Event>, ReadFault>
    // The events are spelled by the text.
    ensures found { IfOk result (λ events. AreEvents events.items × Spells events.items text.now) }
    // A spelled schedule fails only if memory runs out.
    ensures only { (events : List Event)
        → AreEvents events → Spells events text.now → ReadsAsSchedule result (Ok events) }
    // A refused text has events up to the line that is named.
    ensures refused { IfErr result (ExplainsFault text.now) }

    // All of it, as a function of the text.
    ensures exact { ReadsAsSchedule result (schedule_of text.now) }
{
    let mut events = Vec::new(alloc);
    let mut rest = text;
    while !rest.is_empty() {
        let (line, following) = first_line(rest);
        match read_event(line) {
            Ok(event) => events.push(event)?,
            Err(cause) => {
                return Err(ReadFault::Line {
                    line: events.len() + 1,
                    cause,
                });
            }
        }
        rest = following;
    }
    Ok(events)
}
