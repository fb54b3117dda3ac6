//! Chooses which of the reservations that can't be placed a difference names.
ghost use Rattle.std.specs.Prelude.{◌≡◌, ◌≢◌, ◌<◌, ◌≤◌, ◌+◌, [], length, IfOk};
ghost use Rattle.ent_replay.specs.Lineup.{IsFirstAt};

use crate::by_caller::ByCaller;
use crate::trace::key::own_key;
use crate::trace::lineup::fits_at;
use crate::trace::placed::Placed;
use crate::trace::reply::ReserveReply;
use ent_alloc::Entities;
use ent_handle::Memory;
use std::alloc::Global;

/// How many reservations are tried.
const TRIES: u32 = 64;

/// How many positions may be requested between two flushes.
const MOST: i64 = 1 << 50;

/// A reservation in its turn.
#[derive(Drop)]
struct Turn {
    key: u64,
    index: usize,
}

/// If none of these fits at this position, the index of the one that is named: the first one that
/// is its caller's next one, and without whose answer all others fit. If none of the first 64
/// callers has such a reservation, it is the first of the list.
pub(super) fn suspect(
    alloc: Global,
    entities: &Entities,
    at: i64,
    rest: &[Placed],
) -> Result<usize, Memory>
    requires { rest.now ≢ [] }
    ensures { IfOk result (λ index. IsFirstAt rest.now index) }
{
    let order = turns(alloc, entities, rest)?;
    let mut seen = ByCaller::new(alloc);
    let mut tries = 0;
    for (index, one) in rest.iter().enumerate() {
        let caller = one.reservation.caller;
        if seen.get(caller).is_some() {
            continue;
        }
        let next = at.saturating_sub(i64::from(one.reservation.requested));
        if others_fit(alloc, entities, next, rest, &order, index)? {
            return Ok(index);
        }
        tries += 1;
        if tries == TRIES {
            break;
        }
        seen.insert(caller, one.key)?;
    }
    Ok(0)
}

/// The reservations in the order of the handles that they were given.
fn turns(alloc: Global, entities: &Entities, rest: &[Placed]) -> Result<Vec<Turn>, Memory> {
    let mut order = Vec::with_capacity(alloc, rest.len())?;
    for (index, one) in rest.iter().enumerate() {
        let reservation = &one.reservation;
        let key = own_key(entities, reservation.requested, &reservation.reply);
        order.push(Turn { key, index })?;
    }
    order.sort_by_cached_key(|turn| turn.key)?;
    Ok(order)
}

/// Whether all reservations but one fit in this order, one after the other, if the order is also
/// that of each caller. A reservation of nothing fits anywhere.
fn others_fit(
    alloc: Global,
    entities: &Entities,
    at: i64,
    rest: &[Placed],
    order: &[Turn],
    named: usize,
) -> Result<bool, Memory> {
    let mut last = ByCaller::new(alloc);
    let mut next = at;
    for turn in order {
        let Some(one) = rest.get(turn.index) else {
            return Ok(false);
        };
        let requested = one.reservation.requested;
        if turn.index == named || (requested == 0 && is_nothing(&one.reservation.reply)) {
            continue;
        }
        let caller = one.reservation.caller;
        let place = turn.index as u64;
        if last.get(caller).unwrap_or(0) > place || !fits_within(alloc, entities, next, one)? {
            return Ok(false);
        }
        last.insert(caller, place)?;
        next = next.saturating_sub(i64::from(requested));
    }
    Ok(true)
}

/// Whether the reservation fits at a position that an allocator counts.
fn fits_within(alloc: Global, entities: &Entities, at: i64, one: &Placed) -> Result<bool, Memory> {
    let cursor = entities.cursor();
    let room = MOST - entities.asked() as i64;
    match at.checked_add(room) {
        Some(reach) if at <= cursor && cursor <= reach => {
            fits_at(alloc, entities, at, &one.reservation)
        }
        _ => Ok(false),
    }
}

/// Whether it is the answer to a request for nothing.
fn is_nothing(reply: &ReserveReply) -> bool {
    match reply {
        ReserveReply::Handles(handles) => handles.is_empty(),
        _ => false,
    }
}
