//! The reservations of a run, lined up: those that agree, in an order in which they may have come,
//! and the others.
ghost use Rattle.std.specs.Prelude.{◌≡◌, ◌≢◌, ◌↔◌, ◌<◌, ◌≤◌, ◌+◌, ◌++◌, [], length, IfOk, IsTrue};
ghost use Rattle.std.specs.Prelude.{◌^◌, pos, ◌+ℤ◌, ◌≤ℤ◌};
ghost use Rattle.ent_alloc.specs.Sequential.{cursor, pool_at, reply_from, top};
ghost use Rattle.ent_alloc.specs.Sound.{IsSound};
ghost use Rattle.ent_replay.specs.Checker.{requested_in, reservations_of};
ghost use Rattle.ent_replay.specs.Lineup.{IsLineup, KeepsCallers, NoneFits, all_of, lines_of};
ghost use Rattle.ent_replay.specs.Lineup.{reached};
ghost use Rattle.ent_replay.specs.Lineup.{NamesOne};
ghost use Rattle.ent_replay.specs.Trace.{AreAnswered, FitsReserved, after_lines, reserve_reply};

use crate::by_caller::ByCaller;
use crate::handle_list::HandleList;
use crate::trace::call::Call;
use crate::trace::difference::Difference;
use crate::trace::fitting::fits_reserved;
use crate::trace::front::front_at;
use crate::trace::placed::Placed;
use crate::trace::reply::ReserveReply;
use crate::trace::reservation::Reservation;
use crate::trace::suspect::suspect;
use ent_alloc::{Entities, Reserved, Space, Span};
use ent_handle::Memory;
use std::alloc::Global;

/// The reservations of a run in an order in which they may have come.
#[derive(Drop)]
pub(super) struct Lineup {
    /// Those that agree, one after the other.
    pub(super) placed: Vec<Placed>,
    /// Those that are not placed.
    pub(super) rest: Vec<Placed>,
    /// The cursor after those that are placed.
    pub(super) at: i64,
}

impl Lineup {
    /// The lineup of a run of which nothing is placed yet.
    pub(super) fn new(alloc: Global, run: Vec<Placed>, entities: &Entities) -> Self
        requires { entities.now.allocator.asked + requested_in (reservations_of run.items) ≤ 2 ^ 50 }
        ensures lined { IsLineup entities.now.allocator result }
        ensures none { result.placed.items ≡ [] }
        ensures all { result.rest.items ≡ run.items }
    {
        Lineup {
            placed: Vec::new(alloc),
            rest: run,
            at: entities.cursor(),
        }
    }

    /// Places all that can be, until no caller's next reservation fits.
    pub(super) fn settle(self, alloc: Global, entities: &Entities) -> Result<Self, Memory>
        requires { IsLineup entities.now.allocator self }
        ensures lined { IfOk result (λ next. IsLineup entities.now.allocator next) }
        ensures keeps { IfOk result (λ next. KeepsCallers (all_of self) (all_of next)) }
        ensures stuck { IfOk result (λ next.
            NoneFits (reached entities.now.allocator next) next.rest.items) }
        ensures whole { IfOk result (λ next.
            AreAnswered entities.now.allocator (lines_of (all_of self)) → next.rest.items ≡ []) }
    {
        let mut lineup = self;
        let mut before = lineup.rest.len() + 1;
        while lineup.rest.len() < before {
            before = lineup.rest.len();
            lineup = lineup.pass(alloc, entities)?;
        }
        Ok(lineup)
    }

    /// Goes over those that are not placed, in their order, and places each one that fits and is
    /// the next one of its caller.
    fn pass(self, alloc: Global, entities: &Entities) -> Result<Self, Memory>
        requires { IsLineup entities.now.allocator self }
        ensures lined { IfOk result (λ next. IsLineup entities.now.allocator next) }
        ensures keeps { IfOk result (λ next. KeepsCallers (all_of self) (all_of next)) }
        ensures fewer { IfOk result (λ next.
            length next.rest.items ≤ length self.rest.items) }
        ensures stuck { IfOk result (λ next.
            length next.rest.items ≡ length self.rest.items
            → NoneFits (reached entities.now.allocator next) next.rest.items) }
        ensures whole { IfOk result (λ next.
            AreAnswered entities.now.allocator (lines_of (all_of self)) → next.rest.items ≡ []) }
    {
        let Lineup {
            mut placed,
            rest,
            mut at,
        } = self;
        let mut left = Vec::new(alloc);
        let mut blocked = ByCaller::new(alloc);
        for one in rest {
            let caller = one.reservation.caller;
            let free = blocked.get(caller).is_none();
            if free && fits_at(alloc, entities, at, &one.reservation)? {
                at -= i64::from(one.reservation.requested);
                placed.push(one)?;
            } else {
                blocked.insert(caller, one.key)?;
                left.push(one)?;
            }
        }
        Ok(Lineup {
            placed,
            rest: left,
            at,
        })
    }

    /// The difference of a run that has reservations which can't be placed.
    pub(super) fn difference(self, alloc: Global, entities: &Entities) -> Result<Difference, Memory>
        requires lined { IsLineup entities.now.allocator self }
        requires stuck { NoneFits (reached entities.now.allocator self) self.rest.items }
        requires some { self.rest.items ≢ [] }
        ensures { IfOk result (λ d. NamesOne entities.now.allocator self d) }
    {
        let named = suspect(alloc, entities, self.at, &self.rest)?;
        let Lineup {
            placed: _,
            mut rest,
            at: cursor,
        } = self;
        let Placed {
            reservation,
            key: _,
        } = rest.remove(named);
        let given = reply_at(alloc, entities, cursor, reservation.requested)?;
        Ok(Difference {
            number: reservation.number,
            expected: Call::Reserve(with_reply(&reservation, reply_of(given))),
            told: Call::Reserve(reservation),
            front: front_at(alloc, entities, cursor)?,
            cursor,
        })
    }
}

/// The answer, as a line has it.
fn reply_of(given: Result<HandleList, Space>) -> ReserveReply
    ensures { result ≡ reserve_reply given }
{
    match given {
        Ok(handles) => ReserveReply::Handles(handles),
        Err(space) => ReserveReply::SpaceLeft(space.left),
    }
}

/// The same reservation with this reply.
fn with_reply(reservation: &Reservation, reply: ReserveReply) -> Reservation
    ensures { result ≡ record reservation.now { reply = reply } }
{
    Reservation {
        number: reservation.number,
        caller: reservation.caller,
        requested: reservation.requested,
        reply,
    }
}

/// Makes the reservations of the list, one after the other.
pub(super) fn make_all(entities: &mut Entities, run: &[Placed])
    requires { entities.old.allocator.asked + requested_in (reservations_of run.now) ≤ 2 ^ 50 }
    ensures { entities.new.allocator ≡ after_lines entities.old.allocator (lines_of run.now) }
{
    for placed in run {
        let _ = entities.lower(placed.reservation.requested);
    }
}

/// Lists the handles of a reply.
fn listed(alloc: Global, reserved: Reserved<'_>) -> Result<HandleList, Memory>
    ensures { IfOk result (λ handles. handles ≡ reserved.entry) }
{
    let mut handles = Vec::with_capacity(alloc, reserved.len())?;
    for handle in reserved {
        handles.push_reserved(handle);
    }
    Ok(HandleList::new(handles))
}

/// The reply to a request for `n` handles if the cursor is at this position.
pub(super) fn reply_at(
    alloc: Global,
    entities: &Entities,
    at: i64,
    n: u32,
) -> Result<Result<HandleList, Space>, Memory>
    requires least { pos (top entities.now.allocator) ≤ℤ (at +ℤ pos (2 ^ 50)) }
    requires passed { at ≤ℤ pos (top entities.now.allocator) }
    ensures { IfOk result (λ given. let here = entities.now.allocator in
        given ≡ reply_from here.made (pool_at here at) n) }
{
    let span = Span {
        high: at,
        low: at - i64::from(n),
    };
    match entities.reply(span) {
        Ok(reserved) => Ok(Ok(listed(alloc, reserved)?)),
        Err(space) => Ok(Err(space)),
    }
}

/// Whether the reservation's reply is the allocator's if the cursor is at this position.
pub(super) fn fits_at(
    alloc: Global,
    entities: &Entities,
    at: i64,
    reservation: &Reservation,
) -> Result<bool, Memory>
    requires least { pos (top entities.now.allocator) ≤ℤ (at +ℤ pos (2 ^ 50)) }
    requires passed { at ≤ℤ pos (top entities.now.allocator) }
    ensures { IfOk result (λ fits. let here = entities.now.allocator in
        IsTrue fits ↔ FitsReserved reservation.now.reply
        (reply_from here.made (pool_at here at) reservation.now.requested)) }
{
    let given = reply_at(alloc, entities, at, reservation.requested)?;
    Ok(fits_reserved(&reservation.reply, &given))
}
