//! What callers request, one or many of them: a step lowers the cursor, and what it gives follows
//! from the cursor that it found.
ghost use Rattle.std.specs.Prelude.{◌≡◌, ℕ, ◌+◌, ◌-◌, ◌^◌, ◌<◌, ◌≤◌, pos, ◌+ℤ◌, ◌-ℤ◌};
ghost use Rattle.std.specs.Prelude.{◌≤ℤ◌, neg_ℤ, length};
ghost use Rattle.ent_alloc.specs.Sequential.{top, cursor, available, asked_at, pool_at};
ghost use Rattle.ent_alloc.specs.Sequential.{reply_from, listed_alone, settled, after_take};
ghost use Rattle.ent_alloc.specs.Sequential.{before_requests};
ghost use Rattle.ent_alloc.specs.Span.{IsSpanOf};
ghost use Rattle.ent_alloc.specs.Entities.{HasRowsOfLiving};

use crate::entities::Entities;
use crate::requests::Requests;
use crate::reserved::Reserved;
use crate::slot_record::first_occupant;
use crate::space::Space;
use crate::span::Span;
use ent_handle::Handle;

impl Entities {
    /// Sets the state to the one after requests that leave the cursor and the floor at these
    /// positions. What is reserved is all from the top down to the floor. It is also the state
    /// after one request down to the floor, which was served, and one for the rest down to the
    /// cursor, which was refused if there is a rest.
    ///
    /// Nothing may have been requested since the last flush. The cursor is at most 2^50 below the
    /// top. The floor is from the cursor to the top, at least `-room`, and equal to the cursor if
    /// the cursor is at least `-room`.
    pub fn settle(&mut self, cursor: i64, floor: i64)
        requires flushed { self.old.allocator.asked ≡ 0 }
        requires least { pos (top self.old.allocator) ≤ℤ (cursor +ℤ pos (2 ^ 50)) }
        requires greatest { floor ≤ℤ pos (top self.old.allocator) }
        requires ordered { cursor ≤ℤ floor }
        requires reachable { let start = self.old.allocator in
            pos 0 ≤ℤ (floor +ℤ pos (start.limits.slots - start.made)) }
        requires all_given { let start = self.old.allocator in
            pos 0 ≤ℤ (cursor +ℤ pos (start.limits.slots - start.made)) → floor ≡ cursor }
        ensures settled { let start = self.old.allocator in self.new.allocator
            ≡ settled start (asked_at (top start) floor) (asked_at (top start) cursor) }
        ensures requests { let start = self.old.allocator in
            let given = asked_at (top start) floor in
            let asked = asked_at (top start) cursor in
            self.new.allocator ≡ after_take (after_take start given) (asked - given) }
        ensures rows { self.new.rows ≡ self.old.rows }
        ensures rows_of_living { HasRowsOfLiving self.new }
    {
        let waiting = self.slots.waiting();
        self.requests = Requests {
            asked: distance(waiting, cursor),
            served: distance(waiting, floor) as u32,
        };
    }

    /// Requests `n` handles: lowers the cursor by `n`, and returns the positions that it passed.
    /// `reply` tells what the request is given.
    ///
    /// If fewer than `n` handles are left, the request is refused, and the pool is shut: the cursor
    /// stays lowered, and every later request above 0 is refused until the next flush. A request
    /// for 0 handles is always served.
    ///
    /// At most 2^50 handles may be requested between two flushes.
    pub fn lower(&mut self, n: u32) -> Span
        requires { self.old.allocator.asked + n ≤ 2 ^ 50 }
        ensures span { let high = cursor self.old.allocator in
            result ≡ record { high = high; low = high -ℤ pos n } }
        ensures step { self.new.allocator ≡ after_take self.old.allocator n }
        ensures rows { self.new.rows ≡ self.old.rows }
        ensures rows_of_living { HasRowsOfLiving self.new }

        // `reply` takes the span.
        ensures valid { IsSpanOf self.new.allocator result }
    {
        let available = self.available();
        let span = Span::new(self.cursor(), n);
        self.requests = self.requests.and(n, available);
        span
    }

    /// What the request that passed these positions was given: the old handles first, in the order
    /// of their positions, then the fresh ones. It may be asked at any time until the next flush,
    /// also after later requests.
    ///
    /// The span is one that `lower` returned, if no `flush` or `alloc` came since. Any other one
    /// will do with `high` from -2^60 to the top, and `low` from `high - (2^32 - 1)` to `high`.
    ///
    /// # Errors
    ///
    /// `Space`, with how many were left, if the positions reach past the last slot.
    pub fn reply(&self, span: Span) -> Result<Reserved<'_>, Space>
        requires { IsSpanOf self.now.allocator span }
        ensures { let here = self.now.allocator in
            (n : ℕ) → span.low ≡ span.high -ℤ pos n
            → result ≡ reply_from here.made (pool_at here span.high) n }
    {
        let Span { high, low } = span;
        if low == high {
            return Ok(Reserved::new(&self.slots, 0, 0, 0, 0, 0));
        }
        let count = (high - low) as usize;
        let made = self.slots.made();
        if low >= 0 {
            return Ok(Reserved::new(&self.slots, low as usize, high as usize, made, made, count));
        }
        let index_end = u64::from(made) + (-low) as u64;
        if index_end > u64::from(self.slots.limits().slots()) {
            return Err(Space {
                wanted: (high - low) as u32,
                left: self.left_below(high),
            });
        }
        let index_end = index_end as u32;
        if high > 0 {
            return Ok(Reserved::new(&self.slots, 0, high as usize, made, index_end, count));
        }
        let index = made + (-high) as u32;
        Ok(Reserved::new(&self.slots, 0, 0, index, index_end, count))
    }

    /// What a request for one handle gets if it found the cursor at `high`: the only handle of the
    /// list that `reply` gives for that span. It is faster than `reply`, since it makes no list.
    ///
    /// `high` is from -2^60 to the top.
    ///
    /// # Errors
    ///
    /// `Space`, with 1 wanted and 0 left, if the position is that of no slot.
    pub fn reply_one(&self, high: i64) -> Result<Handle, Space>
        requires least { neg_ℤ (pos (2 ^ 60)) ≤ℤ high }
        requires passed { high ≤ℤ pos (top self.now.allocator) }
        ensures { let here = self.now.allocator in
            listed_alone result ≡ reply_from here.made (pool_at here high) 1 }
    {
        // A caller's floor is this position too.
        let position = high - 1;
        if position >= 0 {
            return Ok(self.slots.pending_at(position as usize));
        }
        let index = u64::from(self.slots.made()) + (-high) as u64;
        if index < u64::from(self.slots.limits().slots()) {
            Ok(first_occupant(index as u32))
        } else {
            Err(Space { wanted: 1, left: 0 })
        }
    }

    /// Returns the number of handles that can still be requested before a flush: 0 once a request
    /// has been refused.
    ///
    /// ```
    /// use forgeni::{Entities, Limits};
    ///
    /// let mut entities = Entities::with_limits(Limits::new(10, 1).unwrap());
    /// entities.request_many(4)?;
    /// assert_eq!(entities.left(), 6);
    /// # Ok::<(), Box<dyn std::error::Error>>(())
    /// ```
    #[must_use]
    pub fn left(&self) -> u32
        ensures { result ≡ length self.now.allocator.pool }
    {
        self.available().saturating_sub(self.requests.asked) as u32
    }

    /// How many handles a request finds that finds the cursor at `high`.
    fn left_below(&self, high: i64) -> u32
        requires least { neg_ℤ (pos (2 ^ 61)) ≤ℤ high }
        requires passed { high ≤ℤ pos (top self.now.allocator) }
        ensures { result ≡ length (pool_at self.now.allocator high) }
    {
        let before = distance(self.slots.waiting(), high);
        self.available().saturating_sub(before) as u32
    }

    /// How many handles there were to give when nothing was requested yet.
    pub(crate) fn available(&self) -> u64
        ensures value { result ≡ length (available self.now.allocator) }
        ensures fits { result < 2 ^ 32 }
    {
        u64::from(self.slots.waiting()) + u64::from(self.room())
    }
}

/// Cancels all requests since the last flush, so that no flush is needed. What they were given, and
/// what a refused one passed over, can be given again, in the same order. So the caller drops the
/// handles that it got from them, or reserves them again.
///
/// It takes constant time and doesn't allocate.
pub fn cancel_requests(entities: &mut Entities)
    ensures cancelled { entities.new.allocator ≡ before_requests entities.old.allocator }
    ensures rows { entities.new.rows ≡ entities.old.rows }
    ensures rows_of_living { HasRowsOfLiving entities.new }
{
    entities.requests = Requests::none();
}

/// How far a position is below the top.
fn distance(top: u32, position: i64) -> u64
    requires least { neg_ℤ (pos (2 ^ 61)) ≤ℤ position }
    requires passed { position ≤ℤ pos top }
    ensures { result ≡ asked_at top position }
{
    (i64::from(top) - position) as u64
}
