//! A reservation of handles.
ghost use Rattle.std.specs.Prelude.{◌≡◌, IfOk};
ghost use Rattle.ent_replay.specs.Recording.{reservation_of};

use crate::trace::reply::ReserveReply;
use ent_handle::Memory;
use std::alloc::Global;

/// One reservation of one caller.
///
/// ```
/// use forgeni::trace::{Checker, Reservation};
/// use forgeni::{Handle, Limits};
///
/// // What two threads wrote down, in whatever order.
/// let one = Reservation::new(0, 1, "1v1".parse::<Handle>()?);
/// let other = Reservation::new(1, 1, "0v1".parse::<Handle>()?);
/// Checker::new(Limits::GREATEST).run(vec![one, other])?;
/// # Ok::<(), Box<dyn std::error::Error>>(())
/// ```
#[derive(Debug, Drop)]
pub struct Reservation {
    /// The number of its call, from 1. A [`Checker`](crate::trace::Checker) numbers what it takes.
    pub number: u64,
    /// The caller. Reservations of one caller are in its order.
    pub caller: u32,
    /// How many handles were requested.
    pub requested: u32,
    /// The answer.
    pub reply: ReserveReply,
}

impl Reservation {
    /// Creates a reservation of that many handles by this caller, with its answer. It isn't
    /// numbered yet: its number is 0.
    ///
    /// ```
    /// use forgeni::trace;
    ///
    /// let one = trace::Reservation::new(3, 2, trace::ReserveReply::Space);
    /// assert_eq!(trace::Call::Reserve(one).to_string(), "reserve 3 2 => space");
    /// ```
    #[must_use]
    pub fn new<R: Into<ReserveReply>>(caller: u32, requested: u32, reply: R) -> Self
        ensures is { result ≡ reservation_of caller requested result.reply }
        ensures reply { R.converts reply result.reply }
    {
        Reservation {
            number: 0,
            caller,
            requested,
            reply: reply.into(),
        }
    }

    /// The same with this number.
    pub(super) fn numbered(self, number: u64) -> Self
        ensures { result ≡ record self { number = number } }
    {
        let Reservation {
            number: _,
            caller,
            requested,
            reply,
        } = self;
        Reservation {
            number,
            caller,
            requested,
            reply,
        }
    }

    /// A copy.
    pub(super) fn try_copy(&self, alloc: Global) -> Result<Self, Memory>
        ensures { IfOk result (λ copy. copy ≡ self.now) }
    {
        Ok(Reservation {
            number: self.number,
            caller: self.caller,
            requested: self.requested,
            reply: self.reply.try_copy(alloc)?,
        })
    }
}
