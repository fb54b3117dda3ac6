//! The log of a caller.
ghost use Rattle.std.specs.Prelude.{◌≡◌, ◌∷◌, ◌++◌, [], OnOk, OnErr};
ghost use Rattle.ent_replay.specs.Checker.{reserve_lines};
ghost use Rattle.ent_replay.specs.Logs.{emptied};
ghost use Rattle.ent_replay.specs.Recording.{TakesAll, reservation_of};
ghost use Rattle.ent_replay.specs.declared.trace.reply.ReserveReply.{ReserveReply};

use crate::trace::checker::Checker;
use crate::trace::reply::ReserveReply;
use crate::trace::reservation::Reservation;
use ent_handle::Memory;
use std::alloc::Global;
use std::marker::Model;

/// The reservations of one caller, in its order.
///
/// Each thread has a log of its own, and appends to it without a lock. A log has no times: the
/// checker needs none.
///
/// ```
/// use forgeni::trace::{Checker, Log};
/// use forgeni::{Entities, Limits};
///
/// let (shared, mut reservers) = Entities::new().share(2)?;
/// let mut logs = [Log::new(0), Log::new(1)];
/// std::thread::scope(|scope| {
///     for (log, reserver) in logs.iter_mut().zip(&mut reservers) {
///         scope.spawn(|| log.push(1, reserver.reserve().expect("a handle")));
///     }
/// });
/// let mut checker = Checker::new(Limits::GREATEST.keeping_placeholder());
/// logs.iter_mut().try_for_each(|log| checker.join(log))?;
/// checker.finish()?;
/// let _entities = shared.close(reservers)?;
/// # Ok::<(), Box<dyn std::error::Error>>(())
/// ```
#[derive(Debug, Drop)]
pub struct Log {
    caller: u32,
    reservations: Vec<Reservation>,
}

impl Model for Log {
    ghost use Rattle.ent_replay.specs.Logs.{Log, log_code};

    ghost Value = { Log };

    ghost coded = { log_code };

    ghost view = { λ log. record { caller = log.caller; reservations = log.reservations.items } };
}

impl Log {
    /// Creates an empty log for this caller. It doesn't allocate.
    ///
    /// ```
    /// use forgeni::trace;
    ///
    /// // One for each thread, in a vector by its number.
    /// let logs: Vec<_> = (0..8).map(trace::Log::new).collect();
    /// assert_eq!(logs[3].caller(), 3);
    /// ```
    #[must_use]
    pub fn new(alloc: Global, caller: u32) -> Self
        ensures { result ≡ record { caller = caller; reservations = [] } }
    {
        Log {
            caller,
            reservations: Vec::new(alloc),
        }
    }

    /// Returns the caller whose log it is.
    ///
    /// ```
    /// use forgeni::trace;
    ///
    /// assert_eq!(trace::Log::new(3).caller(), 3);
    /// ```
    #[must_use]
    pub fn caller(&self) -> u32
        ensures { result ≡ self.now.caller }
    {
        self.caller
    }

    /// Returns the reservations that haven't been joined yet.
    ///
    /// ```
    /// use forgeni::{trace, Handle};
    ///
    /// let mut log = trace::Log::new(0);
    /// log.push(1, "0v1".parse::<Handle>()?)?;
    /// log.push(2, trace::ReserveReply::Space)?;
    /// assert_eq!(log.reservations().iter().map(|it| it.requested).sum::<u32>(), 3);
    /// # Ok::<(), Box<dyn std::error::Error>>(())
    /// ```
    #[must_use]
    pub fn reservations(&self) -> &[Reservation]
        ensures { result.now ≡ self.now.reservations }
    {
        &self.reservations
    }

    /// Appends a reservation of that many handles, with its answer.
    ///
    /// ```
    /// use forgeni::{trace, Entities};
    ///
    /// let (shared, mut reservers) = Entities::new().share(1)?;
    /// let mut log = trace::Log::new(0);
    /// log.push(10, reservers[0].reserve_many(10)?)?;
    /// assert_eq!(log.reservations()[0].requested, 10);
    /// let _entities = shared.close(reservers)?;
    /// # Ok::<(), Box<dyn std::error::Error>>(())
    /// ```
    ///
    /// # Errors
    ///
    /// `Memory`: out of memory. Nothing is appended.
    pub fn push<R: Into<ReserveReply>>(&mut self, requested: u32, reply: R) -> Result<(), Memory>
        ensures ok { OnOk result ((told : ReserveReply) × R.converts reply told
            × (self.new ≡ record self.old {
              reservations = self.old.reservations
                  ++ reservation_of self.old.caller requested told ∷ [];
            })) }
        ensures err { OnErr result (self.new ≡ self.old) }
    {
        self.reservations
            .push(Reservation::new(self.caller, requested, reply))?;
        Ok(())
    }

    // Gives all that it has to the checker. It keeps its memory.
    pub(super) fn hand_over(&mut self, checker: &mut Checker)
        ensures takes { TakesAll checker.old (reserve_lines self.old.reservations) checker.new }
        ensures emptied { self.new ≡ emptied self.old }
    {
        checker.take_all(&mut self.reservations);
    }
}
