//! What compares a trace: one line after the other.
ghost use Rattle.std.specs.Prelude.{◌≡◌, ◌+◌, ◌^◌, ◌<◌, ℕ, ◌∷◌, ◌++◌, [], IfOk, IfErr, OnOk};
ghost use Rattle.ent_alloc.specs.Sequential.{opening, available};
ghost use Rattle.ent_replay.specs.Trace.{Fits, IsAlone, after_line};
ghost use Rattle.ent_replay.specs.Checker.{Follows, Reaches, AgreesWith, IsSettled};
ghost use Rattle.ent_replay.specs.Checker.{OnDiffers, Differs, Shows, KeyOf};
ghost use Rattle.ent_replay.specs.Checker.{HasNoOrder, NoneFollows};
ghost use Rattle.ent_replay.specs.Checker.{OnTooMany, IsTooMany, IsTooManyIn};

use crate::by_caller::ByCaller;
use crate::trace::call::Call;
use crate::trace::calls::answered;
use crate::trace::check_error::CheckError;
use crate::trace::difference::Difference;
use crate::trace::front::front_at;
use crate::trace::key::own_key;
use crate::trace::lineup::{Lineup, make_all};
use crate::trace::placed::Placed;
use crate::trace::reservation::Reservation;
use ent_alloc::{Entities, Limits};
use std::alloc::Global;
use std::marker::Model;

/// How many handles may be requested between two flushes.
const MOST: u64 = 1 << 50;

/// Takes the lines of a trace one after the other, and compares each reply with the allocator's.
///
/// It is taken by value, and returned only if nothing is wrong, so none goes on after a difference.
/// The caller numbers the lines. `Checker` numbers them itself, and keeps the error.
///
/// It holds the allocator and the reservations since the last other line, which are compared
/// together. Contracts see just these two.
#[derive(Drop)]
pub struct Comparer {
    alloc: Global,
    entities: Entities,
    run: Vec<Placed>,
    latest: ByCaller<u64>,
    wanted: u64,
}

impl Model for Comparer {
    ghost use Rattle.ent_replay.specs.Checker.{Checked, checked_code};

    ghost Value = { Checked };

    ghost coded = { checked_code };

    ghost use Rattle.ent_replay.specs.Checker.{reservations_of, IsChecking};

    ghost view = { λ c. record {
      allocator = c.entities.allocator;
      run = reservations_of c.run.items;
    } };

    ghost invariant = { λ c.
        IsChecking c.entities.allocator c.wanted c.run.items c.latest };
}

impl Comparer {
    /// One that has taken no line. It doesn't allocate.
    pub fn new(alloc: Global, limits: Limits) -> Self
        ensures { result ≡ record { allocator = opening limits; run = [] } }
    {
        Comparer::from_entities(alloc, Entities::new(alloc, limits))
    }

    /// One whose trace begins in the state of this allocator, with its requests. It doesn't
    /// allocate.
    pub fn from_entities(alloc: Global, entities: Entities) -> Self
        ensures { result ≡ record { allocator = entities.allocator; run = [] } }
    {
        Comparer {
            wanted: entities.asked(),
            alloc,
            entities,
            run: Vec::new(alloc),
            latest: ByCaller::new(alloc),
        }
    }

    /// Takes the next line of the trace, which has this number.
    ///
    /// # Errors
    ///
    /// It is gone then, so that none goes on after a difference.
    ///
    /// - `Differs`: a reply isn't the allocator's, of this line or of a reservation before it. A
    ///   reservation itself never returns it: the next other line does, or the end.
    /// - `TooMany`: it is a reservation, and with it more than 2^50 handles were requested since
    ///   the last flush.
    /// - `Memory`: memory ran out.
    pub fn take(self, number: u64, line: Call) -> Result<Self, CheckError>
        ensures follows { IfOk result (λ next. Follows self line next) }
        ensures reaches { IfOk result (λ next. Reaches self line next) }
        ensures differs { IfErr result (λ stop.
            OnDiffers stop (Shows self number (line ∷ []))) }
        ensures none { IfErr result (λ stop. OnDiffers stop (λ d. NoneFollows self line)) }
        ensures alone { IfErr result (λ stop. OnDiffers stop (λ d. IsAlone line)) }
        ensures too_many { IfErr result (λ stop. OnTooMany stop (IsTooMany self line)) }
        ensures few { OnOk result (¬ (IsTooMany self line)) }
    {
        if let Call::Reserve(reservation) = line {
            return self.add(reservation);
        }
        self.end_run(number, line)
    }

    /// Compares the reservations that are not compared yet: the trace ends here.
    ///
    /// # Errors
    ///
    /// `Differs` or `Memory`, as `take`.
    pub fn finish(self) -> Result<Self, CheckError>
        ensures settled { IfOk result (λ next. IsSettled self next.allocator × (next.run ≡ [])) }
        ensures agrees { OnOk result (AgreesWith self []) }
        ensures differs { IfErr result (λ stop. OnDiffers stop (Shows self 0 [])) }
        ensures none { IfErr result (λ stop. OnDiffers stop (λ d. AgreesWith self [] → ⊥)) }
        ensures counted { IfErr result (λ stop. OnTooMany stop ⊥) }
    {
        self.settle()
    }

    /// Compares the run, and then makes the call that ends it.
    fn end_run(self, number: u64, line: Call) -> Result<Self, CheckError>
        requires { IsAlone line }
        ensures follows { IfOk result (λ next. Follows self line next) }
        ensures reaches { IfOk result (λ next. Reaches self line next) }
        ensures differs { IfErr result (λ stop.
            OnDiffers stop (Shows self number (line ∷ []))) }
        ensures none { IfErr result (λ stop. OnDiffers stop (λ d. NoneFollows self line)) }
        ensures counted { IfErr result (λ stop. OnTooMany stop ⊥) }
    {
        self.settle()?.call(number, line)
    }

    /// Makes the reservations of the run, in the order of their keys, and compares each.
    fn settle(self) -> Result<Self, CheckError>
        ensures run { IfOk result (λ next. next.run ≡ []) }
        ensures settled { IfOk result (λ next. IsSettled self next.allocator) }
        ensures differs { IfErr result (λ stop.
            OnDiffers stop (λ d. (n : ℕ) → Shows self n [] d)) }
        ensures none { IfErr result (λ stop. OnDiffers stop (λ d. HasNoOrder self)) }
        ensures counted { IfErr result (λ stop. OnTooMany stop ⊥) }
    {
        let Comparer {
            alloc,
            mut entities,
            mut run,
            mut latest,
            wanted,
        } = self;
        run.sort_by_cached_key(|placed| placed.key)?;
        let lineup = Lineup::new(alloc, run, &entities).settle(alloc, &entities)?;
        if !lineup.rest.is_empty() {
            return Err(CheckError::Differs(lineup.difference(alloc, &entities)?));
        }
        let Lineup {
            placed: mut run,
            rest: _,
            at: _,
        } = lineup;
        make_all(&mut entities, &run);
        run.clear();
        latest.clear();
        Ok(Comparer {
            alloc,
            entities,
            run,
            latest,
            wanted,
        })
    }

    /// Makes a call that nothing overlaps, and compares.
    fn call(self, number: u64, line: Call) -> Result<Self, CheckError>
        requires run { self.run ≡ [] }
        requires alone { IsAlone line }
        ensures fits { OnOk result (Fits self.allocator line) }
        ensures next { IfOk result (λ next.
            next ≡ record { allocator = after_line self.allocator line; run = [] }) }
        ensures differs { IfErr result (λ stop.
            OnDiffers stop (Differs self.allocator number line)) }
        ensures counted { IfErr result (λ stop. OnTooMany stop ⊥) }
    {
        let Comparer {
            alloc,
            mut entities,
            run,
            latest,
            ..
        } = self;
        // No call can be undone, so what a difference shows is looked up before it.
        let cursor = entities.cursor();
        let front = front_at(alloc, &entities, cursor)?;
        let expected = answered(alloc, &mut entities, &line)?;
        if let Some(expected) = expected {
            return Err(CheckError::Differs(Difference {
                number,
                told: line,
                expected,
                front,
                cursor,
            }));
        }
        let wanted = entities.asked();
        Ok(Comparer {
            alloc,
            entities,
            run,
            latest,
            wanted,
        })
    }

    /// Adds a reservation to the run.
    fn add(self, reservation: Reservation) -> Result<Self, CheckError>
        ensures ok { IfOk result (λ next.
            next ≡ record self { run = self.run ++ reservation ∷ [] }) }
        ensures differs { IfErr result (λ stop. OnDiffers stop (λ d. ⊥)) }
        ensures too_many { IfErr result (λ stop. OnTooMany stop (IsTooManyIn self reservation)) }
        ensures few { OnOk result (¬ (IsTooManyIn self reservation)) }
    {
        let Comparer {
            alloc,
            entities,
            mut run,
            mut latest,
            wanted,
        } = self;
        let wanted = wanted + u64::from(reservation.requested);
        if wanted > MOST {
            return Err(CheckError::TooMany);
        }
        let caller = reservation.caller;
        let before = latest.get(caller).unwrap_or(0);
        let key = own_key(&entities, reservation.requested, &reservation.reply).max(before);
        run.push(Placed { reservation, key })?;
        latest.insert(caller, key)?;
        Ok(Comparer {
            alloc,
            entities,
            run,
            latest,
            wanted,
        })
    }
}
