//! A phase is opened.
ghost use Rattle.std.specs.Prelude.{◌≡◌, ◌≢◌, ◌≤◌, [], ◌++◌, All, IfOk, IfErr, reverse, length};
ghost use Rattle.std.specs.Prelude.{Some};
ghost use Rattle.std.specs.Vec.{vec_capacity};
ghost use Rattle.ent_total.specs.Phases.{AreOf, reservers_of};

use crate::numbering::Numbering;
use crate::phase::Phase;
use crate::reserver::Reserver;
use ent_alloc::Phased;
use std::alloc::Global;
use std::marker::Model;
use std::sync::Arc;

/// A phase that has no number yet, with all its reservers.
#[derive(Drop)]
pub struct Opening<J: Numbering, S: Phased> {
    alloc: Global,
    source: Arc<S, Global>,
    returned: Vec<S::Reserver>,
    reservers: Vec<Reserver<J, S>>,
}

impl<J: Numbering, S: Phased> Model for Opening<J, S> {
    ghost use Rattle.std.specs.Prelude.{All, ◌≡◌, ◌≤◌, [], length};
    ghost use Rattle.std.specs.Vec.{vec_capacity};
    ghost use Rattle.std.specs.Arc.{arc_value};
    ghost use Rattle.ent_total.specs.Phases.{Opening, opening_code};

    ghost Value = { Opening S S.Reserver };

    ghost coded = { opening_code S.code S.Reserver.code };

    ghost view = { λ o. record { source = arc_value o.source; returned = o.returned.items } };

    // The reservers returned came with this source, and there is room for all of them, returned and
    // where they are given out.
    ghost invariant = { λ o. All (S.serves (arc_value o.source)) o.returned.items
        × (S.count (arc_value o.source) ≤ vec_capacity o.returned)
        × (o.reservers.items ≡ [])
        × (length o.returned.items ≤ vec_capacity o.reservers) };
}

/// A phase of a source, whose reservers are these. The lists have room for all of them.
///
/// # Errors
///
/// Both as they were, if an allocation fails.
pub fn begin<J: Numbering, S: Phased>(
    alloc: Global,
    source: S,
    returned: Vec<S::Reserver>,
    reservers: Vec<Reserver<J, S>>,
) -> Result<Opening<J, S>, (S, Vec<S::Reserver>)>
    requires own { All (S.serves source) returned.items }
    requires count { S.count source ≤ vec_capacity returned }
    requires none { reservers.items ≡ [] }
    requires room { length returned.items ≤ vec_capacity reservers }
    ensures opening { IfOk result (λ o. o ≡ record { source = source; returned = returned.items }) }
    ensures err { IfErr result (λ back. (back.0 ≡ source) × (back.1 ≡ returned)) }
{
    match Arc::new(alloc, source) {
        Ok(source) => Ok(Opening {
            alloc,
            source,
            returned,
            reservers,
        }),
        Err(refused) => Err((refused.value, returned)),
    }
}

impl<J: Numbering, S: Phased> Opening<J, S> {
    /// The phase under this number, which no other phase has, and all its reservers, in the order
    /// in which they were made. It doesn't allocate.
    ///
    /// # Errors
    ///
    /// The same, with some reservers returned to the phase: each owns a part of the allocator, and
    /// no more owners could be counted. That takes 2^62 of them.
    pub fn numbered(
        self,
        number: u64,
    ) -> Result<(Phase<J, S>, Vec<Reserver<J, S>>), (Phase<J, S>, Vec<Reserver<J, S>>)>
        requires stands_for { J.phase_of S number ≡ Some self.source }
        ensures phase { IfOk result (λ made.
            made.0 ≡ record { number = number; source = self.source; returned = [] }) }
        ensures reservers { IfOk result (λ made. reservers_of made.1.items ≡ self.returned) }
        ensures of { IfOk result (λ made. AreOf number made.1.items) }
        ensures same { IfOk result (λ made. All (λ r. r.source ≡ self.source) made.1.items) }

        // What holds if not all could be given out.
        ensures err_phase { IfErr result (λ made.
            made.0 ≡ record { number = number; source = self.source; returned = made.0.returned }) }
        ensures err_some_returned { IfErr result (λ made. made.0.returned ≢ []) }
        ensures err_reservers { IfErr result (λ made.
            reservers_of made.1.items ++ reverse made.0.returned ≡ self.returned) }
        ensures err_of { IfErr result (λ made. AreOf number made.1.items) }
    {
        let Opening {
            alloc,
            source,
            mut returned,
            mut reservers,
        } = self;
        returned.reverse();
        let mut phase = Phase::new(alloc, source, returned, number);
        phase.give_out(&mut reservers);
        if phase.returned() > 0 {
            return Err((phase, reservers));
        }
        Ok((phase, reservers))
    }
}
