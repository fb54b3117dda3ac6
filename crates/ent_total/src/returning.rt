//! Reservers come back: what they reserve with goes back to the phase.
ghost use Rattle.std.specs.Prelude.{◌≡◌, ◌+◌, ◌≤◌, ◌↔◌, ◌++◌, All, IsTrue, Some, length};
ghost use Rattle.std.specs.Vec.{vec_capacity, vec_len};
ghost use Rattle.ent_total.specs.Phases.{AreOf, reservers_of};

use crate::numbering::Numbering;
use crate::reserver::Reserver;
use ent_alloc::Phased;

/// Whether all reservers are of the phase of this number.
pub(crate) fn are_of<J: Numbering, S: Phased>(number: u64, reservers: &[Reserver<J, S>]) -> bool
    ensures { IsTrue result ↔ AreOf number reservers.now }
{
    for reserver in reservers {
        if reserver.number != number {
            return false;
        }
    }
    true
}

/// Adds the reservers of the reservers to those returned, behind them. There is room for them.
pub(crate) fn bring_back<J: Numbering, S: Phased>(
    returned: &mut Vec<S::Reserver>,
    source: &S,
    number: u64,
    reservers: Vec<Reserver<J, S>>,
)
    requires stands_for { J.phase_of S number ≡ Some source.now }
    requires of { AreOf number reservers.items }
    requires own { All (S.serves source.now) returned.old.items }
    requires room { vec_len returned.old + length reservers.items ≤ vec_capacity returned.old }
    ensures items { returned.new.items ≡ returned.old.items ++ reservers_of reservers.items }
    ensures own { All (S.serves source.now) returned.new.items }
    ensures room { vec_capacity returned.new ≡ vec_capacity returned.old }
{
    for reserver in reservers {
        returned.push_reserved(reserver.reserver);
    }
}
