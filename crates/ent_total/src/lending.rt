//! What reservers of blocks reserve with is lent to a run of systems, and comes back.
ghost use Rattle.std.specs.Prelude.{◌≡◌, ◌↔◌, ◌<◌, ◌≤◌, All, IfOk, OnErr, OnOk, IsTrue, length, map};
ghost use Rattle.ent_blocks.specs.Drawing.{IsOfPhase};
ghost use Rattle.ent_total.specs.Lending.{AreFrom, lent_out, returned};
ghost use Rattle.ent_total.specs.Phases.{AreOf, reservers_of};

use crate::numbering::Numbering;
use crate::of_blocks::OfBlocks;
use crate::phase::Phase;
use crate::reserver::Reserver;
use ent_blocks::BlockReserver;
use ent_handle::Memory;
use std::alloc::Global;

impl<J: Numbering, S: OfBlocks> Reserver<J, S> {
    /// Takes out what it reserves with. What it has then is used up.
    fn lend(&mut self) -> BlockReserver
        ensures lent { result ≡ self.old.reserver }
        ensures left { self.new ≡ lent_out self.old }
        ensures of { IsOfPhase (S.of self.old.source) result }
    {
        self.reserver.take()
    }

    /// Gives it back what it reserves with.
    fn put_back(&mut self, mine: BlockReserver)
        requires { IsOfPhase (S.of self.old.source) mine }
        ensures { self.new ≡ record self.old { reserver = mine } }
    {
        self.reserver = mine;
    }
}

/// Whether these are all of the phase.
pub(crate) fn are_of<J: Numbering, S: OfBlocks>(
    phase: &Phase<J, S>,
    reservers: &[Reserver<J, S>],
) -> bool
    ensures number { IsTrue result ↔ AreOf phase.now.number reservers.now }
    ensures source { IsTrue result → AreFrom phase.now.source reservers.now }
{
    for reserver in reservers {
        if !reserver.is_of(phase) {
            return false;
        }
    }
    true
}

/// Takes out what these reserve with. What they have then is used up.
///
/// # Errors
///
/// [`Memory`], and they are as they were.
pub(crate) fn lend_all<J: Numbering, S: OfBlocks>(
    alloc: Global,
    reservers: &mut [Reserver<J, S>],
) -> Result<Vec<BlockReserver>, Memory>
    ensures lent { IfOk result (λ lent. lent.items ≡ reservers_of reservers.old) }
    ensures left { OnOk result (reservers.new ≡ map lent_out reservers.old) }
    ensures own { (source : S) → AreFrom source reservers.old
        → IfOk result (λ lent. All (IsOfPhase (S.of source)) lent.items) }
    ensures memory { OnErr result (0 < length reservers.old) }
    ensures err { OnErr result (reservers.new ≡ reservers.old) }
{
    let mut lent = Vec::with_capacity(alloc, reservers.len())?;
    for reserver in reservers.iter_mut() {
        lent.push_reserved(reserver.lend());
    }
    Ok(lent)
}

/// Gives the first ones of these back what they reserve with, in their order.
pub(crate) fn put_back<J: Numbering, S: OfBlocks>(
    reservers: &mut [Reserver<J, S>],
    source: &S,
    lent: Vec<BlockReserver>,
)
    requires from { AreFrom source.now reservers.old }
    requires own { All (IsOfPhase (S.of source.now)) lent.items }
    requires few { length lent.items ≤ length reservers.old }
    ensures { reservers.new ≡ returned reservers.old lent.items }
{
    let mut at = 0;
    for mine in lent {
        reservers[at].put_back(mine);
        at += 1;
    }
}
