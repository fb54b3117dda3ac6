//! The rule over the claim word and the records of all claimers, and what its steps tell.
ghost use Rattle.ent_runner.specs.Crew.Rule.{AreClaimsRuled, ClaimTells};
ghost use Rattle.ent_runner.specs.Crew.Record.{nothing_claimed};
ghost use Rattle.std.specs.Prelude.{replicate};

use crate::crew::record::ClaimRecord;
use atomic_table::{Play, TableRule};
use ent_shared::holders::HeldRecords;

/// How many numbers there are to claim, and how many claimers.
#[derive(Drop)]
pub(super) struct Opening {
    pub(super) numbers: usize,
    pub(super) workers: usize,
}

pub(super) struct Numbers;

impl TableRule<(), HeldRecords<ClaimRecord>, Opening> for Numbers {
    ghost holds = { λ opening. AreClaimsRuled opening.numbers opening.workers };

    ghost first = { λ opening. replicate opening.workers (nothing_claimed opening.numbers) };
}

/// A claim.
pub(super) struct Claim;

impl Play<(), HeldRecords<ClaimRecord>> for Claim {
    ghost then = { λ step before found after. ClaimTells before found after };
}
