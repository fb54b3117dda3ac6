ghost use Rattle.std.specs.Prelude.{◌≡◌, false};

use crate::crew::record::ClaimRecord;
use ent_shared::holders::RecordsToken;
use std::marker::Model;

/// The right of one worker to claim numbers.
///
/// [`Claims::open`](crate::Claims::open) makes them, and [`Claims::close`](crate::Claims::close)
/// takes them back. A worker that claims in a thread of its own takes one along.
#[derive(Drop)]
pub struct Claimer {
    pub(super) token: RecordsToken<ClaimRecord>,
    pub(super) ended: bool,
}

impl Model for Claimer {
    ghost use Rattle.ent_runner.specs.Crew.Record.{claims_of};
    ghost use Rattle.ent_runner.specs.Crew.Claims.{Claimer, claimer_code, IsClaimerHolding};

    ghost Value = { Claimer };

    ghost coded = { claimer_code };

    ghost view = { λ c. record { word = c.token.table_id; own = claims_of c.token.views } };

    ghost invariant = { λ c. IsClaimerHolding c.token.views c.ended };
}

impl Claimer {
    ghost use Rattle.ent_runner.specs.Crew.Record.{claims_of};
    ghost use Rattle.ent_runner.specs.Crew.Claims.{IsClaimerHolding};

    pub(super) fn new(token: RecordsToken<ClaimRecord>) -> Self
        requires { IsClaimerHolding token.views false }
        ensures { result ≡ record { word = token.table_id; own = claims_of token.views } }
    {
        Claimer {
            token,
            ended: false,
        }
    }
}
