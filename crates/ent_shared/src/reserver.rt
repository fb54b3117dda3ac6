ghost use Rattle.std.specs.Prelude.{◌≡◌};

use crate::holders::RecordsToken;
use crate::record::Record;
use ent_alloc::QUOTA;
use std::marker::Model;

/// One caller's right to reserve from a shared allocator, and what is left of its quota.
///
/// [`share`](crate::share) makes them, and [`Shared::close`](crate::Shared::close) takes them back.
/// A caller that reserves in a thread of its own takes one with it.
///
/// ```
/// use forgeni::{SharedReserver, SharedSource, Source};
///
/// /// Code for the reservers of the shared cursor alone.
/// fn shares<S: Source<Reserver = SharedReserver>>() {}
///
/// shares::<SharedSource>();
/// ```
#[derive(Drop)]
pub struct Reserver {
    pub(crate) token: RecordsToken<Record>,
    pub(crate) number: usize,
    pub(crate) left: u64,
    pub(crate) floor: i64,
}

impl Model for Reserver {
    ghost use Rattle.ent_shared.specs.Phase.{Reserver, reserver_code, own_of, IsHolding};

    ghost Value = { Reserver };

    ghost coded = { reserver_code };

    ghost view = { λ r. record { word = r.token.table_id; own = own_of r.token.views } };

    ghost invariant = { λ r. IsHolding r.token.views r.number r.left r.floor };
}

impl Reserver {
    ghost use Rattle.std.specs.Prelude.{◌≡◌, ◌+◌};
    ghost use Rattle.ent_alloc.specs.Limits.{quota};
    ghost use Rattle.ent_shared.specs.Record.{requested_by};
    ghost use Rattle.ent_shared.specs.Phase.{own_of, IsHolding};

    pub(crate) fn new(token: RecordsToken<Record>, number: usize, floor: i64) -> Self
        requires { IsHolding token.views number quota floor }
        ensures { result ≡ record { word = token.table_id; own = own_of token.views } }
    {
        Reserver {
            token,
            number,
            left: QUOTA,
            floor,
        }
    }

    /// Returns its number: its position in the list that `share` returned, counted from 0.
    pub fn number(&self) -> usize
        ensures { result ≡ self.now.own.number }
    {
        self.number
    }

    /// Returns the number of handles that it can still request in this phase: [`QUOTA`] minus those
    /// that it has requested, served or not.
    pub fn left(&self) -> u64
        ensures left { result ≡ self.now.own.left }
        ensures quota { result + requested_by self.now.own ≡ quota }
    {
        self.left
    }
}
