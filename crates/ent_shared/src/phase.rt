ghost use Rattle.std.specs.Prelude.{◌≡◌, ◌<◌, ◌≤◌, [], length, All, IfOk, IfErr};
ghost use Rattle.ent_alloc.specs.Sound.{IsSound};
ghost use Rattle.ent_shared.specs.Record.{opened_records};
ghost use Rattle.ent_shared.specs.Phase.{IsOf, records_of};

use crate::holders::split_first;
use crate::reserver::Reserver;
use crate::rule::Opening;
use crate::shared::Shared;
use crate::word;
use ent_alloc::Entities;
use ent_handle::Memory;
use std::alloc::Global;

/// Shares a flushed allocator among `n` reservers, 1 to 1,024, each of which may request
/// [`QUOTA`](ent_alloc::QUOTA) handles. Bevy has no such limits; they are this project's own.
///
/// # Errors
///
/// [`Memory`], with the allocator as it was.
pub fn share(
    alloc: Global,
    entities: Entities,
    n: usize,
) -> Result<(Shared, Vec<Reserver>), (Entities, Memory)>
    requires flushed { entities.allocator.asked ≡ 0 }
    requires some { 0 < n }
    requires few { n ≤ 1024 }
    ensures shared { IfOk result (λ made.
        (made.0.start ≡ entities.allocator) × (made.0.count ≡ n)) }
    ensures rows { IfOk result (λ made. made.0.rows ≡ entities.rows) }
    // What is shared is in a sound state.
    ensures sound { IfOk result (λ made. IsSound made.0.start) }
    ensures count { IfOk result (λ made. length made.1.items ≡ n) }
    ensures reservers { IfOk result (λ made.
        records_of made.1.items ≡ opened_records entities.allocator 0 n) }
    ensures unused { IfOk result (λ made. All (λ r. r.own.entries ≡ []) made.1.items) }
    ensures own { IfOk result (λ made. All (IsOf made.0) made.1.items) }
    ensures err { IfErr result (λ refused. refused.0 ≡ entities) }
{
    let mut reservers = match Vec::with_capacity(alloc, n) {
        Ok(reservers) => reservers,
        Err(_) => return Err((entities, Memory)),
    };
    let top = i64::from(entities.top());
    let opening = Opening { entities, count: n };
    let Ok((word, mut all)) = word::open(alloc, &opening) else {
        let Opening { entities, .. } = opening;
        return Err((entities, Memory));
    };
    for number in 0..n {
        reservers.push_reserved(Reserver::new(split_first(&word, &mut all), number, top));
    }
    let Opening { entities, count } = opening;
    Ok((Shared::new(entities, word, count), reservers))
}
