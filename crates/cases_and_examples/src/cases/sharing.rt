//! An allocator that is shared, and its reservers.
ghost use Rattle.std.specs.Prelude.{◌≡◌, ◌<◌, ◌≤◌};
ghost use Rattle.ent_shared.specs.Phase.{IsOf};

use crate::cases::call::Call;
use crate::cases::writing::Out;
use ent_alloc::Entities;
use ent_shared::{Reserver, Shared, share};
use std::alloc::Global;
use std::marker::Model;

/// A shared allocator with its reservers, or with those that are not lost.
#[derive(Drop)]
pub struct Sharing {
    shared: Shared,
    reservers: Vec<Reserver>,
}

impl Model for Sharing {
    ghost use Rattle.std.specs.Prelude.{All};
    ghost use Rattle.ent_shared.specs.Phase.{IsOf};

    ghost Value = { Unit {0} };

    ghost view = { λ _. tt };

    ghost invariant = { λ s. All (IsOf s.shared) s.reservers.items };
}

impl Sharing {
    /// If it can't be shared, the allocator comes back, and why.
    pub fn begin(
        alloc: Global,
        entities: Entities,
        reservers: usize,
    ) -> Result<Self, (Entities, &'static str)> {
        if entities.needs_flush() || reservers < 1 || reservers > 1024 {
            return Err((entities, "refused"));
        }
        match share(alloc, entities, reservers) {
            Ok((shared, reservers)) => Ok(Sharing { shared, reservers }),
            Err((entities, _)) => Err((entities, "out of memory")),
        }
    }

    /// The allocator after the phase. If a reserver was lost, its end is that of a lost one.
    pub fn close(self, is_lost: bool) -> Entities {
        let Sharing { shared, reservers } = self;
        if !is_lost && reservers.len() == shared.count() {
            shared.close(reservers)
        } else {
            shared.close_lost(reservers)
        }
    }

    pub fn answer(&mut self, call: &Call<'_>, out: &mut Out) {
        match call.system {
            Some(number) => self.reserve(number, call, out),
            None => self.tell(call, out),
        }
    }

    /// A call of the reserver of this number.
    fn reserve(&mut self, number: usize, call: &Call<'_>, out: &mut Out) {
        match self.reservers.get_mut(number) {
            Some(reserver) => reserve(&self.shared, reserver, call, out),
            None => out.word("no such reserver"),
        }
    }

    /// A call that is no reserver's.
    fn tell(&mut self, call: &Call<'_>, out: &mut Out) {
        match call.name {
            "count" => out.show(&self.shared.count()),
            "reservers" => out.show(&self.reservers.len()),
            "lose" => self.lose(out),
            _ => out.word("no such call"),
        }
    }

    /// Writes the quota that is left to each reserver.
    pub fn write_state(&self, out: &mut Out) {
        out.show(&self.shared.count());
        for reserver in &self.reservers {
            out.next(&reserver.left());
        }
    }

    /// Drops the last reserver.
    fn lose(&mut self, out: &mut Out) {
        match self.reservers.pop() {
            Some(_) => out.word("done"),
            None => out.word("no reserver"),
        }
    }
}

fn reserve(shared: &Shared, reserver: &mut Reserver, call: &Call<'_>, out: &mut Out)
    requires { IsOf shared.now reserver.old }
    ensures { IsOf shared.now reserver.new }
{
    match call.name {
        "number" => out.show(&reserver.number()),
        "left" => out.show(&reserver.left()),
        "reserve" => out.given(shared.reserve(reserver)),
        "reserve_many" => match shared.reserve_many(reserver, call.number()) {
            Ok(reserved) => out.reserved(reserved),
            Err(why) => out.show(&why),
        },
        _ => out.word("no such call"),
    }
}
