ghost use Rattle.std.specs.Prelude.{◌≡◌, ◌≢◌, ◌↔◌, ◌⊎◌, ◌+◌, ◌*◌, ◌≤◌, ◌≤ℤ◌, ◌<ℤ◌, length, sum_by};
ghost use Rattle.std.specs.Prelude.{All, AllPairs, Contains};
ghost use Rattle.ent_handle.specs.Handle.{Handle as HandleValue};
ghost use Rattle.ent_alloc.specs.Limits.{quota};
ghost use Rattle.ent_alloc.specs.Sequential.{cursor, top, after_flush};
ghost use Rattle.ent_alloc.specs.History.{IsLegal, after_history, given_in};
ghost use Rattle.ent_alloc.specs.Sound.{IsLive};
ghost use Rattle.ent_shared.specs.Record.{requested_by};
ghost use Rattle.ent_shared.specs.Phase.{IsOf, records_of, after_loss};
ghost use Rattle.ent_shared.specs.Order.{reservations_of, history_of, handles_given, Respects};
ghost use Rattle.ent_shared.specs.Order.{handles_of, own_of_all};
ghost use Rattle.ent_world.specs.World.{IsWorld};
ghost use Rattle.ent_world.specs.OpenWorld.{IsOpenWorld};
ghost use Rattle.ent_world.specs.Rows.{AreRows};

use crate::view::View;
use crate::world::World;
use ent_shared::{Reserver, Shared};
use ent_storage::Rows;
use std::alloc::Global;
use std::marker::Model;

/// A world in a phase: many callers reserve from its allocator at once, and read the rest of it.
#[derive(Drop)]
pub struct OpenWorld {
    shared: Shared,
    storage: Rows,
    phase: u64,
    alloc: Global,
}

impl Model for OpenWorld {
    ghost use Rattle.ent_world.specs.OpenWorld.{OpenWorld, open_world_code, IsOpenWorld};
    ghost use Rattle.ent_world.specs.Rows.{AreRows};
    ghost use Rattle.ent_alloc.specs.Sequential.{top};
    ghost use Rattle.std.specs.Prelude.{◌≤◌};

    ghost Value = { OpenWorld };

    ghost coded = { open_world_code };

    ghost view = { λ w. record {
      shared = w.shared;
      phase = w.phase;
      entities = w.storage.entities;
    } };

    ghost invariant = { λ w. record {
      world : IsOpenWorld (record {
        shared = w.shared;
        phase = w.phase;
        entities = w.storage.entities;
      });
      rows : AreRows w.shared.rows w.storage.places w.storage.entities;
      -- there is room for the next occupant of each slot that waits
      room : top w.shared.start ≤ w.storage.spare;
    } };
}

impl OpenWorld {
    pub(crate) fn new(alloc: Global, shared: Shared, storage: Rows, phase: u64) -> Self
        requires world { IsOpenWorld
            (record { shared = shared; phase = phase; entities = storage.entities }) }
        requires rows { AreRows shared.rows storage.places storage.entities }
        requires room { top shared.start ≤ storage.spare }
        ensures { result
            ≡ record { shared = shared; phase = phase; entities = storage.entities } }
    {
        OpenWorld {
            shared,
            storage,
            phase,
            alloc,
        }
    }

    /// The allocator from which callers reserve, each with a [`Reserver`] of its own.
    pub fn shared(&self) -> &Shared
        ensures { result.now ≡ self.now.shared }
    {
        &self.shared
    }

    /// The world as it was when it was opened.
    pub fn view(&self) -> View<'_>
        ensures phase { result.phase ≡ self.now.phase }
        ensures entities { result.entities ≡ self.now.entities }
    {
        View::new(self.shared.opened(), &self.storage, self.phase)
    }

    /// Ends the phase with all its reservers, as [`Shared::close`] does. Nothing of the world but
    /// its allocator changes. It doesn't allocate.
    pub fn close(self, reservers: Vec<Reserver>) -> World
        requires all { length reservers.items ≡ self.shared.count }
        requires own { All (IsOf self.shared) reservers.items }
        ensures phase { result.phase ≡ self.phase }
        ensures entities { result.entities ≡ self.entities }
        ensures world { IsWorld result }

        // All reservations stand in one history that is legal and respects every reserver.
        ensures legal { IsLegal self.shared.start (history_of (records_of reservers.items)) }
        ensures respects { let records = records_of reservers.items in
            All (Respects (reservations_of records)) records }
        ensures after { result.allocator
            ≡ after_history self.shared.start (history_of (records_of reservers.items)) }

        // Each reservation is there once, where its step came: the cursor falls with each.
        ensures falls { AllPairs (λ earlier later. later.high <ℤ earlier.high)
            (reservations_of (records_of reservers.items)) }
        ensures numbers { AllPairs (λ r s. r.number ≢ s.number) (records_of reservers.items) }

        // No handle was given twice, and none was alive.
        ensures distinct { AllPairs (λ g h. g ≢ h)
            (given_in (history_of (records_of reservers.items))) }
        ensures not_live { All (λ h. ¬ (IsLive self.shared.start h))
            (given_in (history_of (records_of reservers.items))) }

        // A flush brings to life exactly what was given.
        ensures brings_to_life { let given = given_in (history_of (records_of reservers.items)) in
            (h : HandleValue) → IsLive (after_flush result.allocator) h
            ↔ (IsLive self.shared.start h ⊎ Contains given h) }
    {
        let OpenWorld {
            shared,
            storage,
            phase,
            alloc,
        } = self;
        World {
            entities: shared.close(reservers),
            storage,
            phase,
            alloc,
        }
    }

    /// Ends the phase although some reservers may be lost, as [`Shared::close_lost`] does. Nothing
    /// of the world but its allocator changes. It doesn't allocate.
    pub fn close_lost(self, reservers: Vec<Reserver>) -> World
        requires { All (IsOf self.shared) reservers.items }
        ensures phase { result.phase ≡ self.phase }
        ensures entities { result.entities ≡ self.entities }
        ensures world { IsWorld result }
        ensures after { result.allocator ≡ after_loss self.shared.start result.allocator.asked }

        // It counts what the reservers that are here have requested, and of the others no more than
        // their quota.
        ensures least { sum_by (λ r. requested_by r.own) reservers.items ≤ result.allocator.asked }
        ensures most { sum_by (λ r. r.own.left) reservers.items + result.allocator.asked
            ≤ self.shared.count * quota }
        ensures reached { All (λ r. cursor result.allocator ≤ℤ r.own.mark) reservers.items }

        // If all are here, it counts what they have requested, and the cursor is where `close`
        // leaves it.
        ensures asked { length reservers.items ≡ self.shared.count
            → sum_by (λ r. requested_by r.own) reservers.items ≡ result.allocator.asked }
        ensures whole { length reservers.items ≡ self.shared.count → cursor result.allocator
            ≡ cursor (after_history self.shared.start (history_of (records_of reservers.items))) }

        // What the reservers that are here were given is reserved. No handle was given to two of
        // them, and none was alive.
        ensures given { All (λ r. All (Contains result.allocator.taken) (handles_given r.own))
            reservers.items }
        ensures distinct { AllPairs (λ g h. g ≢ h)
            (handles_of (own_of_all (records_of reservers.items))) }
        ensures not_live { All (λ h. ¬ (IsLive self.shared.start h)) result.allocator.taken }

        // A flush brings to life exactly what is reserved.
        ensures brings_to_life { (h : HandleValue) → IsLive (after_flush result.allocator) h
            ↔ (IsLive self.shared.start h ⊎ Contains result.allocator.taken h) }
    {
        let OpenWorld {
            shared,
            storage,
            phase,
            alloc,
        } = self;
        World {
            entities: shared.close_lost(reservers),
            storage,
            phase,
            alloc,
        }
    }
}
