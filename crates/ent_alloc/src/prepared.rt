//! An allocator that is about to take over another one. Its memory is taken first, by a step of its
//! own: so a caller that copies more than an allocator takes all memory before anything changes.
ghost use Rattle.std.specs.Prelude.{◌≡◌, ◌<◌, ◌≤◌, ◌⊎◌, OnOk, OnErr};
ghost use Rattle.ent_alloc.specs.Sequential.{top};
ghost use Rattle.ent_alloc.specs.Entities.{HasRowsOfLiving};

use crate::cloning::{overwrite, reserve_for};
use crate::entities::Entities;
use crate::limits::Limits;
use crate::packed_slot::PackedSlot;
use crate::requests::Requests;
use crate::slots::Slots;
use ent_handle::Memory;
use std::marker::Model;

/// An allocator and the room that its lists have.
///
/// Contracts see the allocator, and for how many slots there is room, in all and of those that
/// wait.
#[derive(Drop)]
pub struct Prepared {
    limits: Limits,
    records: Vec<PackedSlot>,
    pending: Vec<u32>,
    retired: u32,
    requests: Requests,
}

impl Model for Prepared {
    ghost use Rattle.std.specs.Prelude.{vec_capacity};
    ghost use Rattle.ent_alloc.specs.Prepared.{Prepared, prepared_code};
    ghost use Rattle.ent_alloc.specs.Entities.{entities_of, AreReserved};
    ghost use Rattle.ent_alloc.specs.Slots.{roster_of, AreLinked};

    ghost Value = { Prepared };

    ghost coded = { prepared_code };

    ghost view = { λ p. record {
      entities = entities_of (roster_of p.limits p.records.items p.pending.items)
          p.requests.asked p.requests.served;
      slots = vec_capacity p.records;
      waiting = vec_capacity p.pending;
    } };

    ghost invariant = { λ p. AreLinked p.limits p.records.items p.pending.items p.retired
        × AreReserved (roster_of p.limits p.records.items p.pending.items)
        p.requests.asked p.requests.served };
}

impl Prepared {
    /// This allocator, with the room that it has.
    pub fn of(entities: Entities) -> Self
        ensures { result.entities ≡ entities }
    {
        let Entities { slots, requests } = entities;
        let Slots {
            limits,
            records,
            pending,
            retired,
        } = slots;
        Prepared {
            limits,
            records,
            pending,
            retired,
            requests,
        }
    }

    /// The allocator.
    pub fn into_entities(self) -> Entities
        ensures value { result ≡ self.entities }
        ensures rows_of_living { HasRowsOfLiving result }
    {
        Entities {
            slots: Slots {
                limits: self.limits,
                records: self.records,
                pending: self.pending,
                retired: self.retired,
            },
            requests: self.requests,
        }
    }

    /// Makes room for the slots of another allocator. It doesn't allocate if this one has made as
    /// many, and as many wait.
    ///
    /// # Errors
    ///
    /// Out of memory. There may be more room than before.
    pub fn reserve_for(&mut self, source: &Entities) -> Result<(), Memory>
        ensures entities { self.new.entities ≡ self.old.entities }
        ensures slots { OnOk result (source.now.allocator.made ≤ self.new.slots) }
        ensures waiting { OnOk result (top source.now.allocator ≤ self.new.waiting) }
        ensures memory { OnErr result
            ((self.old.entities.allocator.made < source.now.allocator.made)
            ⊎ (top self.old.entities.allocator < top source.now.allocator)) }
    {
        reserve_for(&mut self.records, source.slots.records.len())?;
        reserve_for(&mut self.pending, source.slots.pending.len())?;
        Ok(())
    }

    /// The same allocator as another one, in the lists of this one. It doesn't allocate.
    pub fn take_over(self, source: &Entities) -> Entities
        requires slots { source.now.allocator.made ≤ self.slots }
        requires waiting { top source.now.allocator ≤ self.waiting }
        ensures value { result ≡ source.now }
        ensures rows_of_living { HasRowsOfLiving result }
    {
        let Prepared {
            mut records,
            mut pending,
            ..
        } = self;
        overwrite(&mut records, &source.slots.records);
        overwrite(&mut pending, &source.slots.pending);
        Entities {
            slots: Slots {
                limits: source.slots.limits,
                records,
                pending,
                retired: source.slots.retired,
            },
            requests: source.requests,
        }
    }
}
