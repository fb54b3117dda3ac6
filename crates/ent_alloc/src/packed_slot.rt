//! The record of a slot in eight bytes.
ghost use Rattle.std.specs.Prelude.{◌≡◌, ℕ, ◌-◌, ◌^◌, ◌<◌, ◌≤◌, ◌==◌, ◌&&◌};
ghost use Rattle.std.specs.Prelude.{None, Some, true, if◌then◌else◌};
ghost use Rattle.ent_alloc.specs.Living.{HasGeneration};
ghost use Rattle.ent_alloc.specs.Slots.{is_alive, is_pending_from, new_record, reuse};
ghost use Rattle.ent_alloc.specs.declared.slot_record.Occupancy.TheVariants.{Alive, AliveWithRow};
ghost use Rattle.ent_alloc.specs.declared.slot_record.Occupancy.TheVariants.{Pending, Retired};

use crate::slot_record::{Occupancy, SlotRecord};
use std::marker::Model;

/// The bit of a mark that a living occupant's doesn't have. A generation is below it.
const NOBODY: u32 = 1 << 31;

/// The number of a living occupant that has no row. No slot waits at this position, since there are
/// fewer slots.
const NO_ROW: u32 = u32::MAX;

/// The record of a slot, in eight bytes.
///
/// | Slot | Mark | Number |
/// |---|---|---|
/// | of a living occupant without a row | its generation | the greatest |
/// | of a living occupant with a row below the greatest | its generation | the row |
/// | of a living occupant with the greatest row | its generation and the bit | the greatest |
/// | that waits | the next generation and the bit | the position |
/// | that is retired | the bit | the last generation |
#[derive(Clone, Copy)]
pub(crate) struct PackedSlot {
    mark: u32,
    number: u32,
}

impl Model for PackedSlot {
    ghost use Rattle.ent_alloc.specs.declared.slot_record.SlotRecord.{SlotRecord};
    ghost use Rattle.ent_alloc.specs.Living.{HasGeneration};
    ghost use Rattle.ent_alloc.specs.Packed.{record_of, mark_with, number_with};
    ghost use Rattle.ent_alloc.specs.Packed.{mark-record_of, number-record_of};

    ghost Value = { SlotRecord };

    ghost view = { λ s. record_of s.mark s.number };

    ghost invariant = { λ s. HasGeneration (record_of s.mark s.number) };

    ghost inverse = { λ r. record {
      mark = mark_with r.generation r.occupancy;
      number = number_with r.generation r.occupancy;
    } };

    ghost inverse_ok = { λ s is i. record {
      mark = mark-record_of s.mark s.number i;
      number = number-record_of s.mark s.number i;
    } };
}

impl PackedSlot {
    /// A new slot, with its first occupant.
    pub(crate) fn new() -> Self
        ensures { result ≡ new_record }
    {
        PackedSlot {
            mark: 1,
            number: NO_ROW,
        }
    }

    /// The slot of a living occupant without a row.
    pub(crate) fn living(generation: u32) -> Self
        requires least { 1 ≤ generation }
        requires greatest { generation < 2 ^ 31 }
        ensures { result ≡ record { generation = generation; occupancy = Alive } }
    {
        PackedSlot {
            mark: generation,
            number: NO_ROW,
        }
    }

    /// The slot of a living occupant with a row.
    pub(crate) fn with_row(generation: u32, row: u32) -> Self
        requires least { 1 ≤ generation }
        requires greatest { generation < 2 ^ 31 }
        ensures { result ≡ record { generation = generation; occupancy = AliveWithRow row } }
    {
        let mark = if row == NO_ROW {
            generation + NOBODY
        } else {
            generation
        };
        PackedSlot { mark, number: row }
    }

    /// A slot that waits at a position for an occupant of this generation.
    pub(crate) fn pending(generation: u32, position: u32) -> Self
        requires least { 1 ≤ generation }
        requires greatest { generation < 2 ^ 31 }
        requires few { position < 2 ^ 32 - 1 }
        ensures { result ≡ record { generation = generation; occupancy = Pending position } }
    {
        PackedSlot {
            mark: generation + NOBODY,
            number: position,
        }
    }

    /// A slot that is retired. Its last occupant had this generation.
    pub(crate) fn retired(generation: u32) -> Self
        requires least { 1 ≤ generation }
        requires greatest { generation < 2 ^ 31 }
        ensures { result ≡ record { generation = generation; occupancy = Retired } }
    {
        PackedSlot {
            mark: NOBODY,
            number: generation,
        }
    }

    /// The slot of a record. No slot waits at the greatest number.
    pub(crate) fn of(slot: SlotRecord) -> Self
        requires generation { HasGeneration slot }
        requires few { (position : ℕ) → slot.occupancy ≡ Pending position → position < 2 ^ 32 - 1 }
        ensures { result ≡ slot }
    {
        let generation = slot.generation;
        match slot.occupancy {
            Occupancy::Alive => PackedSlot::living(generation),
            Occupancy::AliveWithRow { row } => PackedSlot::with_row(generation, row),
            Occupancy::Pending { position } => PackedSlot::pending(generation, position),
            Occupancy::Retired => PackedSlot::retired(generation),
        }
    }

    /// Whether a living entity has the slot.
    pub(crate) fn is_alive(&self) -> bool
        ensures { result ≡ is_alive self.now.occupancy }
    {
        self.mark < NOBODY || self.number == NO_ROW
    }

    /// Whether a living entity of this generation has the slot.
    pub(crate) fn is_occupied_by(&self, generation: u32) -> bool
        requires least { 1 ≤ generation }
        requires greatest { generation < 2 ^ 31 }
        ensures { result ≡ (self.now.generation == generation && is_alive self.now.occupancy) }
    {
        self.mark == generation || self.mark == generation + NOBODY && self.number == NO_ROW
    }

    /// The generation of the record.
    pub(crate) fn generation(&self) -> u32
        ensures value { result ≡ self.now.generation }
        ensures within { HasGeneration self.now }
    {
        let generation = self.mark & (NOBODY - 1);
        if generation == 0 {
            // It is at least 1. The compiler learns so that the bits of a handle are never 0.
            self.number.max(1)
        } else {
            generation
        }
    }

    /// The slot's occupancy.
    pub(crate) fn occupancy(&self) -> Occupancy
        ensures { result ≡ self.now.occupancy }
    {
        if self.mark < NOBODY && self.number == NO_ROW {
            Occupancy::Alive
        } else if self.mark < NOBODY || self.number == NO_ROW {
            Occupancy::AliveWithRow { row: self.number }
        } else if self.mark == NOBODY {
            Occupancy::Retired
        } else {
            Occupancy::Pending {
                position: self.number,
            }
        }
    }

    /// The slot's occupancy, if its generation is this one. A living occupant is looked for first.
    pub(crate) fn occupancy_at(&self, generation: u32) -> Option<Occupancy>
        requires least { 1 ≤ generation }
        requires greatest { generation < 2 ^ 31 }
        ensures { result ≡ (if self.now.generation == generation
            then Some self.now.occupancy
            else None) }
    {
        if self.mark == generation && self.number == NO_ROW {
            Some(Occupancy::Alive)
        } else if self.mark == generation {
            Some(Occupancy::AliveWithRow { row: self.number })
        } else if self.mark == generation + NOBODY && self.number == NO_ROW {
            Some(Occupancy::AliveWithRow { row: NO_ROW })
        } else if self.mark == generation + NOBODY {
            Some(Occupancy::Pending {
                position: self.number,
            })
        } else if self.mark == NOBODY && self.number == generation {
            Some(Occupancy::Retired)
        } else {
            None
        }
    }

    /// The record.
    pub(crate) fn record(&self) -> SlotRecord
        ensures { result ≡ self.now }
    {
        SlotRecord {
            generation: self.generation(),
            occupancy: self.occupancy(),
        }
    }

    /// Lets the slot, which waits, wait at another position.
    pub(crate) fn wait_at(&mut self, position: u32)
        requires waits { is_pending_from self.old.occupancy 0 ≡ true }
        requires few { position < 2 ^ 32 - 1 }
        ensures { self.new ≡ record self.old { occupancy = Pending position } }
    {
        self.number = position;
    }

    /// Gives the slot its next occupant, which has the generation that is returned.
    pub(crate) fn reuse(&mut self) -> u32
        ensures value { result ≡ self.old.generation }
        ensures reused { self.new ≡ reuse self.old }
        ensures within { HasGeneration self.old }
    {
        let generation = self.generation();
        *self = PackedSlot::living(generation);
        generation
    }
}
