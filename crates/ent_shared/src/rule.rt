//! The rule over the cursor word and the records of all reservers, and what its steps tell.
ghost use Rattle.ent_shared.specs.Rule.{IsRuled, ReserveTells};
ghost use Rattle.ent_shared.specs.Record.{opened_records};
ghost use Rattle.std.specs.Prelude.{[], take, drop};
ghost use Rattle.ent_shared.specs.Moves.{met_in};

use crate::holders::HeldRecords;
use crate::record::Record;
use atomic_table::{Join, Play, Split, TableRule};
use ent_alloc::Entities;

/// What a phase begins with.
#[derive(Drop)]
pub(crate) struct Opening {
    pub(crate) entities: Entities,
    pub(crate) count: usize,
}

pub(crate) struct Cursor;

impl TableRule<(), HeldRecords<Record>, Opening> for Cursor {
    ghost holds = { λ opening. IsRuled opening.entities.allocator opening.count };

    ghost first = { λ opening. opened_records opening.entities.allocator 0 opening.count };
}

/// A reservation.
pub(crate) struct Reserve;

impl Play<(), HeldRecords<Record>> for Reserve {
    ghost then = { λ step before found after. ReserveTells step.first before found after };
}

/// The first reserver meets the second.
pub(crate) struct Meet;

impl Join<HeldRecords<Record>> for Meet {
    ghost both = { met_in };

    ghost spent = { [] };
}

/// The reserver that was met goes back to a holder of its own.
pub(crate) struct SplitSecond;

impl Split<HeldRecords<Record>> for SplitSecond {
    ghost left = { λ records. take 1 records };

    ghost right = { λ records. drop 1 records };
}
