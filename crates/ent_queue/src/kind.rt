//! The byte that each kind of command begins with.

pub(crate) const SPAWN: u8 = 0;

pub(crate) const SPAWN_MANY: u8 = 1;

pub(crate) const INSERT: u8 = 2;

pub(crate) const REMOVE: u8 = 3;

pub(crate) const DESPAWN: u8 = 4;

pub(crate) const REFUSED: u8 = 5;
