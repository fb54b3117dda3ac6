//! What a holder knows, and what a step makes of it.
ghost use Rattle.std.specs.Prelude.{◌≡◌, [], ◌++◌, take, drop};

use atomic_table::{Join, Play, Split};
use std::collections::LinkedList;

/// What a holder knows: the records of those that it represents. No value of it is ever made.
pub type HeldRecords<R> = LinkedList<R>;

/// A new holder, which has no record.
pub(crate) struct NewHolder;

impl<R> Play<(), HeldRecords<R>> for NewHolder {
    ghost then = { λ step before found after. after.0 ≡ [] };
}

/// The first record moves to a holder of its own.
pub(crate) struct SplitFirst;

impl<R> Split<HeldRecords<R>> for SplitFirst {
    ghost left = { λ records. drop 1 records };

    ghost right = { λ records. take 1 records };
}

/// The records of two holders in one.
pub(crate) struct Merge;

impl<R> Join<HeldRecords<R>> for Merge {
    ghost both = { λ some others. some ++ others };

    ghost spent = { [] };
}
