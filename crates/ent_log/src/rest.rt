ghost use Rattle.std.specs.Prelude.{◌≡◌, [], ◌∷◌, ◌++◌, IfSome, IfNone, IsTrue, false};
ghost use Rattle.std.specs.Vec.Iter.{into_iter_items};
ghost use Rattle.ent_log.specs.Logs.{entries_of};

use crate::entry::Entry;
use crate::log::Log;
use std::alloc::Global;
use std::marker::Model;
use std::vec::IntoIter;

/// The entries of logs that are left: those of one log, and then all logs behind it.
#[derive(Drop)]
pub(crate) struct Rest<C> {
    entries: IntoIter<Entry<C>, Global>,
    logs: IntoIter<Log<C>, Global>,
}

impl<C> Model for Rest<C> {
    ghost use Rattle.std.specs.Prelude.{List, ◌++◌};
    ghost use Rattle.std.specs.Vec.Iter.{into_iter_items};
    ghost use Rattle.ent_log.specs.declared.entry.Entry.{Entry};
    ghost use Rattle.ent_log.specs.Logs.{entries_of};

    ghost Value = { List (Entry C) };

    ghost view = { λ r. into_iter_items r.entries ++ entries_of (into_iter_items r.logs) };
}

impl<C: Drop> Rest<C> {
    /// All entries of these logs.
    pub(crate) fn of(alloc: Global, logs: Vec<Log<C>>) -> Self
        ensures { result ≡ entries_of logs.items }
    {
        Rest {
            entries: Vec::new(alloc).into_iter(),
            logs: logs.into_iter(),
        }
    }

    /// Takes the first entry out.
    pub(crate) fn take_next(&mut self) -> Option<Entry<C>>
        ensures first { IfSome result (λ entry. self.old ≡ entry ∷ self.new) }
        ensures none { IfNone result (self.old ≡ []) }
        ensures done { IfNone result (self.new ≡ []) }
    {
        first_of(&mut self.entries, &mut self.logs)
    }
}

/// Takes the first entry out of these entries, or of the first of these logs that has one.
fn first_of<C: Drop>(
    entries: &mut IntoIter<Entry<C>, Global>,
    logs: &mut IntoIter<Log<C>, Global>,
) -> Option<Entry<C>>
    ensures first { IfSome result (λ entry.
        into_iter_items entries.old ++ entries_of (into_iter_items logs.old)
        ≡ entry ∷ (into_iter_items entries.new ++ entries_of (into_iter_items logs.new))) }
    ensures none { IfNone result
        (into_iter_items entries.old ++ entries_of (into_iter_items logs.old) ≡ []) }
    ensures done { IfNone result
        (into_iter_items entries.new ++ entries_of (into_iter_items logs.new) ≡ []) }
{
    let mut next = entries.next();
    while next.is_none() && open_next(entries, logs) {
        next = entries.next();
    }
    next
}

/// Goes on to the entries of the first of these logs, if there is one.
// It is apart: then a loop over entries keeps in registers only what it needs at each of them.
#[cold]
#[inline(never)]
fn open_next<C: Drop>(
    entries: &mut IntoIter<Entry<C>, Global>,
    logs: &mut IntoIter<Log<C>, Global>,
) -> bool
    ensures opened { IsTrue result
        → into_iter_items logs.old ≡ into_iter_items entries.new ∷ into_iter_items logs.new }
    ensures none { result ≡ false → into_iter_items logs.old ≡ [] }
    ensures none_left { result ≡ false → into_iter_items logs.new ≡ [] }
    ensures same { result ≡ false → into_iter_items entries.new ≡ into_iter_items entries.old }
{
    match logs.next() {
        Some(log) => {
            *entries = log.into_entries();
            true
        }
        None => false,
    }
}
