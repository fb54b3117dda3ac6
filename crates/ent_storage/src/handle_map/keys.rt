ghost use Rattle.std.specs.Prelude.{◌≡◌, ⊤, Some, length, map, IfSome};
ghost use Rattle.std.specs.Iterator.{YieldsFirst, YieldsLast, UpTo, item_count};
ghost use Rattle.std.specs.Iterator.SizeHint.{IsWithinCount};

use crate::handle_map::iter::Iter;
use ent_handle::Handle;
use std::marker::Model;

/// An iterator over the handles of a map that have a value, in slot order.
///
/// It is created by [`HandleMap::keys`](super::HandleMap::keys). It borrows the map and copies
/// nothing.
///
/// ```
/// use forgeni::{Entities, HandleMap};
///
/// let mut entities = Entities::new();
/// let mut burning = HandleMap::new();
/// for one in entities.alloc_many(4)? {
///     burning.insert(one, 3)?;
/// }
/// let mut keys = burning.keys();
/// assert_eq!((keys.next(), keys.next_back()), (entities.iter().next(), entities.iter().last()));
/// # Ok::<(), Box<dyn std::error::Error>>(())
/// ```
#[derive(Drop)]
#[must_use]
pub struct Keys<'a, T> {
    entries: Iter<'a, T>,
}

impl<'a, T> Model for Keys<'a, T> {
    ghost use Rattle.std.specs.Prelude.{List, map};
    ghost use Rattle.std.specs.Coded.{coded_list};
    ghost use Rattle.ent_handle.specs.Handle.{Handle, handle_code};

    ghost Value = { List Handle };

    ghost coded = { coded_list handle_code };

    ghost view = { λ k. map (λ entry. entry.0) k.entries };
}

impl<'a, T> Keys<'a, T> {
    /// The handles of these entries.
    pub(super) fn new(entries: Iter<'a, T>) -> Self
        ensures { result ≡ map (λ entry. entry.0) entries.entry }
    {
        Keys { entries }
    }

    /// The same handles once more. It doesn't allocate.
    fn again(&self) -> Self
        ensures { result ≡ self.now }
    {
        Keys {
            entries: self.entries.again(),
        }
    }
}

impl<'a, T> Clone for Keys<'a, T> {
    ghost is_clone = { λ it copy. copy ≡ it };

    ghost is_infallible = { λ _. ⊤ };

    fn clone(&self) -> Result<Self, std::alloc::AllocError> {
        Ok(self.again())
    }
}

impl<'a, T> Iterator for Keys<'a, T> {
    type Item = Handle;

    ghost next_gives = { YieldsFirst (λ rest. rest) };

    ghost remaining = { item_count (λ rest. rest) };

    fn next(&mut self) -> Option<Handle> {
        match self.entries.next() {
            Some((handle, _)) => Some(handle),
            None => None,
        }
    }

    fn size_hint(&self) -> (usize, Option<usize>)
        ensures lower { IsWithinCount result.0 (item_count (λ rest. rest) self.now) }
        ensures upper { IfSome result.1 (UpTo (item_count (λ rest. rest) self.now)) }
        ensures exact { result ≡ (length self.now, Some (length self.now)) }
    {
        self.entries.size_hint()
    }
}

impl<'a, T> DoubleEndedIterator for Keys<'a, T> {
    ghost next_back_gives = { YieldsLast (λ rest. rest) };

    fn next_back(&mut self) -> Option<Handle> {
        match self.entries.next_back() {
            Some((handle, _)) => Some(handle),
            None => None,
        }
    }
}

impl<'a, T> ExactSizeIterator for Keys<'a, T> {
    fn len(&self) -> usize {
        self.entries.len()
    }
}
