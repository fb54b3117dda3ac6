ghost use Rattle.std.specs.Prelude.{◌≡◌, ⊤, Some, length, map, IfSome};
ghost use Rattle.std.specs.Iterator.{YieldsFirstRef, YieldsLastRef, UpTo, item_count};
ghost use Rattle.std.specs.Iterator.SizeHint.{IsWithinCount};

use crate::handle_map::iter::Iter;
use std::marker::Model;

/// An iterator over the values of a map, in slot order.
///
/// It is created by [`HandleMap::values`](super::HandleMap::values). It borrows the map and copies
/// nothing.
///
/// ```
/// use forgeni::HandleMap;
///
/// let mut healths = HandleMap::new();
/// healths.insert("0v1".parse()?, 100)?;
/// healths.insert("7v2".parse()?, 30)?;
/// assert_eq!(healths.values().rev().copied().collect::<Vec<_>>(), [30, 100]);
/// # Ok::<(), Box<dyn std::error::Error>>(())
/// ```
#[derive(Drop)]
#[must_use]
pub struct Values<'a, T> {
    entries: Iter<'a, T>,
}

impl<'a, T> Model for Values<'a, T> {
    ghost use Rattle.std.specs.Prelude.{List, map};
    ghost use Rattle.std.specs.Coded.{coded_list};

    ghost Value = { List T };

    ghost coded = { coded_list T.code };

    ghost view = { λ v. map (λ entry. entry.1) v.entries };
}

impl<'a, T> Values<'a, T> {
    /// The values of these entries.
    pub(super) fn new(entries: Iter<'a, T>) -> Self
        ensures { result ≡ map (λ entry. entry.1) entries.entry }
    {
        Values { entries }
    }

    /// The same values once more. It doesn't allocate.
    fn again(&self) -> Self
        ensures { result ≡ self.now }
    {
        Values {
            entries: self.entries.again(),
        }
    }
}

impl<'a, T> Clone for Values<'a, T> {
    ghost is_clone = { λ it copy. copy ≡ it };

    ghost is_infallible = { λ _. ⊤ };

    fn clone(&self) -> Result<Self, std::alloc::AllocError> {
        Ok(self.again())
    }
}

impl<'a, T> Iterator for Values<'a, T> {
    type Item = &'a T;

    ghost next_gives = { YieldsFirstRef (λ rest. rest) };

    ghost remaining = { item_count (λ rest. rest) };

    fn next(&mut self) -> Option<&'a T> {
        match self.entries.next() {
            Some((_, value)) => Some(value),
            None => None,
        }
    }

    fn size_hint(&self) -> (usize, Option<usize>)
        ensures lower { IsWithinCount result.0 (item_count (λ rest. rest) self.now) }
        ensures upper { IfSome result.1 (UpTo (item_count (λ rest. rest) self.now)) }
        ensures exact { result ≡ (length self.now, Some (length self.now)) }
    {
        self.entries.size_hint()
    }
}

impl<'a, T> DoubleEndedIterator for Values<'a, T> {
    ghost next_back_gives = { YieldsLastRef (λ rest. rest) };

    fn next_back(&mut self) -> Option<&'a T> {
        match self.entries.next_back() {
            Some((_, value)) => Some(value),
            None => None,
        }
    }
}

impl<'a, T> ExactSizeIterator for Values<'a, T> {
    fn len(&self) -> usize {
        self.entries.len()
    }
}
