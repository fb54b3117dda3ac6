ghost use Rattle.std.specs.Prelude.{◌≡◌, ⊤, Some, length, IfSome};
ghost use Rattle.std.specs.Iterator.{YieldsFirstBy, YieldsLastBy, UpTo, item_count};
ghost use Rattle.std.specs.Iterator.SizeHint.{IsWithinCount};

use ent_handle::Handle;
use std::marker::Model;

/// An iterator over the handles and values of a sparse map, in no particular order.
///
/// It is created by [`SparseMap::iter`](super::SparseMap::iter). It borrows the map and copies
/// nothing.
///
/// ```
/// use forgeni::{Handle, SparseMap};
///
/// let shields = SparseMap::from([("900v1".parse::<Handle>()?, 50), ("7v1".parse()?, 30)]);
/// let weakest = shields.iter().min_by_key(|(_, shield)| **shield);
/// assert_eq!(weakest.map(|(one, _)| one.index()), Some(7));
/// # Ok::<(), Box<dyn std::error::Error>>(())
/// ```
#[derive(Drop)]
#[must_use]
pub struct Iter<'a, T> {
    entries: &'a [(Handle, T)],
}

impl<'a, T> Model for Iter<'a, T> {
    ghost use Rattle.std.specs.Prelude.{List};
    ghost use Rattle.std.specs.Coded.{coded×, coded_list};
    ghost use Rattle.ent_handle.specs.Handle.{Handle, handle_code};

    ghost Value = { List (Handle × T) };

    ghost coded = { coded_list (coded× handle_code T.code) };

    ghost view = { λ it. it.entries.now };
}

impl<'a, T> Iter<'a, T> {
    /// These entries.
    pub(super) fn new(entries: &'a [(Handle, T)]) -> Self
        ensures { result ≡ entries.now }
    {
        Iter { entries }
    }

    /// The same entries once more. It doesn't allocate.
    fn again(&self) -> Self
        ensures { result ≡ self.now }
    {
        Iter {
            entries: self.entries,
        }
    }
}

impl<'a, T> Clone for Iter<'a, T> {
    ghost is_clone = { λ it copy. copy ≡ it };

    ghost is_infallible = { λ _. ⊤ };

    fn clone(&self) -> Result<Self, std::alloc::AllocError> {
        Ok(self.again())
    }
}

impl<'a, T> Iterator for Iter<'a, T> {
    type Item = (Handle, &'a T);

    ghost next_gives = { YieldsFirstBy (λ item. (item.0, item.1.now)) (λ rest. rest) };

    ghost remaining = { item_count (λ rest. rest) };

    fn next(&mut self) -> Option<(Handle, &'a T)> {
        let (entry, rest) = self.entries.split_first()?;
        self.entries = rest;
        Some((entry.0, &entry.1))
    }

    fn size_hint(&self) -> (usize, Option<usize>)
        ensures lower { IsWithinCount result.0 (item_count (λ rest. rest) self.now) }
        ensures upper { IfSome result.1 (UpTo (item_count (λ rest. rest) self.now)) }
        ensures exact { result ≡ (length self.now, Some (length self.now)) }
    {
        (self.entries.len(), Some(self.entries.len()))
    }
}

impl<'a, T> DoubleEndedIterator for Iter<'a, T> {
    ghost next_back_gives = { YieldsLastBy (λ item. (item.0, item.1.now)) (λ rest. rest) };

    fn next_back(&mut self) -> Option<(Handle, &'a T)> {
        let (entry, rest) = self.entries.split_last()?;
        self.entries = rest;
        Some((entry.0, &entry.1))
    }
}

impl<'a, T> ExactSizeIterator for Iter<'a, T> {
    fn len(&self) -> usize {
        self.entries.len()
    }
}
