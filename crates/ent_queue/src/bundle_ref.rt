ghost use Rattle.std.specs.Prelude.{◌≡◌, ◌+◌, ◌*◌, ◌≤◌, ◌↔◌, T, IsTrue, [], drop, length, map};
ghost use Rattle.std.specs.Prelude.{IfSome};
ghost use Rattle.std.specs.FinMap.{is_sorted};
ghost use Rattle.std.specs.Simd.{first_chunks};
ghost use Rattle.std.specs.Iterator.{YieldsFirst, UpTo, item_count};
ghost use Rattle.std.specs.Iterator.SizeHint.{IsWithinCount};
ghost use Rattle.ent_handle.specs.Component.{component_cmp};
ghost use Rattle.ent_storage.specs.Bundle.{IsBundle};
ghost use Rattle.ent_queue.specs.Unpacking.{number_2, unpacked_bundle, unpacked_item};

use crate::reading::{read_u8, read_u16, read_u64};
use ent_handle::ComponentId;
use std::marker::Model;

/// How many bytes an item has: its component's number, and its value.
const ITEM: usize = 9;

/// The components of one command and their values, read in place.
#[derive(Drop)]
pub struct BundleRef<'a> {
    items: &'a [[u8; ITEM]],
}

impl<'a> Model for BundleRef<'a> {
    ghost use Rattle.std.specs.Prelude.{ℤ, List, map};
    ghost use Rattle.ent_handle.specs.declared.component.ComponentId.{ComponentId};

    ghost Value = { List (ComponentId × ℤ) };

    ghost use Rattle.ent_storage.specs.Bundle.{IsBundle};
    ghost use Rattle.ent_queue.specs.Unpacking.{unpacked_item};

    ghost view = { λ b. map unpacked_item b.items.now };

    ghost invariant = { λ b. IsBundle (map unpacked_item b.items.now) };
}

impl<'a> BundleRef<'a> {
    /// The bundle at the front of the bytes, and the bytes after it.
    pub(crate) fn read(bytes: &'a [u8]) -> (Self, &'a [u8])
        requires header { 2 ≤ length bytes.now }
        requires items { 2 + 9 * number_2 bytes.now ≤ length bytes.now }
        requires is { IsBundle (unpacked_bundle bytes.now) }
        ensures value { result.0 ≡ unpacked_bundle bytes.now }
        ensures rest { result.1.now ≡ drop (9 * number_2 bytes.now) (drop 2 bytes.now) }
    {
        let (count, bytes) = read_u16(bytes);
        let (items, rest) = bytes.split_at(ITEM * usize::from(count));
        let (items, _) = items.as_chunks();
        (BundleRef { items }, rest)
    }

    /// Returns the number of components.
    pub fn len(&self) -> usize
        ensures { result ≡ length self.now }
    {
        self.items.len()
    }

    /// Returns `true` if there is none.
    pub fn is_empty(&self) -> bool
        ensures { IsTrue result ↔ (self.now ≡ []) }
    {
        self.items.is_empty()
    }

    /// Returns the components and their values, in strictly ascending order of number.
    pub fn iter(&self) -> BundleItems<'a>
        ensures items { result ≡ self.now }
        ensures rising { T (is_sorted component_cmp self.now) }
    {
        BundleItems { left: self.items }
    }
}

/// Yields the components of one command and their values, in strictly ascending order of number.
#[derive(Drop)]
pub struct BundleItems<'a> {
    left: &'a [[u8; ITEM]],
}

impl<'a> Model for BundleItems<'a> {
    ghost use Rattle.std.specs.Prelude.{ℤ, List, map};
    ghost use Rattle.ent_handle.specs.declared.component.ComponentId.{ComponentId};

    ghost Value = { List (ComponentId × ℤ) };

    ghost use Rattle.ent_queue.specs.Unpacking.{unpacked_item};

    ghost view = { λ b. map unpacked_item b.left.now };
}

impl Iterator for BundleItems<'_> {
    type Item = (ComponentId, i64);

    ghost next_gives = { YieldsFirst (λ items. items) };

    ghost remaining = { item_count (λ items. items) };

    fn next(&mut self) -> Option<(ComponentId, i64)> {
        let (first, others) = self.left.split_first()?;
        self.left = others;
        Some(item_of(first))
    }

    fn size_hint(&self) -> (usize, Option<usize>)
        ensures lower { IsWithinCount result.0 (item_count (λ items. items) self.now) }
        ensures upper { IfSome result.1 (UpTo (item_count (λ items. items) self.now)) }
        ensures exact { result ≡ (length self.now, Some (length self.now)) }
    {
        (self.left.len(), Some(self.left.len()))
    }
}

impl ExactSizeIterator for BundleItems<'_> {
    fn len(&self) -> usize {
        self.left.len()
    }
}

/// The component and its value.
fn item_of(bytes: &[u8; ITEM]) -> (ComponentId, i64)
    ensures { result ≡ unpacked_item bytes.now }
{
    let (id, value) = read_u8(bytes);
    let (value, _) = read_u64(value);
    (ComponentId(id), value.cast_signed())
}
