ghost use Rattle.std.specs.Prelude.{◌≡◌, ◌+◌, ◌^◌, ◌<◌, ◌∷◌, [], None, Some, length, All};
ghost use Rattle.std.specs.Prelude.{IfSome};
ghost use Rattle.std.specs.Iterator.{YieldsFirst, UpTo, item_count};
ghost use Rattle.std.specs.Iterator.SizeHint.{IsWithinCount};
ghost use Rattle.ent_alloc.specs.Slots.{occupants};
ghost use Rattle.ent_alloc.specs.Living.{HasGeneration, AreLeft};

use crate::packed_slot::PackedSlot;
use ent_handle::Handle;
use std::marker::Model;

/// An iterator over the handles of the living entities, in slot order.
///
/// It is created by [`Entities::iter`](crate::Entities::iter). It borrows the allocator and copies
/// nothing. Between two handles it looks at each slot once. After the last handle it looks at none.
///
/// ```
/// use forgeni::{Entities, Handle, Living};
///
/// fn nearest(mut living: Living<'_>, to: u32) -> Option<Handle> {
///     living.min_by_key(|one| one.index().abs_diff(to))
/// }
///
/// let mut entities = Entities::new();
/// let all = entities.alloc_many(10)?;
/// entities.free(all[4])?;
/// assert_eq!(nearest(entities.iter(), 4), Some(all[3]));
/// # Ok::<(), Box<dyn std::error::Error>>(())
/// ```
#[derive(Clone, Drop)]
pub struct Living<'a> {
    records: &'a [PackedSlot],
    index: u32,
    left: u32,
}

impl<'a> Model for Living<'a> {
    ghost use Rattle.std.specs.Prelude.{List};
    ghost use Rattle.std.specs.Coded.{coded_list};
    ghost use Rattle.ent_handle.specs.Handle.{Handle, handle_code};

    ghost Value = { List Handle };

    ghost coded = { coded_list handle_code };

    ghost use Rattle.ent_alloc.specs.Slots.{occupants};
    ghost use Rattle.ent_alloc.specs.Living.{AreLeft};

    ghost view = { λ l. occupants l.index l.records.now };

    ghost invariant = { λ l. AreLeft l.index l.records.now l.left };
}

impl<'a> Living<'a> {
    /// The living occupants of all slots. There are `left`.
    pub(crate) fn new(records: &'a [PackedSlot], left: u32) -> Self
        requires { AreLeft 0 records.now left }
        ensures { result ≡ occupants 0 records.now }
    {
        Living {
            records,
            index: 0,
            left,
        }
    }
}

impl Iterator for Living<'_> {
    type Item = Handle;

    ghost next_gives = { YieldsFirst (λ handles. handles) };

    ghost remaining = { item_count (λ handles. handles) };

    fn next(&mut self) -> Option<Handle> {
        if self.left == 0 {
            return None;
        }
        let Some((handle, rest)) = first_occupant_of(self.records, self.index) else {
            return None;
        };
        self.records = rest;
        self.index = handle.index() + 1;
        self.left -= 1;
        Some(handle)
    }

    fn size_hint(&self) -> (usize, Option<usize>)
        ensures lower { IsWithinCount result.0 (item_count (λ handles. handles) self.now) }
        ensures upper { IfSome result.1 (UpTo (item_count (λ handles. handles) self.now)) }
        ensures exact { result ≡ (length self.now, Some (length self.now)) }
    {
        let left = self.len();
        (left, Some(left))
    }
}

impl ExactSizeIterator for Living<'_> {
    fn len(&self) -> usize {
        self.left as usize
    }
}

/// The first living occupant of the slots from an index on, and the records after its own.
fn first_occupant_of<'a>(
    records: &'a [PackedSlot],
    index: u32,
) -> Option<(Handle, &'a [PackedSlot])>
    requires numbered { index + length records.now < 2 ^ 32 }
    requires generations { All HasGeneration records.now }
    ensures found { IfSome result (λ first. occupants index records.now
        ≡ first.0 ∷ occupants (first.0.index + 1) first.1.now) }
    ensures rest { IfSome result (λ first. first.0.index + 1 + length first.1.now
        ≡ index + length records.now) }
    ensures generations { IfSome result (λ first. All HasGeneration first.1.now) }
    ensures none { result ≡ None → occupants index records.now ≡ [] }
{
    for (position, record) in records.iter().enumerate() {
        if record.is_alive() {
            let handle = Handle::from_parts(index + position as u32, record.generation());
            return Some((handle, &records[position + 1..]));
        }
    }
    None
}
