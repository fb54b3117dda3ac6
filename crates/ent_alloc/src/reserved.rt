ghost use Rattle.std.specs.Prelude.{◌≡◌, ◌+◌, ◌≤◌, ◌++◌, IfSome, length, vec_len, vec_capacity};
ghost use Rattle.std.specs.Iterator.{YieldsFirst, UpTo, item_count};
ghost use Rattle.std.specs.Iterator.SizeHint.{IsWithinCount};

use crate::packed_slot::PackedSlot;
use crate::slot_record::first_occupant;
use crate::slots::Slots;
use ent_handle::Handle;
use std::marker::Model;

/// The handles that one request was given, in the order of the reply: those of old slots, then the
/// fresh ones.
///
/// It borrows the allocator and copies nothing. Each handle is looked up when it is yielded, in
/// constant time.
///
/// ```
/// use forgeni::{Handle, Reserved, Source};
///
/// /// The last of three handles of any source.
/// fn third<S: Source>(source: &S, reserver: &mut S::Reserver) -> Option<Handle> {
///     let handles: Reserved<'_> = source.serve_many(reserver, 3).ok()?;
///     handles.last()
/// }
/// ```
#[derive(Drop)]
pub struct Reserved<'a> {
    records: &'a [PackedSlot],
    waiting: &'a [u32],
    index: u32,
    index_end: u32,
    left: usize,
}

impl<'a> Model for Reserved<'a> {
    ghost use Rattle.std.specs.Prelude.{List};
    ghost use Rattle.std.specs.Coded.{coded_list};
    ghost use Rattle.ent_handle.specs.Handle.{Handle, handle_code};

    ghost Value = { List Handle };

    ghost coded = { coded_list handle_code };

    ghost use Rattle.ent_alloc.specs.Reserved.{handles_of, AreToList};

    ghost view = { λ r. handles_of r.records.now r.waiting.now r.index r.index_end };

    ghost invariant = { λ r. AreToList r.records.now r.waiting.now r.index r.index_end r.left };
}

impl<'a> Reserved<'a> {
    ghost use Rattle.ent_alloc.specs.Reserved.{reserved_handles, IsInRange};

    /// The handles that wait from `position` up to, not including, `end`, and the first occupants
    /// of the slots from `index` up to, not including, `index_end`: `left` in all. A caller that
    /// asks for the number alone then waits for none of the ends.
    pub(crate) fn new(
        slots: &'a Slots,
        position: usize,
        end: usize,
        index: u32,
        index_end: u32,
        left: usize,
    ) -> Self
        requires { IsInRange slots.now position end index index_end left }
        ensures { result ≡ reserved_handles slots.now position end index index_end }
    {
        Reserved {
            records: &slots.records,
            waiting: &slots.pending[position..end],
            index,
            index_end,
            left,
        }
    }

    /// Appends the handles in their order to a list, which has to have room for all of them. It
    /// takes fewer instructions for each than `next`, which asks at every handle where it is from.
    #[inline]
    pub fn append_to(self, handles: &mut Vec<Handle>)
        requires { vec_len handles.old + length self ≤ vec_capacity handles.old }
        ensures items { handles.new.items ≡ handles.old.items ++ self.entry }
        ensures room { vec_capacity handles.new ≡ vec_capacity handles.old }
    {
        let records = self.records;
        for index in self.waiting {
            let generation = records[*index as usize].generation();
            handles.push_reserved(Handle::from_parts(*index, generation));
        }
        for index in self.index..self.index_end {
            handles.push_reserved(first_occupant(index));
        }
    }
}

impl Iterator for Reserved<'_> {
    type Item = Handle;

    ghost next_gives = { YieldsFirst (λ handles. handles) };

    ghost remaining = { item_count (λ handles. handles) };

    fn next(&mut self) -> Option<Handle> {
        if let Some((index, rest)) = self.waiting.split_first() {
            let handle = Handle::from_parts(*index, self.records[*index as usize].generation());
            self.waiting = rest;
            self.left -= 1;
            return Some(handle);
        }
        if self.index < self.index_end {
            let handle = first_occupant(self.index);
            self.index += 1;
            self.left -= 1;
            return Some(handle);
        }
        None
    }

    fn size_hint(&self) -> (usize, Option<usize>)
        ensures lower { IsWithinCount result.0 (item_count (λ handles. handles) self.now) }
        ensures upper { IfSome result.1 (UpTo (item_count (λ handles. handles) self.now)) }
        ensures exact { result ≡ (length self.now, Some (length self.now)) }
    {
        let left = self.len();
        (left, Some(left))
    }
}

impl ExactSizeIterator for Reserved<'_> {
    fn len(&self) -> usize {
        self.left
    }
}
