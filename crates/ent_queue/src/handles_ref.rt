ghost use Rattle.std.specs.Prelude.{◌≡◌, ◌+◌, ◌*◌, ◌≤◌, ◌↔◌, IsTrue, [], drop, length, map, IfSome};
ghost use Rattle.std.specs.List.{All};
ghost use Rattle.std.specs.Iterator.{YieldsFirst, UpTo, item_count};
ghost use Rattle.std.specs.Iterator.SizeHint.{IsWithinCount};
ghost use Rattle.ent_handle.specs.Handle.{IsHandle};
ghost use Rattle.ent_queue.specs.Unpacking.{unpacked_handles, unpacked_handle};

use crate::reading::read_handle;
use ent_handle::Handle;
use std::marker::Model;

/// How many bytes a handle has.
const HANDLE: usize = 8;

/// The handles of one command, read in place.
#[derive(Drop)]
pub struct HandlesRef<'a> {
    handles: &'a [[u8; HANDLE]],
}

impl<'a> Model for HandlesRef<'a> {
    ghost use Rattle.std.specs.Prelude.{List, map};
    ghost use Rattle.std.specs.List.{All};
    ghost use Rattle.std.specs.Coded.{coded_list};
    ghost use Rattle.ent_handle.specs.Handle.{Handle, handle_code, IsHandle};

    ghost Value = { List Handle };

    ghost coded = { coded_list handle_code };

    ghost use Rattle.ent_queue.specs.Unpacking.{unpacked_handle};

    ghost view = { λ h. map unpacked_handle h.handles.now };

    ghost invariant = { λ h. All IsHandle (map unpacked_handle h.handles.now) };
}

impl<'a> HandlesRef<'a> {
    /// That many handles at the front of the bytes, and the bytes after them.
    pub(crate) fn read(bytes: &'a [u8], count: u32) -> (Self, &'a [u8])
        requires long { 8 * count ≤ length bytes.now }
        requires each { All IsHandle (unpacked_handles count bytes.now) }
        ensures value { result.0 ≡ unpacked_handles count bytes.now }
        ensures rest { result.1.now ≡ drop (8 * count) bytes.now }
    {
        let (handles, rest) = bytes.split_at(HANDLE * count as usize);
        let (handles, _) = handles.as_chunks();
        (HandlesRef { handles }, rest)
    }

    /// Returns the number of handles.
    pub fn len(&self) -> usize
        ensures { result ≡ length self.now }
    {
        self.handles.len()
    }

    /// Returns `true` if there is none.
    pub fn is_empty(&self) -> bool
        ensures { IsTrue result ↔ (self.now ≡ []) }
    {
        self.handles.is_empty()
    }

    /// The handles, in the order of the reply.
    pub fn iter(&self) -> Handles<'a>
        ensures { result ≡ self.now }
    {
        Handles {
            left: HandlesRef {
                handles: self.handles,
            },
        }
    }
}

/// Yields the handles of one command, in the order of the reply.
#[derive(Drop)]
pub struct Handles<'a> {
    left: HandlesRef<'a>,
}

impl<'a> Model for Handles<'a> {
    ghost use Rattle.std.specs.Prelude.{List};
    ghost use Rattle.std.specs.Coded.{coded_list};
    ghost use Rattle.ent_handle.specs.Handle.{Handle, handle_code};

    ghost Value = { List Handle };

    ghost coded = { coded_list handle_code };

    ghost view = { λ h. h.left };
}

impl Iterator for Handles<'_> {
    type Item = Handle;

    ghost next_gives = { YieldsFirst (λ handles. handles) };

    ghost remaining = { item_count (λ handles. handles) };

    fn next(&mut self) -> Option<Handle> {
        let left = &mut self.left;
        let (first, others) = left.handles.split_first()?;
        left.handles = others;
        Some(handle_of(first))
    }

    fn size_hint(&self) -> (usize, Option<usize>)
        ensures lower { IsWithinCount result.0 (item_count (λ handles. handles) self.now) }
        ensures upper { IfSome result.1 (UpTo (item_count (λ handles. handles) self.now)) }
        ensures exact { result ≡ (length self.now, Some (length self.now)) }
    {
        (self.left.len(), Some(self.left.len()))
    }
}

impl ExactSizeIterator for Handles<'_> {
    fn len(&self) -> usize {
        self.left.len()
    }
}

/// The handle that these bytes are.
fn handle_of(bytes: &[u8; HANDLE]) -> Handle
    requires { IsHandle (unpacked_handle bytes.now) }
    ensures { result ≡ unpacked_handle bytes.now }
{
    read_handle(bytes).0
}
