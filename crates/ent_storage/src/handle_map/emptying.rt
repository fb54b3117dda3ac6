ghost use Rattle.std.specs.Prelude.{◌≡◌, ◌+◌, ◌≤◌, ◌++◌, length, vec_len, vec_capacity};
ghost use Rattle.ent_storage.specs.Slots.{entries_from, AreCounted};

use crate::handle_map::slot::Slot;
use ent_handle::Handle;

/// Moves all values to the end of a list that has room for them, in slot order. There are so many.
pub(super) fn move_values<T: Drop>(slots: Vec<Slot<T>>, len: usize, out: &mut Vec<(Handle, T)>)
    requires counted { AreCounted 0 slots.items len }
    requires room { vec_len out.old + len ≤ vec_capacity out.old }
    ensures { out.new.items ≡ out.old.items ++ entries_from 0 slots.items }
{
    let mut index = 0;
    let mut rest = slots.into_iter();
    while let Some(slot) = rest.next() {
        if let Slot::Occupied { generation, value } = slot {
            out.push_reserved((generation.handle(index), value));
        }
        index += 1;
    }
}
