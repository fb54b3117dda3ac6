ghost use Rattle.std.specs.Prelude.{◌≡◌, ◌+◌, ◌-◌, ◌^◌, ◌<◌, ◌≤◌, ◌++◌};
ghost use Rattle.std.specs.Prelude.{length, map, replicate, All, vec_len, vec_capacity};
ghost use Rattle.ent_handle.specs.Handle.{IsHandle};
ghost use Rattle.ent_alloc.specs.Sequential.{fresh};
ghost use Rattle.ent_alloc.specs.Slots.{new_record, is_alive, lives, occupancy_of, handle_at};
ghost use Rattle.ent_alloc.specs.Slots.{reused};

use crate::packed_slot::PackedSlot;
use ent_handle::Handle;

/// What has a slot.
#[derive(Clone, Copy)]
pub(crate) enum Occupancy {
    /// A living entity.
    Alive,
    /// A living entity, and the row that a program keeps with it.
    AliveWithRow { row: u32 },
    /// None: the slot waits at this position of the pending list.
    Pending { position: u32 },
    /// None: the last generation was freed, and the slot is not given again.
    Retired,
}

/// One slot that was made.
///
/// The generation is that of the living occupant, of the next one if the slot waits, or of the last
/// one if the slot is retired.
#[derive(Clone, Copy)]
pub(crate) struct SlotRecord {
    pub(crate) generation: u32,
    pub(crate) occupancy: Occupancy,
}

impl SlotRecord {
    /// Whether a living entity has the slot.
    pub(crate) fn is_alive(&self) -> bool
        ensures { result ≡ is_alive self.now.occupancy }
    {
        match self.occupancy {
            Occupancy::Alive | Occupancy::AliveWithRow { .. } => true,
            Occupancy::Pending { .. } | Occupancy::Retired => false,
        }
    }
}

/// What has the handle's slot; `None` if the slot wasn't made or is at another generation.
pub(crate) fn occupancy_of(records: &[PackedSlot], handle: Handle) -> Option<Occupancy>
    ensures { result ≡ occupancy_of records.now handle }
{
    let index = handle.index() as usize;
    // The generation, by the call whose contract says that it is in range.
    let generation = (handle.to_bits() >> 32) as u32;
    if index < records.len() {
        records[index].occupancy_at(generation)
    } else {
        None
    }
}

/// Whether the handle is that of the living occupant of its slot.
pub(crate) fn is_living(records: &[PackedSlot], handle: Handle) -> bool
    ensures { result ≡ lives (occupancy_of records.now handle) }
{
    let index = handle.index() as usize;
    // The generation, by the call whose contract says that it is in range.
    let generation = (handle.to_bits() >> 32) as u32;
    index < records.len() && records[index].is_occupied_by(generation)
}

/// The first occupant of a slot.
pub(crate) fn first_occupant(index: u32) -> Handle
    requires { index < 2 ^ 32 - 1 }
    ensures { result ≡ record { index = index; generation = 1 } }
{
    Handle::from_parts(index, 1)
}

/// Makes `count` slots, and appends their first occupants to a list. There is room in both.
pub(crate) fn make_all(records: &mut Vec<PackedSlot>, count: u32, out: &mut Vec<Handle>)
    requires room { vec_len records.old + count ≤ vec_capacity records.old }
    requires list_room { vec_len out.old + count ≤ vec_capacity out.old }
    requires indices { vec_len records.old + count < 2 ^ 32 }
    ensures records { records.new.items ≡ records.old.items ++ replicate count new_record }
    ensures listed { out.new.items ≡ out.old.items ++ fresh (vec_len records.old) count }
    ensures len { vec_len out.new ≡ vec_len out.old + count }
    ensures capacity { vec_capacity out.new ≡ vec_capacity out.old }
{
    let made = records.len() as u32;
    for index in made..made + count {
        records.push_reserved(PackedSlot::new());
        out.push_reserved(first_occupant(index));
    }
}

/// Gives each of these slots its next occupant, and appends the occupants to a list that has room
/// for them.
pub(crate) fn reuse_all(records: &mut [PackedSlot], indices: &[u32], out: &mut Vec<Handle>)
    requires made { All (λ index. index < length records.old) indices.now }
    requires handles { All (λ index. IsHandle (handle_at records.old index)) indices.now }
    requires room { vec_len out.old + length indices.now ≤ vec_capacity out.old }
    ensures records { records.new ≡ reused records.old indices.now }
    ensures listed { out.new.items ≡ out.old.items ++ map (handle_at records.old) indices.now }
{
    let start = out.len();
    // The list grows at once, so that no handle takes a test for room.
    out.resize(start + indices.len(), first_occupant(0))
        .unwrap();
    reuse_each(records, indices, &mut out[start..]);
}

/// Gives each of these slots its next occupant, and writes the occupants to places, one for each.
fn reuse_each(records: &mut [PackedSlot], indices: &[u32], places: &mut [Handle])
    requires made { All (λ index. index < length records.old) indices.now }
    requires handles { All (λ index. IsHandle (handle_at records.old index)) indices.now }
    requires places { length places.old ≡ length indices.now }
    ensures records { records.new ≡ reused records.old indices.now }
    ensures listed { places.new ≡ map (handle_at records.old) indices.now }
{
    // The compiler sees that both slices are as long.
    let places = &mut places[..indices.len()];
    for position in 0..indices.len() {
        let index = indices[position];
        let generation = records[index as usize].reuse();
        places[position] = Handle::from_parts(index, generation);
    }
}
