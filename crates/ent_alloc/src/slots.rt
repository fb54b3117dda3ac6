ghost use Rattle.std.specs.Prelude.{◌≡◌, ℕ, ◌+◌, ◌-◌, ◌^◌, ◌<◌, ◌≤◌, ◌↔◌, ◌⊎◌, ◌≢◌};
ghost use Rattle.std.specs.Prelude.{◌*◌, IsTrue, IfOk, IfErr, OnOk, OnErr, IfSome, OnSome, IfNone};
ghost use Rattle.std.specs.Prelude.{true, []};
ghost use Rattle.std.specs.Prelude.{◌∷◌, ◌++◌, IsErrOf, Err, false};
ghost use Rattle.std.specs.Prelude.{length, take, drop, pos, slice_get, vec_len, vec_capacity};
ghost use Rattle.std.specs.Prelude.{AllPairs};
ghost use Rattle.std.specs.FinSet as set;
ghost use Rattle.std.specs.FinMap as maps;
ghost use Rattle.ent_alloc.specs.Limits.{AreLimits};
ghost use Rattle.ent_alloc.specs.Sequential.{fresh as fresh_handles, next, stands_in};
ghost use Rattle.ent_alloc.specs.Slots.{lives, row_kept, waits_from};
ghost use Rattle.ent_alloc.specs.Image.{slots_bytes, AreSlots};
ghost use Rattle.ent_alloc.specs.FirstFault.{first_failing, slots_tests};

use crate::cloning::{overwrite, reserve_for};
use crate::fault::FreeFault;
use crate::image_fault::ImageFault;
use crate::image_slots::{SlotLists, read_slots, write_rowless_slots, write_slots};
use crate::limits::Limits;
use crate::living::Living;
use crate::packed_slot::PackedSlot;
use crate::slot_record;
use crate::slot_record::{Occupancy, first_occupant, make_all, reuse_all};
use ent_handle::{Handle, Memory};
use std::alloc::Global;
use std::marker::Model;

/// The slots that were made, and those of them that wait for their next occupant.
#[derive(Drop)]
pub(crate) struct Slots {
    pub(crate) limits: Limits,
    pub(crate) records: Vec<PackedSlot>,
    pub(crate) pending: Vec<u32>,
    pub(crate) retired: u32,
}

impl Model for Slots {
    ghost use Rattle.ent_alloc.specs.Roster.{Roster, roster_code};

    ghost Value = { Roster };

    ghost coded = { roster_code };

    ghost use Rattle.ent_alloc.specs.Slots.{roster_of, AreLinked};

    ghost view = { λ s. roster_of s.limits s.records.items s.pending.items };

    ghost invariant = { λ s. AreLinked s.limits s.records.items s.pending.items s.retired };
}

impl Slots {
    ghost use Rattle.ent_alloc.specs.Roster.{Roster, freed_roster, retired_roster};

    pub(crate) fn new(alloc: Global, limits: Limits) -> Self
        ensures value { result ≡ record {
          limits = limits;
          live = set.empty;
          rows = maps.empty;
          pending = [];
          made = 0;
        } }
        ensures limited { AreLimits limits }
    {
        Slots {
            limits,
            records: Vec::new(alloc),
            pending: Vec::new(alloc),
            retired: 0,
        }
    }

    pub(crate) fn limits(&self) -> Limits
        ensures { result ≡ self.now.limits }
    {
        self.limits
    }

    /// How many slots were made.
    pub(crate) fn made(&self) -> u32
        ensures value { result ≡ self.now.made }
        ensures within { result ≤ self.now.limits.slots }
        ensures fits { self.now.limits.slots < 2 ^ 32 }
    {
        self.records.len() as u32
    }

    /// How many slots wait for their next occupant.
    pub(crate) fn waiting(&self) -> u32
        ensures value { result ≡ length self.now.pending }
        ensures within { result ≤ self.now.made }
        ensures few { self.now.made ≤ self.now.limits.slots }
        ensures fits { self.now.limits.slots < 2 ^ 32 }
    {
        self.pending.len() as u32
    }

    /// The position after the last slot that waits.
    pub(crate) fn top(&self) -> i64
        ensures value { result ≡ pos (length self.now.pending) }
        ensures within { length self.now.pending ≤ self.now.made }
        ensures few { self.now.made ≤ self.now.limits.slots }
        ensures fits { self.now.limits.slots < 2 ^ 32 }
    {
        self.pending.len() as i64
    }

    /// How many occupants live.
    pub(crate) fn live(&self) -> u32
        ensures { result ≡ set.len self.now.live }
    {
        self.made() - self.waiting() - self.retired
    }

    /// The living occupants, in slot order.
    pub(crate) fn occupants(&self) -> Living<'_>
        ensures living { set.from_list result ≡ self.now.live }
        ensures rising { AllPairs (λ g h. g.index < h.index) result }
        ensures count { length result ≡ set.len self.now.live }
    {
        Living::new(&self.records, self.live())
    }

    /// What has the handle's slot; `None` if the slot wasn't made or is at another generation.
    pub(crate) fn occupancy_of(&self, handle: Handle) -> Option<Occupancy>
        ensures lives { set.contains self.now.live handle ≡ lives result }
        ensures row { maps.get self.now.rows handle ≡ row_kept result }
        ensures waits { (from : ℕ)
            → stands_in (drop from self.now.pending) handle ≡ waits_from result from }
        ensures made { OnSome result (handle.index < self.now.made) }
    {
        slot_record::occupancy_of(&self.records, handle)
    }

    pub(crate) fn is_alive(&self, handle: Handle) -> bool
        ensures { result ≡ set.contains self.now.live handle }
    {
        slot_record::is_living(&self.records, handle)
    }

    /// The row that is kept with an occupant.
    pub(crate) fn row(&self, handle: Handle) -> Option<u32>
        ensures value { result ≡ maps.get self.now.rows handle }
        ensures alive { OnSome result (set.contains self.now.live handle ≡ true) }
    {
        match self.occupancy_of(handle) {
            Some(Occupancy::AliveWithRow { row }) => Some(row),
            Some(Occupancy::Alive | Occupancy::Pending { .. } | Occupancy::Retired) | None => None,
        }
    }

    /// Whether the handle's slot was made.
    pub(crate) fn is_made(&self, handle: Handle) -> bool
        ensures { IsTrue result ↔ (handle.index < self.now.made) }
    {
        (handle.index() as usize) < self.records.len()
    }

    /// Whether the handle is the first occupant of one of the next `count` slots to be made.
    pub(crate) fn is_next(&self, handle: Handle, count: u32) -> bool
        requires { self.now.made ≤ handle.index }
        ensures { result ≡ stands_in (fresh_handles self.now.made count) handle }
    {
        handle.generation() == 1 && handle.index() - self.made() < count
    }

    /// Keeps a row with an occupant.
    pub(crate) fn set_row(&mut self, handle: Handle, row: u32)
        requires { set.contains self.old.live handle ≡ true }
        ensures { self.new ≡ record self.old { rows = maps.insert self.old.rows handle row } }
    {
        self.records[handle.index() as usize] = PackedSlot::with_row(handle.generation(), row);
    }

    /// The handle that waits at a position.
    pub(crate) fn pending_at(&self, position: usize) -> Handle
        requires { position < length self.now.pending }
        ensures { slice_get self.now.pending position ≡ Some result }
    {
        let index = self.pending[position];
        Handle::from_parts(index, self.records[index as usize].generation())
    }

    /// The handle that waits with so many after it. `None` if no more than these wait.
    pub(crate) fn pending_before(&self, after: u64) -> Option<Handle>
        ensures some { IfSome result (λ h. slice_get self.now.pending
            (length self.now.pending - 1 - after) ≡ Some h) }
        ensures enough { OnSome result (after < length self.now.pending) }
        ensures none { IfNone result (length self.now.pending ≤ after) }
        ensures few { length self.now.pending < 2 ^ 32 }
    {
        // The sum overflows if more than these wait, and is the position then. So one addition
        // takes the place of a comparison, a subtraction and the test of the position.
        let (position, waits) = (u64::MAX - after).overflowing_add(self.pending.len() as u64);
        if waits {
            Some(self.pending_at(position as usize))
        } else {
            None
        }
    }

    /// Gives the slot that waits last its next occupant. `None` if no slot waits, and nothing
    /// changes then.
    pub(crate) fn reuse_last(&mut self) -> Option<Handle>
        ensures last { IfSome result (λ h.
            slice_get self.old.pending (length self.old.pending - 1) ≡ Some h) }
        ensures some { IfSome result (λ h. self.new ≡ record self.old {
          live = set.union self.old.live (set.from_list (h ∷ []));
          pending = take (length self.old.pending - 1) self.old.pending;
        }) }
        ensures none { IfNone result (self.old.pending ≡ []) }
        ensures unchanged { IfNone result (self.new ≡ self.old) }
    {
        let index = self.pending.pop()?;
        let generation = self.records[index as usize].reuse();
        Some(Handle::from_parts(index, generation))
    }

    /// Makes one slot, with its first occupant.
    pub(crate) fn make_one(&mut self) -> Result<Handle, Memory>
        requires { self.old.made < self.old.limits.slots }
        ensures first { IfOk result (λ h. h ≡ record { index = self.old.made; generation = 1 }) }
        ensures ok { IfOk result (λ h. self.new ≡ record self.old {
          live = set.union self.old.live (set.from_list (h ∷ []));
          made = self.old.made + 1;
        }) }
        ensures err { OnErr result (self.new ≡ self.old) }
    {
        let handle = first_occupant(self.made());
        self.records.push(PackedSlot::new())?;
        Ok(handle)
    }

    /// Brings to life the first occupants of `fresh` new slots and the handles that wait from the
    /// position `kept` on, and appends them. All room is asked for first: if memory runs out,
    /// nothing has changed.
    pub(crate) fn bring_to_life(
        &mut self,
        kept: usize,
        fresh: u32,
        out: &mut Vec<Handle>,
    ) -> Result<(), Memory>
        requires waiting { kept ≤ length self.old.pending }
        requires room { self.old.made + fresh ≤ self.old.limits.slots }
        ensures ok { OnOk result (self.new ≡ record self.old {
          live = set.union
              (set.union self.old.live (set.from_list (fresh_handles self.old.made fresh)))
              (set.from_list (drop kept self.old.pending));
          pending = take kept self.old.pending;
          made = self.old.made + fresh;
        }) }
        ensures born { OnOk result (out.new.items ≡ out.old.items
            ++ (fresh_handles self.old.made fresh ++ drop kept self.old.pending)) }
        ensures err { OnErr result (self.new ≡ self.old) }
        ensures unchanged { OnErr result (out.new.items ≡ out.old.items) }
        ensures capacity { OnErr result (vec_capacity out.new ≡ vec_capacity out.old) }
        ensures memory { OnErr result ((0 < fresh)
            ⊎ (vec_capacity out.old < vec_len out.old + (length self.old.pending - kept))) }
    {
        let reused = self.pending.len() - kept;
        self.records.reserve(fresh as usize)?;
        out.reserve(fresh as usize + reused)?;
        make_all(&mut self.records, fresh, out);
        reuse_all(&mut self.records, &self.pending[kept..], out);
        self.pending.truncate(kept);
        Ok(())
    }

    /// Takes the handle's entity out of its slot, which then waits after all others for the next
    /// one, or is retired after the last one.
    pub(crate) fn free(&mut self, handle: Handle) -> Result<Option<Handle>, FreeFault>
        ensures waits { OnOk result (handle.generation ≢ self.old.limits.generations
            → self.new ≡ freed_roster self.old handle) }
        ensures retired { OnOk result (handle.generation ≡ self.old.limits.generations
            → self.new ≡ retired_roster self.old handle) }
        ensures next { IfOk result (λ following. following ≡ next self.old.limits handle) }
        ensures lived { OnOk result (set.contains self.old.live handle ≡ true) }
        ensures not_alive { IsErrOf result FreeFault.NotAlive
            ↔ (set.contains self.old.live handle ≡ false) }
        ensures needs_flush { result ≢ Err FreeFault.NeedsFlush }
        ensures memory { IsErrOf result FreeFault.Memory
            → handle.generation ≢ self.old.limits.generations }
        ensures err { OnErr result (self.new ≡ self.old) }
    {
        if self.pending.len() < self.pending.capacity() {
            self.leave(handle)
        } else {
            self.leave_growing(handle)
        }
    }

    /// `leave`, if the list of the slots that wait has no room. It is apart, so that nothing is
    /// called if there is room, and the compiler keeps all numbers in registers.
    #[cold]
    #[inline(never)]
    fn leave_growing(&mut self, handle: Handle) -> Result<Option<Handle>, FreeFault>
        ensures waits { OnOk result (handle.generation ≢ self.old.limits.generations
            → self.new ≡ freed_roster self.old handle) }
        ensures retired { OnOk result (handle.generation ≡ self.old.limits.generations
            → self.new ≡ retired_roster self.old handle) }
        ensures next { IfOk result (λ following. following ≡ next self.old.limits handle) }
        ensures lived { OnOk result (set.contains self.old.live handle ≡ true) }
        ensures not_alive { IsErrOf result FreeFault.NotAlive
            ↔ (set.contains self.old.live handle ≡ false) }
        ensures needs_flush { result ≢ Err FreeFault.NeedsFlush }
        ensures memory { IsErrOf result FreeFault.Memory
            → handle.generation ≢ self.old.limits.generations }
        ensures err { OnErr result (self.new ≡ self.old) }
    {
        self.leave(handle)
    }

    /// Retires the slot of an entity of the last generation. It is apart, so that the compiler
    /// writes the records of other slots where nothing has to be moved between registers.
    #[cold]
    #[inline(never)]
    fn retire(&mut self, handle: Handle)
        requires lives { set.contains self.old.live handle ≡ true }
        ensures { self.new ≡ retired_roster self.old handle }
    {
        self.records[handle.index() as usize] = PackedSlot::retired(handle.generation());
        self.retired += 1;
    }

    /// `free`, with or without room in that list. The slot is looked up once.
    // Not inlined, its result goes through memory.
    #[inline(always)]
    fn leave(&mut self, handle: Handle) -> Result<Option<Handle>, FreeFault>
        ensures waits { OnOk result (handle.generation ≢ self.old.limits.generations
            → self.new ≡ freed_roster self.old handle) }
        ensures retired { OnOk result (handle.generation ≡ self.old.limits.generations
            → self.new ≡ retired_roster self.old handle) }
        ensures next { IfOk result (λ following. following ≡ next self.old.limits handle) }
        ensures lived { OnOk result (set.contains self.old.live handle ≡ true) }
        ensures not_alive { IsErrOf result FreeFault.NotAlive
            ↔ (set.contains self.old.live handle ≡ false) }
        ensures needs_flush { result ≢ Err FreeFault.NeedsFlush }
        ensures memory { IsErrOf result FreeFault.Memory
            → handle.generation ≢ self.old.limits.generations }
        ensures err { OnErr result (self.new ≡ self.old) }
    {
        let index = handle.index();
        // The generation, by the call whose contract says that it is in range.
        let generation = (handle.to_bits() >> 32) as u32;
        let Some(slot) = self.records.get_mut(index as usize) else {
            return Err(not_alive());
        };
        if !slot.is_occupied_by(generation) {
            return Err(not_alive());
        }
        if generation == self.limits.generations() {
            self.retire(handle);
            return Ok(None);
        }
        let position = self.pending.len() as u32;
        if self.pending.push(index).is_err() {
            return Err(FreeFault::Memory);
        }
        *slot = PackedSlot::pending(generation + 1, position);
        Ok(handle.following())
    }

    /// The same slots once more.
    pub(crate) fn try_clone(&self, alloc: Global) -> Result<Slots, Memory>
        ensures ok { IfOk result (λ clone. clone ≡ self.now) }
        ensures memory { OnErr result (0 < self.now.made) }
    {
        let mut clone = Slots::new(alloc, self.limits);
        clone.try_clone_from(self)?;
        Ok(clone)
    }

    /// Becomes the same as another. All room is asked for first: if memory runs out, nothing has
    /// changed.
    pub(crate) fn try_clone_from(&mut self, source: &Slots) -> Result<(), Memory>
        ensures ok { OnOk result (self.new ≡ source.now) }
        ensures err { OnErr result (self.new ≡ self.old) }
        ensures memory { OnErr result ((self.old.made < source.now.made)
            ⊎ (length self.old.pending < length source.now.pending)) }
    {
        reserve_for(&mut self.records, source.records.len())?;
        reserve_for(&mut self.pending, source.pending.len())?;
        overwrite(&mut self.records, &source.records);
        overwrite(&mut self.pending, &source.pending);
        self.limits = source.limits;
        self.retired = source.retired;
        Ok(())
    }

    /// Appends what an image has of the slots. There is room for it.
    pub(crate) fn write_image(&self, out: &mut Vec<u8>)
        requires { vec_len out.old + 12 * self.now.made ≤ vec_capacity out.old }
        ensures written { out.new.items ≡ out.old.items ++ slots_bytes self.now }
        ensures slots { AreSlots self.now }
    {
        write_slots(&self.records, out);
    }

    /// Appends what an image has of the slots, as if no occupant had a row. There is room for it.
    pub(crate) fn write_image_without_rows(&self, out: &mut Vec<u8>)
        requires { vec_len out.old + 12 * self.now.made ≤ vec_capacity out.old }
        ensures written { out.new.items
            ≡ out.old.items ++ slots_bytes (record self.now { rows = maps.empty }) }
        ensures slots { AreSlots (record self.now { rows = maps.empty }) }
        ensures len { vec_len out.new ≡ vec_len out.old + 12 * self.now.made }
        ensures capacity { vec_capacity out.old ≤ vec_capacity out.new }
    {
        write_rowless_slots(&self.records, out);
    }

    /// The slots that an image has: that many, of which so many wait.
    pub(crate) fn read_image(
        alloc: Global,
        limits: Limits,
        made: u32,
        waiting: u32,
        bytes: &[u8],
    ) -> Result<Slots, ImageFault>
        requires long { length bytes.now ≡ 12 * made }
        requires few { made ≤ limits.slots }
        requires wait { waiting ≤ made }
        ensures found { IfOk result (λ r. slots_bytes r ≡ bytes.now) }
        ensures slots { IfOk result AreSlots }
        ensures limits { IfOk result (λ r. r.limits ≡ limits) }
        ensures made { IfOk result (λ r. r.made ≡ made) }
        ensures waiting { IfOk result (λ r. length r.pending ≡ waiting) }
        ensures refused { IfErr result (λ fault. fault ≢ ImageFault.Memory → (r : Roster)
            → AreSlots r → r.limits ≡ limits → r.made ≡ made → length r.pending ≡ waiting
            → slots_bytes r ≢ bytes.now) }
        ensures fault { IfErr result (λ fault. fault ≢ ImageFault.Memory
            → first_failing (slots_tests limits.generations made waiting bytes.now) ≡ Some fault) }
        ensures faultless { OnOk result
            (first_failing (slots_tests limits.generations made waiting bytes.now) ≡ None) }
        ensures memory { IfErr result (λ fault. fault ≡ ImageFault.Memory → 0 < made) }
    {
        let SlotLists {
            records,
            pending,
            live,
        } = read_slots(alloc, limits, made, waiting, bytes)?;
        Ok(Slots {
            limits,
            records,
            pending,
            retired: made - waiting - live,
        })
    }
}

/// What `free` returns for a handle that isn't alive. It is apart, so that the compiler keeps no
/// error ready.
#[cold]
#[inline(never)]
fn not_alive() -> FreeFault
    ensures { result ≡ FreeFault.NotAlive }
{
    FreeFault::NotAlive
}
