//! Worlds as bytes, and back.
ghost use Rattle.std.specs.Prelude.{◌≡◌, ◌≢◌, ◌+◌, ◌*◌, ◌^◌, ◌<◌, ◌≤◌, ◌++◌, ◌⊎◌, ℕ, List, length};
ghost use Rattle.std.specs.Prelude.{is_some};
ghost use Rattle.std.specs.Prelude.{true, None, Ok, Err, IfOk, IfErr, IfSome, IsSomeAnd, OnOk};
ghost use Rattle.std.specs.Prelude.{OnErr};
ghost use Rattle.std.specs.Prelude.{All, AllPairs, vec_len, vec_capacity};
ghost use Rattle.std.specs.List.{flat_map};
ghost use Rattle.std.specs.Int.{w64};
ghost use Rattle.std.specs.Int.RustNames.{FitsSigned};
ghost use Rattle.std.specs.FinMap as map;
ghost use Rattle.ent_handle.specs.declared.component.ComponentId.{ComponentId as Component};
ghost use Rattle.ent_handle.specs.Handle.{Handle as HandleValue};
ghost use Rattle.ent_alloc.specs.Entities.{Entities as Allocator};
ghost use Rattle.ent_alloc.specs.Image.{image as allocator_image, HasImage as HasAllocatorImage};
ghost use Rattle.ent_alloc.specs.FirstFault.{header_fault};
ghost use Rattle.ent_alloc.specs.Runs.{Step, IsRun, after_run, given_in_run};
ghost use Rattle.ent_alloc.specs.Spent.{AreSpent};
ghost use Rattle.ent_alloc.specs.Within.{slots_after_flush};
ghost use Rattle.ent_storage.specs.EntityMap.{EntityMap, birth_of, value_of};
ghost use Rattle.ent_storage.specs.Image.{entity_bytes, entities_bytes, IsBirth, AreStored};
ghost use Rattle.ent_world.specs.World.{World as WorldValue, IsWorld};
ghost use Rattle.ent_world.specs.Rows.{ArePlaces};
ghost use Rattle.ent_world.specs.Image.{header_bytes, framed, image, most, least, HasImage};
ghost use Rattle.ent_world.specs.FirstFault.{HasFault, MayTakeMemory, IsPartFault, IsRowFault};
ghost use Rattle.ent_world.specs.FirstFault.{IsRestFault};
ghost use Rattle.ent_world.specs.Within.{within, allowed, IsBeyond};

use crate::image_fault::WorldImageFault;
use crate::rows::{place_of, set_rows};
use crate::world::World;
use ent_alloc::{Entities, ImageFault, Living};
use ent_handle::{Handle, Memory, read_long, read_word, write_long, write_word};
use ent_storage::{Rows, StorageImageFault};
use std::alloc::Global;

/// The letters `FORGENW` and a zero, the first one lowest.
const MAGIC: u64 = 0x0057_4e45_4752_4f46;

/// The version of the format.
const VERSION: u32 = 1;

/// How many bytes stand before the allocator's part.
const HEADER: usize = 28;

/// How many bytes the allocator's part has before its slots, and for each slot.
const ALLOCATOR: usize = 40;

const SLOT: usize = 12;

/// Appends what comes before the allocator's part. There is room for it.
fn write_header(phase: u64, len: u64, out: &mut Vec<u8>)
    requires { vec_len out.old + 28 ≤ vec_capacity out.old }
    ensures items { out.new.items ≡ out.old.items ++ header_bytes phase len }
    ensures len { vec_len out.new ≡ vec_len out.old + 28 }
    ensures capacity { vec_capacity out.old ≤ vec_capacity out.new }
{
    write_long(out, MAGIC);
    write_word(out, VERSION);
    write_long(out, phase);
    write_long(out, len);
}

/// The phase, the allocator's part, and what follows it.
fn read_header(bytes: &[u8]) -> Result<(u64, &[u8], &[u8]), WorldImageFault>
    ensures found { IfOk result (λ p. bytes.now ≡ framed p.0 p.1.now p.2.now) }
    ensures phase { IfOk result (λ p. p.0 < 2 ^ 64) }
    ensures fits { IfOk result (λ p. length p.1.now < 2 ^ 64) }
    ensures refused { OnErr result ((phase : ℕ) (part rest : List ℕ) → phase < 2 ^ 64
        → length part < 2 ^ 64 → bytes.now ≢ framed phase part rest) }
    ensures no_memory { IfErr result (λ fault. fault ≢ WorldImageFault.Memory) }
    ensures fault { IfErr result (HasFault bytes.now) }
{
    if bytes.len() < 8 {
        return Err(WorldImageFault::Magic);
    }
    let (magic, rest) = read_long(bytes);
    if magic != MAGIC {
        return Err(WorldImageFault::Magic);
    }
    if bytes.len() < HEADER {
        return Err(WorldImageFault::Length);
    }
    let (version, rest) = read_word(rest);
    if version != VERSION {
        return Err(WorldImageFault::Version { version });
    }
    let (phase, rest) = read_long(rest);
    let (len, rest) = read_long(rest);
    if (rest.len() as u64) < len {
        return Err(WorldImageFault::Length);
    }
    let (part, rest) = rest.split_at(len as usize);
    Ok((phase, part, rest))
}

/// Appends the entities of these handles, which have rows. There is room for them and for `extra`
/// more bytes.
fn write_entities(
    entities: &Entities,
    storage: &Rows,
    handles: Living<'_>,
    width: u32,
    extra: u32,
    out: &mut Vec<u8>,
)
    requires placed { All (λ h. is_some (map.get entities.now.rows h) ≡ true) handles }
    requires places { ArePlaces entities.now.rows storage.now.places }
    requires few { width ≤ 256 }
    requires room { vec_len out.old + extra + length handles * (16 + 9 * width)
        ≤ vec_capacity out.old }
    ensures items { out.new.items
        ≡ out.old.items ++ flat_map (entity_bytes width storage.now.entities) handles.entry }
    ensures births { All (λ h. IsSomeAnd (birth_of storage.now.entities h) IsBirth)
        handles.entry }
    ensures values { All (λ h. (id : Component) → id.0 < width
        → IfSome (value_of storage.now.entities h id) (FitsSigned w64)) handles.entry }
    ensures room { vec_len out.new + extra ≤ vec_capacity out.new }
{
    for handle in handles {
        let Some(place) = place_of(entities, handle) else {
            unreachable!()
        };
        storage.write_entity(place, handle, width, out);
    }
}

/// The allocator of which these bytes are the image.
fn read_allocator(alloc: Global, bytes: &[u8]) -> Result<Entities, WorldImageFault>
    ensures found { IfOk result (λ e. allocator_image e ≡ bytes.now) }
    ensures has_image { IfOk result HasAllocatorImage }
    ensures exact { (e : Allocator) → HasAllocatorImage e → allocator_image e ≡ bytes.now
        → (result ≡ Ok e) ⊎ (result ≡ Err WorldImageFault.Memory) }
    ensures fault { IfErr result (λ fault. fault ≢ WorldImageFault.Memory
        → IsPartFault bytes.now fault) }
    ensures header { OnOk result (header_fault bytes.now ≡ None) }
    ensures memory { IfErr result (λ fault. fault ≡ WorldImageFault.Memory
        → header_fault bytes.now ≡ None) }
    ensures slots { IfErr result (λ fault. fault ≡ WorldImageFault.Memory
        → 40 < length bytes.now) }
{
    match Entities::read_image(alloc, bytes) {
        Ok(entities) => Ok(entities),
        Err(ImageFault::Memory) => Err(WorldImageFault::Memory),
        Err(fault) => Err(WorldImageFault::Entities(fault)),
    }
}

/// The living handles as a list, if none of them has a row.
fn list_living(
    alloc: Global,
    entities: &Entities,
    handles: Living<'_>,
) -> Result<Vec<Handle>, WorldImageFault>
    ensures items { IfOk result (λ list. list.items ≡ handles.entry) }
    ensures bare { OnOk result (All (λ h. map.get entities.now.rows h ≡ None) handles.entry) }
    ensures rows { IfErr result (λ fault. fault ≢ WorldImageFault.Memory
        → entities.now.rows ≢ map.empty) }
    ensures fault { IfErr result (λ fault. fault ≢ WorldImageFault.Memory
        → IsRowFault entities.now.rows handles.entry fault) }
    ensures memory { IfErr result (λ fault. fault ≡ WorldImageFault.Memory
        → 0 < length handles.entry) }
{
    let mut list = Vec::with_capacity(alloc, handles.len())?;
    for handle in handles {
        if entities.row(handle).is_some() {
            return Err(WorldImageFault::Row {
                index: handle.index(),
            });
        }
        list.push_reserved(handle);
    }
    Ok(list)
}

/// The storage of these entities, of which these are the bytes.
fn read_storage(
    alloc: Global,
    handles: &[Handle],
    room: usize,
    bytes: &[u8],
) -> Result<Rows, WorldImageFault>
    requires apart { AllPairs (λ g h. g ≢ h) handles.now }
    requires room { length handles.now ≤ room }
    ensures found { IfOk result (λ s. entities_bytes s.entities handles.now ≡ bytes.now) }
    ensures stored { IfOk result (λ s. AreStored s.entities handles.now) }
    ensures places { IfOk result (λ s. s.places ≡ handles.now) }
    ensures room { IfOk result (λ s. room ≤ length handles.now + s.spare) }
    ensures exact { (m : EntityMap) → AreStored m handles.now
        → entities_bytes m handles.now ≡ bytes.now → IfOk result (λ s. s.entities ≡ m) }
    ensures refused { (m : EntityMap) → AreStored m handles.now
        → entities_bytes m handles.now ≡ bytes.now
        → IfErr result (λ fault. fault ≡ WorldImageFault.Memory) }
    ensures fault { IfErr result (λ fault. fault ≢ WorldImageFault.Memory
        → IsRestFault handles.now bytes.now fault) }
    ensures memory { IfErr result (λ fault. fault ≡ WorldImageFault.Memory → 0 < room) }
{
    match Rows::read_image(alloc, handles, room, bytes) {
        Ok(storage) => Ok(storage),
        Err(StorageImageFault::Memory) => Err(WorldImageFault::Memory),
        Err(fault) => Err(WorldImageFault::Storage(fault)),
    }
}

/// What was read, if it has at most so many slots after its next flush.
fn allowed(read: Result<World, WorldImageFault>, most: u32) -> Result<World, WorldImageFault>
    ensures { result ≡ allowed (λ w. w.allocator) most read }
{
    let world = read?;
    let slots = world.total_after_flush();
    if slots > most {
        return Err(WorldImageFault::Bound { slots });
    }
    Ok(world)
}

impl World {
    /// Appends the image of the world: bytes from which [`read_image`](World::read_image) makes the
    /// same world again, with its limits, entities, births, components, waiting slots and requests.
    ///
    /// The image tells no more than that. Two worlds that no call can tell apart have the same
    /// image, whatever happened to them before. It grows with the slots that were made and the
    /// entities that are alive, not with the calls. There is room for `extra` more bytes then.
    ///
    /// # Errors
    ///
    /// `Memory` if there isn't enough memory for the bytes. The list is unchanged then.
    pub fn write_image(&self, extra: u32, out: &mut Vec<u8>) -> Result<(), Memory>
        ensures written { OnOk result (out.new.items ≡ out.old.items ++ image self.now) }
        ensures has_image { OnOk result (HasImage self.now) }
        ensures unchanged { OnErr result (out.new.items ≡ out.old.items) }
        ensures capacity { OnErr result (vec_capacity out.new ≡ vec_capacity out.old) }

        // Memory runs out only for a list that lacks room.
        ensures memory { OnErr result
            (vec_capacity out.old < vec_len out.old + most self.now + extra) }
        ensures room { OnOk result (vec_len out.new + extra ≤ vec_capacity out.new) }
    {
        let width = self.storage.width();
        let part = ALLOCATOR as u64 + SLOT as u64 * u64::from(self.entities.total());
        let rest = 4 + u64::from(self.entities.len()) * (16 + 9 * u64::from(width));
        let all = HEADER as u64 + part + rest + u64::from(extra);
        let Ok(all) = usize::try_from(all) else {
            return Err(Memory);
        };
        out.reserve(all)?;
        write_header(self.phase, part, out);
        self.entities.write_image_without_rows(out);
        write_word(out, width);
        write_entities(
            &self.entities,
            &self.storage,
            self.entities.iter(),
            width,
            extra,
            out,
        );
        Ok(())
    }

    /// The world whose image these bytes are, all of them.
    ///
    /// The bytes may come from anywhere. Each image that [`write_image`](World::write_image) writes
    /// is read as the same world, which gives no handle that was given before. Bytes that aren't
    /// the image of a world are refused.
    ///
    /// # Errors
    ///
    /// Each error except [`Memory`](WorldImageFault::Memory) says that no world has this image, by
    /// the first fault that the bytes have. `Memory` comes if there isn't enough memory for the
    /// slots, whatever they are.
    pub fn read_image(alloc: Global, bytes: &[u8]) -> Result<Self, WorldImageFault>
        ensures found { IfOk result (λ w. image w ≡ bytes.now) }
        ensures has_image { IfOk result HasImage }

        // The image of a world is read as this world, unless memory runs out.
        ensures exact { (w : WorldValue) → HasImage w → image w ≡ bytes.now
            → (result ≡ Ok w) ⊎ (result ≡ Err WorldImageFault.Memory) }

        // What is refused is the image of no world. It is refused for the first fault of the bytes.
        ensures refused { IfErr result (λ fault. fault ≢ WorldImageFault.Memory
            → (w : WorldValue) → HasImage w → image w ≢ bytes.now) }
        ensures fault { IfErr result (λ fault. fault ≢ WorldImageFault.Memory
            → HasFault bytes.now fault) }

        // Memory is asked for only after the allocator's part was found faultless up to its slots,
        // and only for slots. There are no more slots and entities than the bytes have.
        ensures memory { IfErr result (λ fault. fault ≡ WorldImageFault.Memory
            → MayTakeMemory bytes.now) }
        ensures bound { IfOk result (λ w. least w ≤ length bytes.now) }

        // Of what was given before the image was written, nothing is given again, whatever calls
        // come after it is read. Nor is anything given twice by these.
        ensures given_once { (w : WorldValue) (given : List HandleValue) → HasImage w
            → image w ≡ bytes.now → AreSpent w.allocator given → IfOk result (λ r.
            (steps : List Step) → IsRun r.allocator steps → AreSpent
            (after_run r.allocator steps) (given ++ given_in_run r.allocator steps)) }
    {
        World::of_image(alloc, bytes)
    }

    /// The world whose image these bytes are, if it has at most `most` slots after its next flush.
    /// So the flush takes no more memory than so many slots and handles do.
    ///
    /// # Errors
    ///
    /// Those of [`read_image`](World::read_image), and then [`Bound`](WorldImageFault::Bound) if
    /// there would be more slots.
    pub fn read_image_within(
        alloc: Global,
        bytes: &[u8],
        most: u32,
    ) -> Result<Self, WorldImageFault>
        ensures found { IfOk result (λ w. image w ≡ bytes.now) }
        ensures has_image { IfOk result HasImage }

        // A flush of what is read leaves no more slots than are allowed.
        ensures within { IfOk result (λ w. slots_after_flush w.allocator ≤ most) }

        // The image of a world is read as this world, unless memory runs out, exactly if it has no
        // more slots then. All else is refused for a fault of the bytes, or for the bound if they
        // have none.
        ensures exact { (w : WorldValue) → HasImage w → image w ≡ bytes.now
            → (result ≡ within most w.allocator w) ⊎ (result ≡ Err WorldImageFault.Memory) }
        ensures fault { IfErr result (λ fault. fault ≢ WorldImageFault.Memory
            → HasFault bytes.now fault ⊎ IsBeyond bytes.now most fault) }
        ensures memory { IfErr result (λ fault. fault ≡ WorldImageFault.Memory
            → MayTakeMemory bytes.now) }
        ensures bound { IfOk result (λ w. least w ≤ length bytes.now) }
    {
        allowed(World::read_image(alloc, bytes), most)
    }

    /// Returns the number of slots after the next flush.
    #[must_use]
    pub fn total_after_flush(&self) -> u32
        ensures { result ≡ slots_after_flush self.now.allocator }
    {
        self.entities.total_after_flush()
    }

    /// What `read_image` returns.
    fn of_image(alloc: Global, bytes: &[u8]) -> Result<Self, WorldImageFault>
        ensures found { IfOk result (λ w. image w ≡ bytes.now) }
        ensures has_image { IfOk result HasImage }
        ensures exact { (w : WorldValue) → HasImage w → image w ≡ bytes.now
            → (result ≡ Ok w) ⊎ (result ≡ Err WorldImageFault.Memory) }
        ensures fault { IfErr result (λ fault. fault ≢ WorldImageFault.Memory
            → HasFault bytes.now fault) }
        ensures memory { IfErr result (λ fault. fault ≡ WorldImageFault.Memory
            → MayTakeMemory bytes.now) }
    {
        let (phase, part, rest) = read_header(bytes)?;
        let mut entities = read_allocator(alloc, part)?;
        let handles = list_living(alloc, &entities, entities.iter())?;
        let room = handles.len() + entities.top() as usize;
        let storage = read_storage(alloc, &handles, room, rest)?;
        set_rows(&mut entities, 0, &handles);
        Ok(World {
            entities,
            storage,
            phase,
            alloc,
        })
    }
}
