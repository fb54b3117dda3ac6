//! Worlds as bytes, and back.
ghost use Rattle.std.specs.Prelude.{◌≡◌, ◌≢◌, ◌+◌, ◌^◌, ◌<◌, ◌≤◌, ◌++◌, ◌⊎◌, ℕ, length, Ok, Err};
ghost use Rattle.std.specs.Prelude.{List, IfOk, IfErr, OnOk, OnErr, vec_len, vec_capacity};
ghost use Rattle.ent_handle.specs.Bytes.{word};
ghost use Rattle.ent_world.specs.World.{World as WorldValue};
ghost use Rattle.ent_handle.specs.Handle.{Handle};
ghost use Rattle.ent_alloc.specs.Runs.{Step, IsRun, after_run, given_in_run};
ghost use Rattle.ent_alloc.specs.Spent.{AreSpent};
ghost use Rattle.ent_alloc.specs.Within.{slots_after_flush};
ghost use Rattle.ent_world.specs.Image.{most, least, HasImage};
ghost use Rattle.ent_world.specs.FirstFault.{HasFault, MayTakeMemory};
ghost use Rattle.ent_world.specs.Within.{within, allowed};
ghost use Rattle.ent_total.specs.Image.{image, before_count, IsBeyond, IsReadFrom};

use crate::world::World;
use ent_handle::{Memory, read_word, write_word};
use ent_world::WorldImageFault;
use std::alloc::Global;

/// How many bytes the count of spawned entities has. They are the last ones.
const COUNT: usize = 4;

impl World {
    /// Appends the image of the world: bytes from which [`read_image`](Self::read_image) makes the
    /// same world again, with its limits, entities, births, components, waiting slots and requests.
    ///
    /// The image has nothing else. Two worlds that no call can tell apart have the same image,
    /// whatever happened to them before. It grows with the slots that were made and the living
    /// entities, not with the calls.
    ///
    /// ```
    /// use forgeni::{ComponentId, World};
    ///
    /// const SPEED: ComponentId = ComponentId(0);
    ///
    /// let mut world = World::new();
    /// let cart = world.spawn(&[(SPEED, 40)])?;
    /// let mut image = Vec::new();
    /// world.write_image(&mut image)?;
    /// let again = World::read_image(&image)?;
    /// assert_eq!(again.get(cart, SPEED), Some(40));
    /// # Ok::<(), Box<dyn std::error::Error>>(())
    /// ```
    ///
    /// # Errors
    ///
    /// [`OutOfMemory`](Memory) if there isn't enough memory for the bytes. The list is unchanged
    /// then.
    pub fn write_image(&self, out: &mut Vec<u8>) -> Result<(), Memory>
        ensures written { OnOk result
            (out.new.items ≡ out.old.items ++ image self.now.world self.now.spawned) }
        ensures has_image { OnOk result (HasImage self.now.world) }
        ensures unchanged { OnErr result (out.new.items ≡ out.old.items) }

        // Memory runs out only for a list that lacks room.
        ensures memory { OnErr result
            (vec_capacity out.old < vec_len out.old + most self.now.world + 4) }
    {
        self.world.write_image(COUNT as u32, out)?;
        write_word(out, self.spawned);
        Ok(())
    }
}

/// The world whose image these bytes are, all of them, with this number.
///
/// # Errors
///
/// Each error except `Memory` says that no world has this image. `Memory` comes if there isn't
/// enough memory for what the image has, whatever it is.
pub fn read_world(alloc: Global, bytes: &[u8], number: u64) -> Result<World, WorldImageFault>
    ensures found { IfOk result (IsReadFrom bytes.now number) }

    // The image of a world is read as this world, unless memory runs out.
    ensures exact { (w : WorldValue) (spawned : ℕ) → HasImage w → spawned < 2 ^ 32
        → image w spawned ≡ bytes.now
        → (result ≡ Ok (record { world = w; number = number; spawned = spawned }))
        ⊎ (result ≡ Err WorldImageFault.Memory) }

    // What is refused is the image of no world. It is refused for the first fault of the bytes.
    ensures refused { IfErr result (λ fault. fault ≢ WorldImageFault.Memory
        → (w : WorldValue) (spawned : ℕ) → HasImage w → spawned < 2 ^ 32
        → image w spawned ≢ bytes.now) }
    ensures fault { IfErr result (λ fault. fault ≢ WorldImageFault.Memory
        → HasFault (before_count bytes.now) fault) }

    // Memory is asked for only after the allocator's part was found faultless up to its slots, and
    // only for slots. There are no more slots and entities than the bytes have.
    ensures memory { IfErr result (λ fault. fault ≡ WorldImageFault.Memory
        → MayTakeMemory (before_count bytes.now)) }
    ensures bound { IfOk result (λ w. least w.world + 4 ≤ length bytes.now) }

    // Of what was given before the image was written, nothing is given again, whatever calls come
    // after it is read. Nor is anything given twice by these.
    ensures given_once { (w : WorldValue) (spawned : ℕ) (given : List Handle) → HasImage w
        → spawned < 2 ^ 32 → image w spawned ≡ bytes.now → AreSpent w.allocator given
        → IfOk result (λ r. (steps : List Step) → IsRun r.world.allocator steps → AreSpent
        (after_run r.world.allocator steps) (given ++ given_in_run r.world.allocator steps)) }
{
    of_image(alloc, bytes, number)
}

/// The world whose image these bytes are, all of them, with this number, if it has at most `most`
/// slots after its next flush.
///
/// # Errors
///
/// Those of `read_world`, and then `Bound` if there would be more slots.
pub fn read_world_within(
    alloc: Global,
    bytes: &[u8],
    number: u64,
    most: u32,
) -> Result<World, WorldImageFault>
    ensures found { IfOk result (IsReadFrom bytes.now number) }

    // A flush of what is read leaves no more slots than are allowed.
    ensures within { IfOk result (λ w. slots_after_flush w.world.allocator ≤ most) }

    // The image of a world is read as this world, unless memory runs out, exactly if it has no more
    // slots then. All else is refused for a fault of the bytes, or for the bound if they have none.
    ensures exact { (w : WorldValue) (spawned : ℕ) → HasImage w → spawned < 2 ^ 32
        → image w spawned ≡ bytes.now → (result ≡ within most w.allocator
        (record { world = w; number = number; spawned = spawned }))
        ⊎ (result ≡ Err WorldImageFault.Memory) }
    ensures fault { IfErr result (λ fault. fault ≢ WorldImageFault.Memory
        → HasFault (before_count bytes.now) fault ⊎ IsBeyond bytes.now most fault) }
    ensures memory { IfErr result (λ fault. fault ≡ WorldImageFault.Memory
        → MayTakeMemory (before_count bytes.now)) }
    ensures bound { IfOk result (λ w. least w.world + 4 ≤ length bytes.now) }
{
    allowed(read_world(alloc, bytes, number), most)
}

/// What was read, if it has at most so many slots after its next flush.
fn allowed(read: Result<World, WorldImageFault>, most: u32) -> Result<World, WorldImageFault>
    ensures { result ≡ allowed (λ w. w.world.allocator) most read }
{
    let world = read?;
    let slots = world.world.total_after_flush();
    if slots > most {
        return Err(WorldImageFault::Bound { slots });
    }
    Ok(world)
}

/// What `read_world` returns.
fn of_image(alloc: Global, bytes: &[u8], number: u64) -> Result<World, WorldImageFault>
    ensures found { IfOk result (IsReadFrom bytes.now number) }
    ensures exact { (w : WorldValue) (spawned : ℕ) → HasImage w → spawned < 2 ^ 32
        → image w spawned ≡ bytes.now
        → (result ≡ Ok (record { world = w; number = number; spawned = spawned }))
        ⊎ (result ≡ Err WorldImageFault.Memory) }
    ensures fault { IfErr result (λ fault. fault ≢ WorldImageFault.Memory
        → HasFault (before_count bytes.now) fault) }
    ensures memory { IfErr result (λ fault. fault ≡ WorldImageFault.Memory
        → MayTakeMemory (before_count bytes.now)) }
{
    if bytes.len() < COUNT {
        return Err(WorldImageFault::Magic);
    }
    let (part, spawned) = split_count(bytes);
    let world = ent_world::World::read_image(alloc, part)?;
    Ok(World {
        world,
        number,
        spawned,
    })
}

/// The bytes before the count, and the count.
fn split_count(bytes: &[u8]) -> (&[u8], u32)
    requires { 4 ≤ length bytes.now }
    ensures { bytes.now ≡ result.0.now ++ word result.1 }
{
    let (part, count) = bytes.split_at(bytes.len() - COUNT);
    let (spawned, _) = read_word(count);
    (part, spawned)
}
