//! Allocators as bytes, and back.
ghost use Rattle.std.specs.Prelude.{◌≡◌, ◌≢◌, ◌+◌, ◌-◌, ◌*◌, ◌^◌, ◌<◌, ◌≤◌, ◌++◌, ℕ, List};
ghost use Rattle.std.specs.Prelude.{IfOk, IfErr, IfSome, IfNone, OnOk, OnErr, Ok, Err, Some, None};
ghost use Rattle.std.specs.Prelude.{◌⊎◌};
ghost use Rattle.std.specs.Prelude.{length, vec_len, vec_capacity};
ghost use Rattle.ent_handle.specs.Handle.{Handle};
ghost use Rattle.ent_alloc.specs.Entities.{Entities, without_rows};
ghost use Rattle.ent_alloc.specs.Runs.{Step, IsRun, after_run, given_in_run};
ghost use Rattle.ent_alloc.specs.Spent.{AreSpent};
ghost use Rattle.ent_alloc.specs.Within.{slots_after_flush, within, allowed, IsBeyond};
ghost use Rattle.ent_alloc.specs.Image.{header, numbers_bytes, header_bytes, image, HasImage};
ghost use Rattle.ent_alloc.specs.Image.{kept_bytes};
ghost use Rattle.ent_alloc.specs.ImageRecords.{AreNumbers, AreServed};
ghost use Rattle.ent_alloc.specs.FirstFault.{first_failing, front_tests, first_fault, header_fault};
ghost use Rattle.ent_alloc.specs.declared.image.Header.{Header};

use crate::asking::MOST;
use crate::entities::Entities;
use crate::image_fault::ImageFault;
use crate::image_slots::SLOT;
use crate::limits::Limits;
use crate::requests::Requests;
use crate::slots::Slots;
use ent_handle::{Memory, read_long, read_word, write_long, write_word};
use std::alloc::Global;

/// The letters `FORGENI` and a zero, the first one lowest.
const MAGIC: u64 = 0x0049_4e45_4752_4f46;

/// The version of the format.
const VERSION: u32 = 1;

/// How many bytes stand before the slots.
const HEADER: usize = 40;

/// The numbers before the slots.
#[derive(Clone, Copy)]
pub(crate) struct Header {
    slots: u32,
    generations: u32,
    made: u32,
    waiting: u32,
    reserved: u32,
    asked: u64,
}

/// Appends what comes before the slots. There is room for it.
fn write_header(header: Header, out: &mut Vec<u8>)
    requires { vec_len out.old + 40 ≤ vec_capacity out.old }
    ensures items { out.new.items ≡ out.old.items ++ header_bytes header }
    ensures len { vec_len out.new ≡ vec_len out.old + 40 }
    ensures capacity { vec_capacity out.old ≤ vec_capacity out.new }
{
    write_long(out, MAGIC);
    write_word(out, VERSION);
    write_word(out, header.slots);
    write_word(out, header.generations);
    write_word(out, header.made);
    write_word(out, header.waiting);
    write_word(out, header.reserved);
    write_long(out, header.asked);
}

/// The numbers of a header.
fn read_numbers(bytes: &[u8]) -> (Header, &[u8])
    requires { 28 ≤ length bytes.now }
    ensures bytes { bytes.now ≡ numbers_bytes result.0 ++ result.1.now }
    ensures fits { AreNumbers result.0 }
{
    let (slots, rest) = read_word(bytes);
    let (generations, rest) = read_word(rest);
    let (made, rest) = read_word(rest);
    let (waiting, rest) = read_word(rest);
    let (reserved, rest) = read_word(rest);
    let (asked, rest) = read_long(rest);
    let header = Header {
        slots,
        generations,
        made,
        waiting,
        reserved,
        asked,
    };
    (header, rest)
}

/// What comes before the slots, and the bytes of the slots.
fn read_header(bytes: &[u8]) -> Result<(Header, &[u8]), ImageFault>
    ensures found { IfOk result (λ h. bytes.now ≡ header_bytes h.0 ++ h.1.now) }
    ensures fits { IfOk result (λ h. AreNumbers h.0) }
    ensures refused { OnErr result ((h : Header) (rest : List ℕ)
        → bytes.now ≢ header_bytes h ++ rest) }
    ensures fault { IfErr result (λ fault. first_failing (front_tests bytes.now) ≡ Some fault) }
    ensures faultless { OnOk result (first_failing (front_tests bytes.now) ≡ None) }
    ensures no_memory { IfErr result (λ fault. fault ≢ ImageFault.Memory) }
{
    if bytes.len() < 8 {
        return Err(ImageFault::Magic);
    }
    let (magic, rest) = read_long(bytes);
    if magic != MAGIC {
        return Err(ImageFault::Magic);
    }
    if bytes.len() < HEADER {
        return Err(ImageFault::Length {
            expected: HEADER as u64,
        });
    }
    let (version, rest) = read_word(rest);
    if version != VERSION {
        return Err(ImageFault::Version { version });
    }
    Ok(read_numbers(rest))
}

/// The requests of these numbers, if there were so many handles to give; `None` if no requests have
/// them.
fn requests_of(asked: u64, reserved: u32, available: u32) -> Option<Requests>
    ensures value { IfSome result (λ r. r ≡ record { asked = asked; served = reserved }) }
    ensures some { IfSome result (λ _. AreServed asked reserved available) }
    ensures none { IfNone result (¬ (AreServed asked reserved available)) }
{
    let given = u64::from(reserved);
    let available = u64::from(available);
    if asked <= MOST
        && given <= asked
        && given <= available
        && (available < asked || given == asked)
    {
        Some(Requests {
            asked,
            served: reserved,
        })
    } else {
        None
    }
}

/// What was read, if it has at most so many slots after its next flush.
fn allowed(read: Result<Entities, ImageFault>, most: u32) -> Result<Entities, ImageFault>
    ensures { result ≡ allowed most read }
{
    let entities = read?;
    let slots = entities.total_after_flush();
    if slots > most {
        return Err(ImageFault::Bound { slots });
    }
    Ok(entities)
}

impl Entities {
    /// Appends the image of the allocator: bytes from which [`read_image`](Self::read_image) makes
    /// the same allocator again, with its limits, living entities, rows, waiting slots and
    /// requests.
    ///
    /// The image has nothing else. Two allocators that no call can tell apart have the same image,
    /// whatever happened to them before. It has 40 bytes, and 12 more for each slot that was made.
    ///
    /// ```
    /// use forgeni::Entities;
    ///
    /// let mut entities = Entities::new();
    /// let player = entities.alloc()?;
    /// entities.try_set_row(player, 7)?;
    /// let mut image = Vec::new();
    /// entities.write_image(&mut image)?;
    /// let again = Entities::read_image(&image)?;
    /// assert_eq!((again.row(player), again.total()), (Some(7), 1));
    /// # Ok::<(), Box<dyn std::error::Error>>(())
    /// ```
    ///
    /// # Errors
    ///
    /// [`OutOfMemory`](Memory) if there isn't enough memory for the bytes. The list is unchanged
    /// then.
    pub fn write_image(&self, out: &mut Vec<u8>) -> Result<(), Memory>
        ensures written { OnOk result (out.new.items ≡ out.old.items ++ image self.now) }

        // What was written is an image as `read_image` asks: `exact` says that it is read as this
        // allocator. No two states have one image.
        ensures has_image { OnOk result (HasImage self.now) }
        ensures alone { (d e : Entities) → HasImage d → HasImage e → image d ≡ image e → d ≡ e }
        ensures unchanged { OnErr result (out.new.items ≡ out.old.items) }
        ensures capacity { OnErr result (vec_capacity out.new ≡ vec_capacity out.old) }

        // Memory runs out only for a list that lacks room.
        ensures memory { OnErr result
            (vec_capacity out.old < vec_len out.old + (40 + 12 * self.now.allocator.made)) }
    {
        out.reserve(HEADER + SLOT * self.total() as usize)?;
        write_header(self.header(), out);
        self.slots.write_image(out);
        Ok(())
    }

    /// Appends the image that the allocator has if none of its entities has a row, for a caller
    /// whose rows follow from what it writes beside it. There is room for it.
    pub fn write_image_without_rows(&self, out: &mut Vec<u8>)
        requires { vec_len out.old + (40 + 12 * self.now.allocator.made) ≤ vec_capacity out.old }
        ensures written { out.new.items ≡ out.old.items ++ image (without_rows self.now) }
        ensures has_image { HasImage (without_rows self.now) }
        ensures len { vec_len out.new ≡ vec_len out.old + (40 + 12 * self.now.allocator.made) }
        ensures capacity { vec_capacity out.old ≤ vec_capacity out.new }
    {
        write_header(self.header(), out);
        self.slots.write_image_without_rows(out);
    }

    /// Reads the allocator whose image is exactly these bytes.
    ///
    /// The bytes may come from anywhere. Each image that [`write_image`](Self::write_image) writes
    /// is read as the same allocator, which gives no handle that was given before. Bytes that
    /// aren't the image of an allocator are refused. The call allocates 8 bytes for each slot and 4
    /// for each slot that waits, which is no more than the slots take in the image. It allocates
    /// nothing before it has compared the number of slots with the length.
    ///
    /// A forged image can make the next [`flush`](Self::flush) take up to 68 GB, since it may say
    /// that each of 2^32 - 1 slots is reserved. For untrusted bytes, use
    /// [`read_image_within`](Self::read_image_within).
    ///
    /// ```
    /// use forgeni::Entities;
    ///
    /// let mut entities = Entities::new();
    /// let old = entities.alloc()?;
    /// entities.free(old)?;
    /// let mut image = Vec::new();
    /// entities.write_image(&mut image)?;
    ///
    /// let mut loaded = Entities::read_image(&image)?;
    /// // After the load no handle is given twice either.
    /// assert_eq!(loaded.alloc()?, entities.alloc()?);
    /// assert!(!loaded.is_alive(old));
    /// # Ok::<(), Box<dyn std::error::Error>>(())
    /// ```
    ///
    /// # Errors
    ///
    /// Each error except [`Memory`](ImageFault::Memory) says that no allocator has this image. The
    /// first fault in this order is returned:
    ///
    /// - [`ImageFault::Magic`] if the bytes don't begin as an image does.
    /// - [`ImageFault::Length`] if there are fewer than 40 bytes.
    /// - [`ImageFault::Version`] if the image is of another version of the format.
    /// - [`ImageFault::Limits`] if no allocator can have these limits.
    /// - [`ImageFault::Counts`] if more slots were made than the limits allow, or more wait than
    ///   were made.
    /// - [`ImageFault::Requests`] if no requests reserve that many handles.
    /// - [`ImageFault::Length`] if there are fewer or more bytes than an image of that many slots
    ///   has.
    /// - [`ImageFault::Slot`] with the first slot that is invalid.
    /// - [`ImageFault::Position`] with the first position that no slot waits at.
    ///
    /// [`ImageFault::Memory`] is returned if there isn't enough memory for the slots, whatever they
    /// are.
    pub fn read_image(alloc: Global, bytes: &[u8]) -> Result<Self, ImageFault>
        ensures found { IfOk result (λ e. image e ≡ bytes.now) }
        ensures has_image { IfOk result HasImage }

        // What is refused is the image of no allocator.
        ensures refused { IfErr result (λ fault. fault ≢ ImageFault.Memory → (e : Entities)
            → HasImage e → image e ≢ bytes.now) }

        // It is refused for the first fault of the bytes, and what has none is read.
        ensures fault { IfErr result (λ fault. fault ≢ ImageFault.Memory
            → first_fault bytes.now ≡ Some fault) }
        ensures faultless { OnOk result (first_fault bytes.now ≡ None) }

        // Memory is asked for only after all before the slots was found faultless, the number of
        // bytes too, and only if there are slots. What is kept has no more bytes than the slots.
        ensures memory { IfErr result (λ fault. fault ≡ ImageFault.Memory
            → header_fault bytes.now ≡ None) }
        ensures slots { IfErr result (λ fault. fault ≡ ImageFault.Memory
            → 40 < length bytes.now) }
        ensures bound { IfOk result (λ e. 40 + kept_bytes e.allocator ≤ length bytes.now) }

        // The image of an allocator is read as this allocator, unless memory runs out.
        ensures exact { (e : Entities) → HasImage e → image e ≡ bytes.now
            → (result ≡ Ok e) ⊎ (result ≡ Err ImageFault.Memory) }

        // Of what was given before the image was written, nothing is given again, whatever calls
        // come after it is read. Nor is anything given twice by these.
        ensures given_once { (e : Entities) (given : List Handle) → HasImage e
            → image e ≡ bytes.now → AreSpent e.allocator given → IfOk result (λ r.
            (steps : List Step) → IsRun r.allocator steps → AreSpent
            (after_run r.allocator steps) (given ++ given_in_run r.allocator steps)) }
    {
        Entities::of_image(alloc, bytes)
    }

    /// Reads the allocator whose image is exactly these bytes, if it has at most `most` slots after
    /// its next [`flush`](Self::flush).
    ///
    /// An image of 40 bytes may say that 4,294,967,295 handles are reserved. `read_image` reads it,
    /// and the next `flush` takes 8 bytes for each of them, and 8 more in its list. So use this
    /// call for untrusted bytes: it takes no more memory than `read_image`, and the next `flush`
    /// takes no more than `most` slots and `most` handles do.
    ///
    /// ```
    /// use forgeni::{Entities, ImageFault};
    ///
    /// let (mut entities, mut image) = (Entities::new(), Vec::new());
    /// entities.request_many(1_000_000)?;
    /// entities.write_image(&mut image)?;
    /// let refused = ImageFault::Bound { slots: 1_000_000 };
    /// assert_eq!((image.len(), Entities::read_image_within(&image, 1000).err()), (40, Some(refused)));
    /// assert!(Entities::read_image_within(&image, 1_000_000).is_ok());
    /// # Ok::<(), Box<dyn std::error::Error>>(())
    /// ```
    ///
    /// # Errors
    ///
    /// Those of [`read_image`](Self::read_image), followed by [`ImageFault::Bound`] if there would
    /// be more slots.
    pub fn read_image_within(alloc: Global, bytes: &[u8], most: u32) -> Result<Self, ImageFault>
        ensures found { IfOk result (λ e. image e ≡ bytes.now) }
        ensures has_image { IfOk result HasImage }

        // A flush of what is read leaves no more slots than are allowed.
        ensures within { IfOk result (λ e. slots_after_flush e.allocator ≤ most) }

        // The image of an allocator is read as this allocator, unless memory runs out, exactly if
        // it has no more slots then.
        ensures exact { (e : Entities) → HasImage e → image e ≡ bytes.now
            → (result ≡ within most e) ⊎ (result ≡ Err ImageFault.Memory) }

        // Else it is refused for the first fault of the bytes, or for the bound if they have none.
        ensures fault { IfErr result (λ fault. fault ≢ ImageFault.Memory
            → (first_fault bytes.now ≡ Some fault) ⊎ IsBeyond bytes.now most fault) }
        ensures faultless { OnOk result (first_fault bytes.now ≡ None) }

        // It asks for no more memory than `read_image`.
        ensures memory { IfErr result (λ fault. fault ≡ ImageFault.Memory
            → header_fault bytes.now ≡ None) }
        ensures slots { IfErr result (λ fault. fault ≡ ImageFault.Memory
            → 40 < length bytes.now) }
        ensures bound { IfOk result (λ e. 40 + kept_bytes e.allocator ≤ length bytes.now) }
    {
        allowed(Entities::read_image(alloc, bytes), most)
    }

    /// What `read_image` returns.
    fn of_image(alloc: Global, bytes: &[u8]) -> Result<Self, ImageFault>
        ensures found { IfOk result (λ e. image e ≡ bytes.now) }
        ensures has_image { IfOk result HasImage }
        ensures refused { IfErr result (λ fault. fault ≢ ImageFault.Memory → (e : Entities)
            → HasImage e → image e ≢ bytes.now) }
        ensures fault { IfErr result (λ fault. fault ≢ ImageFault.Memory
            → first_fault bytes.now ≡ Some fault) }
        ensures faultless { OnOk result (first_fault bytes.now ≡ None) }
        ensures memory { IfErr result (λ fault. fault ≡ ImageFault.Memory
            → header_fault bytes.now ≡ None) }
        ensures slots { IfErr result (λ fault. fault ≡ ImageFault.Memory
            → 40 < length bytes.now) }
    {
        let (header, slots) = read_header(bytes)?;
        let Some(limits) = Limits::new(header.slots, header.generations) else {
            return Err(ImageFault::Limits);
        };
        if header.made > header.slots || header.waiting > header.made {
            return Err(ImageFault::Counts);
        }
        let available = header.waiting + (header.slots - header.made);
        let Some(requests) = requests_of(header.asked, header.reserved, available) else {
            return Err(ImageFault::Requests);
        };
        let bytes_of_slots = SLOT as u64 * u64::from(header.made);
        if slots.len() as u64 != bytes_of_slots {
            return Err(ImageFault::Length {
                expected: HEADER as u64 + bytes_of_slots,
            });
        }
        let slots = Slots::read_image(alloc, limits, header.made, header.waiting, slots)?;
        Ok(Entities { slots, requests })
    }

    /// The numbers before the slots.
    fn header(&self) -> Header
        ensures { result ≡ header self.now }
    {
        Header {
            slots: self.slots.limits().slots(),
            generations: self.slots.limits().generations(),
            made: self.total(),
            waiting: self.top(),
            reserved: self.reserved(),
            asked: self.asked(),
        }
    }
}
