//! The image of the allocator with which a trace begins.
ghost use Rattle.std.specs.Prelude.{◌≡◌, ◌≢◌, ◌+◌, Err, IfErr, IfOk, IfSome, string_bytes};
ghost use Rattle.tracecheck.specs.Beginning.{IsImageOf, MayBeUnread, fault_text};
ghost use Rattle.tracecheck.specs.Beginning.{refused_image_text};
ghost use Rattle.tracecheck.specs.Beginning.{unread_by};
ghost use Rattle.tracecheck.specs.declared.image.Unread.TheVariants.{Device};

use cli::{InputFault, Source, read_all};
use ent_alloc::{Entities, ImageFault};
use ent_handle::Memory;
use std::alloc::{AllocError, Global};

/// Why there is no allocator to begin with.
#[derive(Clone, Copy)]
pub enum Unread {
    /// The bytes are the image of no allocator.
    Fault(ImageFault),
    /// Memory ran out.
    Memory,
    /// The device failed.
    Device,
}

// Why there is no allocator, by what refuses the bytes.
fn unread_by(fault: ImageFault) -> Unread
    ensures { result ≡ unread_by fault }
{
    match fault {
        ImageFault::Memory => Unread::Memory,
        _ => Unread::Fault(fault),
    }
}

// The allocator whose image the bytes are.
fn entities_in(alloc: Global, bytes: &[u8]) -> Result<Entities, Unread>
    ensures found { IfOk result (IsImageOf bytes.now) }
    ensures unread { IfErr result (MayBeUnread bytes.now) }
    ensures unfailed { result ≢ Err Device }
{
    match Entities::read_image(alloc, bytes) {
        Ok(entities) => Ok(entities),
        Err(fault) => Err(unread_by(fault)),
    }
}

/// Reads the allocator whose image the device gives.
///
/// # Errors
///
/// - `Fault` if the bytes are the image of no allocator: the first fault that they have.
/// - `Memory` if there was no memory for the bytes or for the slots.
/// - `Device` if the device failed.
pub fn read_entities<M: Source>(alloc: Global, image: &mut M) -> Result<Entities, Unread>
    ensures found { IfOk result (λ e. IfSome (M.remaining image.old) (λ bytes. IsImageOf bytes e)) }
    ensures unread { IfErr result (λ unread.
        IfSome (M.remaining image.old) (λ bytes. MayBeUnread bytes unread)) }
    ensures failed { result ≡ Err Device → M.failures image.new ≡ M.failures image.old + 1 }
    ensures unfailed { result ≢ Err Device → M.failures image.new ≡ M.failures image.old }
{
    let bytes = match read_all(alloc, image, usize::MAX) {
        Ok(bytes) => bytes,
        Err(InputFault::Device) => return Err(Unread::Device),
        Err(InputFault::Memory | InputFault::TooLong) => return Err(Unread::Memory),
    };
    entities_in(alloc, &bytes)
}

/// The line that says why bytes are no image.
///
/// # Errors
///
/// `Memory`: there isn't enough memory for the text.
pub fn refused_image_text(alloc: Global, fault: ImageFault) -> Result<Vec<u8>, Memory>
    ensures { IfOk result (λ text. text.items ≡ refused_image_text fault) }
{
    let fault = fault_text(alloc, fault)?;
    let text = format!(in alloc; "refused image {fault}\n")?;
    Ok(text.into_bytes())
}

// What is wrong, and where.
fn fault_text(alloc: Global, fault: ImageFault) -> Result<String, AllocError>
    ensures { IfOk result (λ text. string_bytes text ≡ fault_text fault) }
{
    match fault {
        ImageFault::Magic => format!(in alloc; "magic"),
        ImageFault::Version { version } => format!(in alloc; "version {version}"),
        ImageFault::Limits => format!(in alloc; "limits"),
        ImageFault::Counts => format!(in alloc; "counts"),
        ImageFault::Length { expected } => format!(in alloc; "length {expected}"),
        ImageFault::Requests => format!(in alloc; "requests"),
        ImageFault::Slot { index } => format!(in alloc; "slot {index}"),
        ImageFault::Position { position } => format!(in alloc; "position {position}"),
        ImageFault::Bound { slots } => format!(in alloc; "bound {slots}"),
        _ => format!(in alloc; "memory"),
    }
}
