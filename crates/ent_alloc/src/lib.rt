//! Bevy's entity allocator for one caller: its exclusive calls, and the arithmetic by which many
//! callers reserve.
#![tactic(auto, using(crate::proofs::Laws::laws))]

mod absent;
mod asking;
mod cloning;
mod entities;
mod fault;
mod front;
mod giving;
mod image;
mod image_fault;
mod image_slots;
mod limits;
mod living;
mod packed_slot;
mod phased;
mod portion;
mod prepared;
mod refused;
mod requesting;
mod requests;
mod reserve_error;
mod reserved;
mod slot_record;
mod slots;
mod source;
mod space;
mod span;
mod state;

pub use absent::Absent;
pub use entities::Entities;
pub use fault::{AllocFault, FreeFault, Freed};
pub use image_fault::ImageFault;
pub use limits::{Limits, QUOTA};
pub use living::Living;
pub use phased::Phased;
pub use portion::Portion;
pub use prepared::Prepared;
pub use refused::Refused;
pub use requesting::cancel_requests;
pub use reserve_error::ReserveError;
pub use reserved::Reserved;
pub use source::Source;
pub use space::Space;
pub use span::Span;
pub use state::State;
