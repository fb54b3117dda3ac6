//! Queues of commands that systems write and a world applies, and what systems fill them with, or
//! logs.
#![tactic(auto, using(crate::proofs::Laws::laws))]

mod bundle;
mod bundle_ref;
mod commands;
mod entries;
mod entry;
mod handles_ref;
mod issuing;
mod kind;
mod leaving;
mod logging;
mod output;
mod queue;
mod reading;
mod writing;

pub use bundle::Bundle;
pub use bundle_ref::{BundleItems, BundleRef};
pub use commands::Commands;
pub use ent_alloc::ReserveError as QueueFault;
pub use entries::Entries;
pub use entry::Entry;
pub use handles_ref::{Handles, HandlesRef};
pub use output::Output;
pub use queue::CommandQueue;
