//! Commands of any type: logs that systems fill, and the sync point that hands their entries on.
#![tactic(auto)]

mod begin_error;
mod entry;
mod handing;
mod log;
mod reserves;
mod rest;
mod sync_point;

pub use begin_error::BeginError;
pub use entry::Entry;
pub use log::Log;
pub use reserves::Reserves;
pub use sync_point::SyncPoint;
