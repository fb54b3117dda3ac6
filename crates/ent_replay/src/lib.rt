//! Schedules of allocator events: their text, the machine that applies them, and the lines that
//! report their outcomes. And recorded traces of an allocator, checked against the proved one.
#![tactic(auto, using(crate::proofs::Laws::laws))]

mod by_caller;
mod caller_table;
mod event;
mod fault;
mod handle_list;
mod machine;
mod outcome;
mod read_fault;
mod reading;
mod stored_call;
pub mod trace;
mod writing;

pub use by_caller::ByCaller;
pub use event::Event;
pub use fault::ReplayFault;
pub use handle_list::HandleList;
pub use machine::{Machine, RunMemory};
pub use outcome::Outcome;
pub use read_fault::{Cause, ReadFault};
pub use reading::read_schedule;
pub use writing::write_outcome;
