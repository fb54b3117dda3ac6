//! Recorded traces of an entity allocator, checked against the proved one.

mod answers;
mod call;
mod calls;
mod check_error;
mod checker;
mod comparer;
mod difference;
mod fitting;
mod front;
mod key;
mod lineup;
mod log;
mod placed;
mod read_fault;
mod reading;
mod recorder;
mod reply;
mod reservation;
mod suspect;
mod words;
mod writing;

pub use call::Call;
pub use check_error::CheckError;
pub use checker::Checker;
pub use comparer::Comparer;
pub use difference::Difference;
pub use log::Log;
pub use read_fault::{Cause, ReadFault};
pub use reading::read_line;
pub use recorder::Recorder;
pub use reply::{AllocReply, FlushReply, FreeReply, ReserveReply};
pub use reservation::Reservation;
pub use writing::{append_answer, append_handles, write_difference, write_line};
