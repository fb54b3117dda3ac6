//! Outputs that systems fill side by side, each from a block of handles of its own: so which
//! handles a system gets depends on no other system, and on no thread.

pub(super) mod room;
pub(super) mod running;
mod splitting;
