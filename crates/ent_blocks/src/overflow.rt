//! Blocks whose callers go on to one cursor that all share. As long as no caller goes past its
//! block, its handles don't depend on the others.
#![tactic(auto, using(crate::proofs::Laws::past_laws))]

mod dealing;
mod opening;
mod phase;
mod reserver;
mod source;

pub use opening::open_with_overflow;
pub use phase::Overflow;
pub use reserver::OverflowReserver;
