//! What a program reads from and writes to: a file, a terminal, or memory.

mod counted;
mod device;
mod input;
mod named;
mod pipe;

pub use crate::devices::counted::Counted;
pub use crate::devices::device::{Failed, Sink, Source};
pub use crate::devices::input::{InputFault, read_all};
pub use crate::devices::named::{NameFault, open_named, put_refusal};
pub use crate::devices::pipe::{Muted, Noting};
