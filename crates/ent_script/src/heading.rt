use crate::format::Format;
use ent_alloc::Limits;

/// What a script says before its components.
#[derive(Clone, Copy)]
pub(crate) struct Heading {
    pub(crate) format: Format,
    pub(crate) limits: Limits,
}
