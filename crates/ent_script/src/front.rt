use crate::heading::Heading;
use serde_json::Value;

/// What a script says before its frames.
#[derive(Drop)]
pub(crate) struct Front {
    pub(crate) heading: Heading,
    /// The elements of `components`, each cut, if they are an array of at most 256.
    pub(crate) components: Option<Vec<Value>>,
}
