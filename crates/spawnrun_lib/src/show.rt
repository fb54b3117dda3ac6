/// What names an entity in the text of a run.
#[derive(Clone, Copy, Debug, PartialEq, Eq)]
pub enum Show {
    /// Its birth alone.
    Births,
    /// Its birth and its handle.
    Handles,
}
