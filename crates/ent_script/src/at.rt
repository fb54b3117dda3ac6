/// The place of an operation in a script. All three are numbered from 0.
#[derive(Clone, Copy)]
pub(crate) struct At {
    pub(crate) frame: usize,
    pub(crate) system: usize,
    pub(crate) operation: usize,
}
