/// A portion of what there is to give, and how much of it was used, from its front.
#[derive(Clone, Copy, Debug, PartialEq, Eq, Hash)]
pub struct Portion {
    /// How many handles it has.
    pub size: u32,
    /// How many of them were used.
    pub used: u32,
}
