/// Components and their values, in strictly ascending order of number.
///
/// A long script has millions of bundles, and most are of one component. Such a bundle takes no
/// memory.
pub type Bundle = ent_storage::Bundle<1>;
