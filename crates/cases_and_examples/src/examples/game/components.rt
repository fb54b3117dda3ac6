use ent_handle::ComponentId;

/// How many frames old a projectile is.
pub const AGE: ComponentId = ComponentId(0);

/// A projectile that was aimed at has it.
pub const TARGET: ComponentId = ComponentId(1);
