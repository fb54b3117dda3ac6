ghost use Rattle.std.specs.Prelude.{◌≡◌};

use crate::system::System;
use std::marker::Model;

/// The systems of a frame, in order. Contracts see the list of them.
#[derive(Drop)]
pub struct Frame {
    systems: Vec<System>,
}

impl Model for Frame {
    ghost use Rattle.std.specs.Prelude.{List};
    ghost use Rattle.ent_script.specs.declared.operation.Operation.{Operation};

    ghost Value = { List (List Operation) };

    ghost view = { λ f. f.systems.items };
}

impl Frame {
    /// The frame of these systems. It doesn't allocate.
    pub(crate) fn new(systems: Vec<System>) -> Self
        ensures { result ≡ systems.items }
    {
        Frame { systems }
    }

    /// The systems.
    pub fn systems(&self) -> &[System]
        ensures { result.now ≡ self.now }
    {
        &self.systems
    }

    /// The systems. It doesn't allocate.
    pub(crate) fn into_systems(self) -> Vec<System>
        ensures { result.items ≡ self }
    {
        self.systems
    }
}
