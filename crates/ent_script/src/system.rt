ghost use Rattle.std.specs.Prelude.{◌≡◌};

use crate::operation::Operation;
use std::marker::Model;

/// The operations of a system, in order. Contracts see the list of them.
#[derive(Drop)]
pub struct System {
    operations: Vec<Operation>,
}

impl Model for System {
    ghost use Rattle.std.specs.Prelude.{List};
    ghost use Rattle.ent_script.specs.declared.operation.Operation.{Operation};

    ghost Value = { List Operation };

    ghost view = { λ s. s.operations.items };
}

impl System {
    /// The system of these operations. It doesn't allocate.
    pub(crate) fn new(operations: Vec<Operation>) -> Self
        ensures { result ≡ operations.items }
    {
        System { operations }
    }

    /// The operations.
    pub fn operations(&self) -> &[Operation]
        ensures { result.now ≡ self.now }
    {
        &self.operations
    }
}
