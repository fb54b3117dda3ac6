ghost use Rattle.cases_and_examples.specs.Issuing.{role_may};

use crate::examples::game::systems::{Age, Aim, Launch};
use ent_handle::Memory;
use ent_queue::Commands;
use ent_runner::System;
use ent_shared::Shared;
use ent_world::View;
use std::alloc::Global;

/// Any of the systems, so that one list holds them all.
#[derive(Clone, Copy)]
pub enum Role {
    Launch(Launch),
    Age(Age),
    Aim(Aim),
}

impl System<Shared, Memory> for Role {
    ghost may_issue = { role_may };

    fn run(
        &self,
        alloc: Global,
        view: &View<'_>,
        commands: &mut Commands<'_>,
    ) -> Result<(), Memory> {
        match self {
            Role::Launch(launch) => launch.run(alloc, view, commands),
            Role::Age(age) => age.run(alloc, view, commands),
            Role::Aim(aim) => aim.run(alloc, view, commands),
        }
    }
}
