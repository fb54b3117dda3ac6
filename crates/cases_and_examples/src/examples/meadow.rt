//! The systems of a meadow: plants are sown, grow and are reaped.
ghost use Rattle.std.specs.Prelude.{◌≤◌, length};

use ent_handle::{ComponentId, Memory};
use ent_queue::{Bundle, Commands};
use ent_runner::System;
use ent_shared::Shared;
use ent_world::View;
use std::alloc::Global;

/// How many frames old a plant is.
pub const AGE: ComponentId = ComponentId(0);

/// Sows one plant in each frame.
#[derive(Clone, Copy)]
pub struct Sow;

impl System<Shared, Memory> for Sow {
    ghost may_issue = { λ _ _ _. Unit {0} };

    fn run(
        &self,
        alloc: Global,
        _view: &View<'_>,
        commands: &mut Commands<'_>,
    ) -> Result<(), Memory> {
        if let Err(fault) = commands.spawn(&Bundle::of(alloc, &[(AGE, 0)])?) {
            fault.or_memory()?;
        }
        Ok(())
    }
}

/// Makes each plant a frame older.
#[derive(Clone, Copy)]
pub struct Grow;

impl System<Shared, Memory> for Grow {
    ghost may_issue = { λ _ _ _. Unit {0} };

    #[tactic(auto, using(ent_queue::proofs::Extending::extends_then))]
    fn run(
        &self,
        alloc: Global,
        view: &View<'_>,
        commands: &mut Commands<'_>,
    ) -> Result<(), Memory> {
        for plant in view.with(AGE)? {
            if let Some(age) = view.get(plant, AGE) {
                commands.insert(plant, &Bundle::of(alloc, &[(AGE, age.saturating_add(1))])?)?;
            }
        }
        Ok(())
    }
}

/// Takes out the eldest plant, if it is ripe.
#[derive(Clone, Copy)]
pub struct Reap {
    /// From this age on a plant is ripe.
    pub ripe: i64,
}

impl System<Shared, Memory> for Reap {
    ghost may_issue = { λ _ _ queue. length queue ≤ 1 };

    fn run(
        &self,
        _alloc: Global,
        view: &View<'_>,
        commands: &mut Commands<'_>,
    ) -> Result<(), Memory> {
        match view.with(AGE)?.get(0) {
            Some(plant) if view.get(*plant, AGE) >= Some(self.ripe) => commands.despawn(*plant),
            _ => Ok(()),
        }
    }
}
