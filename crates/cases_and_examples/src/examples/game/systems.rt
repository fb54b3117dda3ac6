//! The systems of the game, each a type of its own. `specs/Issuing` says what each of them may
//! issue.
ghost use Rattle.std.specs.Prelude.{◌≡◌, ◌≤◌, length, OnOk, All};
ghost use Rattle.ent_queue.specs.Commands.{output_of};
ghost use Rattle.ent_queue.specs.OfShared.{IsReady, Extends};
ghost use Rattle.cases_and_examples.specs.Issuing.{IsLaunch, IsOnProjectile};

use crate::examples::game::components::{AGE, TARGET};
use ent_handle::{ComponentId, Handle, Memory};
use ent_queue::{Bundle, Commands, QueueFault};
use ent_runner::System;
use ent_shared::Shared;
use ent_world::View;
use std::alloc::Global;

/// Launches projectiles, all at once.
#[derive(Clone, Copy)]
pub struct Launch {
    /// How many projectiles it launches in each frame.
    pub count: u32,
}

impl System<Shared, Memory> for Launch {
    ghost may_issue = { λ launch _ queue. IsLaunch launch.count queue };

    fn run(
        &self,
        alloc: Global,
        _view: &View<'_>,
        commands: &mut Commands<'_>,
    ) -> Result<(), Memory> {
        match commands.spawn_many(self.count, &one(alloc, AGE, 0)?) {
            Err(QueueFault::Memory) => Err(Memory),
            // A refusal stands in the queue, and the sync point reports it.
            _ => Ok(()),
        }
    }
}

/// Makes each projectile a frame older, and takes out those that are old enough.
#[derive(Clone, Copy)]
pub struct Age {
    /// At this age a projectile is taken out.
    pub limit: i64,
}

impl System<Shared, Memory> for Age {
    ghost may_issue = { λ _ view queue. All (IsOnProjectile view) queue };

    #[tactic(auto, using(ent_queue::proofs::Extending::extends_then))]
    fn run(
        &self,
        alloc: Global,
        view: &View<'_>,
        commands: &mut Commands<'_>,
    ) -> Result<(), Memory> {
        for handle in view.with(AGE)? {
            self.age_one(alloc, view, handle, commands)?;
        }
        Ok(())
    }
}

impl Age {
    fn age_one(
        &self,
        alloc: Global,
        view: &View<'_>,
        handle: Handle,
        commands: &mut Commands<'_>,
    ) -> Result<(), Memory>
        requires { IsReady commands.old }
        ensures extends { Extends commands.old commands.new }
        ensures may { OnOk result (All (IsOnProjectile view.now) (output_of commands.old)
            → All (IsOnProjectile view.now) (output_of commands.new)) }
    {
        match view.get(handle, AGE) {
            Some(age) if age < self.limit => {
                commands.insert(handle, &one(alloc, AGE, age.saturating_add(1))?)
            }
            Some(_) => commands.despawn(handle),
            None => Ok(()),
        }
    }
}

/// Aims at one projectile. If `Age` takes it out in the same frame, that command comes first and
/// this one is a fault, which the report lists.
#[derive(Clone, Copy)]
pub struct Aim {
    /// Its rank among the projectiles by birth: 0 is the eldest.
    pub rank: usize,
}

impl System<Shared, Memory> for Aim {
    ghost may_issue = { λ _ _ queue. length queue ≤ 1 };

    fn run(
        &self,
        alloc: Global,
        view: &View<'_>,
        commands: &mut Commands<'_>,
    ) -> Result<(), Memory> {
        match view.with(AGE)?.get(self.rank) {
            Some(handle) => commands.insert(*handle, &one(alloc, TARGET, 1)?),
            None => Ok(()),
        }
    }
}

/// A bundle of one component.
fn one(alloc: Global, id: ComponentId, value: i64) -> Result<Bundle, Memory> {
    Bundle::of(alloc, &[(id, value)])
}
