//! The systems of a run, by their numbers. Each fills an output of its own: a queue, or a log.
ghost use Rattle.std.specs.Prelude.{◌≡◌, ◌<◌, ℕ, length, OnOk, IfErr};
ghost use Rattle.ent_queue.specs.Commands.{IsReady, Extends, output_of};
ghost use Rattle.ent_runner.specs.Frame.{SystemMayIssue, SystemMayLeave};
ghost use Rattle.ent_runner.specs.Logs.{SystemMayLog};
ghost use Rattle.ent_runner.specs.Logs.{SystemMayLeave as LoggerMayLeave};

use crate::frame::gate::Gate;
use crate::frame::system::System;
use crate::logs::system::LogSystem;
use ent_alloc::Source;
use ent_log::Log;
use ent_queue::{CommandQueue, Commands, Output};
use ent_world::View;
use std::alloc::Global;

/// Systems with numbers from 0, each of which fills an output once, with handles of the source `S`,
/// or stops with an error of type `E`. [`Issuers`] fill queues, and [`Loggers`] logs.
pub trait Systems<O: Output, S: Source, E> {
    /// How many there are.
    ghost count: { Self → ℕ };

    /// What the system of this number may fill.
    ghost may_fill: { Self → ℕ → O → Type 0 };

    /// What it may leave if it returns this error.
    ghost may_leave: { Self → ℕ → O → E → Type 0 };

    /// Returns how many there are.
    fn how_many(&self) -> usize
        ensures { result ≡ count self.now };

    /// Runs the system of this number.
    ///
    /// # Errors
    ///
    /// That of the system, if it returned one.
    fn run_at(
        &self,
        number: usize,
        alloc: Global,
        commands: &mut Commands<'_, O, S>,
    ) -> Result<(), E>
        requires number { number < count self.now }
        requires ready { IsReady S.serves commands.old }
        ensures extends { Extends O.adds S.serves S.may_reply commands.old commands.new }
        ensures may { output_of commands.old ≡ O.empty
            → OnOk result (may_fill self.now number (output_of commands.new)) }
        ensures leaves { output_of commands.old ≡ O.empty
            → IfErr result (λ error. may_leave self.now number (output_of commands.new) error) };
}

/// The systems of a frame, whose outputs are queues. They see this view of its world.
#[derive(Drop)]
pub struct Issuers<'v, 's, 'g, T, G> {
    /// What the systems see.
    pub view: View<'v>,
    /// The systems, in their order.
    pub systems: &'s [T],
    /// Called before each system runs.
    pub gate: &'g G,
}

impl<S: Source, E, T: System<S, E>, G: Gate> Systems<CommandQueue, S, E>
    for Issuers<'_, '_, '_, T, G> {
    ghost count = { λ all. length all.systems.now };

    ghost may_fill = { λ all number queue.
        SystemMayIssue T.may_issue all.systems.now all.view number queue };

    ghost may_leave = { λ all number queue error.
        SystemMayLeave T.may_leave all.systems.now all.view number queue error };

    fn how_many(&self) -> usize {
        self.systems.len()
    }

    fn run_at(
        &self,
        number: usize,
        alloc: Global,
        commands: &mut Commands<'_, CommandQueue, S>,
    ) -> Result<(), E> {
        self.gate.entered(number);
        self.systems[number].run(alloc, &self.view, commands)
    }
}

/// Systems whose outputs are logs.
#[derive(Drop)]
pub struct Loggers<'s, T> {
    /// The systems, in their order.
    pub systems: &'s [T],
}

impl<C: Drop, S: Source, E, T: LogSystem<C, S, E>> Systems<Log<C>, S, E> for Loggers<'_, T> {
    ghost count = { λ all. length all.systems.now };

    ghost may_fill = { λ all number log. SystemMayLog T.may_log all.systems.now number log };

    ghost may_leave = { λ all number log error.
        LoggerMayLeave T.may_leave all.systems.now number log error };

    fn how_many(&self) -> usize {
        self.systems.len()
    }

    fn run_at(
        &self,
        number: usize,
        alloc: Global,
        commands: &mut Commands<'_, Log<C>, S>,
    ) -> Result<(), E> {
        self.systems[number].run(alloc, commands)
    }
}
