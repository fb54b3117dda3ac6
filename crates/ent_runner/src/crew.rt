//! A crew: workers that do jobs side by side, in room that was asked for before.
ghost use Rattle.std.specs.Prelude.{◌≡◌, ◌<◌, ◌≤◌, ◌^◌, ◌-◌, [], length, map, reverse, replicate};
ghost use Rattle.std.specs.Prelude.{All, Any, IfOk, IfErr, OnErr, None, true, false, flat_map};
ghost use Rattle.std.specs.Prelude.{vec_capacity};
ghost use Rattle.ent_runner.specs.Crew.Collecting.{error_in, first_error, outputs_put};
ghost use Rattle.ent_runner.specs.Crew.{AreDone, AreBrokenOff, Ended, Stopped};
ghost use Rattle.ent_runner.specs.Crew.Worker.{IsRoomForOne};

mod claimer;
mod claims;
mod collecting;
mod jobs;
mod record;
mod rule;
mod steps;
mod word;
mod worker;

pub use crate::crew::claimer::Claimer;
pub use crate::crew::claims::Claims;
use crate::crew::collecting::{collect, put_all};
pub use crate::crew::jobs::Jobs;
pub use crate::crew::record::ClaimRecord;
use crate::crew::steps::Kept;
use crate::crew::worker::{Site, Worker, run_all};
use ent_handle::Memory;
use std::alloc::{AllocError, Global};
use std::marker::Model;
use std::thread::Threads;

/// Workers that do jobs side by side, and the room that they need for it.
///
/// Each worker does the next job that isn't claimed yet, until none is left. Each job has one
/// output of type `O`, and the outputs come back in the order of the jobs. A job that stops returns
/// an error of type `E`.
#[derive(Drop)]
pub struct Crew<O, E> {
    claims: Claims,
    /// Each has room for its first output, so that only a worker that has done a job may stop. If
    /// all workers do as many jobs, no list of outputs grows.
    workers: Vec<Worker<(O, Option<E>)>>,
    /// Room for the claimers when the work is over.
    claimers: Vec<Claimer>,
    by_number: Vec<Option<(O, Option<E>)>>,
    outputs: Vec<O>,
}

impl<O, E> Model for Crew<O, E> {
    ghost use Rattle.ent_runner.specs.Crew.{Crew};
    ghost use Rattle.ent_runner.specs.Crew.Worker.{IsRoom};

    ghost Value = { Crew };

    ghost view = { λ c. record { jobs = c.claims.numbers; workers = c.claims.workers } };

    ghost invariant = { λ c.
        IsRoom c.claims c.workers.items c.claimers c.by_number.items c.outputs };
}

impl<O: Drop, E: Drop> Crew<O, E> {
    /// A crew of that many workers, 1 to 64, with room for the outputs of that many jobs, at most
    /// 65,536. Both limits are this project's own.
    ///
    /// # Errors
    ///
    /// [`Memory`] if there isn't enough memory for them.
    pub fn new(alloc: Global, jobs: usize, workers: usize) -> Result<Self, Memory>
        requires jobs { jobs ≤ 2 ^ 16 }
        requires some { 0 < workers }
        requires few { workers ≤ 64 }
        ensures jobs { IfOk result (λ crew. crew.jobs ≡ jobs) }
        ensures workers { IfOk result (λ crew. crew.workers ≡ workers) }
    {
        let (claims, mut claimers) = Claims::open(alloc, jobs, workers)?;
        let team = recruit(alloc, &mut claimers, jobs / workers + 1)?;
        Ok(Crew {
            claims,
            workers: team,
            claimers,
            by_number: without_outputs(alloc, jobs)?,
            outputs: Vec::with_capacity(alloc, jobs)?,
        })
    }

    /// Does the jobs, each of them once: one worker for each element of `lent`, which is lent to
    /// the jobs that the worker does. The outputs are in the order of the jobs.
    ///
    /// The workers run in threads of `rt`. If a thread can't be started, another one does its work.
    ///
    /// # Errors
    ///
    /// The outputs that were made, each at the number of its job, with the error of a job that
    /// stopped. If no job returned one, some weren't done, since no worker has memory for another
    /// output. All workers have ended then. What the jobs did to what was lent stays done. The
    /// caller drops the outputs when it is ready for what their drop may do.
    pub fn work<R, L, J>(
        self,
        rt: &R,
        lent: &mut [L],
        jobs: &J,
    ) -> Result<Vec<O>, Vec<Option<(O, Option<E>)>>>
    where
        R: Threads + Sync,
        O: Send,
        E: Send,
        L: Send,
        J: Jobs<O, L, E> + Sync,
        requires jobs { J.count jobs.now ≡ self.jobs }
        requires workers { length lent.old ≡ self.workers }
        requires lent { All (J.may_have jobs.now) lent.old }
        ensures count { length lent.new ≡ length lent.old }
        ensures lent { All (J.may_have jobs.now) lent.new }
        ensures done { IfOk result (λ outputs. AreDone (J.may_do jobs.now) self.jobs
            lent.old outputs.items lent.new) }
        ensures broken_off { IfErr result (λ left. AreBrokenOff (Ended (J.may_do jobs.now))
            (Stopped (J.may_leave jobs.now)) self.jobs lent.old left.items lent.new) }

        // So late, memory runs out only in a job, or in workers that have done one.
        ensures some { OnErr result (0 < self.jobs) }
    {
        let Crew {
            claims,
            mut workers,
            mut claimers,
            mut by_number,
            outputs,
        } = self;
        // More threads than jobs would find nothing to do.
        let threads = by_number.len();
        let kept = Kept { jobs };
        let site = Site {
            claims: &claims,
            jobs: &kept,
        };
        run_all(rt, &site, &mut workers, lent, threads);
        let stopped = some_stopped(&workers);
        let lacking = disband(workers, &mut claimers, &mut by_number);
        claims.close(claimers);
        if stopped || lacking > 0 {
            return Err(by_number);
        }
        Ok(collect(by_number, outputs))
    }
}

/// A worker for each claimer, with a list of so much room for its outputs.
fn recruit<O: Drop>(
    alloc: Global,
    claimers: &mut Vec<Claimer>,
    room: usize,
) -> Result<Vec<Worker<O>>, AllocError>
    requires { 0 < room }
    ensures claimers { IfOk result (λ team.
        map (λ w. w.claimer) team.items ≡ reverse claimers.old.items) }
    ensures fresh { IfOk result (λ team. All (λ w. IsRoomForOne w.done) team.items) }
    ensures emptied { IfOk result (λ _. claimers.new.items ≡ []) }
    ensures room { vec_capacity claimers.new ≡ vec_capacity claimers.old }
{
    let mut team = Vec::with_capacity(alloc, claimers.len())?;
    while let Some(claimer) = claimers.pop() {
        team.push_reserved(Worker {
            claimer,
            done: Vec::with_capacity(alloc, room)?,
            stopped: false,
        });
    }
    Ok(team)
}

/// For each of that many jobs no output yet.
fn without_outputs<O>(alloc: Global, count: usize) -> Result<Vec<Option<O>>, AllocError>
    ensures { IfOk result (λ by_number. by_number.items ≡ replicate count None) }
{
    let mut by_number = Vec::with_capacity(alloc, count)?;
    for _ in 0..count {
        by_number.push_reserved(None);
    }
    Ok(by_number)
}

/// The error of the first job that returned one. All else is dropped.
pub(crate) fn first_error<O: Drop, E: Drop>(by_number: Vec<Option<(O, Option<E>)>>) -> Option<E>
    ensures { result ≡ first_error by_number.items }
{
    for made in by_number {
        let error = error_of(made);
        if error.is_some() {
            return error;
        }
    }
    None
}

/// The error of a job that made something, if it returned one.
fn error_of<O: Drop, E: Drop>(made: Option<(O, Option<E>)>) -> Option<E>
    ensures { result ≡ error_in made }
{
    match made {
        Some((_, error)) => error,
        None => None,
    }
}

/// Whether a job of a worker has stopped.
fn some_stopped<O>(workers: &[Worker<O>]) -> bool
    ensures going { result ≡ false → All (λ w. w.stopped ≡ false) workers.now }
    ensures some { result ≡ true → Any (λ w. w.stopped ≡ true) workers.now }
{
    for worker in workers {
        if worker.stopped {
            return true;
        }
    }
    false
}

/// Takes the workers apart, and puts the outputs at the numbers of their jobs. It returns how many
/// outputs are lacking.
fn disband<O: Drop>(
    workers: Vec<Worker<O>>,
    claimers: &mut Vec<Claimer>,
    by_number: &mut [Option<O>],
) -> usize
    requires empty { claimers.old.items ≡ [] }
    requires room { length workers.items ≤ vec_capacity claimers.old }
    requires inside { All (λ w. All (λ d. d.number < length by_number.old) w.done.items)
        workers.items }
    ensures claimers { claimers.new.items ≡ map (λ w. w.claimer) workers.items }
    ensures by_number { by_number.new
        ≡ outputs_put (flat_map (λ w. w.done.items) workers.items) by_number.old }
    ensures lacking { result
        ≡ length by_number.old - length (flat_map (λ w. w.done.items) workers.items) }
{
    let mut lacking = by_number.len();
    for worker in workers {
        lacking = lacking.saturating_sub(worker.done.len());
        claimers.push_reserved(worker.claimer);
        put_all(worker.done, by_number);
    }
    lacking
}
