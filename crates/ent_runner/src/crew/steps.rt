//! Jobs as a worker does them: what one made has its error beside it.
ghost use Rattle.std.specs.Prelude.{◌≡◌, ◌<◌, ℕ, true, false};
ghost use Rattle.ent_runner.specs.Crew.{Ended, Stopped};

use crate::crew::jobs::Jobs;

/// [`Jobs`] each of which keeps what it made, and says whether it stopped.
pub(super) trait Steps<O, L> {
    /// How many jobs there are.
    ghost count: { Self → ℕ };

    /// What may be lent to them.
    ghost may_have: { Self → L → Type 0 };

    /// What a job that ends may do.
    ghost may_do: { Self → ℕ → L → O → L → Type 0 };

    /// What a job that stops may do.
    ghost may_leave: { Self → ℕ → L → O → L → Type 0 };

    /// Does the job of this number once. Returns what it made, and whether it stopped.
    fn do_job(&self, number: usize, lent: &mut L) -> (O, bool)
        requires number { number < count self.now }
        requires lent { may_have self.now lent.old }
        ensures stays { may_have self.now lent.new }
        ensures does { result.1 ≡ false → may_do self.now number lent.old result.0 lent.new }
        ensures leaves { result.1 ≡ true
            → may_leave self.now number lent.old result.0 lent.new };
}

/// What they made is their output and their error, if they stopped.
#[derive(Drop)]
pub(super) struct Kept<'a, J> {
    pub(super) jobs: &'a J,
}

impl<O, E, L, J: Jobs<O, L, E>> Steps<(O, Option<E>), L> for Kept<'_, J> {
    ghost count = { λ kept. J.count kept.jobs.now };

    ghost may_have = { λ kept. J.may_have kept.jobs.now };

    ghost may_do = { λ kept. Ended (J.may_do kept.jobs.now) };

    ghost may_leave = { λ kept. Stopped (J.may_leave kept.jobs.now) };

    fn do_job(&self, number: usize, lent: &mut L) -> ((O, Option<E>), bool) {
        let (output, ran) = self.jobs.run(number, lent);
        match ran {
            Ok(()) => ((output, None), false),
            Err(error) => ((output, Some(error)), true),
        }
    }
}
