ghost use Rattle.std.specs.Prelude.{◌<◌, ℕ, OnOk, IfErr};

/// Jobs with numbers from 0, which the workers of a [`Crew`](crate::Crew) do. A worker lends each
/// of its jobs what it has itself, an `L`, such as a reserver. A job has one output, and may stop
/// with an error, an `E`.
///
/// One value has all jobs, and each of them may run on any worker.
pub trait Jobs<O, L, E> {
    /// How many jobs there are.
    ghost count: { Self → ℕ };

    /// What may be lent to them.
    ghost may_have: { Self → L → Type 0 };

    /// What the job of this number may do: what was lent to it, its output, and what it gives back.
    ghost may_do: { Self → ℕ → L → O → L → Type 0 };

    /// The same of a job that stops with this error.
    ghost may_leave: { Self → ℕ → L → O → E → L → Type 0 };

    /// Does the job of this number once.
    ///
    /// # Errors
    ///
    /// The error of the job, if it stopped. Its output is what it had made until then, and what it
    /// did to what was lent stays done.
    fn run(&self, number: usize, lent: &mut L) -> (O, Result<(), E>)
        requires number { number < count self.now }
        requires lent { may_have self.now lent.old }
        ensures stays { may_have self.now lent.new }
        ensures does { OnOk result.1 (may_do self.now number lent.old result.0 lent.new) }
        ensures leaves { IfErr result.1 (λ error.
            may_leave self.now number lent.old result.0 error lent.new) };
}
