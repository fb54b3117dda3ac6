//! Which systems of a script a worker reads. Systems come round to the workers in turn, and from
//! frame to frame the next worker begins, so that each gets about as many of every kind.
ghost use Rattle.std.specs.Prelude.{◌≡◌, ◌+◌, ◌-◌, ◌/◌, ◌<◌, ◌≤◌};
ghost use Rattle.ent_script.specs.Shares.{has};

use std::marker::Model;

/// The turns of some of the workers that read a script.
#[derive(Clone, Copy)]
pub(crate) struct Share {
    first: usize,
    count: usize,
    workers: usize,
}

impl Model for Share {
    ghost use Rattle.ent_script.specs.Shares.{Share, share_code};
    ghost use Rattle.std.specs.Prelude.{◌+◌, ◌<◌, ◌≤◌};

    ghost Value = { Share };

    ghost coded = { share_code };

    ghost view = { λ s. record { first = s.first; count = s.count; workers = s.workers } };

    ghost invariant = { λ s.
        (0 < s.workers) × (s.workers ≤ 64) × (s.first + s.count ≤ s.workers) };

    ghost inverse = { λ s. record { first = s.first; count = s.count; workers = s.workers } };
}

impl Share {
    /// The turns of all workers, if there are so many.
    pub(crate) fn all(workers: usize) -> Self
        requires some { 0 < workers }
        requires few { workers ≤ 64 }
        ensures { result ≡ record { first = 0; count = workers; workers = workers } }
    {
        Share {
            first: 0,
            count: workers,
            workers,
        }
    }

    /// How many workers these are.
    pub(crate) fn count(self) -> usize
        ensures { result ≡ self.count }
    {
        self.count
    }

    /// The first half of the workers, and the others.
    pub(crate) fn halves(self) -> (Share, Share)
        ensures low { result.0 ≡ record self { count = self.count / 2 } }
        ensures high { result.1 ≡ record self {
          first = self.first + self.count / 2;
          count = self.count - self.count / 2;
        } }
    {
        let half = self.count / 2;
        let low = Share {
            count: half,
            ..self
        };
        let high = Share {
            first: self.first + half,
            count: self.count - half,
            ..self
        };
        (low, high)
    }

    /// Whether one of these workers reads the system.
    pub(crate) fn has(self, frame: usize, system: usize) -> bool
        ensures { result ≡ has self frame system }
    {
        let turn = (frame % self.workers + system % self.workers) % self.workers;
        self.first <= turn && turn < self.first + self.count
    }
}
