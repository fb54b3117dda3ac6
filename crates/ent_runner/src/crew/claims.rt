ghost use Rattle.std.specs.Prelude.{◌≡◌, ◌<◌, ◌≤◌, ◌^◌, ℕ, [], ◌∷◌, ◌++◌, length, All, flat_map};
ghost use Rattle.std.specs.Prelude.{IsPermutation, IfOk, IfSome, IfNone, None, true, false};
ghost use Rattle.std.specs.List.{range_with_len};
ghost use Rattle.ent_runner.specs.Crew.Claims.{IsOpen, IsClaimerOf, IsClaimedBy, HaveEnded};
ghost use Rattle.ent_runner.specs.Crew.Claims.{AreFirst};

use crate::crew::claimer::Claimer;
use crate::crew::rule::Opening;
use crate::crew::word;
use crate::crew::word::Word;
use ent_handle::Memory;
use ent_shared::holders::{merge, new_holder, split_first};
use std::alloc::Global;
use std::marker::Model;

/// The numbers below a count, which workers claim side by side, each with a [`Claimer`] of its own.
#[derive(Drop)]
pub struct Claims {
    word: Word,
    numbers: usize,
}

impl Model for Claims {
    ghost use Rattle.ent_runner.specs.Crew.Claims.{Claims, claims_code, IsOpen};

    ghost Value = { Claims };

    ghost coded = { claims_code };

    ghost view = { λ c. record {
      word = c.word.shared.table_id;
      numbers = c.numbers;
      workers = c.word.shared.key.workers;
    } };

    ghost invariant = { λ c.
        IsOpen c.numbers c.word.shared.key.workers c.word.shared.key c.word.shared.table_id };
}

impl Claims {
    /// Makes the numbers below `numbers` ready to be claimed, and one claimer for each worker. No
    /// number is claimed yet. `numbers` is at most 65,536, and `workers` is 1 to 64: both limits
    /// are this project's own.
    ///
    /// # Errors
    ///
    /// [`Memory`] if there isn't enough memory for them. Nothing is left of them then.
    pub fn open(
        alloc: Global,
        numbers: usize,
        workers: usize,
    ) -> Result<(Claims, Vec<Claimer>), Memory>
        requires numbers { numbers ≤ 2 ^ 16 }
        requires some { 0 < workers }
        requires few { workers ≤ 64 }
        ensures numbers { IfOk result (λ made. made.0.numbers ≡ numbers) }
        ensures workers { IfOk result (λ made. made.0.workers ≡ workers) }
        ensures count { IfOk result (λ made. length made.1.items ≡ workers) }
        ensures own { IfOk result (λ made. All (IsClaimerOf made.0) made.1.items) }
        ensures unused { IfOk result (λ made. All (λ c.
            (c.own.claims ≡ []) × (c.own.ended ≡ false)) made.1.items) }
    {
        let mut claimers = Vec::with_capacity(alloc, workers)?;
        let opening = Opening { numbers, workers };
        let (word, mut all) = word::open(alloc, &opening)?;
        for _ in 0..workers {
            claimers.push_reserved(Claimer::new(split_first(&word, &mut all)));
        }
        Ok((Claims { word, numbers }, claimers))
    }

    /// Claims the next number that isn't claimed yet, by one atomic step. `None` means that no
    /// number is left, and the claimer has ended: from then on it returns `None` without a step. It
    /// neither allocates nor waits.
    pub fn next(&self, claimer: &mut Claimer) -> Option<usize>
        requires { IsClaimerOf self.now claimer.old }
        ensures stays { IsClaimerOf self.now claimer.new }

        // A number is below the count, and above all that this claimer had claimed before.
        ensures below { IfSome result (λ n. n < self.now.numbers) }
        ensures rises { IfSome result (λ n. All (λ earlier. earlier < n) claimer.old.own.claims) }
        ensures claims { IfSome result (λ n. claimer.new.own
            ≡ record claimer.old.own { claims = claimer.old.own.claims ++ n ∷ [] }) }

        // Without a number the claimer has ended, and one that has ended gets none.
        ensures ends { IfNone result
            (claimer.new.own ≡ record claimer.old.own { ended = true }) }
        ensures ended { claimer.old.own.ended ≡ true → result ≡ None }
    {
        if claimer.ended {
            return None;
        }
        let found = word::claim(&self.word, &mut claimer.token) as usize;
        if found < self.numbers {
            Some(found)
        } else {
            claimer.ended = true;
            None
        }
    }

    /// Ends the claiming, with all its claimers. It doesn't allocate.
    pub fn close(self, claimers: Vec<Claimer>)
        requires all { length claimers.items ≡ self.workers }
        requires own { All (IsClaimerOf self) claimers.items }

        // No number is claimed by two claimers.
        ensures apart { (n j k : ℕ) → IsClaimedBy claimers.items n j
            → IsClaimedBy claimers.items n k → j ≡ k }

        // All claims together are the first numbers, each once.
        ensures first { AreFirst self.numbers claimers.items }

        // If all claimers have ended, each number is claimed, and all claims together are the
        // numbers, each once.
        ensures claimed { HaveEnded claimers.items → (n : ℕ) → n < self.numbers
            → (k : ℕ) × IsClaimedBy claimers.items n k }
        ensures once { HaveEnded claimers.items
            → IsPermutation (flat_map (λ c. c.own.claims) claimers.items)
            (range_with_len 0 self.numbers) }
    {
        let Claims { word, .. } = self;
        let mut all = new_holder(&word);
        for claimer in claimers {
            merge(&word, &mut all, claimer.token);
        }
        word::close(word, all);
    }
}
