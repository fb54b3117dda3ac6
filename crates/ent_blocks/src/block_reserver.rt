ghost use Rattle.std.specs.Prelude.{◌≡◌};

use crate::held::Held;
use crate::part::Part;
use ent_alloc::Refused;
use std::marker::Model;

/// One caller's right to the handles of its block. It is a few numbers: it has no list of handles,
/// and may go to any thread.
///
/// ```
/// use forgeni::{BlockReserver, Blocks, Source};
///
/// /// Code for the reservers of blocks that refuse.
/// fn refuses<S: Source<Reserver = BlockReserver>>() {}
///
/// refuses::<Blocks>();
/// ```
#[derive(Drop)]
pub struct BlockReserver {
    pub(crate) part: Part,
    /// How many handles the largest of the refused requests was for.
    pub(crate) refused: u32,
}

impl Model for BlockReserver {
    ghost use Rattle.ent_blocks.specs.Blocks.{Reserver, reserver_code};

    ghost Value = { Reserver };

    ghost coded = { reserver_code };

    ghost view = { λ r. record { block = r.part; refused = r.refused } };
}

impl BlockReserver {
    ghost use Rattle.std.specs.Prelude.{◌≡◌, ◌-◌, ◌≤◌};
    ghost use Rattle.ent_blocks.specs.Blocks.{after_refusal, used_up, wanted_by};
    ghost use Rattle.ent_alloc.specs.declared.refused.Refused.TheVariants as why;

    /// Returns the number of handles in the block. It is less than the requested size if the pool
    /// had no more.
    #[must_use]
    pub fn size(&self) -> u32
        ensures { result ≡ self.now.block.size }
    {
        self.part.size()
    }

    /// Returns the number of handles of the block that are used.
    #[must_use]
    pub fn used(&self) -> u32
        ensures value { result ≡ self.now.block.used }
        ensures within { result ≤ self.now.block.size }
    {
        self.part.used()
    }

    /// Returns the number of handles that are left of the block.
    #[must_use]
    pub fn left(&self) -> u32
        ensures value { result ≡ self.now.block.size - self.now.block.used }
        ensures within { self.now.block.used ≤ self.now.block.size }
    {
        self.part.left()
    }

    /// Returns how many handles would have been enough: those that are used, plus the largest of
    /// the requests that were refused because too few were left. It is at most 4,294,967,295.
    /// [`BlockSize::adapt`](crate::BlockSize::adapt) takes it.
    #[must_use]
    pub fn wanted(&self) -> u32
        ensures { result ≡ wanted_by self.now }
    {
        self.part.used().saturating_add(self.refused)
    }

    /// Takes the reserver out, and leaves one of the same block that is used up.
    pub fn take(&mut self) -> Self
        ensures taken { result ≡ self.old }
        ensures used_up { self.new ≡ used_up self.old }
    {
        let taken = again(self);
        self.part = self.part.with_used(self.part.size());
        taken
    }

    /// Remembers a request for `wanted` handles, of which only `left` are left.
    pub(crate) fn refuse(&mut self, wanted: u32, left: u32) -> Refused
        ensures remembers { self.new ≡ after_refusal self.old wanted }
        ensures error { result ≡ why.Space wanted left }
    {
        self.refused = self.refused.max(wanted);
        Refused::Space { wanted, left }
    }
}

impl Held for BlockReserver {
    ghost block = { λ r. r.block };

    fn part(&self) -> &Part {
        &self.part
    }
}

/// A reserver of the same block, which remembers as much. The two give the same handles, so one of
/// them has to be dropped unused, and no contract sees to that. It is for `ent_runner` alone: a
/// frame owns the reservers of its systems, makes another one for a job, which is done once, and
/// drops its own.
pub fn again(reserver: &BlockReserver) -> BlockReserver
    ensures { result ≡ reserver.now }
{
    BlockReserver {
        part: reserver.part.with_used(reserver.part.used()),
        refused: reserver.refused,
    }
}
