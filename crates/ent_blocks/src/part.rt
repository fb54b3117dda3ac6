ghost use Rattle.std.specs.Prelude.{◌≡◌, ◌^◌, ◌<◌};
ghost use Rattle.ent_blocks.specs.Blocks.{dealt};

use ent_alloc::Portion;
use std::marker::Model;

/// The block of one caller, and how many of its handles are used.
#[derive(Drop)]
pub struct Part {
    before: u32,
    size: u32,
    used: u32,
}

impl Model for Part {
    ghost use Rattle.std.specs.Prelude.{◌≤◌};
    ghost use Rattle.ent_blocks.specs.Blocks.{Block, block_code};

    ghost Value = { Block };

    ghost coded = { block_code };

    ghost view = { λ r. record { before = r.before; size = r.size; used = r.used } };

    ghost invariant = { λ r. r.used ≤ r.size };
}

impl Part {
    ghost use Rattle.std.specs.Prelude.{◌≡◌, ◌+◌, ◌-◌, ◌^◌, ◌<◌, ◌≤◌};
    ghost use Rattle.ent_blocks.specs.Blocks.{after_use, portion_of, is_same};

    /// A block of `size` handles, of which none is used, after the first `before` of the pool.
    pub fn new(before: u32, size: u32) -> Self
        ensures { result ≡ record { before = before; size = size; used = 0 } }
    {
        Part {
            before,
            size,
            used: 0,
        }
    }

    /// How many handles of the pool stand before the block.
    pub fn before(&self) -> u32
        ensures { result ≡ self.now.before }
    {
        self.before
    }

    /// Returns the number of handles in the block.
    pub fn size(&self) -> u32
        ensures { result ≡ self.now.size }
    {
        self.size
    }

    /// Returns the number of handles of the block that are used.
    pub fn used(&self) -> u32
        ensures value { result ≡ self.now.used }
        ensures within { result ≤ self.now.size }
    {
        self.used
    }

    /// Returns the number of handles that are left of the block.
    pub fn left(&self) -> u32
        ensures value { result ≡ self.now.size - self.now.used }
        ensures within { self.now.used ≤ self.now.size }
    {
        self.size - self.used
    }

    /// Uses the next `n` handles of the block.
    pub fn advance(&mut self, n: u32)
        requires { self.old.used + n ≤ self.old.size }
        ensures { self.new ≡ after_use self.old n }
    {
        self.used += n;
    }

    /// The block as a portion of what there is to give.
    pub fn portion(&self) -> Portion
        ensures value { result ≡ portion_of self.now }
        ensures used { self.now.used ≤ self.now.size }
    {
        Portion {
            size: self.size,
            used: self.used,
        }
    }

    /// Returns `true` if it is the same block, however many of its handles are used.
    pub fn is_same(&self, other: &Part) -> bool
        ensures { result ≡ is_same self.now other.now }
    {
        self.before == other.before && self.size == other.size
    }

    /// The same block, with this many handles used.
    pub fn with_used(&self, used: u32) -> Self
        requires { used ≤ self.now.size }
        ensures { result ≡ record self.now { used = used } }
    {
        Part {
            before: self.before,
            size: self.size,
            used,
        }
    }
}

/// How many handles the blocks have in all.
pub(crate) fn dealt(parts: &[Part]) -> u32
    requires { dealt parts.now < 2 ^ 32 }
    ensures { result ≡ dealt parts.now }
{
    let mut count = 0;
    for part in parts {
        count += part.size();
    }
    count
}
