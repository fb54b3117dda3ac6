ghost use Rattle.std.specs.Prelude.{◌≡◌, ◌↔◌, ◌≤◌, length, map, IfOk, OnOk, IsTrue};
ghost use Rattle.ent_alloc.specs.Sequential.{listed_alone};
ghost use Rattle.ent_blocks.specs.Blocks.{IsOf, accounted, are_among, blocks_of, unused};
ghost use Rattle.ent_blocks.specs.Drawing.{IsDrawn, left_of};
ghost use Rattle.ent_blocks.specs.Ending.{EndsWithAll, EndsWithSome};

use crate::accounting::{account, missing};
use crate::block_reserver::BlockReserver;
use crate::ended::Ended;
use crate::part::Part;
use crate::taking::{take_many, take_one};
use ent_alloc::{Entities, Refused, Reserved, Space};
use ent_handle::Handle;
use std::marker::Model;

/// The source of a phase in which the front of the pool is dealt in blocks, one to each reserver. A
/// request for more than is left of a block is refused.
/// [`Entities::share_in`](forgeni::Entities::share_in) opens a phase of it.
///
/// Which handles a reserver gets depends on the allocator, on the sizes, and on what it has
/// reserved before: not on other reservers or on threads. Many threads may reserve at once: no
/// reservation writes to what they share.
///
/// ```
/// use forgeni::{Blocks, Entities, Phase, Reserver};
///
/// let parts: (Phase<Blocks>, Vec<Reserver<Blocks>>) = Entities::new().share_in::<Blocks>(&[10; 2])?;
/// let (_phase, mut reservers) = parts;
/// let mut firsts = [None; 2];
/// std::thread::scope(|scope| {
///     for (mine, first) in reservers.iter_mut().zip(&mut firsts) {
///         scope.spawn(|| *first = mine.reserve().ok());
///     }
/// });
/// // On every machine, whichever thread came first.
/// assert_eq!(firsts.map(|it| it.map(|one| one.index())), [Some(0), Some(10)]);
/// # Ok::<(), Box<dyn std::error::Error + Send + Sync>>(())
/// ```
#[derive(Drop)]
pub struct Blocks {
    entities: Entities,
    parts: Vec<Part>,
    // Room for what comes back at the close.
    ends: Vec<Part>,
}

impl Model for Blocks {
    ghost use Rattle.std.specs.Prelude.{◌≡◌, ◌≤◌, [], length};
    ghost use Rattle.std.specs.Vec.{vec_capacity};
    ghost use Rattle.ent_blocks.specs.Blocks.{Blocks, blocks_code, AreDealt};

    ghost Value = { Blocks };

    ghost coded = { blocks_code };

    ghost view = { λ b. record {
      start = b.entities.allocator;
      rows = b.entities.rows;
      blocks = b.parts.items;
    } };

    ghost invariant = { λ b. AreDealt b.entities.allocator b.parts.items
        × (b.ends.items ≡ []) × (length b.parts.items ≤ vec_capacity b.ends) };
}

impl Blocks {
    ghost use Rattle.std.specs.Prelude.{[]};
    ghost use Rattle.std.specs.Vec.{vec_capacity};
    ghost use Rattle.ent_blocks.specs.Blocks.{AreDealt};

    pub(crate) fn new(entities: Entities, parts: Vec<Part>, ends: Vec<Part>) -> Self
        requires dealt { AreDealt entities.allocator parts.items }
        requires no_ends { ends.items ≡ [] }
        requires room { length parts.items ≤ vec_capacity ends }
        ensures { result ≡ record {
          start = entities.allocator;
          rows = entities.rows;
          blocks = parts.items;
        } }
    {
        Blocks {
            entities,
            parts,
            ends,
        }
    }

    /// Returns the number of blocks.
    pub fn count(&self) -> usize
        ensures { result ≡ length self.now.blocks }
    {
        self.parts.len()
    }

    /// Returns the allocator as it was when the phase was opened.
    pub fn opened(&self) -> &Entities
        ensures start { result.now.allocator ≡ self.now.start }
        ensures rows { result.now.rows ≡ self.now.rows }
    {
        &self.entities
    }

    /// Whether these reservers are in the order in which they were made.
    pub(crate) fn has_in_order(&self, reservers: &[BlockReserver]) -> bool
        ensures { IsTrue result ↔ IsTrue (are_among self.now.blocks (blocks_of reservers.now)) }
    {
        missing(&self.parts, reservers).is_some()
    }

    /// Reserves the next handle of the reserver's block. It makes no atomic step, and neither
    /// allocates nor waits.
    ///
    /// # Errors
    ///
    /// [`Refused::Space`], with 1 wanted and 0 left, if the block is used up. The reserver
    /// [remembers](BlockReserver::wanted) it.
    #[inline(always)]
    pub fn reserve(&self, reserver: &mut BlockReserver) -> Result<Handle, Refused>
        requires { IsOf self.now reserver.old.block }
        ensures stays { IsOf self.now reserver.new.block }
        ensures drawn { IsDrawn self.now reserver.old reserver.new 1 (listed_alone result) }
    {
        match take_one(&self.entities, &mut reserver.part) {
            Ok(handle) => Ok(handle),
            Err(Space { wanted, left }) => Err(reserver.refuse(wanted, left)),
        }
    }

    /// Reserves the next `n` handles of the reserver's block, all of them or none. They are listed
    /// in the order of [`Entities::reply`]. It neither allocates nor waits.
    ///
    /// # Errors
    ///
    /// [`Refused::Space`] if the block has fewer than `n` handles left. The reserver
    /// [remembers](BlockReserver::wanted) how many were wanted.
    #[inline(always)]
    pub fn reserve_many(
        &self,
        reserver: &mut BlockReserver,
        n: u32,
    ) -> Result<Reserved<'_>, Refused>
        requires { IsOf self.now reserver.old.block }
        ensures stays { IsOf self.now reserver.new.block }
        ensures drawn { IsDrawn self.now reserver.old reserver.new n result }
        ensures length { IfOk result (λ handles. length handles ≡ n) }
        ensures enough { OnOk result (n ≤ left_of reserver.old.block) }
    {
        let left = reserver.left();
        if n > left {
            return Err(reserver.refuse(n, left));
        }
        Ok(take_many(&self.entities, &mut reserver.part, n))
    }

    /// Ends the phase with the reservers of all blocks, in the order in which they were made. It
    /// doesn't allocate. [`Ended::into_entities`] then gives the allocator.
    pub fn close(self, reservers: Vec<BlockReserver>) -> Ended
        requires among { IsTrue (are_among self.blocks (blocks_of reservers.items)) }
        requires all { length reservers.items ≡ length self.blocks }
        ensures { EndsWithAll self reservers.items result }
    {
        self.close_lost(reservers)
    }

    /// Ends the phase although some reservers may be lost: they were dropped, as by a thread that
    /// panicked. The others are in the order in which they were made. What is left of a lost one's
    /// block counts as used. It doesn't allocate.
    pub fn close_lost(self, reservers: Vec<BlockReserver>) -> Ended
        requires { IsTrue (are_among self.blocks (blocks_of reservers.items)) }
        ensures ended { EndsWithSome self reservers.items result }
        ensures all { map unused (accounted self.blocks (blocks_of reservers.items)) ≡ self.blocks }
    {
        let Blocks {
            entities,
            parts,
            mut ends,
        } = self;
        account(&parts, &reservers, &mut ends);
        Ended::new(entities, ends, 0)
    }
}
