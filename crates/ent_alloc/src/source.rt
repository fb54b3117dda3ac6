ghost use Rattle.std.specs.Prelude.{◌≡◌, ◌↔◌, ℕ, Result, List};
ghost use Rattle.std.specs.Prelude.{IfOk, IfErr, OnOk, OnSome, IsTrue, length, true};
ghost use Rattle.std.specs.FinSet as set;
ghost use Rattle.std.specs.FinMap as map;
ghost use Rattle.ent_handle.specs.Handle.{Handle as HandleValue, handle_cmp};
ghost use Rattle.ent_alloc.specs.Sequential.{Allocator, listed_alone};
ghost use Rattle.ent_alloc.specs.Serving.{SaysWanted};
ghost use Rattle.ent_alloc.specs.declared.refused.Refused.{Refused as Refusal};

use crate::refused::Refused;
use crate::reserved::Reserved;
use ent_handle::Handle;

/// An allocator in a phase, which serves the requests of its reservers.
///
/// What a system fills from it, and what runs the system, depend only on this trait. So one type of
/// system works with every source.
///
/// ```
/// use forgeni::{run_frame, OutOfMemory, Source, StdThreads, View, World, WorldCommands};
///
/// /// A system of any frame: of shared handles, or in blocks.
/// fn rain<S: Source>(_: &View<'_>, out: &mut WorldCommands<'_, S>) -> Result<(), OutOfMemory> {
///     out.spawn_many_with(100, &[]).map_or_else(|refused| refused.or_memory(), |_| Ok(()))
/// }
///
/// let mut world = World::new();
/// run_frame(&StdThreads, &mut world, &[rain], 1)?;
/// assert_eq!(world.len(), 100);
/// # Ok::<(), Box<dyn std::error::Error>>(())
/// ```
pub trait Source {
    /// What a caller reserves with.
    type Reserver: Drop;

    /// Whether it serves a reserver: the reserver is of this phase.
    ghost serves: { Self → Self.Reserver → Type 0 };

    /// The reserver before and after a request for so many handles, and the reply.
    ghost may_reply: { Self → Self.Reserver → Self.Reserver → ℕ
        → Result (List HandleValue) Refusal → Type 0 };

    /// Whether a request for so many handles may be served.
    ghost may_give: { Self → Self.Reserver → ℕ → Type 0 };

    /// The allocator as the phase was opened.
    ghost start: { Self → Allocator };

    /// The rows that were kept with its living handles then.
    ghost rows: { Self → map.FinMap handle_cmp ℕ };

    /// Returns `true` if the handle was alive when the phase was opened. It takes constant time.
    ///
    /// ```
    /// use forgeni::{Handle, Source};
    ///
    /// /// The first target that is still there.
    /// fn target<S: Source>(source: &S, targets: &[Handle]) -> Option<Handle> {
    ///     targets.iter().copied().find(|one| source.was_alive(*one))
    /// }
    /// ```
    fn was_alive(&self, handle: Handle) -> bool
        ensures { result ≡ set.contains (start self.now).live handle };

    /// Returns the row that the handle had when the phase was opened, or `None` if it wasn't alive
    /// then or had no row. It takes constant time.
    ///
    /// ```
    /// use forgeni::{Handle, Source};
    ///
    /// /// The value of an entity in a column of an engine's own.
    /// fn value<S: Source>(source: &S, column: &[i64], of: Handle) -> Option<i64> {
    ///     column.get(source.had_row(of)? as usize).copied()
    /// }
    /// ```
    fn had_row(&self, handle: Handle) -> Option<u32>
        ensures value { result ≡ map.get (rows self.now) handle }
        ensures alive { OnSome result (set.contains (start self.now).live handle ≡ true) };

    /// Returns `true` if a request for `n` handles may be served, and `false` if it is sure to be
    /// refused. It takes constant time.
    ///
    /// ```
    /// use forgeni::Source;
    ///
    /// /// The most handles, up to `most`, that a request may be for.
    /// fn most<S: Source>(source: &S, reserver: &S::Reserver, most: u32) -> u32 {
    ///     (0..=most).rev().find(|n| source.may_serve(reserver, *n)).unwrap_or(0)
    /// }
    /// ```
    fn may_serve(&self, reserver: &Self::Reserver, n: u32) -> bool
        ensures { IsTrue result ↔ may_give self.now reserver.now n };

    /// Reserves one handle.
    ///
    /// ```
    /// use forgeni::{Handle, Source};
    ///
    /// /// A handle, if there is one.
    /// fn spark<S: Source>(source: &S, reserver: &mut S::Reserver) -> Option<Handle> {
    ///     source.serve_one(reserver).ok()
    /// }
    /// ```
    ///
    /// # Errors
    ///
    /// [`Refused`], if it gives none.
    fn serve_one(&self, reserver: &mut Self::Reserver) -> Result<Handle, Refused>
        requires { serves self.now reserver.old }
        ensures stays { serves self.now reserver.new }
        ensures replies { may_reply self.now reserver.old reserver.new 1 (listed_alone result) }
        ensures wanted { IfErr result (SaysWanted 1) };

    /// Reserves `n` handles, all of them or none. It doesn't allocate.
    ///
    /// ```
    /// use forgeni::{Handle, Refused, Source};
    ///
    /// /// A wave of ten.
    /// fn wave<S: Source>(source: &S, mine: &mut S::Reserver) -> Result<Vec<Handle>, Refused> {
    ///     Ok(source.serve_many(mine, 10)?.collect())
    /// }
    /// ```
    ///
    /// # Errors
    ///
    /// [`Refused`], if it gives none.
    fn serve_many(&self, reserver: &mut Self::Reserver, n: u32) -> Result<Reserved<'_>, Refused>
        requires { serves self.now reserver.old }
        ensures stays { serves self.now reserver.new }
        ensures replies { may_reply self.now reserver.old reserver.new n result }
        ensures length { IfOk result (λ handles. length handles ≡ n) }
        ensures enough { OnOk result (may_give self.now reserver.old n) }
        ensures wanted { IfErr result (SaysWanted n) };
}
