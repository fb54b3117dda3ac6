//! The sync point: queues take effect on their world.
ghost use Rattle.std.specs.Prelude.{◌≡◌, ◌≢◌, ◌↔◌, ◌<◌, IfOk, IfErr, IsErrAnd, length};
ghost use Rattle.ent_world.specs.Sync.{IsStop};
ghost use Rattle.ent_total.specs.Applying.{IfStopped, IsOtherWorld, IsMemory};
ghost use Rattle.ent_total.specs.Applying.{IsUnbegun, IsCounted, queues_in};
ghost use Rattle.ent_total.specs.Batch.{IsSynced, IsSyncedUntil, IsFinished, IsLeftUntil};
ghost use Rattle.ent_total.specs.declared.go_on_error.GoOnError.TheVariants as gone;

use crate::go_on_error::GoOnError;
use crate::queues::Queues;
use crate::stop::Stop;
use crate::stopped::Stopped;
use crate::sync_error::SyncError;
use crate::world::World;
use ent_handle::HandedBack;
use ent_world::SyncReport;

impl World {
    /// Does the sync point: brings to life what is reserved, and then applies the queues, one after
    /// the other, in their order. A command on an entity that is not alive at its turn has no
    /// effect and is a fault of the report, and so is a refused spawn.
    ///
    /// # Errors
    ///
    /// - [`SyncError::OtherWorld`]: the queues are of a phase of another world. Nothing was done.
    /// - [`SyncError::Memory`]: nothing was done, and the call may be made again with the queues.
    /// - [`SyncError::Stopped`]: memory ran out at a command. All births have taken effect, and
    ///   exactly the commands before that point. It can be [continued](Stopped::go_on).
    ///
    /// ```
    /// use forgeni::{ComponentId, World};
    ///
    /// let mut world = World::new();
    /// let cart = world.spawn(&[(ComponentId(0), 1)])?;
    /// let (open, mut systems) = world.open(1)?;
    /// systems[0].despawn(cart)?;
    /// systems[0].insert(cart, &[(ComponentId(0), 2)])?;
    /// let (mut world, queues) = open.close(systems)?;
    /// let report = world.apply(queues)?;
    /// // It was gone when the second command's turn came.
    /// assert_eq!((report.faults.len(), report.faults[0].command), (1, 1));
    /// # Ok::<(), Box<dyn std::error::Error>>(())
    /// ```
    pub fn apply(&mut self, queues: Queues) -> Result<SyncReport, SyncError>
        ensures applied { IfOk result (λ report.
            IsSynced queues.queues self.old.world self.new.world report) }
        ensures stopped { IfErr result (λ error. IfStopped error (λ stopped.
            IsSyncedUntil stopped.stop queues.queues self.old.world self.new.world
            stopped.so_far)) }
        ensures stays { IfErr result (λ error. queues_in error ≡ queues) }
        ensures other_world { IsErrAnd result IsOtherWorld ↔ (queues.world ≢ self.old.number) }
        ensures reserved { IsErrAnd result IsMemory
            → 0 < length self.old.world.allocator.taken }
        ensures nothing { IfErr result (λ error. IsUnbegun error → self.new ≡ self.old) }
        ensures number { self.new.number ≡ self.old.number }
        ensures counted { IsCounted result self.old.spawned self.new.spawned }
    {
        if queues.world() != self.number {
            return Err(SyncError::OtherWorld(queues));
        }
        match sync(&mut self.world, queues) {
            Ok(report) => {
                self.spawned = 0;
                Ok(report)
            }
            Err(SyncError::Stopped(stopped)) => {
                self.spawned = 0;
                Err(SyncError::Stopped(stopped))
            }
            Err(error) => Err(error),
        }
    }
}

/// `World::apply`, with what it ensures as one fact.
fn sync(world: &mut ent_world::World, queues: Queues) -> Result<SyncReport, SyncError>
    ensures applied { IfOk result (λ report.
        IsSynced queues.queues world.old world.new report) }
    ensures stopped { IfErr result (λ error. IfStopped error (λ stopped.
        IsSyncedUntil stopped.stop queues.queues world.old world.new stopped.so_far)) }
    ensures stays { IfErr result (λ error. queues_in error ≡ queues) }
    ensures error { IfErr result (λ error. ¬ (IsOtherWorld error)) }
    ensures reserved { IsErrAnd result IsMemory → 0 < length world.old.allocator.taken }
    ensures nothing { IfErr result (λ error. IsUnbegun error → world.new ≡ world.old) }
{
    match world.apply(queues.list()) {
        Ok(report) => Ok(report),
        Err(fault) => match Stop::of(fault) {
            None => Err(SyncError::Memory(queues)),
            Some((stop, so_far)) => Err(SyncError::Stopped(Stopped::new(queues, stop, so_far))),
        },
    }
}

impl Stopped {
    /// Continues the sync point where it stopped, in the same world. Nothing is flushed or born. If
    /// nothing else has changed the world since, then in the end the world, and the faults of all
    /// reports together, are those of a sync point that didn't stop.
    ///
    /// ```
    /// use forgeni::{SyncError, World};
    ///
    /// let (open, mut systems) = World::new().open(1)?;
    /// systems[0].spawn(&[])?;
    /// let (mut world, queues) = open.close(systems)?;
    /// let cache = vec![0_u8; 1 << 20];
    /// let report = match world.apply(queues) {
    ///     Err(SyncError::Stopped(stopped)) => {
    ///         drop(cache); // so that there is memory again
    ///         let mut report = stopped.so_far().clone();
    ///         report.faults.extend(stopped.go_on(&mut world)?.faults);
    ///         report
    ///     }
    ///     applied => applied?,
    /// };
    /// assert_eq!((report.born.len(), world.len()), (1, 1));
    /// # Ok::<(), Box<dyn std::error::Error>>(())
    /// ```
    ///
    /// # Errors
    ///
    /// [`HandedBack`] has the sync point, and the first of these errors that applies.
    ///
    /// - [`GoOnError::OtherWorld`]: it stopped in another world. Nothing has changed.
    /// - [`GoOnError::NeedsFlush`]: handles were requested in the world since then. Nothing has
    ///   changed.
    /// - [`GoOnError::Memory`]: memory ran out again, there or later. It can be continued from
    ///   there.
    pub fn go_on(self, world: &mut World) -> Result<SyncReport, HandedBack<Self, GoOnError>>
        ensures applied { IfOk result (λ report.
            IsFinished self.stop self.queues.queues world.old.world world.new.world report) }
        ensures stopped { IfErr result (λ h. h.error ≡ gone.Memory
            → IsLeftUntil self.stop h.value.stop self.queues.queues world.old.world
            world.new.world h.value.so_far) }
        ensures stays { IfErr result (λ h. h.value.queues ≡ self.queues) }
        ensures other_world { IsErrAnd result (λ h. h.error ≡ gone.OtherWorld)
            ↔ (self.queues.world ≢ world.old.number) }
        ensures needs_flush { IsErrAnd result (λ h. h.error ≡ gone.NeedsFlush)
            ↔ ((self.queues.world ≡ world.old.number) × (0 < world.old.world.allocator.asked)) }
        ensures nothing { IfErr result (λ h. h.error ≢ gone.Memory
            → (h.value ≡ self) × (world.new ≡ world.old)) }
        ensures number { world.new.number ≡ world.old.number }
        ensures spawned { world.new.spawned ≡ world.old.spawned }
    {
        if self.world() != world.number {
            return Err(HandedBack::new(self, GoOnError::OtherWorld));
        }
        if world.needs_flush() {
            return Err(HandedBack::new(self, GoOnError::NeedsFlush));
        }
        let (queues, stop) = self.into_parts();
        match apply_left(&mut world.world, queues.list(), stop) {
            Ok(report) => Ok(report),
            Err((later, so_far)) => {
                let stopped = Stopped::new(queues, later, so_far);
                Err(HandedBack::new(stopped, GoOnError::Memory))
            }
        }
    }
}

/// `World::apply_from`, with a stop as one value.
fn apply_left(
    world: &mut ent_world::World,
    queues: &[ent_queue::CommandQueue],
    from: Stop,
) -> Result<SyncReport, (Stop, SyncReport)>
    requires flushed { world.old.allocator.asked ≡ 0 }
    requires stop { IsStop from.system from.command from.done queues.now }
    ensures done { IfOk result (λ r. IsFinished from queues.now world.old world.new r) }
    ensures stopped { IfErr result (λ left.
        IsLeftUntil from left.0 queues.now world.old world.new left.1) }
{
    match world.apply_from(queues, from.system, from.command, from.done) {
        Ok(report) => Ok(report),
        Err(fault) => match Stop::of(fault) {
            None => unreachable!(),
            Some(left) => Err(left),
        },
    }
}
