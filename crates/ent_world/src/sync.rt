//! The sync point of a world: what was reserved comes to life, and then the queues take effect.
ghost use Rattle.std.specs.Prelude.{◌≡◌, ◌<◌, ◌≤◌, ◌^◌, ◌++◌, [], List, length};
ghost use Rattle.std.specs.Prelude.{IfOk, OnOk, OnErr, IsErrOf};
ghost use Rattle.ent_alloc.specs.Sequential.{born};
ghost use Rattle.ent_world.specs.World.{IsWorld};
ghost use Rattle.ent_world.specs.World.{World as WorldValue};
ghost use Rattle.ent_world.specs.declared.fault.Fault.{Fault as FaultValue};
ghost use Rattle.ent_world.specs.Effects.{applied};
ghost use Rattle.ent_world.specs.Sync.{after_births, sync, sync_until, cut, IsStop, IfStopped};
ghost use Rattle.ent_world.specs.Rest.{after_left, IsLater, HasStoppedSo};
ghost use Rattle.ent_world.specs.Memory.{TakesMemoryAt};

use crate::applying::Applying;
use crate::births::{enter_all, name_listed, number_others};
use crate::fault::{SyncFault, SyncReport};
use crate::stop::{At, Stop};
use crate::world::World;
use ent_alloc::Entities;
use ent_handle::{Handle, Memory};
use ent_queue::CommandQueue;
use ent_storage::Rows;

impl World {
    /// The sync point: brings to life what is reserved, each entity with its birth by these queues,
    /// and then applies the queues in their order, which is that of the systems. At most 65,536
    /// queues are applied at once.
    ///
    /// A command on an entity that is not alive at its turn has no effect and is a fault of the
    /// report, and so is a refused spawn. A spawn of many acts handle by handle.
    ///
    /// # Errors
    ///
    /// - `FlushMemory`, only if something is reserved: nothing was done, and the call may be made
    ///   again.
    /// - `Memory`: it stopped before a command, or at a spawn of many before one of its handles.
    ///   That command would there give an entity components, free a handle or list a fault: no
    ///   other takes memory. All births stand, and of the commands just those before.
    pub fn apply(&mut self, queues: &[CommandQueue]) -> Result<SyncReport, SyncFault>
        requires { length queues.now ≤ 2 ^ 16 }
        ensures ok { OnOk result (self.new ≡ (sync queues.now self.old).world) }
        ensures born { IfOk result (λ report. report.born.items ≡ born self.old.allocator) }
        ensures faults { IfOk result (λ report.
            report.faults.items ≡ (sync queues.now self.old).faults) }
        ensures flushed { OnOk result (self.new.allocator.asked ≡ 0) }
        ensures world { IsWorld self.new }

        ensures flush_memory { IsErrOf result SyncFault.FlushMemory → self.new ≡ self.old }
        ensures flush_reserved { IsErrOf result SyncFault.FlushMemory
            → 0 < length self.old.allocator.taken }

        // What holds after it stopped at a command.
        ensures stop { IfStopped result (λ system command done _.
            IsStop system command done queues.now) }
        ensures stopped_world { IfStopped result (λ system command done _.
            self.new ≡ (sync_until system command done queues.now self.old).world) }
        ensures stopped_flushed { IfStopped result (λ _ _ _ _. self.new.allocator.asked ≡ 0) }
        ensures stopped_born { IfStopped result (λ _ _ _ so_far.
            so_far.born.items ≡ born self.old.allocator) }
        ensures stopped_faults { IfStopped result (λ system command done so_far.
            so_far.faults.items ≡ (sync_until system command done queues.now self.old).faults) }
        ensures stopped_memory { IfStopped result (λ system command done _.
            TakesMemoryAt self.new system command done queues.now) }
    {
        let Ok(born) = self.bring_to_life(queues) else {
            return Err(SyncFault::FlushMemory);
        };
        let mut applying = Applying::new(self.alloc);
        let applied = self.apply_all(queues, &mut applying);
        let Applying { items: _, faults } = applying;
        match applied {
            Ok(()) => Ok(SyncReport { born, faults }),
            Err(stop) => Err(stop.fault(SyncReport { born, faults })),
        }
    }

    /// Goes on after a stop of [`World::apply`], or of this call, from where it stopped, with the
    /// same queues. The first `done` handles of that command are done. Nothing is flushed or born,
    /// and the phase stays.
    ///
    /// If the world is as the stop has left it, the world after it is that of a sync point that did
    /// not stop, and the faults are those that the stop's report doesn't have yet.
    ///
    /// # Errors
    ///
    /// `Memory`: it stopped again, there or later, and can go on from there. Of the commands just
    /// those before have taken effect.
    pub fn apply_from(
        &mut self,
        queues: &[CommandQueue],
        system: usize,
        command: usize,
        done: usize,
    ) -> Result<SyncReport, SyncFault>
        requires flushed { self.old.allocator.asked ≡ 0 }
        requires stop { IsStop system command done queues.now }
        ensures ok { OnOk result (self.new
            ≡ (after_left system command done queues.now (applied self.old [])).world) }
        ensures born { IfOk result (λ report. report.born.items ≡ []) }
        ensures faults { IfOk result (λ report. report.faults.items
            ≡ (after_left system command done queues.now (applied self.old [])).faults) }
        ensures flushed { self.new.allocator.asked ≡ 0 }
        ensures world { IsWorld self.new }

        // What holds after it stopped again.
        ensures no_flush { IsErrOf result SyncFault.FlushMemory → ⊥ }
        ensures stop { IfStopped result (λ later later_command later_done _.
            IsStop later later_command later_done queues.now) }
        ensures later { IfStopped result (λ later later_command later_done _.
            IsLater system command done later later_command later_done) }
        ensures stopped_world { IfStopped result (λ later later_command later_done _.
            self.new ≡ (after_left system command done
            (cut later later_command later_done queues.now) (applied self.old [])).world) }
        ensures stopped_born { IfStopped result (λ _ _ _ so_far. so_far.born.items ≡ []) }
        ensures stopped_faults { IfStopped result (λ later later_command later_done so_far.
            so_far.faults.items ≡ (after_left system command done
            (cut later later_command later_done queues.now) (applied self.old [])).faults) }
        ensures stopped_memory { IfStopped result (λ later later_command later_done _.
            TakesMemoryAt self.new later later_command later_done queues.now) }

        // Who stopped there in the sync point of a world has now done the whole of it, or stopped
        // again in that sync point. The faults of all reports are its faults.
        ensures whole_world { (before : WorldValue) (earlier : List FaultValue)
            → HasStoppedSo system command done queues.now before self.old earlier
            → OnOk result (self.new ≡ (sync queues.now before).world) }
        ensures whole_faults { (before : WorldValue) (earlier : List FaultValue)
            → HasStoppedSo system command done queues.now before self.old earlier
            → IfOk result (λ report.
            earlier ++ report.faults.items ≡ (sync queues.now before).faults) }
        ensures whole_later { (before : WorldValue) (earlier : List FaultValue)
            → HasStoppedSo system command done queues.now before self.old earlier
            → IfStopped result (λ later later_command later_done so_far.
            HasStoppedSo later later_command later_done queues.now before self.new
            (earlier ++ so_far.faults.items)) }
    {
        let from = Stop {
            at: At { system, command },
            done,
        };
        let mut applying = Applying::new(self.alloc);
        let applied = self.apply_queues(from, queues, &mut applying);
        let Applying { items: _, faults } = applying;
        let nobody = Vec::new(self.alloc);
        let report = SyncReport {
            born: nobody,
            faults,
        };
        match applied {
            Ok(()) => Ok(report),
            Err(stop) => Err(stop.fault(report)),
        }
    }

    /// Brings to life what is reserved, each entity with its birth by these queues, and returns the
    /// handles in the order of the flush.
    pub(crate) fn bring_to_life(&mut self, queues: &[CommandQueue]) -> Result<Vec<Handle>, Memory>
        requires { length queues.now ≤ 2 ^ 16 }
        ensures ok { OnOk result (self.new ≡ after_births queues.now self.old) }
        ensures born { IfOk result (λ handles. handles.items ≡ born self.old.allocator) }
        ensures err { OnErr result (self.new ≡ self.old) }
        ensures memory { OnErr result (0 < length self.old.allocator.taken) }
        ensures world { IsWorld self.new }
    {
        let mut handles = Vec::new(self.alloc);
        reserve_births(&self.entities, &mut self.storage)?;
        let first = self.entities.len();
        self.entities.flush(&mut handles)?;
        let before = first as usize;
        enter_all(
            &mut self.entities,
            &mut self.storage,
            self.phase,
            first,
            &handles,
        );
        name_listed(
            &self.entities,
            &mut self.storage,
            before,
            self.phase,
            queues,
        );
        number_others(&mut self.storage, before, self.phase, &handles);
        self.phase = self.phase.saturating_add(1);
        Ok(handles)
    }
}

/// Makes room for what is reserved. If nothing is, it doesn't allocate.
#[inline(always)]
fn reserve_births(entities: &Entities, storage: &mut Rows) -> Result<(), Memory>
    ensures entities { storage.new.entities ≡ storage.old.entities }
    ensures places { storage.new.places ≡ storage.old.places }
    ensures ok { OnOk result (length entities.now.allocator.taken ≤ storage.new.spare) }
    ensures grows { storage.old.spare ≤ storage.new.spare }
    ensures memory { OnErr result (0 < length entities.now.allocator.taken) }
{
    let reserved = entities.reserved();
    if reserved == 0 {
        return Ok(());
    }
    storage.reserve(reserved as usize)
}
