ghost use Rattle.std.specs.Prelude.{◌≡◌, ◌<◌, ◌↔◌, true, IsTrue, length, take};
ghost use Rattle.std.specs.Prelude.{IfOk, OnOk, IfErr, OnErr, Ok};
ghost use Rattle.ent_replay.specs.Schedule.{starting, outcome_of, after_event, outcomes_of};
ghost use Rattle.ent_replay.specs.Schedule.{after_events};
ghost use Rattle.ent_replay.specs.Schedule.{event_takes_memory, RunsOutAt};
ghost use Rattle.ent_replay.specs.Schedule.{on_alloc, on_free, on_flush, on_begin, on_step};
ghost use Rattle.ent_replay.specs.Schedule.{on_answer};
ghost use Rattle.ent_replay.specs.Machine.{Makes};
ghost use Rattle.ent_replay.specs.Histories.{IsAtRest, new_phase, StandInHistory};
ghost use Rattle.ent_replay.specs.Histories.{given_by_all};
ghost use Rattle.ent_alloc.specs.History.{AreGivenOnce};

use crate::caller_table::CallerTable;
use crate::event::Event;
use crate::fault::ReplayFault;
use crate::handle_list::HandleList;
use crate::outcome::Outcome;
use crate::stored_call::StoredCall;
use ent_alloc::{AllocFault, Entities, FreeFault, Limits, QUOTA, Reserved};
use ent_handle::{Handle, Memory};
use std::alloc::Global;
use std::marker::Model;

/// How many callers there are. They are numbered from 0.
const CALLERS: u32 = 1024;

/// Applies the events of a schedule, one after the other, to an allocator of its own.
///
/// Callers are numbered from 0 to 1,023, and each has at most one open call. Contracts see the
/// allocator, how many handles each caller has requested since the last flush, and the open calls
/// with the replies that their steps fixed. This project's own: Bevy has no such machine.
#[derive(Drop)]
pub struct Machine {
    alloc: Global,
    entities: Entities,
    spent: CallerTable<u64>,
    calls: CallerTable<StoredCall>,
}

impl Model for Machine {
    ghost use Rattle.ent_replay.specs.Schedule.{MachineState, machine_state_code};

    ghost Value = { MachineState };

    ghost coded = { machine_state_code };

    ghost use Rattle.ent_replay.specs.Machine.{machine_state, AreConsistent};

    ghost view = { λ m. machine_state m.entities.allocator m.spent m.calls };

    ghost invariant = { λ m. AreConsistent m.entities.allocator m.spent m.calls };
}

/// Memory ran out while a list of events was applied.
#[derive(Clone, Copy, Debug, PartialEq, Eq)]
pub struct RunMemory {
    /// How many events were applied. The event at this position and all later ones were not.
    pub done: usize,
}

impl Machine {
    /// Makes a machine over an allocator without entities. No call is open, and every caller has
    /// its full quota of 2^40 handles.
    ///
    /// # Errors
    ///
    /// None: it doesn't allocate.
    pub fn new(alloc: Global, limits: Limits) -> Result<Self, Memory>
        ensures { result ≡ Ok (starting limits) }
    {
        let entities = Entities::new(alloc, limits);
        prove_eq!(entities.cursor(), 0);
        Ok(Machine {
            alloc,
            entities,
            spent: CallerTable::new(alloc),
            calls: CallerTable::new(alloc),
        })
    }

    /// Applies one event, and says what it gave.
    ///
    /// # Errors
    ///
    /// A fault changes nothing.
    ///
    /// - `Busy`: `Alloc`, `Free` or `Flush` while a call is open.
    /// - `Caller`: `Begin`, `Step` or `Answer` of a caller above 1,023. It is tested before the
    ///   faults below.
    /// - `AlreadyOpen`, and then `Quota` if the request is above the caller's quota: `Begin`.
    /// - `NotOpen`, and then `AlreadyStepped`: `Step`.
    /// - `NotOpen`, and then `NotStepped`: `Answer`.
    /// - `Memory`: tested last, and only if the event makes a slot, frees a handle whose slot isn't
    ///   retired, brings handles to life, opens a call or lists the handles of a reply. A reply and
    ///   a flush ask for their whole list before they list a handle.
    // Not inlined, its result goes through memory.
    #[inline(always)]
    pub fn step(&mut self, event: Event) -> Result<Outcome, ReplayFault>
        ensures outcome { ¬ (result ≡ Err ReplayFault.Memory) → result ≡ outcome_of self.old event }
        ensures state { ¬ (result ≡ Err ReplayFault.Memory)
            → self.new ≡ after_event self.old event }
        ensures memory { result ≡ Err ReplayFault.Memory → self.new ≡ self.old }
        ensures grows { result ≡ Err ReplayFault.Memory
            → event_takes_memory self.old (outcome_of self.old event) ≡ true }
    {
        match event {
            Event::Alloc => self.alloc(),
            Event::Free(handle) => self.free(handle),
            Event::Flush => self.flush(),
            Event::Begin { caller, n } => self.begin(caller, n),
            Event::Step(caller) => self.take(caller),
            Event::Answer(caller) => self.answer(caller),
        }
    }

    /// Applies all events in order, and lists what each of them gave. A fault is listed like an
    /// outcome, and the events after it are applied as usual.
    ///
    /// From a machine at rest, the reservations of the run are a legal history in the order of
    /// their steps. No handle is given twice in a run, whatever the limits are.
    ///
    /// # Errors
    ///
    /// `RunMemory` if memory ran out. The first `done` events stand, and no later one was applied.
    /// Either the event at `done` would have taken memory, or `done` is 0 and there was no room to
    /// list the outcomes.
    pub fn run(&mut self, events: &[Event]) -> Result<Vec<Result<Outcome, ReplayFault>>, RunMemory>
        ensures outcomes { IfOk result (λ outcomes.
            outcomes.items ≡ outcomes_of self.old events.now) }
        ensures state { OnOk result (self.new ≡ after_events self.old events.now) }
        ensures history { IfOk result (λ outcomes. IsAtRest self.old
            → StandInHistory (new_phase self.old) self.old events.now outcomes.items) }
        ensures given_once { IfOk result (λ outcomes.
            AreGivenOnce (given_by_all outcomes.items)) }

        ensures cut { IfErr result (λ memory. memory.done < length events.now) }
        ensures cut_state { IfErr result (λ memory.
            self.new ≡ after_events self.old (take memory.done events.now)) }
        ensures grows { IfErr result (λ memory. RunsOutAt self.old events.now memory.done) }
    {
        let Ok(mut outcomes) = Vec::with_capacity(self.alloc, events.len()) else {
            return Err(RunMemory { done: 0 });
        };
        for (done, event) in events.iter().enumerate() {
            let outcome = self.step(*event);
            if is_out_of_memory(&outcome) {
                return Err(RunMemory { done });
            }
            outcomes.push_reserved(outcome);
        }
        Ok(outcomes)
    }

    #[inline(always)]
    fn alloc(&mut self) -> Result<Outcome, ReplayFault>
        ensures { Makes (on_alloc self.old) self.old result self.new }
    {
        if !self.calls.is_empty() {
            return Err(ReplayFault::Busy);
        }
        match self.entities.alloc() {
            Ok(handle) => Ok(Outcome::Handle(handle)),
            Err(AllocFault::NeedsFlush) => Ok(Outcome::NeedsFlush),
            Err(AllocFault::Space) => Ok(Outcome::Space { wanted: 1, left: 0 }),
            Err(AllocFault::Memory) => Err(ReplayFault::Memory),
        }
    }

    #[inline(always)]
    fn free(&mut self, handle: Handle) -> Result<Outcome, ReplayFault>
        ensures { Makes (on_free self.old handle) self.old result self.new }
    {
        if !self.calls.is_empty() {
            return Err(ReplayFault::Busy);
        }
        match self.entities.free(handle) {
            Ok(freed) => Ok(Outcome::Freed {
                handle,
                next: freed.next,
            }),
            Err(FreeFault::NeedsFlush) => Ok(Outcome::NeedsFlush),
            Err(FreeFault::NotAlive) => Ok(Outcome::NotAlive),
            Err(FreeFault::Memory) => Err(ReplayFault::Memory),
        }
    }

    #[inline(always)]
    fn flush(&mut self) -> Result<Outcome, ReplayFault>
        ensures { Makes (on_flush self.old) self.old result self.new }
    {
        if !self.calls.is_empty() {
            return Err(ReplayFault::Busy);
        }
        let mut born = Vec::new(self.alloc);
        if self.entities.flush(&mut born).is_err() {
            return Err(ReplayFault::Memory);
        }
        self.spent.clear();
        Ok(Outcome::Born(HandleList::new(born)))
    }

    #[inline(always)]
    fn begin(&mut self, caller: u32, n: u32) -> Result<Outcome, ReplayFault>
        ensures { Makes (on_begin self.old caller n) self.old result self.new }
    {
        if caller >= CALLERS {
            return Err(ReplayFault::Caller);
        }
        if self.calls.get(caller).is_some() {
            return Err(ReplayFault::AlreadyOpen);
        }
        let spent = self.spent.get(caller).unwrap_or(0);
        let left = QUOTA - spent;
        if left < u64::from(n) {
            return Err(ReplayFault::Quota { left });
        }
        let call = StoredCall {
            requested: n,
            span: None,
        };
        if self.calls.insert(caller, call).is_err() {
            return Err(ReplayFault::Memory);
        }
        if self.spent.insert(caller, spent + u64::from(n)).is_err() {
            self.calls.remove(caller);
            return Err(ReplayFault::Memory);
        }
        Ok(Outcome::Open)
    }

    #[inline(always)]
    fn take(&mut self, caller: u32) -> Result<Outcome, ReplayFault>
        ensures { Makes (on_step self.old caller) self.old result self.new }
    {
        if caller >= CALLERS {
            return Err(ReplayFault::Caller);
        }
        let Some(call) = self.calls.get(caller) else {
            return Err(ReplayFault::NotOpen);
        };
        if call.span.is_some() {
            return Err(ReplayFault::AlreadyStepped);
        }
        let span = self.entities.lower(call.requested);
        let stepped = StoredCall {
            requested: call.requested,
            span: Some(span),
        };
        self.calls.replace(caller, stepped);
        Ok(Outcome::Cursor(span.low))
    }

    #[inline(always)]
    fn answer(&mut self, caller: u32) -> Result<Outcome, ReplayFault>
        ensures { Makes (on_answer self.old caller) self.old result self.new }
    {
        if caller >= CALLERS {
            return Err(ReplayFault::Caller);
        }
        let Some(call) = self.calls.get(caller) else {
            return Err(ReplayFault::NotOpen);
        };
        let Some(span) = call.span else {
            return Err(ReplayFault::NotStepped);
        };
        let outcome = match self.entities.reply(span) {
            Ok(reserved) => match listed(self.alloc, reserved) {
                Ok(handles) => Outcome::Handles(handles),
                Err(_) => return Err(ReplayFault::Memory),
            },
            Err(space) => Outcome::Space {
                wanted: space.wanted,
                left: space.left,
            },
        };
        self.calls.remove(caller);
        Ok(outcome)
    }
}

/// Whether memory ran out.
fn is_out_of_memory(outcome: &Result<Outcome, ReplayFault>) -> bool
    ensures { IsTrue result ↔ (outcome.now ≡ Err ReplayFault.Memory) }
{
    match outcome {
        Ok(_) => false,
        Err(fault) => *fault == ReplayFault::Memory,
    }
}

/// Lists the handles of a reply. A list that doesn't fit is refused before a handle is listed.
fn listed(alloc: Global, reserved: Reserved<'_>) -> Result<HandleList, Memory>
    ensures ok { IfOk result (λ handles. handles ≡ reserved.entry) }
    ensures memory { OnErr result (0 < length reserved.entry) }
{
    let mut handles = Vec::with_capacity(alloc, reserved.len())?;
    for handle in reserved {
        handles.push_reserved(handle);
    }
    Ok(HandleList::new(handles))
}
