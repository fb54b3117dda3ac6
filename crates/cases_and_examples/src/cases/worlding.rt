//! Calls of a world, of its phases, and of the queues that are issued in them.

use crate::cases::call::Call;
use crate::cases::ended::{Ended, Tried};
use crate::cases::frames::Listed;
use crate::cases::phase::Phase;
use crate::cases::queues::{stops_at, write_queue};
use crate::cases::synced::Synced;
use crate::cases::viewing::{look, view, write_state};
use crate::cases::writing::Out;
use ent_alloc::Limits;
use ent_handle::Memory;
use ent_queue::{Bundle, CommandQueue};
use ent_runner::{FrameFault, FrameReport, NoGate, run_frame};
use ent_world::{SyncFault, SyncReport, World};
use std::alloc::Global;
use std::thread::Threads;

/// A world, as calls change it.
#[derive(Drop)]
pub struct Worlding {
    /// It is there unless a phase is open.
    world: Option<World>,
    phase: Option<Phase>,
    /// The queues of the last phase or frame.
    queues: Vec<CommandQueue>,
    /// The systems of the next frame.
    systems: Vec<Listed>,
    synced: Synced,
    tried: Tried,
    /// The bundle of the calls `bundle` and `put`.
    bundle: Bundle,
    alloc: Global,
}

impl Worlding {
    pub fn new(alloc: Global) -> Self {
        Worlding {
            world: Some(World::new(alloc, Limits::default_limits())),
            phase: None,
            queues: Vec::new(alloc),
            systems: Vec::new(alloc),
            synced: Synced::new(alloc),
            tried: Tried::new(Ended::Done),
            bundle: Bundle::new(alloc),
            alloc,
        }
    }

    /// A world of so many slots and generations.
    fn renew(&mut self, slots: u32, generations: u32) -> &'static str {
        let Some(limits) = Limits::new(slots, generations) else {
            return "no limits";
        };
        self.phase = None;
        self.queues.clear();
        self.systems.clear();
        self.tried = Tried::new(Ended::Done);
        self.world = Some(World::new(self.alloc, limits));
        "done"
    }

    fn open(&mut self, reservers: usize) -> &'static str {
        let Some(world) = self.world.take() else {
            return "a phase is open";
        };
        match Phase::open(world, reservers) {
            Ok(phase) => {
                self.queues.clear();
                self.phase = Some(phase);
                "done"
            }
            Err((world, why)) => {
                self.world = Some(world);
                why
            }
        }
    }

    fn close(&mut self, is_lost: bool) -> &'static str {
        match self.phase.take() {
            Some(phase) => {
                self.world = Some(phase.close(is_lost));
                "done"
            }
            None => "no phase is open",
        }
    }

    fn flush(&mut self) -> &'static str {
        match &mut self.world {
            Some(world) => match world.flush() {
                Ok(()) => "done",
                Err(Memory) => "out of memory",
            },
            None => "a phase is open",
        }
    }

    fn apply(&mut self) -> Ended {
        let Some(world) = &mut self.world else {
            return Ended::Refused("a phase is open");
        };
        if self.queues.len() > 65_536 {
            return Ended::Refused("too many queues");
        }
        let applied = world.apply(&self.queues);
        self.synced.keep(applied)
    }

    /// Goes on with the queues at that handle of that command of that system.
    fn apply_from(&mut self, [system, command, done]: [u32; 3]) -> Ended {
        match self.applied_from(system as usize, command as usize, done as usize) {
            Some(applied) => self.synced.keep(applied),
            None => Ended::Refused("no such command"),
        }
    }

    /// What is left of the queues there. `None` if there is no such place, or the world can't go
    /// on.
    fn applied_from(
        &mut self,
        system: usize,
        command: usize,
        done: usize,
    ) -> Option<Result<SyncReport, SyncFault>> {
        let Some(world) = &mut self.world else {
            return None;
        };
        if world.needs_flush() || done >= stops_at(&self.queues, system, command) {
            return None;
        }
        Some(world.apply_from(&self.queues, system, command, done))
    }

    /// Goes on where the sync point stopped, if it did.
    fn go_on(&mut self) -> &'static str {
        let Ended::Stopped(system, command, done) = self.tried.ended else {
            return "done";
        };
        match self.applied_from(system, command, done) {
            Some(Ok(rest)) => {
                self.tried.ended = Ended::Done;
                self.synced.keep_rest(&rest)
            }
            Some(Err(_)) => "out of memory",
            None => "no such command",
        }
    }

    /// A call of one of the systems.
    fn in_phase(&mut self, system: usize, call: &Call<'_>, out: &mut Out) {
        match &mut self.phase {
            Some(phase) => phase.answer(self.alloc, &mut self.queues, system, call, out),
            None => out.word("no phase is open"),
        }
    }

    fn set_up(&mut self, call: &Call<'_>, out: &mut Out) {
        let [first, second, _] = call.numbers;
        match call.name {
            "world" => out.word(self.renew(first, second)),
            "open" => out.word(self.open(first as usize)),
            "close" => out.word(self.close(false)),
            "close_lost" => out.word(self.close(true)),
            _ => self.sync(call, out),
        }
    }

    fn sync(&mut self, call: &Call<'_>, out: &mut Out) {
        match call.name {
            "flush" => out.word(self.flush()),
            "apply" => self.apply().show(out),
            "try_apply" => {
                let ended = self.apply();
                self.keep_tried(ended, out);
            }
            "apply_from" => self.apply_from(call.numbers).show(out),
            "go_on" => out.word(self.go_on()),
            _ => self.tell(call, out),
        }
    }

    /// A call that is no system's and that leaves the phase.
    fn tell(&mut self, call: &Call<'_>, out: &mut Out) {
        match call.name {
            "born" => out.handles(&self.synced.report.born),
            "born_len" => out.show(&self.synced.report.born.len()),
            "queues_len" => out.show(&self.queues.len()),
            "faults" => out.faults(&self.synced.report.faults),
            "bundle" => {
                self.bundle = Bundle::new(self.alloc);
                put_all(&mut self.bundle, call, out);
            }
            "put" => put_all(&mut self.bundle, call, out),
            "bundle_of" => write_list(self.alloc, call, out),
            "queue" | "queue_len" | "bytes" => self.tell_queue(call, out),
            _ => self.tell_world(call, out),
        }
    }

    fn tell_queue(&self, call: &Call<'_>, out: &mut Out) {
        match self.queues.get(call.number() as usize) {
            Some(queue) => look_at_queue(queue, call, out),
            None => out.word("no queue"),
        }
    }

    fn tell_world(&mut self, call: &Call<'_>, out: &mut Out) {
        match &mut self.world {
            Some(world) => answer(world, self.alloc, call, out),
            None => self.tell_phase(call, out),
        }
    }

    fn tell_phase(&self, call: &Call<'_>, out: &mut Out) {
        match &self.phase {
            Some(phase) => view(&phase.view(), call, out),
            None => out.word("no world"),
        }
    }

    /// One more system, with the calls of this line.
    fn add_system(&mut self, line: &str) -> &'static str {
        let calls = line.strip_prefix("system").unwrap_or("");
        let Ok(calls) = String::from_str(self.alloc, calls) else {
            return "out of memory";
        };
        match self.systems.push(Listed { calls }) {
            Ok(()) => "done",
            Err(_) => "out of memory",
        }
    }

    /// A frame of the systems that were listed.
    fn frame<R: Threads + Sync>(&mut self, rt: &R, workers: u32) -> Ended {
        let Some(world) = &mut self.world else {
            return Ended::Refused("a phase is open");
        };
        if world.needs_flush() || self.systems.len() > 65_536 || workers < 1 || workers > 64 {
            return Ended::Refused("refused");
        }
        let workers = workers as usize;
        match run_frame(rt, self.alloc, world, &self.systems, workers, &NoGate) {
            Ok(FrameReport { queues, sync }) => self.keep(queues, Ok(sync)),
            Err(FrameFault::Memory) => Ended::Refused("out of memory"),
            Err(FrameFault::Lost(_)) => Ended::Lost,
            Err(FrameFault::Sync { fault, queues }) => self.keep(queues, Err(fault)),
        }
    }

    /// Keeps what a frame left.
    fn keep(&mut self, queues: Vec<CommandQueue>, synced: Result<SyncReport, SyncFault>) -> Ended {
        self.queues = queues;
        match synced {
            Err(SyncFault::FlushMemory) => Ended::Unborn,
            synced => self.synced.keep(synced),
        }
    }

    /// A sync point or a frame: `done` even if it ran out of memory. Then a line must say how it
    /// ended.
    fn keep_tried(&mut self, ended: Ended, out: &mut Out) {
        match ended {
            Ended::Refused(why) => out.word(why),
            _ => {
                self.tried = Tried::new(ended);
                out.word("done");
            }
        }
    }

    /// Whether the last of these ended so.
    pub fn holds(&mut self, when: &Call<'_>) -> bool {
        let living = match &self.world {
            Some(world) => world.len(),
            None => 0,
        };
        self.tried.holds(when, living)
    }

    pub fn take_untold(&mut self) -> bool {
        self.tried.take_untold()
    }

    /// Writes what the calls show of the state.
    pub fn write_state(&self, out: &mut Out) {
        match (&self.world, &self.phase) {
            (Some(world), _) => write_state(world, out),
            (None, Some(phase)) => phase.write_state(out),
            (None, None) => out.word("no world"),
        }
        for queue in &self.queues {
            out.word(" ");
            write_queue(queue, out);
        }
        out.bundle(self.bundle.items());
    }

    /// Makes the call, and writes what it returned.
    pub fn answer<R: Threads + Sync>(&mut self, rt: &R, call: &Call<'_>, out: &mut Out) {
        if let Some(system) = call.system {
            return self.in_phase(system, call, out);
        }
        match call.name {
            "frame" => self.frame(rt, call.number()).show(out),
            "try_frame" => {
                let ended = self.frame(rt, call.number());
                self.keep_tried(ended, out);
            }
            "system" => out.word(self.add_system(call.line)),
            "no_systems" => {
                self.systems.clear();
                out.word("done");
            }
            _ => self.set_up(call, out),
        }
    }
}

fn answer(world: &mut World, alloc: Global, call: &Call<'_>, out: &mut Out) {
    match call.name {
        "spawn" => spawn(world, alloc, call, out),
        "despawn" => despawn(world, call, out),
        _ => look(world, call, out),
    }
}

fn spawn(world: &mut World, alloc: Global, call: &Call<'_>, out: &mut Out) {
    match Bundle::of(alloc, &call.items) {
        Ok(bundle) => out.given(world.spawn(call.birth, &bundle)),
        Err(fault) => out.show(&fault),
    }
}

fn despawn(world: &mut World, call: &Call<'_>, out: &mut Out) {
    match world.despawn(call.handle) {
        Ok(freed) => out.value(freed.next),
        Err(fault) => out.show(&fault),
    }
}

fn write_list(alloc: Global, call: &Call<'_>, out: &mut Out) {
    match Bundle::of(alloc, &call.items) {
        Ok(bundle) => out.bundle(bundle.items()),
        Err(fault) => out.show(&fault),
    }
}

/// Puts the components one by one, and writes the bundle.
fn put_all(bundle: &mut Bundle, call: &Call<'_>, out: &mut Out) {
    for (id, value) in &call.items {
        if bundle.put(*id, *value).is_err() {
            return out.word("out of memory");
        }
    }
    out.bundle(bundle.items());
}

fn look_at_queue(queue: &CommandQueue, call: &Call<'_>, out: &mut Out) {
    match call.name {
        "queue" => write_queue(queue, out),
        "queue_len" => out.show(&queue.len()),
        _ => write_bytes(queue.bytes(), out),
    }
}

fn write_bytes(bytes: &[u8], out: &mut Out) {
    if bytes.is_empty() {
        out.word("empty");
    }
    for byte in bytes {
        out.word(" ");
        out.show(byte);
    }
}
