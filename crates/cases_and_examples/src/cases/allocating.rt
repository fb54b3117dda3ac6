//! Calls of an allocator.

use crate::cases::call::Call;
use crate::cases::sharing::Sharing;
use crate::cases::writing::Out;
use ent_alloc::{Entities, Limits, State};
use ent_handle::Handle;
use std::alloc::Global;

/// An allocator, as calls change it.
#[derive(Drop)]
pub struct Allocating {
    /// It is there unless it is shared.
    entities: Option<Entities>,
    sharing: Option<Sharing>,
    alloc: Global,
}

impl Allocating {
    pub fn new(alloc: Global) -> Self {
        Allocating::of(alloc, Limits::default_limits())
    }

    fn of(alloc: Global, limits: Limits) -> Self {
        Allocating {
            entities: Some(Entities::new(alloc, limits)),
            sharing: None,
            alloc,
        }
    }

    /// An allocator of so many slots and generations.
    fn renew(&mut self, slots: u32, generations: u32) -> &'static str {
        let Some(limits) = Limits::new(slots, generations) else {
            return "no limits";
        };
        *self = Allocating::of(self.alloc, limits);
        "done"
    }

    fn share(&mut self, reservers: usize) -> &'static str {
        let Some(entities) = self.entities.take() else {
            return "it is shared";
        };
        match Sharing::begin(self.alloc, entities, reservers) {
            Ok(sharing) => {
                self.sharing = Some(sharing);
                "done"
            }
            Err((entities, why)) => {
                self.entities = Some(entities);
                why
            }
        }
    }

    fn close(&mut self, is_lost: bool) -> &'static str {
        match self.sharing.take() {
            Some(sharing) => {
                self.entities = Some(sharing.close(is_lost));
                "done"
            }
            None => "it is not shared",
        }
    }

    fn tell(&mut self, call: &Call<'_>, out: &mut Out) {
        match (&mut self.entities, &mut self.sharing) {
            (Some(entities), _) => change(entities, self.alloc, call, out),
            (None, Some(sharing)) => sharing.answer(call, out),
            (None, None) => out.word("no allocator"),
        }
    }

    pub fn answer(&mut self, call: &Call<'_>, out: &mut Out) {
        let [first, second, _] = call.numbers;
        match call.name {
            "limits" => out.word(self.renew(first, second)),
            "share" => out.word(self.share(first as usize)),
            "close" => out.word(self.close(false)),
            "close_lost" => out.word(self.close(true)),
            _ => self.tell(call, out),
        }
    }

    /// Writes what the calls show of the state.
    pub fn write_state(&self, out: &mut Out) {
        match (&self.entities, &self.sharing) {
            (Some(entities), _) => write_state(entities, out),
            (None, Some(sharing)) => sharing.write_state(out),
            (None, None) => out.word("no allocator"),
        }
    }
}

/// The numbers, and the living handles with their rows.
fn write_state(entities: &Entities, out: &mut Out) {
    for name in &["len", "total", "room", "top", "retired", "reserved"] {
        out.word(" ");
        out.value(number_of(entities, name));
    }
    out.next(&entities.cursor());
    out.next(&entities.asked());
    for handle in entities.iter() {
        out.next(&handle);
        out.word("=");
        out.value(entities.row(handle));
    }
}

fn change(entities: &mut Entities, alloc: Global, call: &Call<'_>, out: &mut Out) {
    match call.name {
        "alloc" => out.given(entities.alloc()),
        "free" => free(entities, call.handle, out),
        "set_row" => set_row(entities, call.handle, call.number(), out),
        "reserve" => reserve(entities, call.number(), out),
        "flush" => flush(entities, Vec::new(alloc), out),
        "flush_after" => flush_after(entities, alloc, call.handle, out),
        _ => look(entities, call, out),
    }
}

fn free(entities: &mut Entities, handle: Handle, out: &mut Out) {
    match entities.free(handle) {
        Ok(freed) => out.value(freed.next),
        Err(fault) => out.show(&fault),
    }
}

fn set_row(entities: &mut Entities, handle: Handle, row: u32, out: &mut Out) {
    if entities.state(handle) != State::Alive {
        return out.word("not alive");
    }
    entities.set_row(handle, row);
    out.word("done");
}

fn reserve(entities: &mut Entities, n: u32, out: &mut Out) {
    if entities.asked() > 1 << 49 {
        return out.word("too much was asked");
    }
    let span = entities.lower(n);
    match entities.reply(span) {
        Ok(reserved) => out.reserved(reserved),
        Err(space) => out.show(&space),
    }
}

/// Flushes into this list. If there is no memory, the list is as it was.
fn flush(entities: &mut Entities, mut list: Vec<Handle>, out: &mut Out) {
    let (len, first) = (list.len(), list.first().copied());
    match entities.flush(&mut list) {
        Ok(()) => out.handles(&list),
        Err(fault) if list.len() == len && list.first().copied() == first => out.show(&fault),
        Err(_) => out.word("the list has changed"),
    }
}

/// Flushes into a list that has this handle.
fn flush_after(entities: &mut Entities, alloc: Global, there: Handle, out: &mut Out) {
    match Vec::from_slice(alloc, &[there]) {
        Ok(list) => flush(entities, list, out),
        Err(_) => out.word("out of memory"),
    }
}

/// The calls that read.
fn look(entities: &Entities, call: &Call<'_>, out: &mut Out) {
    match call.name {
        "state" => out.word(word_of(entities.state(call.handle))),
        "row" => out.value(entities.row(call.handle)),
        "cursor" => out.show(&entities.cursor()),
        "asked" => out.show(&entities.asked()),
        "needs_flush" => out.show(&entities.needs_flush()),
        "is_empty" => out.show(&entities.is_empty()),
        _ => match number_of(entities, call.name) {
            Some(number) => out.show(&number),
            None => out.word("no such call"),
        },
    }
}

fn number_of(entities: &Entities, name: &str) -> Option<u32> {
    match name {
        "len" => Some(entities.len()),
        "total" => Some(entities.total()),
        "room" => Some(entities.room()),
        "top" => Some(entities.top()),
        "retired" => Some(entities.retired()),
        "reserved" => Some(entities.reserved()),
        _ => None,
    }
}

fn word_of(state: State) -> &'static str {
    match state {
        State::Alive => "alive",
        State::Reserved => "reserved",
        State::Gone => "gone",
    }
}
