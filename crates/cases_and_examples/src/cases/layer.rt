//! What the calls of a file are made of.

use crate::cases::allocating::Allocating;
use crate::cases::call::Call;
use crate::cases::storing::Storing;
use crate::cases::worlding::Worlding;
use crate::cases::writing::Out;
use std::alloc::Global;
use std::thread::Threads;

/// What the calls of a file are made of. The file's name tells it.
#[derive(Drop)]
pub enum Layer {
    Alloc(Allocating),
    Storage(Storing),
    World(Worlding),
}

impl Layer {
    pub fn new(alloc: Global, name: &str) -> Self {
        if name.starts_with("alloc") {
            Layer::Alloc(Allocating::new(alloc))
        } else if name.starts_with("storage") {
            Layer::Storage(Storing::new(alloc))
        } else {
            Layer::World(Worlding::new(alloc))
        }
    }

    /// Makes the call, and writes what it returned.
    pub fn answer<R: Threads + Sync>(&mut self, rt: &R, call: &Call<'_>, out: &mut Out) {
        match self {
            Layer::Alloc(layer) => layer.answer(call, out),
            Layer::Storage(layer) => layer.answer(call, out),
            Layer::World(layer) => layer.answer(rt, call, out),
        }
    }

    /// Writes what the calls show of the state, to compare whether that call changed it.
    pub fn write_state(&self, call: &Call<'_>, out: &mut Out) {
        match self {
            Layer::Alloc(layer) => layer.write_state(out),
            Layer::Storage(layer) => layer.write_state(call, out),
            Layer::World(layer) => layer.write_state(out),
        }
    }

    /// Whether the last sync point or frame that may run out of memory ended so.
    pub fn holds(&mut self, when: &Call<'_>) -> bool {
        match self {
            Layer::World(layer) => layer.holds(when),
            _ => false,
        }
    }

    /// Whether it ran out of memory, and no line has said how it ended. Returns `true` once.
    pub fn take_untold(&mut self) -> bool {
        match self {
            Layer::World(layer) => layer.take_untold(),
            _ => false,
        }
    }
}
