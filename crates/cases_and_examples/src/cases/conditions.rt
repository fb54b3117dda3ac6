//! Lines with a condition: their calls are made only if it holds.

use crate::cases::call::Call;
use crate::cases::layer::Layer;
use crate::cases::writing::Out;
use std::alloc::{AllocError, Global};

/// Which lines with a condition were left out.
#[derive(Drop)]
pub struct Conditions {
    alloc: Global,
    /// How many lines with a condition there were so far.
    count: u64,
    /// The numbers of those that were left out.
    pub left_out: Out,
}

impl Conditions {
    pub fn new(alloc: Global) -> Result<Self, AllocError> {
        Ok(Conditions {
            alloc,
            count: 0,
            left_out: Out::with_room(alloc)?,
        })
    }

    /// The call of the line, unless it has a condition that doesn't hold.
    pub fn call_now<'a>(&mut self, layer: &mut Layer, line: &'a str) -> Option<&'a str> {
        let Some((when, call)) = when_of(line) else {
            return Some(line);
        };
        self.count = self.count.saturating_add(1);
        if layer.holds(&Call::read(self.alloc, when)) {
            return Some(call);
        }
        self.left_out.word(" ");
        self.left_out.show(&self.count);
        None
    }
}

/// The condition before the call.
pub fn when_of(line: &str) -> Option<(&str, &str)> {
    let (when, call) = line.split_once(": ")?;
    match when.split_whitespace().next() {
        Some("at" | "lost" | "lost_of" | "kept" | "unborn") => Some((when, call)),
        _ => None,
    }
}
