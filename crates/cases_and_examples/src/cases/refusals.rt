//! Calls that may run out of memory.

use crate::cases::call::Call;
use crate::cases::layer::Layer;
use crate::cases::writing::Out;
use std::alloc::{AllocError, Global};
use std::thread::Threads;

/// What a call answers if it ran out of memory.
const REFUSED: &str = "out of memory";

/// Which calls of a file ran out of memory.
///
/// In a file whose name ends with `out_of_memory` such a call is made again, if it has changed
/// nothing. In all other files its answer is compared as any other is.
#[derive(Drop)]
pub struct Refusals {
    pub are_awaited: bool,
    /// How many calls were made again.
    pub count: u64,
    /// The text of the state before a call, and of that after its refusal.
    before: Out,
    after: Out,
}

impl Refusals {
    /// Those of a file of this name.
    pub fn of(alloc: Global, name: &str) -> Result<Self, AllocError> {
        Ok(Refusals {
            are_awaited: name.ends_with("out_of_memory.txt"),
            count: 0,
            before: Out::with_room(alloc)?,
            after: Out::with_room(alloc)?,
        })
    }

    /// Makes the call of a line, and writes what it returned.
    pub fn make<R: Threads + Sync>(
        &mut self,
        rt: &R,
        alloc: Global,
        layer: &mut Layer,
        line: &str,
        out: &mut Out,
    ) {
        let call = Call::read(alloc, line);
        if !self.are_awaited {
            return answer(rt, layer, &call, out);
        }
        write_state(layer, &call, &mut self.before);
        answer(rt, layer, &call, out);
        if out.text.as_str() == REFUSED {
            self.count = self.count.saturating_add(1);
            self.make_again(rt, alloc, layer, line, out);
        }
    }

    /// Makes a call again that ran out of memory, if it has changed nothing.
    fn make_again<R: Threads + Sync>(
        &mut self,
        rt: &R,
        alloc: Global,
        layer: &mut Layer,
        line: &str,
        out: &mut Out,
    ) {
        let call = Call::read(alloc, line);
        write_state(layer, &call, &mut self.after);
        if self.is_as_before() {
            answer(rt, layer, &call, out);
        } else {
            out.word(", and the state is now ");
            out.word(self.after.text.as_str());
            out.word(", and was ");
            out.word(self.before.text.as_str());
        }
    }

    fn is_as_before(&self) -> bool {
        let is_cut = self.before.is_cut || self.after.is_cut;
        !is_cut && self.before.text.as_str() == self.after.text.as_str()
    }
}

fn answer<R: Threads + Sync>(rt: &R, layer: &mut Layer, call: &Call<'_>, out: &mut Out) {
    out.clear();
    if call.is_cut {
        out.word(REFUSED);
    } else {
        layer.answer(rt, call, out);
    }
}

/// Writes the state as text, again if memory for it runs out.
fn write_state(layer: &Layer, call: &Call<'_>, out: &mut Out) {
    out.clear();
    layer.write_state(call, out);
    if out.text.contains(REFUSED) {
        out.clear();
        layer.write_state(call, out);
    }
}
