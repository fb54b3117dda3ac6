//! What calls return, as text.

use ent_alloc::Reserved;
use ent_handle::{Birth, ComponentId, Handle};
use ent_storage::Items;
use ent_world::{Fault, FaultKind};
use std::alloc::{AllocError, Global};
use std::fmt::Display;

/// What a call returned: words with spaces between them. Of what isn't there it is `none`, and of a
/// list of nothing `empty`.
#[derive(Drop)]
pub struct Out {
    pub text: String,
    /// Memory for a part of the text ran out.
    pub is_cut: bool,
}

impl Out {
    pub fn new(alloc: Global) -> Self {
        Out {
            text: String::new(alloc),
            is_cut: false,
        }
    }

    /// With room for a line, also if its first allocation fails. So nothing of an answer is lost.
    pub fn with_room(alloc: Global) -> Result<Self, AllocError> {
        let text = match String::with_capacity(alloc, 4096) {
            Err(_) => String::with_capacity(alloc, 4096),
            made => made,
        }?;
        Ok(Out {
            text,
            is_cut: false,
        })
    }

    pub fn clear(&mut self) {
        self.text.clear();
        self.is_cut = false;
    }

    pub fn word(&mut self, word: &str) {
        if self.text.push_str(word).is_err() {
            self.is_cut = true;
        }
    }

    pub fn show<T: Display>(&mut self, value: &T) {
        if write!(self.text, "{value}").is_err() {
            self.is_cut = true;
        }
    }

    /// The value after a space.
    pub fn next<T: Display>(&mut self, value: &T) {
        self.word(" ");
        self.show(value);
    }

    pub fn value<T: Display + Drop>(&mut self, value: Option<T>) {
        match value {
            Some(value) => self.show(&value),
            None => self.word("none"),
        }
    }

    pub fn given<T: Display + Drop, E: Display + Drop>(&mut self, given: Result<T, E>) {
        match given {
            Ok(value) => self.show(&value),
            Err(fault) => self.show(&fault),
        }
    }

    pub fn done<E: Display + Drop>(&mut self, changed: Result<(), E>) {
        match changed {
            Ok(()) => self.word("done"),
            Err(fault) => self.show(&fault),
        }
    }

    pub fn birth(&mut self, birth: Option<Birth>) {
        let Some(birth) = birth else {
            return self.word("none");
        };
        self.show(&birth.frame);
        self.word(".");
        self.show(&birth.system);
        self.word(".");
        self.show(&birth.ordinal);
    }

    pub fn item(&mut self, id: ComponentId, value: i64) {
        self.word(" ");
        self.show(&id.0);
        self.word("=");
        self.show(&value);
    }

    /// Components with their values, in their order.
    pub fn items(&mut self, items: Items<'_>) {
        for (id, value) in items {
            self.item(id, value);
        }
    }

    /// The components of an entity, if it is there.
    pub fn entity(&mut self, items: Option<Items<'_>>) {
        match items {
            Some(items) if items.len() > 0 => self.items(items),
            Some(_) => self.word("empty"),
            None => self.word("none"),
        }
    }

    /// The components of a bundle.
    pub fn bundle(&mut self, items: &[(ComponentId, i64)]) {
        for (id, value) in items {
            self.item(*id, *value);
        }
    }

    pub fn handles(&mut self, handles: &[Handle]) {
        if handles.is_empty() {
            self.word("empty");
        }
        for handle in handles {
            self.word(" ");
            self.show(handle);
        }
    }

    /// The handles that a request was given.
    pub fn reserved(&mut self, handles: Reserved<'_>) {
        if handles.len() == 0 {
            self.word("empty");
        }
        for handle in handles {
            self.word(" ");
            self.show(&handle);
        }
    }

    /// A list of handles, if there is memory for it.
    pub fn list<E: Display + Drop>(&mut self, list: Result<Vec<Handle>, E>) {
        match list {
            Ok(handles) => self.handles(&handles),
            Err(fault) => self.show(&fault),
        }
    }

    /// Faults, each with the number of its system and of its command.
    pub fn faults(&mut self, faults: &[Fault]) {
        if faults.is_empty() {
            self.word("empty");
        }
        for (number, fault) in faults.iter().enumerate() {
            if number > 0 {
                self.word("; ");
            }
            self.fault(fault);
        }
    }

    fn fault(&mut self, fault: &Fault) {
        self.show(&fault.system);
        self.word(" ");
        self.show(&fault.command);
        match fault.kind {
            FaultKind::NotAlive(handle) => {
                self.word(" not alive ");
                self.show(&handle);
            }
            FaultKind::Space { wanted, left } => {
                self.word(" ");
                self.show(&wanted);
                self.word(" wanted and ");
                self.show(&left);
                self.word(" left");
            }
            FaultKind::Quota { left } => {
                self.word(" quota ");
                self.show(&left);
            }
        }
    }
}
