ghost use Rattle.std.specs.Prelude.{◌≡◌, ◌<◌, [], length, OnOk};
ghost use Rattle.spawnrun_lib.specs.Issuing.{bound};
ghost use Rattle.spawnrun_lib.specs.Parts.{names_of};

use ent_handle::{Handle, Memory};
use std::alloc::Global;
use std::marker::Model;

/// The lists of handles to which the names of a system are bound, by the numbers of the names.
#[derive(Drop)]
pub(crate) struct Bindings {
    lists: Vec<Vec<Handle>>,
    alloc: Global,
}

impl Model for Bindings {
    ghost use Rattle.std.specs.Prelude.{List, map};
    ghost use Rattle.ent_handle.specs.Handle.{Handle};

    ghost Value = { List (List Handle) };

    ghost view = { λ n. map (λ list. list.items) n.lists.items };
}

impl Bindings {
    /// No name is bound. It doesn't allocate.
    pub(crate) fn new(alloc: Global) -> Self
        ensures { result ≡ [] }
    {
        Bindings {
            lists: Vec::new(alloc),
            alloc,
        }
    }

    /// What is bound to the name: nothing, unless it was bound.
    pub(crate) fn get(&self, name: usize) -> &[Handle]
        ensures { result.now ≡ names_of self.now name }
    {
        match self.lists.get(name) {
            Some(list) => list,
            None => &[],
        }
    }

    /// Makes room for the name. A list that is added is empty.
    pub(crate) fn reach(&mut self, name: usize) -> Result<(), Memory>
        ensures same { OnOk result (names_of self.new ≡ names_of self.old) }
        ensures long { OnOk result (name < length self.new) }
    {
        while self.lists.len() <= name {
            self.lists.push(Vec::new(self.alloc))?;
        }
        Ok(())
    }

    /// Binds the name, for which there is room, to the list. What was bound to it is forgotten.
    pub(crate) fn bind(&mut self, name: usize, list: Vec<Handle>)
        requires { name < length self.old }
        ensures { names_of self.new ≡ bound name list.items (names_of self.old) }
    {
        self.lists[name] = list;
    }
}
