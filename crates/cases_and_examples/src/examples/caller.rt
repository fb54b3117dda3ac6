ghost use Rattle.std.specs.Prelude.{◌≡◌, ◌+◌, ◌≤◌, ◌++◌, length, vec_len, OnOk};
ghost use Rattle.std.specs.Vec.{vec_capacity};
ghost use Rattle.ent_shared.specs.Order.{handles_given};

use anyhow::Result;
use ent_alloc::Reserved;
use ent_handle::Handle;
use ent_shared::{Reserver, Shared};

/// What a thread takes along: its reserver, and room for the handles that it is given.
#[derive(Drop)]
pub struct Caller {
    pub reserver: Reserver,
    pub given: Vec<Handle>,
    // It keeps every handle that its reserver was given.
    ghost complete: { given.items ≡ handles_given reserver.own },
}

impl Caller {
    ghost use Rattle.ent_shared.specs.Phase.{IsOf};

    /// Reserves `n` handles, one by one.
    pub fn one_by_one(&mut self, shared: &Shared, n: u32) -> Result<()>
        requires { IsOf shared.now self.old.reserver }
        ensures stays { IsOf shared.now self.new.reserver }
        ensures ok { OnOk result (vec_len self.new.given ≡ vec_len self.old.given + n) }
    {
        for _served in 0..n {
            // Room first, so that no handle that was reserved is lost.
            self.given.reserve(1)?;
            self.given
                .push_reserved(shared.reserve(&mut self.reserver)?);
        }
        Ok(())
    }

    /// Reserves `n` handles at once.
    pub fn at_once(&mut self, shared: &Shared, n: u32) -> Result<()>
        requires { IsOf shared.now self.old.reserver }
        ensures stays { IsOf shared.now self.new.reserver }
        ensures ok { OnOk result (vec_len self.new.given ≡ vec_len self.old.given + n) }
    {
        self.given.reserve(n as usize)?;
        append(&mut self.given, shared.reserve_many(&mut self.reserver, n)?);
        Ok(())
    }

    /// From now on this caller reserves after all that the other one has reserved.
    pub fn meet(&mut self, shared: &Shared, other: &mut Caller)
        requires first { IsOf shared.now self.old.reserver }
        requires second { IsOf shared.now other.old.reserver }
        ensures first { IsOf shared.now self.new.reserver }
        ensures second { IsOf shared.now other.new.reserver }
        ensures given { (self.new.given ≡ self.old.given) × (other.new.given ≡ other.old.given) }
    {
        shared.meet(&mut self.reserver, &mut other.reserver);
    }
}

/// Appends a reply, for which there is room.
fn append(given: &mut Vec<Handle>, reply: Reserved)
    requires { vec_len given.old + length reply ≤ vec_capacity given.old }
    ensures items { given.new.items ≡ given.old.items ++ reply.entry }
    ensures len { vec_len given.new ≡ vec_len given.old + length reply.entry }
{
    for handle in reply {
        given.push_reserved(handle);
    }
}
