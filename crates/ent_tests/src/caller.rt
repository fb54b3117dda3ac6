ghost use Rattle.std.specs.Prelude.{◌≡◌};
ghost use Rattle.ent_shared.specs.Phase.{IsOf};

use crate::meeting::Meeting;
use ent_handle::Handle;
use ent_shared::{Refused, Reserver, Shared};
use std::alloc::Global;
use std::process::Abort;

/// So many times so many handles: one by `reserve`, several by `reserve_many`.
#[derive(Clone, Copy)]
pub struct Requests {
    pub times: u32,
    pub n: u32,
}

/// How many requests found nothing left, two handles, or something else.
#[derive(Clone, Copy)]
pub struct Refusals {
    pub none: u32,
    pub short: u32,
    pub other: u32,
}

impl Refusals {
    pub fn new() -> Self {
        Refusals {
            none: 0,
            short: 0,
            other: 0,
        }
    }

    fn count(&mut self, why: Refused, n: u32) {
        match why {
            Refused::Space { wanted, left: 0 } if wanted == n => {
                self.none = self.none.wrapping_add(1);
            }
            Refused::Space { wanted, left: 2 } if wanted == n => {
                self.short = self.short.wrapping_add(1);
            }
            _ => self.other = self.other.wrapping_add(1),
        }
    }

    /// So many found nothing left, so many two handles, and none something else.
    pub fn assert_are(&self, rt: &impl Abort, none: u32, short: u32) {
        assert!(rt; self.none == none);
        assert!(rt; self.short == short);
        assert!(rt; self.other == 0);
    }

    pub fn add(&mut self, more: Refusals) {
        self.none = self.none.wrapping_add(more.none);
        self.short = self.short.wrapping_add(more.short);
        self.other = self.other.wrapping_add(more.other);
    }
}

/// A reserver, what its thread requests, what it was given, and whether it saw all other threads.
#[derive(Drop)]
pub struct Caller {
    pub reserver: Reserver,
    pub requests: Requests,
    pub given: Vec<Handle>,
    pub refusals: Refusals,
    pub saw_all: bool,
}

impl Caller {
    pub fn new(alloc: Global, reserver: Reserver, requests: Requests) -> Self
        ensures { result.reserver ≡ reserver }
    {
        Caller {
            reserver,
            requests,
            given: Vec::new(alloc),
            refusals: Refusals::new(),
            saw_all: false,
        }
    }

    /// Makes its requests, once all threads have entered.
    pub fn beside(mut self, shared: &Shared, meeting: &Meeting) -> Self
        requires { IsOf shared.now self.reserver }
        ensures { IsOf shared.now result.reserver }
    {
        self.saw_all = meeting.enter();
        self.ask(shared);
        self
    }

    /// Makes its requests.
    fn ask(&mut self, shared: &Shared)
        requires { IsOf shared.now self.old.reserver }
        ensures { IsOf shared.now self.new.reserver }
    {
        for _ in 0..self.requests.times {
            if self.requests.n == 1 {
                self.one(shared);
            } else {
                self.many(shared, self.requests.n);
            }
        }
    }

    fn one(&mut self, shared: &Shared)
        requires { IsOf shared.now self.old.reserver }
        ensures { IsOf shared.now self.new.reserver }
    {
        match shared.reserve(&mut self.reserver) {
            Ok(handle) => self.keep(handle),
            Err(why) => self.refusals.count(why, 1),
        }
    }

    /// Reserves `n` handles at once.
    pub fn many(&mut self, shared: &Shared, n: u32)
        requires { IsOf shared.now self.old.reserver }
        ensures { IsOf shared.now self.new.reserver }
    {
        match shared.reserve_many(&mut self.reserver, n) {
            Ok(handles) => {
                for handle in handles {
                    self.keep(handle);
                }
            }
            Err(why) => self.refusals.count(why, n),
        }
    }

    fn keep(&mut self, handle: Handle)
        ensures { self.new.reserver ≡ self.old.reserver }
    {
        let _ = self.given.push(handle);
    }
}
