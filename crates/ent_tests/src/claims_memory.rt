//! Claims that run out of memory when they are opened.
ghost use Rattle.std.specs.Prelude.{All};
ghost use Rattle.ent_runner.specs.Crew.Claims.{IsClaimerOf};

use ent_handle::Memory;
use ent_runner::{Claimer, Claims};
use std::process::Abort;

/// An opening that runs out of memory can be tried again.
#[test]
fn out_of_memory_of_an_opening(rt: HostRuntime) {
    let alloc = rt.alloc();
    let opened = match Claims::open(alloc, 2, 2) {
        Ok(opened) => Ok(opened),
        Err(Memory) => Claims::open(alloc, 2, 2),
    };
    let (claims, mut claimers) = opened.expect(&rt, "memory at the second try");
    let mut first = last(&rt, &claims, &mut claimers);
    assert!(rt; claimers.len() == 1 && claims.next(&mut first) == Some(0));
}

/// The last claimer of a list.
fn last(rt: &impl Abort, claims: &Claims, claimers: &mut Vec<Claimer>) -> Claimer
    requires { All (IsClaimerOf claims.now) claimers.old.items }
    ensures { IsClaimerOf claims.now result }
{
    let _claims = claims;
    claimers.pop().expect(rt, "a claimer for each")
}
