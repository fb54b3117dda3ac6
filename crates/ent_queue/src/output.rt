ghost use Rattle.std.specs.Prelude.{◌≡◌, List, [], ◌++◌};
ghost use Rattle.ent_alloc.specs.Serving.{Request};

use crate::queue::CommandQueue;
use ent_log::Log;
use std::alloc::Global;

/// What a system fills: a [`CommandQueue`] of a world, or a [`Log`] of the caller's own commands.
pub trait Output: Drop {
    /// The one without entries.
    ghost empty: { Self };

    /// What was added, for these requests.
    ghost adds: { Self → List Request → Self → Type 0 };

    /// One without entries. It doesn't allocate.
    fn unfilled(alloc: Global) -> Self
        ensures { result ≡ empty };

    // What is added one after the other.
    ghost nothing: { (a : Self) → adds a [] a };

    ghost more: { (a b c : Self) (first second : List Request) → adds a first b → adds b second c
        → adds a (first ++ second) c };
}

impl Output for CommandQueue {
    ghost use Rattle.std.specs.Prelude.{[]};
    ghost use Rattle.std.proofs.Common.{rules, append-nil};
    ghost use Rattle.std.proofs.lemmas.Grind.{common_steps, flat_map-append};
    ghost use Rattle.ent_queue.specs.Issuing.{Issues};

    ghost empty = { [] };

    ghost adds = { λ a requests b. Issues a requests b };

    ghost nothing = { Prim.search (rules, append-nil) };

    ghost more = { Prim.search (rules, common_steps, flat_map-append) };

    fn unfilled(alloc: Global) -> Self {
        CommandQueue::new(alloc)
    }
}

impl<C: Drop> Output for Log<C> {
    ghost use Rattle.std.specs.Prelude.{[]};
    ghost use Rattle.std.proofs.Common.{rules, append-nil};
    ghost use Rattle.std.proofs.lemmas.Grind.{common_steps, flat_map-append};
    ghost use Rattle.ent_queue.specs.Logging.{Logs};

    ghost empty = { [] };

    ghost adds = { λ a requests b. Logs a requests b };

    ghost nothing = { Prim.search (rules, append-nil) };

    ghost more = { Prim.search (rules, common_steps, flat_map-append) };

    fn unfilled(alloc: Global) -> Self {
        Log::new(alloc)
    }
}
