//! The arguments of a program.
ghost use Rattle.std.specs.Prelude.{◌≡◌, IfOk};
ghost use Rattle.std.specs.Vec.Iter.{into_iter_items};
ghost use Rattle.cli.specs.Words.{after_name};

use std::alloc::{AllocError, Global};
use std::env::Args;

/// The program's arguments, without its name.
///
/// # Errors
///
/// Memory ran out.
pub fn words_after_name(alloc: Global, words: Args) -> Result<Vec<String>, AllocError>
    ensures { IfOk result (λ others. others.items ≡ after_name (into_iter_items words)) }
{
    let mut words = words;
    let _name = words.next();
    words.collect(alloc)
}
