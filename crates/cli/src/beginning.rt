//! How a run of a program begins.
ghost use Rattle.std.specs.Prelude.{◌≤◌, IfErr, IfNone, IfOk, IfSome, Ok, string_bytes, true};
ghost use Rattle.std.specs.Fn.{FnReturnsAt};
ghost use Rattle.cli.specs.Words.{NamesNone};

use crate::devices::{Sink, open_named};
use crate::ending::{MEMORY, finish, refuse_file, refuse_words};
use crate::input::file_name;
use crate::words::words_after_name;
use std::alloc::AllocError;
use std::env;
use std::env::Env;
use std::rt::Files;

/// Reads the arguments of a program, without its name, and opens the input file if the last of them
/// names one: a surplus argument that is no option. That one is taken off the words. `is_line`
/// tells whether words are a command line.
///
/// # Errors
///
/// The exit status; the error stream says why. It is that of [`refuse_words`] if the arguments can't
/// be read, that of [`refuse_file`] if there is no such file, if it is a folder, or if it can't be
/// opened, and 3 if memory ran out.
pub fn begin<R, E: Sink, F: Fn(&[String]) -> Result<bool, AllocError>>(
    rt: &R,
    program: &str,
    is_line: F,
    errors: &mut E,
) -> Result<(Vec<String>, Option<R::File>), u8>
where
    R: Env + Files + AllocGlobal,
    requires { F.IsAlwaysCallable is_line }
    ensures file { IfOk result (λ begun. IfSome begun.1 (λ _.
        FnReturnsAt F.Fn is_line begun.0.items (Ok true))) }
    ensures no_file { IfOk result (λ begun. IfNone begun.1
        (NamesNone (FnReturnsAt F.Fn is_line) string_bytes begun.0.items)) }
    ensures status { IfErr result (λ status. (2 ≤ status) × (status ≤ 4)) }
{
    let words = match env::args(rt) {
        Ok(words) => words,
        Err(error) => return Err(refuse_words(&error, errors)),
    };
    let mut words = match words_after_name(rt.alloc(), words) {
        Ok(words) => words,
        Err(AllocError) => return Err(finish(errors, MEMORY)),
    };
    let is_named = match file_name(&words, is_line) {
        Ok(name) => name.is_some(),
        Err(AllocError) => return Err(finish(errors, MEMORY)),
    };
    if !is_named {
        return Ok((words, None));
    }
    let Some(name) = words.pop() else {
        unreachable!()
    };
    match open_named(rt, &name) {
        Ok(file) => Ok((words, Some(file))),
        Err(fault) => Err(refuse_file(program, &name, fault, errors)),
    }
}
